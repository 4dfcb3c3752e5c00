//! The state of MD5 between two pieces as bytes in a buffer that a host lends (include/pcp_md5.h has
//! the layout). Any bytes are some state.
#![tactic(auto)]

pub mod laws;

ghost use Rattle.std.specs.Prelude.{◌≡◌};
ghost use Rattle.basis.specs.Refusals.{answered};
ghost use Rattle.md5_layout.specs.Layout.{state_at, state_kept};

use basis::{Refusal, require};
use layouts::{Layout, keep};
use md5_rules::{Md5, Words};

/// The bytes of a state.
// A number, since the header for C has it; `keep` asks that it is the layout's size.
pub const STATE_LENGTH: usize = 88;

// The four words, the number of bytes so far, and the block.
type StateParts = ((u32, (u32, (u32, u32))), (u64, [u8; 64]));

/// The state that stands at the front of the bytes. A byte that is not there counts as 0.
#[tactic(auto, unfolding(crate::specs::Layout::state_at, crate::specs::Layout::words_at))]
pub fn state_at(bytes: &[u8]) -> Md5
    ensures { result ≡ state_at bytes.now }
{
    let (((a, (b, (c, d))), (count, block)), _) = StateParts::at(bytes, 0);
    let words = Words { a, b, c, d };
    Md5 {
        words,
        count,
        block,
    }
}

/// Keeps the state at the front of its buffer. A buffer without room for it is left alone, and the
/// answer is `ShortRecord`.
#[tactic(auto, unfolding(crate::specs::Layout::state_bytes, crate::specs::Layout::words_bytes, basis::specs::Choice::pick))]
pub fn keep_state(buffer: &mut [u8], state: Md5) -> Result<(), Refusal>
    ensures { record { number = answered result; buffer = buffer.new } ≡ state_kept buffer.old state }
{
    let Md5 {
        words,
        count,
        block,
    } = state;
    let Words { a, b, c, d } = words;
    let parts: StateParts = ((a, (b, (c, d))), (count, block));
    let fits = STATE_LENGTH <= buffer.len();
    keep(buffer, parts, STATE_LENGTH);
    require(fits, Refusal::ShortRecord)
}
