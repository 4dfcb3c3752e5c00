// MD5 for hosts: the digest of one slice, and that of pieces. `bytes` is the buffer in which the host
// keeps the state between two pieces; any bytes are some state. A digest's buffer has 16 bytes.
ghost use Rattle.std.specs.Prelude.{◌≡◌};
ghost use Rattle.exports.specs.Digests.{md5_digest_of, md5_new_of, md5_feed_of, md5_finish_of};

use basis::{Refusal, answered};

const DIGEST_LENGTH: usize = 16;

// The digest of some bytes.
#[tactic(auto, unfolding(exports::specs::Digests::md5_digest_of, exports::specs::Exports::fact, basis::specs::Choice::pick))]
#[unsafe(no_mangle)]
pub extern "C" fn pcp_raw_md5(bytes: &[u8], digest: &mut [u8]) -> u8
    ensures { record { answer = result; bytes = digest.new } ≡ md5_digest_of bytes.now digest.old }
{
    if digest.len() != DIGEST_LENGTH {
        return Refusal::ShortRecord.number();
    }
    let sum = md5_digest::digest(bytes);
    digest.copy_from_slice(&sum);
    0
}

// A state before any byte.
#[tactic(auto, unfolding(exports::specs::Digests::md5_new_of, exports::specs::Exports::fact, basis::specs::Choice::pick))]
#[unsafe(no_mangle)]
pub extern "C" fn pcp_raw_md5_new(bytes: &mut [u8]) -> u8
    ensures { record { answer = result; bytes = bytes.new } ≡ md5_new_of bytes.old }
{
    answered(md5_layout::keep_state(bytes, md5_digest::new()))
}

// A piece more. A short buffer is found when the state is to be kept: the piece was fed in vain.
#[tactic(auto, unfolding(exports::specs::Digests::md5_feed_of, exports::specs::Exports::fact, basis::specs::Choice::pick))]
#[unsafe(no_mangle)]
pub extern "C" fn pcp_raw_md5_feed(bytes: &mut [u8], piece: &[u8]) -> u8
    ensures { record { answer = result; bytes = bytes.new } ≡ md5_feed_of bytes.old piece.now }
{
    let state = md5_layout::state_at(bytes);
    let fed = md5_digest::feed(state, piece);
    answered(md5_layout::keep_state(bytes, fed))
}

// The digest of the pieces so far. The state stays, so that more may follow.
#[tactic(auto, unfolding(exports::specs::Digests::md5_finish_of, exports::specs::Exports::fact, basis::specs::Choice::pick))]
#[unsafe(no_mangle)]
pub extern "C" fn pcp_raw_md5_finish(bytes: &[u8], digest: &mut [u8]) -> u8
    ensures { record { answer = result; bytes = digest.new } ≡ md5_finish_of bytes.now digest.old }
{
    if bytes.len() < md5_layout::STATE_LENGTH {
        return Refusal::ShortRecord.number();
    }
    if digest.len() != DIGEST_LENGTH {
        return Refusal::ShortRecord.number();
    }
    let sum = md5_digest::finish(md5_layout::state_at(bytes));
    digest.copy_from_slice(&sum);
    0
}
