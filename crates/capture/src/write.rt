//! Captures written, a record at a time. What does not fit is refused whole.
ghost use Rattle.std.specs.Prelude.{◌≡◌, ◌++◌};
ghost use Rattle.basis.specs.Bytes.{word_bytes};
ghost use Rattle.capture_rules.specs.Capture.{mark_of, record_bytes};
ghost use Rattle.capture_rules.specs.Writing.{fits, write_at};
ghost use Rattle.capture.specs.Answers.{wrote};

use crate::{FROM_DEVICE, HEADER_LENGTH, MESSAGE_MOST, Record, TO_DEVICE};
use basis::{Refusal, put};

fn mark_of(toward: bool) -> u16
    ensures { result ≡ mark_of toward }
{
    if toward { TO_DEVICE } else { FROM_DEVICE }
}

// A record with a message of so many bytes fits into a buffer of this size from a place on.
#[tactic(auto, unfolding(capture_rules::specs::Writing::fits))]
fn fits(size: usize, at: usize, count: usize) -> bool
    ensures { result ≡ fits size at count }
{
    count <= MESSAGE_MOST && at <= size && HEADER_LENGTH + count <= size - at
}

// Mark and length of a record.
fn header(toward: bool, count: u16) -> [u8; 4]
    ensures { result ≡ word_bytes (mark_of toward) ++ word_bytes count }
{
    let [first, second] = mark_of(toward).to_be_bytes();
    let [high, low] = count.to_be_bytes();
    [first, second, high, low]
}

impl<'a> Record<'a> {
    /// The bytes of the record before its message: mark and length.
    #[tactic(auto, unfolding(capture_rules::specs::Capture::record_bytes))]
    pub fn header(&self) -> [u8; 4]
        ensures { result ++ self.now.message.now
            ≡ record_bytes self.now.to_device self.now.message.now }
    {
        header(self.to_device, self.message.len() as u16)
    }
}

/// Writes a record into the buffer from a place on, toward the device or from it, and answers the
/// place behind it. `DoesNotFit` where the message is over MESSAGE_MOST bytes or the record has no
/// room: then nothing is written.
#[tactic(auto, unfolding(capture_rules::specs::Writing::write_at, capture_rules::specs::Writing::fits, basis::specs::Choice::pick), using(crate::proofs::Steps::record_laid))]
pub fn write_record(
    toward: bool,
    message: &[u8],
    buffer: &mut [u8],
    at: usize,
) -> Result<usize, Refusal>
    ensures { wrote result at buffer.new ≡ write_at toward message.now buffer.old at }
{
    let count = message.len();
    if !fits(buffer.len(), at, count) {
        return Err(Refusal::DoesNotFit);
    }
    put(buffer, at, &header(toward, count as u16));
    put(buffer, at + HEADER_LENGTH, message);
    Ok(at + HEADER_LENGTH + count)
}
