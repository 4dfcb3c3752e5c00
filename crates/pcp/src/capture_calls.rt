//! Captures for hosts: what stands at a place, the next place, and a record written. An item of a
//! capture is the bytes between its place and the next one.
ghost use Rattle.std.specs.Prelude.{◌≡◌};
ghost use Rattle.capture_rules.specs.Capture.{item_at, walk_at};
ghost use Rattle.capture_rules.specs.Mending.{mend_at};
ghost use Rattle.capture.specs.Answers.{item_of};
ghost use Rattle.exports.specs.Captures.{kind_of, capture_write_of};

use capture::{Damage, Span};

// Kinds of items, as callers in C are told them; 20 and 21 are others.
const END: u8 = 0;

const TO_DEVICE: u8 = 1;

const FROM_DEVICE: u8 = 2;

fn kind_of(step: Result<Option<Span>, Damage>) -> u8
    ensures { result ≡ kind_of (item_of step) }
{
    match step {
        Ok(Some(span)) => {
            if span.to_device {
                TO_DEVICE
            } else {
                FROM_DEVICE
            }
        }
        Ok(None) => END,
        Err(damage) => damage.number(),
    }
}

// What stands at a place: the end, a record toward the device or from it, 20 or 21.
#[unsafe(no_mangle)]
pub extern "C" fn pcp_raw_capture_kind(capture: &[u8], at: usize) -> u8
    ensures { result ≡ kind_of (item_at capture.now at) }
{
    kind_of(capture::walk_from(capture, at).step)
}

// The next place: behind a record; after the end, 20 and 21 the place stands.
#[unsafe(no_mangle)]
pub extern "C" fn pcp_raw_capture_next(capture: &[u8], at: usize) -> usize
    ensures { result ≡ (walk_at capture.now at).at }
{
    capture::walk_from(capture, at).at
}

// The next place where the capture is mended: behind a record, and behind the bytes that are passed
// over where there is none.
#[unsafe(no_mangle)]
pub extern "C" fn pcp_raw_capture_mended(capture: &[u8], at: usize) -> usize
    ensures { result ≡ (mend_at capture.now at).at }
{
    capture::mend_from(capture, at).at
}

// A record written into a capture from a place on: 0, or 22 with nothing written. Toward the device
// unless the byte is 0.
#[tactic(auto, unfolding(exports::specs::Captures::capture_write_of))]
#[unsafe(no_mangle)]
pub extern "C" fn pcp_raw_capture_write(
    toward: u8,
    message: &[u8],
    buffer: &mut [u8],
    at: usize,
) -> u8
    ensures { record { answer = result; bytes = buffer.new }
        ≡ capture_write_of toward message.now buffer.old at }
{
    match capture::write_record(toward != 0, message, buffer, at) {
        Ok(_) => 0,
        Err(refusal) => refusal.number(),
    }
}
