//! What decode prints for a capture: of each record, with its place, its direction, and its message
//! by name and fields, or the number and the reason for which it is none; then a line where the
//! reader stops.
#![tactic(auto)]

mod line;

ghost use Rattle.std.specs.Prelude.{◌≡◌};
ghost use Rattle.capture.specs.Items.{items};
ghost use Rattle.text.specs.Answers.{written};
ghost use Rattle.text.specs.Writing.{Puts};
ghost use Rattle.decoding.specs.Items.{items_text};
ghost use Rattle.decoding_rules.specs.Decode.{decode_text, decode_of};

use basis::Refusal;
use capture::{CAPTURE_MOST, CaptureReader};
use text::{NoRoom, Writer};

// No line is longer, its newline included.
const LINE_MOST: usize = 95;

/// The least buffer for the text: a line for each record, which has four bytes or more, and one for
/// a fault.
pub const OUT_ROOM: usize = LINE_MOST * (CAPTURE_MOST / 4 + 1);

// All items of the capture, one after the other.
#[tactic(auto, using(text::proofs::Runs::begins))]
fn put_items(capture: &[u8], out: &mut Writer<'_>) -> Result<(), NoRoom>
    ensures { Puts (items_text (items capture.now 0)) result out.old out.new }
{
    for item in CaptureReader::new(capture) {
        match item {
            Ok(kept) => line::put_record(out, kept)?,
            Err(fault) => line::put_fault(out, fault)?,
        }
    }
    Ok(())
}

/// Writes what decode prints for a capture; of one that is longer than CAPTURE_MOST only the number
/// 21.
#[tactic(auto, unfolding(decoding_rules::specs::Decode::decode_text, basis::specs::Choice::pick), using(crate::proofs::Runs::lines_are))]
pub fn put_capture(capture: &[u8], out: &mut Writer<'_>) -> Result<(), NoRoom>
    ensures { Puts (decode_text capture.now) result out.old out.new }
{
    if CAPTURE_MOST < capture.len() {
        return out.put_number(usize::from(Refusal::CutShort.number()), b'\n');
    }
    put_items(capture, out)
}

/// Writes what decode prints for a capture to the front of out, and answers how long that is. Where
/// out has fewer than OUT_ROOM bytes nothing is written, and the answer is 0.
#[tactic(auto, unfolding(decoding_rules::specs::Decode::decode_of, text::specs::Text::fronted, basis::specs::Choice::pick, basis::specs::Bytes::over), using(crate::proofs::Bounds::decode_most))]
pub fn decode(capture: &[u8], out: &mut [u8]) -> usize
    ensures { written result out.new ≡ decode_of capture.now out.old }
{
    if out.len() < OUT_ROOM {
        return 0;
    }
    let mut writer = Writer::begin(out, 0);
    match put_capture(capture, &mut writer) {
        Ok(()) => writer.place(),
        Err(_) => 0,
    }
}
