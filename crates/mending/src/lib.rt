//! A whole capture mended: its records written one after the other, and a line for each stretch
//! that was passed over.
#![tactic(auto)]

pub mod laws;

ghost use Rattle.std.specs.Prelude.{◌≡◌, ◌≤◌, length};
ghost use Rattle.capture_rules.specs.Capture.{record_bytes};
ghost use Rattle.text.specs.Writing.{Puts};
ghost use Rattle.mending.specs.Account.{stretch_text, mend_of};
ghost use Rattle.mending.specs.Answers.{accounted};
ghost use Rattle.mending.specs.Inner.{Mends};

use basis::Refusal;
use capture::{CAPTURE_MOST, CaptureReader, Record, Stretch};
use text::{NoRoom, Writer, put_number};

// The longest line, its newline included.
const STRETCH_MOST: usize = 12;

/// A buffer that is long enough for the lines: a stretch has a byte or more.
pub const TOLD_ROOM: usize = STRETCH_MOST * CAPTURE_MOST;

/// What mend answers: how many bytes of each buffer it wrote.
// Two lengths, and no refusal: what `mend_of` says is written of any capture.
#[derive(Clone, Copy, Debug, PartialEq, Eq)]
pub struct Answer {
    pub length: usize,
    pub told: usize,
}

// A record as it stands in a capture.
#[tactic(auto, using(text::proofs::Pages::pieces))]
fn put_record(out: &mut Writer<'_>, kept: Record<'_>) -> Result<(), NoRoom>
    ensures { Puts (record_bytes kept.entry.to_device kept.entry.message.now)
        result out.old out.new }
{
    out.put(&kept.header())?;
    out.put(kept.message)
}

// A line: where a stretch starts, and how long it is.
#[tactic(auto, unfolding(crate::specs::Account::stretch_text), using(text::proofs::Pages::pieces))]
fn tell(told: &mut Writer<'_>, stretch: Stretch) -> Result<(), NoRoom>
    ensures { Puts (stretch_text stretch.start stretch.length) result told.old told.new }
{
    told.put_number(stretch.start, b' ')?;
    told.put_number(stretch.length, b'\n')
}

// All pieces from the capture's start on.
fn run(capture: &[u8], out: &mut Writer<'_>, told: &mut Writer<'_>) -> Result<(), NoRoom>
    ensures { Mends capture.now result out.old told.old out.new told.new }
{
    for piece in CaptureReader::new(capture).mending() {
        match piece {
            Ok(kept) => put_record(out, kept)?,
            Err(stretch) => tell(told, stretch)?,
        }
    }
    Ok(())
}

/// Writes the mended capture to the front of out, and the lines to the front of told. Of a capture
/// over CAPTURE_MOST bytes only 21 is told, in a line. Where out is shorter than the capture or
/// told than TOLD_ROOM, nothing is written.
#[tactic(auto, unfolding(crate::specs::Account::mend_of, crate::specs::Account::no_room, basis::specs::Choice::pick, basis::specs::Bytes::over), using(crate::proofs::Steps::mended_most, crate::proofs::Steps::told_most))]
pub fn mend(capture: &[u8], out: &mut [u8], told: &mut [u8]) -> Answer
    ensures { accounted result out.new told.new ≡ mend_of capture.now out.old told.old }
{
    if CAPTURE_MOST < capture.len() {
        return Answer {
            length: 0,
            told: put_number(told, 0, usize::from(Refusal::CutShort.number()), b'\n'),
        };
    }
    if out.len() < capture.len() || told.len() < TOLD_ROOM {
        return Answer { length: 0, told: 0 };
    }
    let mut records = Writer::begin(out, 0);
    let mut lines = Writer::begin(told, 0);
    match run(capture, &mut records, &mut lines) {
        Ok(()) => Answer {
            length: records.place(),
            told: lines.place(),
        },
        Err(_) => Answer { length: 0, told: 0 },
    }
}
