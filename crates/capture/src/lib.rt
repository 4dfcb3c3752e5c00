//! Captures: records one after the other, each a two-byte mark, a length WORD and that many bytes;
//! read here, mended in `mend` and written in `write`. A `CaptureReader` is an iterator of the
//! records, and `CaptureReader::mending` one that passes over what is no record. `walk_from` and
//! `mend_from` serve callers that hold the place as a number.
#![tactic(auto)]

mod damage;
mod mend;
mod record;
mod write;

ghost use Rattle.std.specs.Prelude.{◌≡◌, ◌+◌, ◌^◌, ◌<◌, ◌≤◌, length};
ghost use Rattle.std.specs.Iterator.{YieldsFirstBy, item_count};
ghost use Rattle.capture_rules.specs.Capture.{wrong_mark, item_at, walk_at, part_of};
ghost use Rattle.capture.specs.Answers.{item_of, told};

pub use damage::Damage;
pub use mend::{Mended, Mending, Stretch, mend_from};
pub use record::Record;
pub use write::write_record;

// The mark of a record toward the device, its two bytes as a WORD.
const TO_DEVICE: u16 = 0x4C3E;

// The mark of a record from the device.
const FROM_DEVICE: u16 = 0x4C3C;

// The bytes of a record before its message: mark and length.
const HEADER_LENGTH: usize = 4;

/// The most bytes of a record's message: their number is a WORD.
pub const MESSAGE_MOST: usize = 65535;

/// The most bytes of a capture that the programs take.
pub const CAPTURE_MOST: usize = 32768;

/// Where a record's message stands in a capture: `length` bytes from `start` on.
#[derive(Clone, Copy, Debug, PartialEq, Eq)]
pub struct Span {
    /// Toward the device, or from it.
    pub to_device: bool,
    pub start: usize,
    pub length: u16,
}

/// The place at which a reader stops, and why there is no record.
#[derive(Clone, Copy, Debug, PartialEq, Eq)]
pub struct Fault {
    pub at: usize,
    pub damage: Damage,
}

/// A step of a reader that holds its place as a number: what stands there, None at the end; and the
/// place after that.
#[derive(Clone, Copy)]
pub struct Walked {
    pub step: Result<Option<Span>, Damage>,
    pub at: usize,
}

impl Span {
    // The place behind the record.
    fn end(self) -> usize
        requires { self.start + self.length < 2 ^ 64 }
        ensures { result ≡ self.start + self.length }
    {
        self.start + usize::from(self.length)
    }

    // The record's message in the capture.
    fn message<'a>(self, capture: &'a [u8]) -> &'a [u8]
        ensures part { result.now ≡ part_of capture.now self.start self.length }
        ensures short { length result.now ≤ 65535 }
    {
        basis::part_of(capture, self.start, usize::from(self.length))
    }
}

// Neither of the two marks.
#[tactic(auto, unfolding(capture_rules::specs::Capture::wrong_mark))]
fn wrong_mark(mark: u16) -> bool
    ensures { result ≡ wrong_mark mark }
{
    mark != TO_DEVICE && mark != FROM_DEVICE
}

// What stands at a place. A place past the end counts as the end.
#[tactic(auto, unfolding(capture_rules::specs::Capture::item_at, basis::specs::Choice::pick))]
fn span_at(capture: &[u8], at: usize) -> Result<Option<Span>, Damage>
    ensures { item_of result ≡ item_at capture.now at }
{
    if capture.len() <= at {
        return Ok(None);
    }
    let left = capture.len() - at;
    if left == 1 {
        return Err(Damage::CutShort);
    }
    let mark = basis::word_at(capture, at);
    if wrong_mark(mark) {
        return Err(Damage::BadMark);
    }
    let length = basis::word_at(capture, at + 2);
    if left < HEADER_LENGTH + usize::from(length) {
        Err(Damage::CutShort)
    } else {
        Ok(Some(Span {
            to_device: mark == TO_DEVICE,
            start: at + HEADER_LENGTH,
            length,
        }))
    }
}

/// A reader's step at a place of the capture: what stands there, and the next place: behind a
/// record; after the end and where there is no record the place stands.
#[tactic(auto, using(crate::proofs::Steps::span_within))]
pub fn walk_from(capture: &[u8], at: usize) -> Walked
    ensures { told result ≡ walk_at capture.now at }
{
    let step = span_at(capture, at);
    let at = match step {
        Ok(Some(span)) => span.end(),
        Ok(None) => at,
        Err(_) => at,
    };
    Walked { step, at }
}

/// A borrowed capture and the place of its next record: an iterator of the records. Where there is
/// no record the fault is its last item.
#[derive(Clone, Copy)]
pub struct CaptureReader<'a> {
    pub capture: &'a [u8],
    pub at: usize,
}

impl<'a> CaptureReader<'a> {
    ghost use Rattle.capture.specs.Reader.{reader_at, still};
    ghost use Rattle.capture.specs.Items.{pieces};
    ghost use Rattle.capture.specs.Answers.{mend_told};
    ghost use Rattle.capture_rules.specs.Mending.{mend_at};

    /// A reader at the start.
    pub fn new(capture: &'a [u8]) -> CaptureReader<'a>
        ensures { result ≡ reader_at capture.entry 0 }
    {
        CaptureReader { capture, at: 0 }
    }

    /// The same capture, read from another place on.
    pub fn moved(self, at: usize) -> CaptureReader<'a>
        ensures { result ≡ reader_at self.entry.capture at }
    {
        CaptureReader {
            capture: self.capture,
            at,
        }
    }

    /// What stands at its place, and its place after that.
    pub fn walked(self) -> Walked
        ensures { told result ≡ walk_at self.entry.capture.now self.entry.at }
    {
        walk_from(self.capture, self.at)
    }

    /// What mending finds at its place, and its place after that.
    pub fn mended(self) -> Mended
        ensures { mend_told result ≡ mend_at self.entry.capture.now self.entry.at }
    {
        mend_from(self.capture, self.at)
    }

    /// The same capture from the same place on, mended.
    pub fn mending(self) -> Mending<'a>
        ensures { still result ≡ pieces self.entry.capture.now self.entry.at }
    {
        Mending { reader: self }
    }
}

impl<'a> Iterator for CaptureReader<'a> {
    type Item = Result<Record<'a>, Fault>;

    ghost use Rattle.capture.specs.Reader.{left, item};

    ghost next_gives = { YieldsFirstBy item left };

    ghost remaining = { item_count left };

    #[tactic(auto, using(crate::proofs::Steps::span_within, crate::proofs::Items::items_found, crate::proofs::Items::items_end, crate::proofs::Items::items_fault))]
    fn next(&mut self) -> Option<Result<Record<'a>, Fault>> {
        let at = self.at;
        match span_at(self.capture, at) {
            Ok(Some(span)) => {
                self.at = span.end();
                Some(Ok(Record {
                    at,
                    to_device: span.to_device,
                    message: span.message(self.capture),
                }))
            }
            Ok(None) => None,
            Err(damage) => {
                self.at = self.capture.len();
                Some(Err(Fault { at, damage }))
            }
        }
    }
}
