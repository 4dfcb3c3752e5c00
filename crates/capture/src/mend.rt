//! Captures mended: where the reader finds no record, it goes on at the next place that has a whole
//! record with a message of PCP.
ghost use Rattle.std.specs.Prelude.{◌≡◌, ◌-◌, length};
ghost use Rattle.std.specs.Iterator.{YieldsFirstBy, item_count};
ghost use Rattle.capture_rules.specs.Mending.{sound, first_sound, mend_at};
ghost use Rattle.capture.specs.Answers.{mend_told};

use crate::{CaptureReader, Record, Span, span_at};

/// Bytes that are passed over: `length` of them, from `start` on.
#[derive(Clone, Copy, Debug, PartialEq, Eq)]
pub struct Stretch {
    pub start: usize,
    pub length: usize,
}

/// A mending reader's step: a record or a stretch, None at the end; and its place after that.
#[derive(Clone, Copy)]
pub struct Mended {
    pub part: Option<Result<Span, Stretch>>,
    pub at: usize,
}

// At the place there is a whole record whose message passes the tests 1 to 7, both facts yes.
#[tactic(auto, unfolding(capture_rules::specs::Mending::sound_item), using(crate::proofs::Steps::span_within, basis::proofs::Refused::handled_alone))]
fn is_sound(capture: &[u8], at: usize) -> bool
    ensures { result ≡ sound capture.now at }
{
    match span_at(capture, at) {
        Ok(Some(span)) => message::recognise(true, true, span.message(capture)).is_ok(),
        Ok(None) => false,
        Err(_) => false,
    }
}

// The first such place from a place on, or the capture's end.
#[tactic(auto, using(capture_rules::proofs::Mends::sound_here, capture_rules::proofs::Mends::sound_later, capture_rules::proofs::Mends::sound_none))]
fn first_sound(capture: &[u8], from: usize) -> usize
    ensures { result ≡ first_sound capture.now (length capture.now - from) from }
{
    for at in from..capture.len() {
        if is_sound(capture, at) {
            return at;
        }
    }
    capture.len().max(from)
}

/// A mending reader's step at a place of the capture.
#[tactic(auto, unfolding(capture_rules::specs::Mending::mended), using(crate::proofs::Steps::span_within, crate::proofs::Steps::fault_within, capture_rules::proofs::Mends::first_above))]
pub fn mend_from(capture: &[u8], at: usize) -> Mended
    ensures { mend_told result ≡ mend_at capture.now at }
{
    match span_at(capture, at) {
        Ok(Some(span)) => Mended {
            part: Some(Ok(span)),
            at: span.end(),
        },
        Ok(None) => Mended { part: None, at },
        Err(_) => {
            let next = first_sound(capture, at + 1);
            let stretch = Stretch {
                start: at,
                length: next - at,
            };
            Mended {
                part: Some(Err(stretch)),
                at: next,
            }
        }
    }
}

/// A reader that passes over what is no record, and goes on behind it: an iterator of the records,
/// and of the stretches between them.
#[derive(Clone, Copy)]
pub struct Mending<'a> {
    pub(crate) reader: CaptureReader<'a>,
}

impl<'a> Iterator for Mending<'a> {
    type Item = Result<Record<'a>, Stretch>;

    ghost use Rattle.capture.specs.Reader.{still, piece};

    ghost next_gives = { YieldsFirstBy piece still };

    ghost remaining = { item_count still };

    #[tactic(auto, using(crate::proofs::Items::pieces_found, crate::proofs::Items::pieces_end, crate::proofs::Items::pieces_passed))]
    fn next(&mut self) -> Option<Result<Record<'a>, Stretch>> {
        let CaptureReader { capture, at } = self.reader;
        let mended = mend_from(capture, at);
        self.reader.at = mended.at;
        match mended.part {
            Some(Ok(span)) => Some(Ok(Record {
                at,
                to_device: span.to_device,
                message: span.message(capture),
            })),
            Some(Err(stretch)) => Some(Err(stretch)),
            None => None,
        }
    }
}
