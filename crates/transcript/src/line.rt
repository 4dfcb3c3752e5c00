//! A line of replay.
ghost use Rattle.text.specs.Writing.{Puts};
ghost use Rattle.transcript.specs.Line.{reply_text, line_text};

use text::{NoRoom, Writer};

// A reply in hex, or "-" where there is none.
#[tactic(auto, unfolding(crate::specs::Line::reply_text))]
fn put_reply(out: &mut Writer<'_>, reply: &[u8]) -> Result<(), NoRoom>
    ensures { Puts (reply_text reply.now) result out.old out.new }
{
    match reply {
        [] => out.put(b"-"),
        _ => out.put_hex(reply),
    }
}

// A line: number, outcome, phase, reply hex or "-".
#[tactic(auto, unfolding(crate::specs::Line::line_text), using(text::proofs::Pages::pieces))]
pub(crate) fn put_line(
    out: &mut Writer<'_>,
    number: usize,
    outcome: u8,
    phase: u8,
    reply: &[u8],
) -> Result<(), NoRoom>
    ensures { Puts (line_text number outcome phase reply.now) result out.old out.new }
{
    out.put_number(number, b' ')?;
    out.put_number(outcome as usize, b' ')?;
    out.put_number(phase as usize, b' ')?;
    put_reply(out, reply)?;
    out.put(b"\n")
}
