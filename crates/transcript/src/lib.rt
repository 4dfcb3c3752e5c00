//! What replay prints for a capture: a line for each record toward the device, made by a device
//! that is given the records' messages one after the other.
#![tactic(auto)]

mod line;
mod player;

ghost use Rattle.std.specs.Prelude.{◌≡◌, suc, ◌≤◌, length};
ghost use Rattle.basis.specs.Numbers.{cut_short};
ghost use Rattle.capture_rules.specs.Capture.{capture_most};
ghost use Rattle.text.specs.Text.{newline, number_text};
ghost use Rattle.text.specs.Answers.{written};
ghost use Rattle.transcript.specs.Transcript.{start, text_from, replay_text, replay_of};
ghost use Rattle.transcript.specs.Items.{Prints};

use basis::Refusal;
use capture::{CAPTURE_MOST, CaptureReader};
use player::Player;
use text::{NoRoom, Writer};

// The longest line, its newline included.
const LINE_MOST: usize = 71;

/// The least buffer for the text: a line for each record, which has four bytes or more, and one for
/// a fault.
pub const OUT_ROOM: usize = LINE_MOST * (CAPTURE_MOST / 4 + 1);

// All items from the capture's start on.
fn run(capture: &[u8], out: &mut Writer<'_>) -> Result<(), NoRoom>
    requires { length capture.now ≤ capture_most }
    ensures { Prints (text_from capture.now (suc (length capture.now)) 0 0 start)
        result out.old out.new }
{
    let mut player = Player::new();
    for (number, item) in CaptureReader::new(capture).enumerate() {
        player.play(number, item, out)?;
    }
    Ok(())
}

// The line of a capture that is too long.
fn put_too_long(out: &mut Writer<'_>) -> Result<(), NoRoom>
    ensures { Prints (number_text cut_short newline) result out.old out.new }
{
    out.put_number(usize::from(Refusal::CutShort.number()), b'\n')
}

// What replay prints for a capture.
#[tactic(auto, unfolding(crate::specs::Transcript::replay_text, basis::specs::Choice::pick))]
fn put_capture(capture: &[u8], out: &mut Writer<'_>) -> Result<(), NoRoom>
    ensures { Prints (replay_text capture.now) result out.old out.new }
{
    if CAPTURE_MOST < capture.len() {
        return put_too_long(out);
    }
    run(capture, out)
}

/// Writes what replay prints for a capture to the front of out, and answers how long that is. Where
/// out has fewer than OUT_ROOM bytes nothing is written, and the answer is 0.
#[tactic(auto, unfolding(crate::specs::Transcript::replay_of, text::specs::Text::fronted, basis::specs::Choice::pick, basis::specs::Bytes::over))]
pub fn replay(capture: &[u8], out: &mut [u8]) -> usize
    ensures { written result out.new ≡ replay_of capture.now out.old }
{
    if out.len() < OUT_ROOM {
        return 0;
    }
    let mut writer = Writer::begin(out, 0);
    match put_capture(capture, &mut writer) {
        Ok(()) => writer.place(),
        Err(_) => 0,
    }
}
