//! The device to which a capture is played.
ghost use Rattle.std.specs.Prelude.{◌≡◌, length};
ghost use Rattle.capture.specs.Reader.{item};
ghost use Rattle.text.specs.Writing.{Puts};
ghost use Rattle.transcript.specs.Transcript.{reply_length, start};
ghost use Rattle.transcript.specs.Items.{state, item_line, after_item};

use crate::line;
use capture::{Fault, Record};
use device::{Condition, Device};
use text::{NoRoom, Writer};

// The lengths of its buffers, and the version that it runs: V0.9.
const IMAGE_LENGTH: usize = 16384;

const MAP_LENGTH: usize = 64;

const REPLY_LENGTH: usize = 26;

const VERSION: [u8; 16] = [0x56, 0x30, 0x2E, 0x39, 0, 0, 0, 0, 0, 0, 0, 0, 0, 0, 0, 0];

// The condition in which the device is always: ready.
const READY: u8 = Condition::Ready as u8;

// A device and its buffers.
#[derive(Drop)]
pub(crate) struct Player {
    device: Device,
    image: [u8; IMAGE_LENGTH],
    map: [u8; MAP_LENGTH],
    reply: [u8; REPLY_LENGTH],
}

impl Player {
    // A device to which nothing was given.
    #[tactic(auto, unfolding(crate::specs::Transcript::start))]
    pub(crate) fn new() -> Player
        ensures { state result ≡ start }
    {
        let made = Device::new(VERSION);
        let image = [0u8; IMAGE_LENGTH];
        let map = [0u8; MAP_LENGTH];
        let reply = [0u8; REPLY_LENGTH];
        Player {
            device: made.device,
            image,
            map,
            reply,
        }
    }

    // A record toward the device is given to it, and its line is printed; for one from it nothing;
    // for a fault its number, alone.
    #[tactic(auto, unfolding(crate::specs::Transcript::given), using(text::proofs::Pages::puts_none))]
    pub(crate) fn play(
        &mut self,
        number: usize,
        found: Result<Record<'_>, Fault>,
        out: &mut Writer<'_>,
    ) -> Result<(), NoRoom>
        ensures text { Puts (item_line number (item found.entry) (state self.old))
            result out.old out.new }
        ensures reply { length self.new.reply ≡ reply_length }
        ensures device { state self.new ≡ after_item (item found.entry) (state self.old) }
    {
        match found {
            Ok(kept) => {
                if !kept.to_device {
                    return Ok(());
                }
                let answer = device::receive(
                    self.device,
                    true,
                    true,
                    READY,
                    kept.message,
                    &mut self.image,
                    &mut self.map,
                    &mut self.reply,
                );
                self.device = answer.device;
                let shown = answer.length.min(REPLY_LENGTH);
                line::put_line(
                    out,
                    number,
                    answer.number,
                    answer.device.phase,
                    &self.reply[..shown],
                )
            }
            Err(fault) => out.put_number(fault.damage.number() as usize, b'\n'),
        }
    }
}
