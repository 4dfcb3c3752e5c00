//! The calls of a device whose record keeps the rules: a message is given and led to its handler,
//! the next one is asked for, the installer ends, a digest is given.
ghost use Rattle.std.specs.Prelude.{◌≡◌, true, IfOk, IfErr, OnErr};
ghost use Rattle.message.specs.Messages.{to_gateway};
ghost use Rattle.message.specs.Enums.{gateway_message, reading_of};
ghost use Rattle.codec.specs.Answers.{sent};
ghost use Rattle.device_rules.specs.Rules.{receive_of, wanted, next_message_of, install_finished_of, give_digest_of};
ghost use Rattle.device.specs.Left.{as_held, refused_state, left, finished_by, given_by};

use crate::messages::say;
use crate::sound::SoundDevice;
use basis::{Refusal, require};
use device_record::{Condition, Device, Phase, memory_ok};
use message::{ToDevice, ToGateway};

impl SoundDevice {
    /// A message is given. The answer is the length of the reply in bytes at the front of its
    /// buffer, 0 where there is none. Where the message is refused nothing is written and nothing
    /// changes, but for `RepeatDiffers`, which leaves the phase Failed. The refusals in order:
    /// `ShortReply`, `UnknownCondition`, `BadMemory`, why the bytes are no message, then the
    /// message's own.
    pub fn receive(
        &mut self,
        supported: bool,
        pcp: bool,
        condition: u8,
        message: &[u8],
        image: &mut [u8],
        map: &mut [u8],
        reply: &mut [u8],
    ) -> Result<usize, Refusal>
        ensures rule { left result self.new image.new map.new reply.new
            ≡ receive_of self.old image.old map.old reply.old supported pcp condition message.now }
        ensures err { IfErr result (λ refusal. as_held self.new image.new map.new reply.new
            ≡ refused_state refusal (as_held self.old image.old map.old reply.old)) }
    {
        self.take(supported, pcp, condition, message, image, map, reply)
    }

    // The same, as the rule says it.
    #[tactic(auto, using(crate::proofs::Read::read_valid, crate::proofs::Stated::known_as_read, crate::proofs::Stated::code_as_stated, crate::proofs::Stated::unknown_is_13), unfolding(basis::specs::Choice::pick, basis::specs::Choice::refusal, device_rules::specs::Rules::handle, device_rules::specs::Rules::receive_of))]
    fn take(
        &mut self,
        supported: bool,
        pcp: bool,
        condition: u8,
        message: &[u8],
        image: &mut [u8],
        map: &mut [u8],
        reply: &mut [u8],
    ) -> Result<usize, Refusal>
        ensures { left result self.new image.new map.new reply.new
            ≡ receive_of self.old image.old map.old reply.old supported pcp condition message.now }
    {
        require(Device::REPLY_ROOM <= reply.len(), Refusal::ShortReply)?;
        let stated = Condition::try_from(condition)?;
        require(memory_ok(self.as_record(), image, map), Refusal::BadMemory)?;
        let given = codec::read_to_device(supported, pcp, message)?;
        match given {
            ToDevice::Query => self.on_query(&given, reply),
            ToDevice::Announce(_) => self.on_announce(stated, &given, image, map, reply),
            ToDevice::Fragment { .. } => self.on_fragment(&given, image, map),
            ToDevice::DownloadReply(_) => self.on_download_reply(&given),
            ToDevice::Execute => self.on_execute(stated, &given, reply),
            ToDevice::ResultReply(_) => self.on_result_reply(&given),
        }
    }

    // The message of the phase, or why there is none.
    #[tactic(auto, unfolding(basis::specs::Choice::pick, basis::specs::Choice::one_of, message::specs::Messages::gateway_row, message::specs::Limits::is_word, device_record::specs::Record::record_ok, device_rules::specs::Rules::wanted))]
    fn wanted(&self, map: &[u8]) -> Result<ToGateway, Refusal>
        ensures rule { reading_of gateway_message result ≡ wanted self.now map.now }
        ensures valid { IfOk result (λ message. to_gateway.valid (gateway_message message) ≡ true) }
    {
        let kept = self.as_record();
        let running = kept.running;
        let target = kept.fields.version;
        match self.phase() {
            Phase::Loading => {
                let total = usize::from(kept.fields.total);
                let index = bitmap::lowest_missing(map, total);
                if index < total {
                    Ok(ToGateway::FragmentRequest {
                        version: target,
                        index: index as u16,
                    })
                } else {
                    Err(Refusal::BadRecord)
                }
            }
            Phase::Loaded => Ok(ToGateway::DownloadReport(0x00)),
            Phase::Failed => Ok(ToGateway::DownloadReport(0x07)),
            Phase::Reporting => Ok(ToGateway::ResultReport {
                result: kept.outcome,
                version: running,
            }),
            _ => Err(Refusal::NoUse),
        }
    }

    /// The next message is asked for. The answer is its length in bytes at the front of the
    /// buffer. The refusals in order: `ShortReply`, `BadMemory`, `BadRecord` where Loading finds
    /// no fragment missing in the map, `NoUse` where the phase has nothing to say; then nothing is
    /// written.
    #[tactic(auto, unfolding(basis::specs::Choice::pick, basis::specs::Choice::refusal, codec::specs::Codec::said, device_rules::specs::Rules::next_message_of))]
    pub fn next_message(&self, image: &[u8], map: &[u8], reply: &mut [u8]) -> Result<usize, Refusal>
        ensures rule { sent result reply.new
            ≡ next_message_of self.now image.now map.now reply.old }
        ensures err { OnErr result (reply.new ≡ reply.old) }
    {
        require(Device::REPLY_ROOM <= reply.len(), Refusal::ShortReply)?;
        require(memory_ok(self.as_record(), image, map), Refusal::BadMemory)?;
        say(self.wanted(map)?, reply)
    }

    /// The installer has ended with a code. With 00 the target runs from now on. `NoUse` outside
    /// Installing, `BadInstallCode` for an unknown code; then nothing changes.
    #[tactic(auto, unfolding(basis::specs::Choice::pick, basis::specs::Choice::refusal, device_rules::specs::Rules::install_finished_of))]
    pub fn install_finished(&mut self, code: u8) -> Result<(), Refusal>
        ensures rule { finished_by result self.new ≡ install_finished_of self.old code }
        ensures err { OnErr result (self.new ≡ self.old) }
    {
        require(self.phase() == Phase::Installing, Refusal::NoUse)?;
        require(message::install_code(code), Refusal::BadInstallCode)?;
        self.report(code);
        Ok(())
    }

    /// A digest is given, which the completed bytes of the download held must have. `NoUse` outside
    /// Loading; then nothing changes.
    #[tactic(auto, unfolding(basis::specs::Choice::pick, basis::specs::Choice::refusal, device_rules::specs::Rules::give_digest_of))]
    pub fn give_digest(&mut self, digest: [u8; 16]) -> Result<(), Refusal>
        ensures rule { given_by result self.new ≡ give_digest_of self.old digest }
        ensures err { OnErr result (self.new ≡ self.old) }
    {
        require(self.phase() == Phase::Loading, Refusal::NoUse)?;
        self.expect(digest);
        Ok(())
    }
}
