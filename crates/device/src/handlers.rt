//! The six messages to the device, a handler each. Any message but the one expected leaves by its
//! `let .. else`, with 9. That a reply has room, each handler that says one asks for, since a short
//! buffer is refused before anything is done; image, map and reply are lent one by one, as hosts do.
ghost use Rattle.std.specs.Prelude.{◌≡◌, true, Ok, List, ℕ, ◌≤◌, ◌<◌, length};
ghost use Rattle.message.specs.Limits.{device_room};
ghost use Rattle.message.specs.Messages.{announce, to_device};
ghost use Rattle.message.specs.Enums.{device_message};
ghost use Rattle.device_record.specs.Conditions.{condition_code};
ghost use Rattle.device_record.specs.Record.{loading, map_bytes, memory_ok};
ghost use Rattle.device_rules.specs.Decisions.{fragment_length};
ghost use Rattle.device_rules.specs.Rules.{store};
ghost use Rattle.device.specs.Left.{left};
ghost use Rattle.device.specs.Handlers.{as_query, as_announce, as_fragment, as_download_reply, as_execute, as_result_reply};

use crate::messages::say;
use crate::sound::SoundDevice;
use basis::{Refusal, product};
use device_decisions::{
    announce_result, completion, execute_result, fragment_refusal, last_after, resumes,
};
use device_record::{Condition, Phase, map_bytes};
use message::{ToDevice, ToGateway};

impl SoundDevice {
    // 19: the running version is asked for.
    #[tactic(auto, using(crate::proofs::Says::left_as_sent), unfolding(device_rules::specs::Rules::on_query, codec::specs::Codec::said, message::specs::Messages::gateway_row, basis::specs::Choice::one_of, basis::specs::Choice::pick, device_record::specs::Record::record_ok))]
    pub(crate) fn on_query(
        &self,
        message: &ToDevice<'_>,
        reply: &mut [u8],
    ) -> Result<usize, Refusal>
        requires { device_room ≤ length reply.old }
        ensures { (image map : List ℕ) → left result self.now image map reply.new
            ≡ as_query self.now image map reply.old (device_message message.now) }
    {
        let ToDevice::Query = *message else {
            return Err(Refusal::NoUse);
        };
        let version = self.as_record().running;
        say(
            ToGateway::QueryReply {
                result: 0x00,
                version,
            },
            reply,
        )
    }

    // 20: a package is announced. An answer other than 00 changes nothing.
    #[tactic(auto, using(crate::proofs::Says::left_as_sent, crate::proofs::Says::announce_said, crate::proofs::Says::announce_room), unfolding(device_rules::specs::Rules::on_announce, codec::specs::Codec::said, device_rules::specs::Rules::begin, basis::specs::Choice::pick))]
    pub(crate) fn on_announce(
        &mut self,
        condition: Condition,
        message: &ToDevice<'_>,
        image: &[u8],
        map: &mut [u8],
        reply: &mut [u8],
    ) -> Result<usize, Refusal>
        requires room { device_room ≤ length reply.old }
        requires valid { to_device.valid (device_message message.now) ≡ true }
        ensures { left result self.new image.now map.new reply.new
            ≡ as_announce self.old image.now map.old reply.old
            (condition_code condition) (device_message message.now) }
    {
        let ToDevice::Announce(fields) = *message else {
            return Err(Refusal::NoUse);
        };
        let kept = self.as_record();
        let answer = announce_result(kept, condition.code(), fields, image, map);
        if answer == 0x00 && !resumes(kept, fields) {
            bitmap::clear(map, map_bytes(fields.total));
            self.begin(fields);
            return say(ToGateway::AnnounceReply(0x00), reply);
        }
        say(ToGateway::AnnounceReply(answer), reply)
    }

    // The data at its place, then the bit, the count and the phase. The tests have passed.
    #[tactic(auto, using(crate::proofs::Storing::completes_by_rule), unfolding(basis::specs::Choice::pick, device_record::specs::Record::record_ok, device_record::specs::Record::download_ok, device_record::specs::Record::memory_ok, device_record::specs::Record::holding, device_rules::specs::Decisions::fragment_length, device_rules::specs::Rules::store))]
    fn store(&mut self, index: u16, content: &[u8], image: &mut [u8], map: &mut [u8])
        requires loading { self.old.phase ≡ loading }
        requires memory { memory_ok self.old image.old map.old ≡ true }
        requires index { index < self.old.fields.total }
        requires fits { fragment_length self.old.fields index (length content.now) ≡ true }
        ensures { (reply : List ℕ) → left (Ok 0) self.new image.new map.new reply
            ≡ store self.old image.old map.old reply index content.now }
    {
        let kept = self.as_record();
        let stored = kept.stored + 1;
        basis::put(image, product(index, kept.fields.size), content);
        bitmap::mark(map, usize::from(index));
        let last = last_after(kept, index, content.len() as u16);
        let phase = completion(kept, stored, last, image);
        self.keep_fragment(phase, stored, last);
    }

    // 21: a fragment, or the gateway's word that there is none. A repeat that differs from what is
    // stored is refused as the others are, but leaves Failed.
    #[tactic(auto, unfolding(basis::specs::Choice::pick, basis::specs::Choice::refusal, device_rules::specs::Decisions::fragment_refusal, device_rules::specs::Rules::on_fragment))]
    pub(crate) fn on_fragment(
        &mut self,
        message: &ToDevice<'_>,
        image: &mut [u8],
        map: &mut [u8],
    ) -> Result<usize, Refusal>
        requires { memory_ok self.old image.old map.old ≡ true }
        ensures { (reply : List ℕ) → left result self.new image.new map.new reply
            ≡ as_fragment self.old image.old map.old reply (device_message message.now) }
    {
        let ToDevice::Fragment {
            result,
            index,
            content,
        } = *message
        else {
            return Err(Refusal::NoUse);
        };
        if self.phase() != Phase::Loading {
            return Err(Refusal::NoUse);
        }
        match result {
            0x80 => self.enter(Phase::Idle),
            0x81 => {}
            _ => {
                let kept = self.as_record();
                let refused = fragment_refusal(kept.fields, kept.last, index, image, map, content);
                if let Err(refusal) = refused {
                    if refusal == Refusal::RepeatDiffers {
                        self.enter(Phase::Failed);
                    }
                    return Err(refusal);
                }
                self.store(index, content, image, map);
            }
        }
        Ok(0)
    }

    // 22: Loaded with 00 goes Acked, with 80 Idle; Failed goes Idle.
    #[tactic(auto, unfolding(device_rules::specs::Rules::on_download_reply, basis::specs::Choice::pick))]
    pub(crate) fn on_download_reply(&mut self, message: &ToDevice<'_>) -> Result<usize, Refusal>
        ensures { (image map reply : List ℕ) → left result self.new image map reply
            ≡ as_download_reply self.old image map reply (device_message message.now) }
    {
        let ToDevice::DownloadReply(result) = *message else {
            return Err(Refusal::NoUse);
        };
        match (self.phase(), result) {
            (Phase::Loaded, 0x00) => self.enter(Phase::Acked),
            (Phase::Loaded | Phase::Failed, _) => self.enter(Phase::Idle),
            _ => return Err(Refusal::NoUse),
        }
        Ok(0)
    }

    // 23: the order to install.
    #[tactic(auto, using(crate::proofs::Says::left_as_sent, crate::proofs::Says::execute_said, crate::proofs::Says::execute_enters), unfolding(device_rules::specs::Rules::on_execute, codec::specs::Codec::said, basis::specs::Choice::pick))]
    pub(crate) fn on_execute(
        &mut self,
        condition: Condition,
        message: &ToDevice<'_>,
        reply: &mut [u8],
    ) -> Result<usize, Refusal>
        requires { device_room ≤ length reply.old }
        ensures { (image map : List ℕ) → left result self.new image map reply.new
            ≡ as_execute self.old image map reply.old (condition_code condition)
            (device_message message.now) }
    {
        let ToDevice::Execute = *message else {
            return Err(Refusal::NoUse);
        };
        let kept = self.as_record();
        let answer = execute_result(kept.phase, condition.code());
        if answer == 0x00 {
            self.enter(Phase::Installing);
        }
        say(ToGateway::ExecuteReply(answer), reply)
    }

    // 24 in Reporting: Idle, with either result.
    #[tactic(auto, unfolding(device_rules::specs::Rules::on_result_reply, basis::specs::Choice::pick))]
    pub(crate) fn on_result_reply(&mut self, message: &ToDevice<'_>) -> Result<usize, Refusal>
        ensures { (image map reply : List ℕ) → left result self.new image map reply
            ≡ as_result_reply self.old image map reply (device_message message.now) }
    {
        let ToDevice::ResultReply(_) = *message else {
            return Err(Refusal::NoUse);
        };
        if self.phase() != Phase::Reporting {
            return Err(Refusal::NoUse);
        }
        self.enter(Phase::Idle);
        Ok(0)
    }
}
