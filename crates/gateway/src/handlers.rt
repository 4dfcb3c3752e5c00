//! The six messages to the gateway, a handler each. Any message but the one expected leaves by its
//! `let .. else`, with 9. That a reply has room, each handler that says one asks for, since a short
//! buffer is refused before anything is done; package and reply are lent one by one, as hosts do.
ghost use Rattle.std.specs.Prelude.{◌≡◌, OnErr, List, ℕ, ◌≤◌, length};
ghost use Rattle.message.specs.Limits.{gateway_room};
ghost use Rattle.message.specs.Enums.{gateway_message};
ghost use Rattle.gateway.specs.Sound.{outcome_of, Unchanged};
ghost use Rattle.gateway.specs.Handlers.{handle_only};

use crate::messages::say;
use crate::sound::SoundGateway;
use basis::{Refusal, require};
use gateway_decisions::{fragment_result, install_ending, is_target};
use gateway_record::{Ending, Gateway, Phase, fragment};
use message::{ToDevice, ToGateway};

impl SoundGateway {
    // An answered query in Ask: the target already runs, which ends with 1, else Offer.
    #[tactic(auto, unfolding(gateway_rules::specs::Rules::handle, gateway_rules::specs::Rules::on_query_reply, gateway_rules::specs::Decisions::after_query, message::specs::Messages::gateway_row, basis::specs::Choice::pick))]
    pub(crate) fn on_query_reply(&mut self, message: ToGateway) -> Result<usize, Refusal>
        ensures rule { (content reply : List ℕ) → outcome_of result self.new reply
            ≡ handle_only 19 self.old content reply (gateway_message message) }
        ensures err { OnErr result (self.new ≡ self.old) }
    {
        let ToGateway::QueryReply { version, .. } = message else {
            return Err(Refusal::NoUse);
        };
        require(self.phase() == Phase::Ask, Refusal::NoUse)?;
        if is_target(self.as_record().fields, version) {
            self.end(Ending::AlreadyRunning);
        } else {
            self.enter(Phase::Offer);
        }
        Ok(0)
    }

    // An answered announcement in Offer: 00 to Serve, else ends with 2.
    #[tactic(auto, unfolding(gateway_rules::specs::Rules::handle, gateway_rules::specs::Rules::on_announce_reply, message::specs::Messages::gateway_row, basis::specs::Choice::pick))]
    pub(crate) fn on_announce_reply(&mut self, message: ToGateway) -> Result<usize, Refusal>
        ensures rule { (content reply : List ℕ) → outcome_of result self.new reply
            ≡ handle_only 20 self.old content reply (gateway_message message) }
        ensures err { OnErr result (self.new ≡ self.old) }
    {
        let ToGateway::AnnounceReply(code) = message else {
            return Err(Refusal::NoUse);
        };
        require(self.phase() == Phase::Offer, Refusal::NoUse)?;
        if code == 0x00 {
            self.enter(Phase::Serve);
        } else {
            self.end(Ending::NotAccepted);
        }
        Ok(0)
    }

    // A request for a fragment: the fragment, straight from the package, or a result alone.
    #[tactic(auto, using(crate::proofs::Totals::fragment_there, crate::proofs::Totals::no_fragment), unfolding(gateway_rules::specs::Rules::handle, gateway_rules::specs::Rules::on_fragment_request, gateway_rules::specs::Rules::fragment_reply, gateway_record::specs::Record::record_ok, gateway_record::specs::Record::fragment_of, message::specs::Messages::device_row, message::specs::Messages::gateway_row, message::specs::Limits::size_ok, message::specs::Limits::is_word, codec::specs::Codec::said, basis::specs::Choice::pick))]
    pub(crate) fn on_fragment_request(
        &self,
        message: ToGateway,
        content: &[u8],
        reply: &mut [u8],
    ) -> Result<usize, Refusal>
        requires room { gateway_room ≤ length reply.old }
        requires package { length content.now ≡ self.now.length }
        ensures rule { outcome_of result self.now reply.new
            ≡ handle_only 21 self.now content.now reply.old (gateway_message message) }
        ensures err { OnErr result (reply.new ≡ reply.old) }
    {
        let ToGateway::FragmentRequest { version, index } = message else {
            return Err(Refusal::NoUse);
        };
        let Gateway { phase, fields, .. } = self.as_record();
        let result = fragment_result(phase, fields, version, index);
        if result != 0x00 {
            let denied = ToDevice::Fragment {
                result,
                index,
                content: b"",
            };
            return say(&denied, reply);
        }
        let given = ToDevice::Fragment {
            result,
            index,
            content: fragment(content, fields.size, index),
        };
        say(&given, reply)
    }

    // A reported download in Serve: 00 to Run, other codes end with 3; the reply is 00. In Run the reply
    // is 00, else 80.
    #[tactic(auto, unfolding(gateway_rules::specs::Rules::handle, gateway_rules::specs::Rules::on_download_report, message::specs::Messages::device_row, message::specs::Messages::gateway_row, codec::specs::Codec::said, basis::specs::Choice::one_of, basis::specs::Choice::pick))]
    pub(crate) fn on_download_report(
        &mut self,
        message: ToGateway,
        reply: &mut [u8],
    ) -> Result<usize, Refusal>
        requires { gateway_room ≤ length reply.old }
        ensures rule { (content : List ℕ) → outcome_of result self.new reply.new
            ≡ handle_only 22 self.old content reply.old (gateway_message message) }
        ensures err { OnErr result (Unchanged self.old self.new reply.old reply.new) }
    {
        let ToGateway::DownloadReport(code) = message else {
            return Err(Refusal::NoUse);
        };
        match self.phase() {
            Phase::Serve if code == 0x00 => self.enter(Phase::Run),
            Phase::Serve => self.end(Ending::DownloadFailed),
            Phase::Run => {}
            _ => return say(&ToDevice::DownloadReply(0x80), reply),
        }
        say(&ToDevice::DownloadReply(0x00), reply)
    }

    // An answered order to install in Run: 00 changes nothing, else ends with 4.
    #[tactic(auto, unfolding(gateway_rules::specs::Rules::handle, gateway_rules::specs::Rules::on_execute_reply, message::specs::Messages::gateway_row, basis::specs::Choice::pick))]
    pub(crate) fn on_execute_reply(&mut self, message: ToGateway) -> Result<usize, Refusal>
        ensures rule { (content reply : List ℕ) → outcome_of result self.new reply
            ≡ handle_only 23 self.old content reply (gateway_message message) }
        ensures err { OnErr result (self.new ≡ self.old) }
    {
        let ToGateway::ExecuteReply(code) = message else {
            return Err(Refusal::NoUse);
        };
        require(self.phase() == Phase::Run, Refusal::NoUse)?;
        if code != 0x00 {
            self.end(Ending::NotExecuted);
        }
        Ok(0)
    }

    // A reported install in Run: ends with 0 or 5; the reply is 00. In other phases 80.
    #[tactic(auto, unfolding(gateway_rules::specs::Rules::handle, gateway_rules::specs::Rules::on_result_report, message::specs::Messages::device_row, message::specs::Messages::gateway_row, codec::specs::Codec::said, basis::specs::Choice::one_of, basis::specs::Choice::pick))]
    pub(crate) fn on_result_report(
        &mut self,
        message: ToGateway,
        reply: &mut [u8],
    ) -> Result<usize, Refusal>
        requires { gateway_room ≤ length reply.old }
        ensures rule { (content : List ℕ) → outcome_of result self.new reply.new
            ≡ handle_only 24 self.old content reply.old (gateway_message message) }
        ensures err { OnErr result (Unchanged self.old self.new reply.old reply.new) }
    {
        let ToGateway::ResultReport { result, version } = message else {
            return Err(Refusal::NoUse);
        };
        if self.phase() != Phase::Run {
            return say(&ToDevice::ResultReply(0x80), reply);
        }
        self.end(install_ending(self.as_record().fields, result, version));
        say(&ToDevice::ResultReply(0x00), reply)
    }
}
