//! The calls of a gateway whose record keeps the rules: a message is given and led to its handler, and
//! the next one is asked for.
ghost use Rattle.std.specs.Prelude.{◌≡◌, true, IfOk, OnErr, ◌<◌};
ghost use Rattle.basis.specs.Refusals.{answered};
ghost use Rattle.message.specs.Messages.{to_device};
ghost use Rattle.message.specs.Enums.{device_message, reading_of};
ghost use Rattle.codec.specs.Answers.{sent};
ghost use Rattle.gateway_record.specs.Record.{record_ok, call_refusal};
ghost use Rattle.gateway_rules.specs.Rules.{receive_of, wanted, next_message_of};
ghost use Rattle.gateway.specs.Sound.{outcome_of, Unchanged};

use crate::messages::say;
use crate::sound::SoundGateway;
use basis::{Refusal, require};
use gateway_record::{Gateway, Phase};
use message::{Fields, ToDevice, ToGateway};

// The fields, whose check code is known to be a WORD.
fn known(fields: Fields) -> Fields
    ensures same { result ≡ fields }
    ensures range { result.code < 65536 }
{
    fields
}

impl SoundGateway {
    // What a call is refused for before anything is done: ShortReply, BadMemory.
    #[tactic(auto, unfolding(basis::specs::Choice::refusal, basis::specs::Choice::pick))]
    fn ready(&self, content: usize, reply: usize) -> Result<(), Refusal>
        ensures rule { answered result ≡ call_refusal self.now content reply }
        ensures sound { record_ok self.now ≡ true }
    {
        let whole = content == self.as_record().length;
        require(Gateway::REPLY_ROOM <= reply, Refusal::ShortReply)?;
        require(whole, Refusal::BadMemory)
    }

    /// A message is given. The package is lent as it was at the start. The answer is the length of the
    /// reply at the front of its buffer, 0 where there is none.
    ///
    /// # Errors
    ///
    /// `ShortReply`, `BadMemory`, then what is not read (`Unsupported` to `BadData`), then `NoUse` in
    /// this phase. Nothing is changed, and nothing written.
    #[tactic(auto, unfolding(gateway_rules::specs::Rules::receive_of, gateway_rules::specs::Rules::handle, message::specs::Messages::gateway_row, basis::specs::Choice::refusal, basis::specs::Choice::pick))]
    pub fn receive(
        &mut self,
        supported: bool,
        pcp: bool,
        message: &[u8],
        content: &[u8],
        reply: &mut [u8],
    ) -> Result<usize, Refusal>
        ensures rule { outcome_of result self.new reply.new
            ≡ receive_of self.old content.now reply.old supported pcp message.now }
        ensures err { OnErr result (Unchanged self.old self.new reply.old reply.new) }
    {
        self.ready(content.len(), reply.len())?;
        let message = codec::read_to_gateway(supported, pcp, message)?;
        match message {
            ToGateway::QueryReply { .. } => self.on_query_reply(message),
            ToGateway::AnnounceReply(_) => self.on_announce_reply(message),
            ToGateway::FragmentRequest { .. } => self.on_fragment_request(message, content, reply),
            ToGateway::DownloadReport(_) => self.on_download_report(message, reply),
            ToGateway::ExecuteReply(_) => self.on_execute_reply(message),
            ToGateway::ResultReport { .. } => self.on_result_report(message, reply),
        }
    }

    // The message of the phase, or why there is none.
    #[tactic(auto, using(crate::proofs::Totals::announced_total_ok), unfolding(gateway_rules::specs::Rules::wanted, gateway_record::specs::Record::record_ok, gateway_record::specs::Record::length_ok, message::specs::Messages::device_row, message::specs::Limits::size_ok, message::specs::Limits::is_word, basis::specs::Choice::pick))]
    fn wanted(&self) -> Result<ToDevice<'_>, Refusal>
        ensures rule { reading_of device_message result ≡ wanted self.now }
        ensures sayable { IfOk result (λ m. to_device.valid (device_message m) ≡ true) }
    {
        match self.phase() {
            Phase::Ask => Ok(ToDevice::Query),
            Phase::Offer => Ok(ToDevice::Announce(known(self.as_record().fields))),
            Phase::Run => Ok(ToDevice::Execute),
            Phase::Serve | Phase::Ended => Err(Refusal::NoUse),
        }
    }

    /// The gateway is asked for its next message: the answer is its length, at the front of the buffer.
    ///
    /// # Errors
    ///
    /// `ShortReply`, `BadMemory`, then `NoUse` where the phase has nothing to say. Nothing is written.
    #[tactic(auto, unfolding(gateway_rules::specs::Rules::next_message_of, codec::specs::Codec::said, basis::specs::Choice::refusal, basis::specs::Choice::pick))]
    pub fn next_message(&self, content: &[u8], reply: &mut [u8]) -> Result<usize, Refusal>
        ensures rule { sent result reply.new ≡ next_message_of self.now content.now reply.old }
        ensures err { OnErr result (reply.new ≡ reply.old) }
    {
        self.ready(content.len(), reply.len())?;
        say(&self.wanted()?, reply)
    }
}
