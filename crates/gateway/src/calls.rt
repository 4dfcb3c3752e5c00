//! The calls by value, as a host makes them that keeps the plain record: of any record, also of one
//! that breaks the rules.
ghost use Rattle.std.specs.Prelude.{◌≡◌};
ghost use Rattle.codec.specs.Answers.{sent};
ghost use Rattle.gateway_rules.specs.Rules.{receive_of, next_message_of};
ghost use Rattle.gateway_rules.specs.Answers.{after_call};
ghost use Rattle.gateway.specs.Sound.{outcome_of};

use crate::sound::SoundGateway;
use basis::{Refusal, require};
use gateway_record::Gateway;
use gateway_rules::Answer;

// The record's tests, then the call of the gateway that it is.
#[tactic(auto, unfolding(gateway_rules::specs::Rules::receive_of, basis::specs::Choice::refusal, basis::specs::Choice::pick))]
fn give(
    gateway: &mut Gateway,
    supported: bool,
    pcp: bool,
    message: &[u8],
    content: &[u8],
    reply: &mut [u8],
) -> Result<usize, Refusal>
    ensures { outcome_of result gateway.new reply.new
        ≡ receive_of gateway.old content.now reply.old supported pcp message.now }
{
    require(Gateway::REPLY_ROOM <= reply.len(), Refusal::ShortReply)?;
    let mut sound = SoundGateway::try_from(*gateway)?;
    let length = sound.receive(supported, pcp, message, content, reply)?;
    *gateway = sound.as_record();
    Ok(length)
}

/// A message is given. The package is lent as it was at the start. On 0 the reply fills the front of
/// its buffer; on any other number nothing is written, and the record is the one that was lent.
pub fn receive(
    gateway: Gateway,
    supported: bool,
    pcp: bool,
    message: &[u8],
    content: &[u8],
    reply: &mut [u8],
) -> Answer
    ensures { after_call result reply.new
        ≡ receive_of gateway content.now reply.old supported pcp message.now }
{
    let mut gateway = gateway;
    match give(&mut gateway, supported, pcp, message, content, reply) {
        Ok(length) => Answer {
            number: 0,
            length,
            gateway,
        },
        Err(refusal) => Answer {
            number: refusal.number(),
            length: 0,
            gateway,
        },
    }
}

/// The gateway is asked for its next message: the answer is its length, at the front of the buffer.
/// The record stays as it is.
///
/// # Errors
///
/// `ShortReply`, `BadRecord`, `BadMemory`, then `NoUse` where the phase has nothing to say. Nothing is
/// written.
#[tactic(auto, unfolding(gateway_rules::specs::Rules::next_message_of, codec::specs::Codec::said, basis::specs::Choice::refusal, basis::specs::Choice::pick))]
pub fn next_message(gateway: Gateway, content: &[u8], reply: &mut [u8]) -> Result<usize, Refusal>
    ensures { sent result reply.new ≡ next_message_of gateway content.now reply.old }
{
    require(Gateway::REPLY_ROOM <= reply.len(), Refusal::ShortReply)?;
    SoundGateway::try_from(gateway)?.next_message(content, reply)
}
