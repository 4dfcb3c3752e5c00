// The gateway's calls. `bytes` is the buffer in which the host keeps the record, `content` the
// package.
ghost use Rattle.std.specs.Prelude.{◌≡◌};
ghost use Rattle.exports.specs.Exports.{gateway_start_of, gateway_receive_of, gateway_next_message_of};

use crate::answers::{packed, text_of};
use basis::Refusal;
use gateway::Gateway;

// A gateway for a package.
#[tactic(auto, unfolding(exports::specs::Exports::gateway_start_of, exports::specs::Exports::fact, basis::specs::Choice::pick))]
#[unsafe(no_mangle)]
pub extern "C" fn pcp_raw_gateway_start(
    bytes: &mut [u8],
    version: &[u8],
    size: u16,
    content: &[u8],
    checked: u8,
) -> u8
    ensures { record { answer = result; bytes = bytes.new }
        ≡ gateway_start_of bytes.old version.now size content.now checked }
{
    if bytes.len() < layout::GATEWAY_LENGTH {
        return Refusal::ShortRecord.number();
    }
    let started = Gateway::start(text_of(version), size, content, checked != 0);
    if started.number != 0 {
        return started.number;
    }
    layout::keep_gateway(bytes, started.gateway);
    started.number
}

// A message is given. The answer is the number and 256 times the length of the reply.
#[tactic(auto, unfolding(exports::specs::Exports::gateway_receive_of, exports::specs::Exports::fact, basis::specs::Choice::pick))]
#[unsafe(no_mangle)]
pub extern "C" fn pcp_raw_gateway_receive(
    bytes: &mut [u8],
    supported: u8,
    pcp: u8,
    message: &[u8],
    content: &[u8],
    reply: &mut [u8],
) -> u32
    ensures { record { answer = result; bytes = bytes.new; reply = reply.new }
        ≡ gateway_receive_of bytes.old content.now reply.old supported pcp message.now }
{
    if bytes.len() < layout::GATEWAY_LENGTH {
        return u32::from(Refusal::ShortRecord.number());
    }
    let gateway = layout::gateway_at(bytes);
    let answer = gateway::receive(gateway, supported != 0, pcp != 0, message, content, reply);
    layout::keep_gateway(bytes, answer.gateway);
    packed(answer.number, answer.length)
}

// The gateway is asked for its next message. The answer is the number and 256 times its length.
#[tactic(auto, unfolding(exports::specs::Exports::gateway_next_message_of, exports::specs::Exports::fact, basis::specs::Choice::pick))]
#[unsafe(no_mangle)]
pub extern "C" fn pcp_raw_gateway_next_message(
    bytes: &[u8],
    content: &[u8],
    reply: &mut [u8],
) -> u32
    ensures { record { answer = result; reply = reply.new }
        ≡ gateway_next_message_of bytes.now content.now reply.old }
{
    if bytes.len() < layout::GATEWAY_LENGTH {
        return u32::from(Refusal::ShortRecord.number());
    }
    let gateway = layout::gateway_at(bytes);
    match gateway::next_message(gateway, content, reply) {
        Ok(length) => packed(0, length),
        Err(refusal) => packed(refusal.number(), 0),
    }
}
