//! Messages that the device says.
ghost use Rattle.std.specs.Prelude.{◌≡◌, true, ◌≤◌, length};
ghost use Rattle.message.specs.Limits.{device_room};
ghost use Rattle.message.specs.Messages.{found, to_gateway};
ghost use Rattle.message.specs.Enums.{gateway_message};
ghost use Rattle.codec.specs.Codec.{said};
ghost use Rattle.codec.specs.Answers.{sent};

use basis::Refusal;
use message::ToGateway;

// A message that the table allows, put to the front of a reply buffer, which has room for every
// one.
#[tactic(auto, using(crate::proofs::Says::written_said), unfolding(codec::specs::Codec::spoken))]
pub(crate) fn say(message: ToGateway, reply: &mut [u8]) -> Result<usize, Refusal>
    requires room { device_room ≤ length reply.old }
    requires valid { to_gateway.valid (gateway_message message) ≡ true }
    ensures { sent result reply.new ≡ said to_gateway (found (gateway_message message)) reply.old }
{
    codec::say_to_gateway(Ok(message), reply)
}
