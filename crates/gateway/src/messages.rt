//! What the gateway says, as bytes.
ghost use Rattle.std.specs.Prelude.{◌≡◌, true, IsOk, ◌≤◌, length};
ghost use Rattle.message.specs.Limits.{gateway_room};
ghost use Rattle.message.specs.Messages.{found, to_device};
ghost use Rattle.message.specs.Enums.{device_message};
ghost use Rattle.codec.specs.Answers.{sent};
ghost use Rattle.codec.specs.Codec.{said};

use basis::Refusal;
use message::ToDevice;

// A message that the table allows, at the front of a reply buffer, which has room for every one.
#[tactic(auto, using(crate::proofs::Says::written_said, crate::proofs::Says::number_some), unfolding(codec::specs::Codec::said, codec::specs::Codec::spoken))]
pub(crate) fn say(message: &ToDevice<'_>, reply: &mut [u8]) -> Result<usize, Refusal>
    requires room { gateway_room ≤ length reply.old }
    requires sayable { to_device.valid (device_message message.now) ≡ true }
    ensures rule { sent result reply.new ≡ said to_device (found (device_message message.now)) reply.old }
    ensures ok { IsOk result }
{
    codec::say_to_device(Ok(*message), reply)
}
