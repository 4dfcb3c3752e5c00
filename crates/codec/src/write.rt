//! Messages written: the buffer is tested, then the fields; nothing is written on a refusal.
ghost use Rattle.std.specs.Prelude.{◌≡◌, true, ◌+◌, ◌≤◌, ◌<◌, length, ltb};
ghost use Rattle.basis.specs.Bytes.{over};
ghost use Rattle.basis.specs.Numbers.{short_reply, bad_data};
ghost use Rattle.basis.specs.Refusals.{number_of};
ghost use Rattle.basis.specs.Choice.{pick};
ghost use Rattle.message.specs.Messages.{to_device, to_gateway};
ghost use Rattle.message.specs.Enums.{device_message, gateway_message, reading_by};
ghost use Rattle.codec.specs.Codec.{frame, write_of, spoken};
ghost use Rattle.codec.specs.Answers.{sent, sent_by, with_frame, write_outcome};

use crate::DATA;
use crate::messages::Message;
use basis::{Numbered, Refusal, put, require};
use message::{PROTOCOL_VERSION, ToDevice, ToGateway};

/// Puts header and check round len bytes of data that stand in the buffer, and answers how long the
/// message is.
fn put_frame(out: &mut [u8], code: u8, len: usize) -> usize
    requires { (8 + len ≤ length out.old) × (len < 65536) }
    ensures out { out.new ≡ with_frame code len out.old }
    ensures length { result ≡ 8 + len }
{
    let [high, low] = (len as u16).to_be_bytes();
    put(
        out,
        0,
        &[0xFF, 0xFE, PROTOCOL_VERSION, code, 0, 0, high, low],
    );
    let end = DATA + len;
    let check = checksum::message_check(&out[..end]);
    put(out, 4, &check.to_be_bytes());
    end
}

/// A message that is allowed, and its length.
#[tactic(auto, using(crate::proofs::Writing::with_frame_is, crate::proofs::Frames::length_frame))]
fn put_message<M: Message>(message: &M, out: &mut [u8]) -> usize
    requires allowed { M.allowed message.now ≡ true }
    requires room { M.least ≤ length out.old }
    ensures out { out.new ≡ over (frame (M.code_of message.now) (M.content_of message.now)) out.old }
    ensures length { result ≡ length (frame (M.code_of message.now) (M.content_of message.now)) }
{
    message.put(out);
    put_frame(out, message.code(), message.len())
}

/// A message at the front of the buffer, and its length. Refused are a buffer that is shorter than
/// its sender's least (15), then fields that are not allowed (8).
#[tactic(auto, unfolding(basis::specs::Choice::pick))]
fn write<M: Message>(message: &M, out: &mut [u8]) -> Result<usize, Refusal>
    ensures { sent result out.new
        ≡ write_outcome M.least (M.allowed message.now) (frame (M.code_of message.now) (M.content_of message.now)) out.old }
{
    require(message.room() <= out.len(), Refusal::ShortReply)?;
    require(message.is_valid(), Refusal::BadData)?;
    Ok(put_message(message, out))
}

/// Why what is no message is not written: a buffer shorter than its sender's least (15), else that it
/// is none (8).
#[tactic(auto, unfolding(basis::specs::Choice::pick))]
fn unwritten(room: usize, out: &[u8]) -> Refusal
    ensures { number_of result ≡ pick (ltb (length out.now) room) short_reply bad_data }
{
    if out.len() < room {
        Refusal::ShortReply
    } else {
        Refusal::BadData
    }
}

/// A message toward the device, as the gateway sends it, at the front of the buffer; its length.
/// Refused are a buffer shorter than `ToDevice::ROOM` (15), then what is no message, or has fields
/// that are not allowed (8).
#[tactic(auto, unfolding(crate::specs::Codec::write_of, crate::specs::Codec::bytes_of, basis::specs::Choice::pick))]
pub fn write_to_device<E: Numbered>(
    message: &Result<ToDevice<'_>, E>,
    out: &mut [u8],
) -> Result<usize, Refusal>
    ensures { sent result out.new ≡ write_of to_device (reading_by device_message E.numbered message.now) out.old }
{
    match message {
        Ok(message) => write(message, out),
        Err(_) => Err(unwritten(ToDevice::ROOM, out)),
    }
}

/// A message toward the gateway, as the device sends it, at the front of the buffer; its length.
/// Refused are a buffer shorter than `ToGateway::ROOM` (15), then what is no message, or has fields
/// that are not allowed (8).
#[tactic(auto, unfolding(crate::specs::Codec::write_of, crate::specs::Codec::bytes_of, basis::specs::Choice::pick))]
pub fn write_to_gateway<E: Numbered>(
    message: &Result<ToGateway, E>,
    out: &mut [u8],
) -> Result<usize, Refusal>
    ensures { sent result out.new ≡ write_of to_gateway (reading_by gateway_message E.numbered message.now) out.old }
{
    match message {
        Ok(message) => write(message, out),
        Err(_) => Err(unwritten(ToGateway::ROOM, out)),
    }
}

/// A message toward the device, or why there is none, whatever the buffer.
#[tactic(auto, unfolding(crate::specs::Codec::spoken, crate::specs::Codec::write_of, crate::specs::Codec::bytes_of))]
pub fn say_to_device<E: Numbered>(
    message: Result<ToDevice<'_>, E>,
    out: &mut [u8],
) -> Result<usize, E>
    ensures { sent_by E.numbered result out.new ≡ spoken to_device (reading_by device_message E.numbered message.entry) out.old }
{
    let message: ToDevice<'_> = message?;
    Ok(write_to_device(&Ok::<_, Refusal>(message), out)?)
}

/// A message toward the gateway, or why there is none, whatever the buffer.
#[tactic(auto, unfolding(crate::specs::Codec::spoken, crate::specs::Codec::write_of, crate::specs::Codec::bytes_of))]
pub fn say_to_gateway<E: Numbered>(
    message: Result<ToGateway, E>,
    out: &mut [u8],
) -> Result<usize, E>
    ensures { sent_by E.numbered result out.new ≡ spoken to_gateway (reading_by gateway_message E.numbered message) out.old }
{
    let message: ToGateway = message?;
    Ok(write_to_gateway(&Ok::<_, Refusal>(message), out)?)
}
