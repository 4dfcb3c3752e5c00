// The device's calls. `bytes` is the buffer in which the host keeps the record.
ghost use Rattle.std.specs.Prelude.{◌≡◌};
ghost use Rattle.exports.specs.Exports.{device_new_of, device_receive_of, device_next_message_of, device_install_finished_of, device_give_digest_of};

use crate::answers::{packed, text_of};
use basis::Refusal;
use device::Device;

// A fresh device that runs a version.
#[tactic(auto, unfolding(exports::specs::Exports::device_new_of, exports::specs::Exports::fact, basis::specs::Choice::pick))]
#[unsafe(no_mangle)]
pub extern "C" fn pcp_raw_device_new(bytes: &mut [u8], version: &[u8]) -> u8
    ensures { record { answer = result; bytes = bytes.new } ≡ device_new_of bytes.old version.now }
{
    if bytes.len() < layout::DEVICE_LENGTH {
        return Refusal::ShortRecord.number();
    }
    let made = Device::new(text_of(version));
    if made.number != 0 {
        return made.number;
    }
    layout::keep_device(bytes, made.device);
    made.number
}

// A message is given. The answer is the number and 256 times the length of the reply. With the number
// 23 the phase, byte 0 of the record, has become Failed.
#[tactic(auto, unfolding(exports::specs::Exports::device_receive_of, exports::specs::Exports::fact, basis::specs::Choice::pick))]
#[unsafe(no_mangle)]
pub extern "C" fn pcp_raw_device_receive(
    bytes: &mut [u8],
    supported: u8,
    pcp: u8,
    condition: u8,
    message: &[u8],
    image: &mut [u8],
    map: &mut [u8],
    reply: &mut [u8],
) -> u32
    ensures { record { answer = result; bytes = bytes.new; image = image.new; map = map.new; reply = reply.new }
        ≡ device_receive_of bytes.old image.old map.old reply.old supported pcp condition message.now }
{
    if bytes.len() < layout::DEVICE_LENGTH {
        return u32::from(Refusal::ShortRecord.number());
    }
    let device = layout::device_at(bytes);
    let answer = device::receive(
        device,
        supported != 0,
        pcp != 0,
        condition,
        message,
        image,
        map,
        reply,
    );
    layout::keep_device(bytes, answer.device);
    packed(answer.number, answer.length)
}

// The device is asked for its next message. The answer is the number and 256 times its length.
#[tactic(auto, unfolding(exports::specs::Exports::device_next_message_of, exports::specs::Exports::fact, basis::specs::Choice::pick))]
#[unsafe(no_mangle)]
pub extern "C" fn pcp_raw_device_next_message(
    bytes: &[u8],
    image: &[u8],
    map: &[u8],
    reply: &mut [u8],
) -> u32
    ensures { record { answer = result; reply = reply.new }
        ≡ device_next_message_of bytes.now image.now map.now reply.old }
{
    if bytes.len() < layout::DEVICE_LENGTH {
        return u32::from(Refusal::ShortRecord.number());
    }
    let device = layout::device_at(bytes);
    match device::next_message(device, image, map, reply) {
        Ok(length) => packed(0, length),
        Err(refusal) => packed(refusal.number(), 0),
    }
}

// The installer has ended with a code.
#[tactic(auto, unfolding(exports::specs::Exports::device_install_finished_of, exports::specs::Exports::fact, basis::specs::Choice::pick))]
#[unsafe(no_mangle)]
pub extern "C" fn pcp_raw_device_install_finished(bytes: &mut [u8], code: u8) -> u8
    ensures { record { answer = result; bytes = bytes.new } ≡ device_install_finished_of bytes.old code }
{
    if bytes.len() < layout::DEVICE_LENGTH {
        return Refusal::ShortRecord.number();
    }
    let finished = device::install_finished(layout::device_at(bytes), code);
    layout::keep_device(bytes, finished.device);
    finished.number
}

// A digest is given for the download held: 16 bytes.
#[tactic(auto, unfolding(exports::specs::Exports::device_give_digest_of, exports::specs::Exports::fact, basis::specs::Choice::pick))]
#[unsafe(no_mangle)]
pub extern "C" fn pcp_raw_device_give_digest(bytes: &mut [u8], digest: &[u8]) -> u8
    ensures { record { answer = result; bytes = bytes.new } ≡ device_give_digest_of bytes.old digest.now }
{
    if bytes.len() < layout::DEVICE_LENGTH {
        return Refusal::ShortRecord.number();
    }
    if digest.len() != 16 {
        return Refusal::ShortRecord.number();
    }
    let wanted = basis::sixteen_at(digest, 0);
    let given = device::give_digest(layout::device_at(bytes), wanted);
    layout::keep_device(bytes, given.device);
    given.number
}
