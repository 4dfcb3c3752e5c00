//! The calls of a record as plain data, which keeps the rules or not.
ghost use Rattle.std.specs.Prelude.{◌≡◌, ℕ, List};
ghost use Rattle.codec.specs.Answers.{sent};
ghost use Rattle.device_rules.specs.Rules.{receive_of, next_message_of, install_finished_of, give_digest_of};
ghost use Rattle.device_rules.specs.Answers.{after_call};
ghost use Rattle.device.specs.Left.{left};

use crate::sound::SoundDevice;
use basis::{Refusal, answered};
use device_record::{Device, asking, finishing, giving, receiving, with_digest, with_outcome};
use device_rules::{Answer, DigestAnswer, Finished};

// What a message that was given is answered with.
fn answer(outcome: Result<usize, Refusal>, device: Device) -> Answer
    ensures { (image map reply : List ℕ) → after_call result image map reply
        ≡ left outcome device image map reply }
{
    match outcome {
        Ok(length) => Answer {
            number: 0,
            length,
            device,
        },
        Err(refusal) => Answer {
            number: refusal.number(),
            length: 0,
            device,
        },
    }
}

/// A message is given: `SoundDevice::receive` of a record that keeps the rules. On 0 the reply
/// fills the front of its buffer; on any other number nothing is written; with the number 23 the
/// record that is returned is in Failed. A record that breaks the rules is 29, behind 15 and 13.
#[tactic(auto, unfolding(basis::specs::Choice::pick, basis::specs::Choice::refusal, device_rules::specs::Rules::receive_of))]
pub fn receive(
    device: Device,
    supported: bool,
    pcp: bool,
    condition: u8,
    message: &[u8],
    image: &mut [u8],
    map: &mut [u8],
    reply: &mut [u8],
) -> Answer
    ensures { after_call result image.new map.new reply.new
        ≡ receive_of device image.old map.old reply.old supported pcp condition message.now }
{
    let Ok(mut sound) = SoundDevice::try_from(device) else {
        let refused = receiving(device, condition, image, map, reply);
        return Answer {
            number: answered(refused),
            length: 0,
            device,
        };
    };
    let outcome = sound.receive(supported, pcp, condition, message, image, map, reply);
    answer(outcome, sound.as_record())
}

/// The device is asked for its next message: `SoundDevice::next_message` of a record that keeps the
/// rules. One that breaks them is 29, behind 15.
#[tactic(auto, unfolding(basis::specs::Choice::pick, basis::specs::Choice::refusal, codec::specs::Codec::said, device_rules::specs::Rules::next_message_of))]
pub fn next_message(
    device: Device,
    image: &[u8],
    map: &[u8],
    reply: &mut [u8],
) -> Result<usize, Refusal>
    ensures { sent result reply.new ≡ next_message_of device image.now map.now reply.old }
{
    let Ok(sound) = SoundDevice::try_from(device) else {
        // The guard refuses such a record, in its order: the line behind it is never reached.
        asking(device, image, map, reply)?;
        return Err(Refusal::BadRecord);
    };
    sound.next_message(image, map, reply)
}

/// The installer has ended with a code: `SoundDevice::install_finished` of a record that keeps the
/// rules. One that breaks them is 29.
// By the guard and the plain record, as a digest below: a device made of it for one field would test
// the record a second time.
#[tactic(auto, unfolding(basis::specs::Choice::pick, basis::specs::Choice::refusal, device_rules::specs::Rules::install_finished_of))]
pub fn install_finished(device: Device, code: u8) -> Finished
    ensures { result ≡ install_finished_of device code }
{
    let number = answered(finishing(device, code));
    let device = if number == 0 {
        with_outcome(device, code)
    } else {
        device
    };
    Finished { number, device }
}

/// A digest is given, which the completed bytes of the download held must have:
/// `SoundDevice::give_digest` of a record that keeps the rules. One that breaks them is 29.
#[tactic(auto, unfolding(basis::specs::Choice::pick, basis::specs::Choice::refusal, device_rules::specs::Rules::give_digest_of))]
pub fn give_digest(device: Device, digest: [u8; 16]) -> DigestAnswer
    ensures { result ≡ give_digest_of device digest }
{
    let number = answered(giving(device));
    let device = if number == 0 {
        with_digest(device, digest)
    } else {
        device
    };
    DigestAnswer { number, device }
}
