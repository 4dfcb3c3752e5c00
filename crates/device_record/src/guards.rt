//! What each call is refused for before anything is done: the first test that fails, in order.
ghost use Rattle.std.specs.Prelude.{◌≡◌, [], ◌∷◌};
ghost use Rattle.basis.specs.Choice.{refusal};
ghost use Rattle.basis.specs.Numbers.{bad_memory, bad_record};
ghost use Rattle.basis.specs.Refusals.{answered};
ghost use Rattle.device_record.specs.Record.{record_ok, memory_ok, receive_refusal, ask_refusal, finish_refusal, give_refusal};

use crate::Device;
use crate::record::{condition_ok, memory_ok, record_ok};
use basis::{Refusal, require};

// The record and the buffers that are lent.
#[tactic(auto, unfolding(basis::specs::Choice::pick, basis::specs::Choice::refusal))]
fn lent(device: Device, image: &[u8], map: &[u8]) -> Result<(), Refusal>
    ensures { answered result
        ≡ refusal
        ((bad_record, record_ok device) ∷ (bad_memory, memory_ok device image.now map.now) ∷ []) }
{
    require(record_ok(device), Refusal::BadRecord)?;
    require(memory_ok(device, image, map), Refusal::BadMemory)
}

/// Why a message is not taken: the reply buffer is short (15), the condition is unknown (13), the
/// record breaks the rules (29), image or map is too short (14).
#[tactic(auto, unfolding(basis::specs::Choice::pick, basis::specs::Choice::refusal))]
pub fn receiving(
    device: Device,
    condition: u8,
    image: &[u8],
    map: &[u8],
    reply: &[u8],
) -> Result<(), Refusal>
    ensures { answered result ≡ receive_refusal device condition image.now map.now reply.now }
{
    require(Device::REPLY_ROOM <= reply.len(), Refusal::ShortReply)?;
    require(condition_ok(condition), Refusal::UnknownCondition)?;
    lent(device, image, map)
}

/// Why the next message cannot be asked for: the reply buffer is short (15), the record breaks the
/// rules (29), image or map is too short (14).
#[tactic(auto, unfolding(basis::specs::Choice::pick, basis::specs::Choice::refusal))]
pub fn asking(device: Device, image: &[u8], map: &[u8], reply: &[u8]) -> Result<(), Refusal>
    ensures { answered result ≡ ask_refusal device image.now map.now reply.now }
{
    require(Device::REPLY_ROOM <= reply.len(), Refusal::ShortReply)?;
    lent(device, image, map)
}

/// Why the installer's end is not taken: the record breaks the rules (29), the phase is not
/// Installing (9), the installer's code is unknown (16).
#[tactic(auto, unfolding(basis::specs::Choice::pick, basis::specs::Choice::refusal))]
pub fn finishing(device: Device, code: u8) -> Result<(), Refusal>
    ensures { answered result ≡ finish_refusal device code }
{
    require(record_ok(device), Refusal::BadRecord)?;
    require(device.phase == Device::INSTALLING, Refusal::NoUse)?;
    require(message::install_code(code), Refusal::BadInstallCode)
}

/// Why a digest is not taken: the record breaks the rules (29), the phase is not Loading (9).
#[tactic(auto, unfolding(basis::specs::Choice::pick, basis::specs::Choice::refusal))]
pub fn giving(device: Device) -> Result<(), Refusal>
    ensures { answered result ≡ give_refusal device }
{
    require(record_ok(device), Refusal::BadRecord)?;
    require(device.phase == Device::LOADING, Refusal::NoUse)
}
