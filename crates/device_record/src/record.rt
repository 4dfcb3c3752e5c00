//! The record of the device: how it is made anew, whether it keeps the rules (29), and the room
//! that it needs (14).
ghost use Rattle.std.specs.Prelude.{◌≡◌, eqb};
ghost use Rattle.basis.specs.Choice.{pick};
ghost use Rattle.device_record.specs.Record.{fresh, in_phase, begun, with_fragment, with_outcome, holding, condition_ok, download_ok, record_ok, map_bytes};
ghost use Rattle.device_record.specs.Record.{with_digest, memory_ok};

use crate::{Condition, Device, Expected};
use message::Fields;

// Idle, with a version that runs and is the target too.
pub(crate) fn fresh(version: [u8; 16]) -> Device
    ensures { result ≡ fresh version }
{
    Device {
        phase: Device::IDLE,
        running: version,
        fields: Fields {
            version,
            size: 0,
            total: 0,
            code: 0,
        },
        stored: 0,
        last: 0,
        outcome: 0,
        expected: Expected::NONE,
    }
}

/// Only the phase changes.
pub fn in_phase(device: Device, phase: u8) -> Device
    ensures { result ≡ in_phase phase device }
{
    Device { phase, ..device }
}

/// An announcement taken up afresh: no fragment is stored, and no digest is expected.
pub fn begun(device: Device, fields: Fields) -> Device
    ensures { result ≡ begun fields device }
{
    Device {
        phase: Device::LOADING,
        fields,
        stored: 0,
        last: 0,
        expected: Expected::NONE,
        ..device
    }
}

/// A fragment more: the phase, the count and the last length with it.
pub fn with_fragment(device: Device, phase: u8, stored: u16, last: u16) -> Device
    ensures { result ≡ with_fragment phase stored last device }
{
    Device {
        phase,
        stored,
        last,
        ..device
    }
}

/// The installer's code kept. With 00 the target runs from now on.
#[tactic(auto, unfolding(basis::specs::Choice::pick))]
pub fn with_outcome(device: Device, code: u8) -> Device
    ensures { result
        ≡ with_outcome code (pick (eqb code 0) device.fields.version device.running) device }
{
    let running = if code == 0x00 {
        device.fields.version
    } else {
        device.running
    };
    Device {
        phase: Device::REPORTING,
        running,
        outcome: code,
        ..device
    }
}

/// A digest given, in the place of one that was given before.
pub fn with_digest(device: Device, digest: [u8; 16]) -> Device
    ensures { result ≡ with_digest digest device }
{
    Device {
        expected: Expected { set: 1, digest },
        ..device
    }
}

/// Phases 1 to 3: a download is held.
#[tactic(auto, unfolding(crate::specs::Record::holding))]
pub fn holding(phase: u8) -> bool
    ensures { result ≡ holding phase }
{
    matches!(phase, Device::LOADING..=Device::ACKED)
}

/// Whether the number is that of a `Condition`.
#[tactic(auto, unfolding(crate::specs::Record::condition_ok, basis::specs::Choice::one_of))]
pub fn condition_ok(condition: u8) -> bool
    ensures { result ≡ condition_ok condition }
{
    Condition::try_from(condition).is_ok()
}

// The download that phases 1 to 6 speak of.
#[tactic(auto, unfolding(crate::specs::Record::download_ok, message::specs::Limits::size_ok, message::specs::Limits::total_ok))]
fn download_ok(device: Device) -> bool
    ensures { result ≡ download_ok device }
{
    let Fields { size, total, .. } = device.fields;
    (Device::SIZE_MIN..=Device::SIZE_MAX).contains(&size)
        && (1..=Device::TOTAL_MAX).contains(&total)
        && device.stored <= total
        && !(device.phase == Device::LOADING && device.stored == total)
        && device.last <= size
}

/// Whether the record keeps the rules.
// Called, and not laid into each call of the device: there the record is copied twice more, which takes
// twice the stack.
#[tactic(auto, unfolding(crate::specs::Record::record_ok, basis::specs::Choice::pick))]
#[inline(never)]
pub fn record_ok(device: Device) -> bool
    ensures { result ≡ record_ok device }
{
    device.phase <= Device::REPORTING
        && message::install_code(device.outcome)
        && device.expected.set <= 1
        && message::good_version(device.running)
        && message::good_version(device.fields.version)
        && (device.phase == Device::IDLE || download_ok(device))
}

/// How many bytes a map of so many fragments has: a bit for each.
#[tactic(auto, unfolding(crate::specs::Record::map_bytes))]
pub fn map_bytes(total: u16) -> usize
    ensures { result ≡ map_bytes total }
{
    usize::from(total).div_ceil(8)
}

/// Whether image and map have room for the download that the record speaks of.
#[tactic(auto, unfolding(crate::specs::Record::memory_ok, basis::specs::Choice::pick))]
pub fn memory_ok(device: Device, image: &[u8], map: &[u8]) -> bool
    ensures { result ≡ memory_ok device image.now map.now }
{
    let Fields { size, total, .. } = device.fields;
    !holding(device.phase)
        || basis::product(size, total) <= image.len() && map_bytes(total) <= map.len()
}
