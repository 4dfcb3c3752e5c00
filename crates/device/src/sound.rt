//! A device whose record keeps the rules. What it is made of is written here alone.
ghost use Rattle.std.specs.Prelude.{◌≡◌, true, ◌≤◌, eqb, if◌then◌else◌, Ok, Err};
ghost use Rattle.basis.specs.Choice.{pick};
ghost use Rattle.basis.specs.declared.refusal.Refusal.TheVariants.{BadVersionText};
ghost use Rattle.message.specs.Messages.{install_code, announce, to_device};
ghost use Rattle.message.specs.Version.{good_version};
ghost use Rattle.device_record.specs.Phases.{code_of};
ghost use Rattle.device_record.specs.Record.{installing, loading, fresh, in_phase, begun, with_digest, with_fragment, with_outcome, record_ok};
ghost use Rattle.device.specs.Left.{completes, enters};

use basis::{Refusal, require};
use device_record::{
    Device, Expected, Phase, begun, in_phase, with_digest, with_fragment, with_outcome,
};
use message::Fields;
use std::marker::Model;

/// A device whose record keeps the rules. No call of it is refused with 29, but an ask in Loading with
/// a map in which no fragment is missing.
#[derive(Clone, Copy, Debug, PartialEq, Eq)]
pub struct SoundDevice {
    phase: Phase,
    running: [u8; 16],
    fields: Fields,
    stored: u16,
    last: u16,
    outcome: u8,
    expected: Expected,
}

// Clauses see the plain record.
impl Model for SoundDevice {
    ghost use Rattle.std.specs.Prelude.{◌≡◌, true};
    ghost use Rattle.device_record.specs.declared.Device.{Device};
    ghost use Rattle.device_record.specs.Record.{record_ok};

    ghost Value = { Device };

    ghost use Rattle.device.specs.Sound.{shown, hidden};

    ghost view = { shown };

    ghost invariant = { λ s. record_ok (shown s) ≡ true };

    ghost inverse = { hidden };
}

impl SoundDevice {
    /// A fresh device, from the version that runs; `BadVersionText` where its text is bad.
    #[tactic(auto, unfolding(basis::specs::Choice::one_of, basis::specs::Choice::pick, message::specs::Messages::install_code, device_record::specs::Record::new_of, device_record::specs::Record::record_ok))]
    pub fn new(version: [u8; 16]) -> Result<SoundDevice, Refusal>
        ensures { result
            ≡ (if good_version version then Ok (fresh version) else Err BadVersionText) }
    {
        require(message::good_version(version), Refusal::BadVersionText)?;
        Ok(SoundDevice::of(Device::new(version).device, Phase::Idle))
    }

    /// The record as plain data.
    pub fn as_record(&self) -> Device
        ensures same { result ≡ self.now }
        ensures sound { record_ok self.now ≡ true }
    {
        Device {
            phase: self.phase.code(),
            running: self.running,
            fields: self.fields,
            stored: self.stored,
            last: self.last,
            outcome: self.outcome,
            expected: self.expected,
        }
    }

    /// The phase.
    pub fn phase(&self) -> Phase
        ensures code { code_of result ≡ self.now.phase }
        ensures sound { record_ok self.now ≡ true }
    {
        self.phase
    }

    // A record that keeps the rules, with its phase.
    fn of(kept: Device, phase: Phase) -> SoundDevice
        requires sound { record_ok kept ≡ true }
        requires phase { code_of phase ≡ kept.phase }
        ensures { result ≡ kept }
    {
        let Device {
            phase: _,
            running,
            fields,
            stored,
            last,
            outcome,
            expected,
        } = kept;
        SoundDevice {
            phase,
            running,
            fields,
            stored,
            last,
            outcome,
            expected,
        }
    }

    // Only the phase changes, to Idle from any, or from one that holds a download to one past
    // Loading.
    #[tactic(auto, unfolding(basis::specs::Choice::pick, device_record::specs::Record::record_ok, device_record::specs::Record::download_ok))]
    pub(crate) fn enter(&mut self, phase: Phase)
        requires { enters self.old.phase phase ≡ true }
        ensures { self.new ≡ in_phase (code_of phase) self.old }
    {
        *self = SoundDevice::of(in_phase(self.as_record(), phase.code()), phase);
    }

    // An announcement taken up afresh.
    #[tactic(auto, unfolding(basis::specs::Choice::pick, device_record::specs::Record::record_ok, device_record::specs::Record::download_ok, message::specs::Messages::device_row, message::specs::Limits::total_ok))]
    pub(crate) fn begin(&mut self, fields: Fields)
        requires { to_device.valid (announce fields) ≡ true }
        ensures { self.new ≡ begun fields self.old }
    {
        *self = SoundDevice::of(begun(self.as_record(), fields), Phase::Loading);
    }

    // A fragment more: the phase, the count and the last length with it.
    #[tactic(auto, unfolding(basis::specs::Choice::pick, device_record::specs::Record::record_ok, device_record::specs::Record::download_ok))]
    pub(crate) fn keep_fragment(&mut self, phase: Phase, stored: u16, last: u16)
        requires loading { self.old.phase ≡ loading }
        requires stored { stored ≤ self.old.fields.total }
        requires last { last ≤ self.old.fields.size }
        requires phase { completes phase stored self.old.fields.total ≡ true }
        ensures { self.new ≡ with_fragment (code_of phase) stored last self.old }
    {
        let kept = with_fragment(self.as_record(), phase.code(), stored, last);
        *self = SoundDevice::of(kept, phase);
    }

    // The installer's code kept. With 00 the target runs from now on.
    #[tactic(auto, unfolding(basis::specs::Choice::pick, device_record::specs::Record::record_ok, device_record::specs::Record::download_ok))]
    pub(crate) fn report(&mut self, code: u8)
        requires installing { self.old.phase ≡ installing }
        requires known { install_code code ≡ true }
        ensures { self.new
            ≡ with_outcome code
            (pick (eqb code 0) self.old.fields.version self.old.running) self.old }
    {
        *self = SoundDevice::of(with_outcome(self.as_record(), code), Phase::Reporting);
    }

    // A digest for the download held, in the place of one that was given before.
    #[tactic(auto, unfolding(basis::specs::Choice::pick, device_record::specs::Record::record_ok, device_record::specs::Record::download_ok))]
    pub(crate) fn expect(&mut self, digest: [u8; 16])
        ensures { self.new ≡ with_digest digest self.old }
    {
        *self = SoundDevice::of(with_digest(self.as_record(), digest), self.phase);
    }
}

// 29 for a record that breaks the rules.
impl TryFrom<Device> for SoundDevice {
    type Error = Refusal;

    ghost use Rattle.std.specs.Prelude.{◌≡◌, if◌then◌else◌, Ok, Err};
    ghost use Rattle.basis.specs.declared.refusal.Refusal.TheVariants.{BadRecord};
    ghost use Rattle.device_record.specs.Record.{record_ok};

    ghost try_from_gives = { λ d sound. sound ≡ (if record_ok d then Ok d else Err BadRecord) };

    #[tactic(auto, unfolding(device_record::specs::Record::record_ok))]
    fn try_from(kept: Device) -> Result<SoundDevice, Refusal> {
        require(device_record::record_ok(kept), Refusal::BadRecord)?;
        let phase = Phase::try_from(kept.phase)?;
        Ok(SoundDevice::of(kept, phase))
    }
}

impl From<SoundDevice> for Device {
    ghost from_gives = { λ sound kept. kept ≡ sound };

    fn from(sound: SoundDevice) -> Device {
        sound.as_record()
    }
}
