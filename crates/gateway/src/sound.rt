//! A gateway whose record keeps the rules. What it is made of is written here alone.
ghost use Rattle.std.specs.Prelude.{◌≡◌, true};
ghost use Rattle.gateway_record.specs.Record.{in_phase, ended_with, record_ok};
ghost use Rattle.gateway_record.specs.Phases.{code_of, ending_code};

use basis::{Refusal, require};
use gateway_record::{Ending, Gateway, Phase, record_ok};
use message::Fields;
use std::marker::Model;

/// A gateway whose record keeps the rules: no call of it answers 29.
#[derive(Clone, Copy)]
pub struct SoundGateway {
    phase: Phase,
    ending: Ending,
    // What is announced. Its version is the target.
    fields: Fields,
    // The package's length in bytes.
    length: usize,
}

// Clauses see the plain record.
impl Model for SoundGateway {
    ghost use Rattle.std.specs.Prelude.{◌≡◌, true};
    ghost use Rattle.gateway_record.specs.declared.Gateway.{Gateway};
    ghost use Rattle.gateway_record.specs.Record.{record_ok};

    ghost Value = { Gateway };

    ghost use Rattle.gateway.specs.Sound.{shown, hidden};

    ghost view = { shown };

    ghost invariant = { λ g. record_ok (shown g) ≡ true };

    ghost inverse = { hidden };
}

impl SoundGateway {
    /// The plain record, as a host keeps it.
    pub fn as_record(&self) -> Gateway
        ensures same { result ≡ self.now }
        ensures sound { record_ok self.now ≡ true }
    {
        Gateway {
            phase: self.phase.code(),
            ending: self.ending.code(),
            fields: self.fields,
            length: self.length,
        }
    }

    // The phase.
    pub(crate) fn phase(&self) -> Phase
        ensures { code_of result ≡ self.now.phase }
    {
        self.phase
    }

    // Only the phase changes.
    #[tactic(auto, unfolding(gateway_record::specs::Record::record_ok))]
    pub(crate) fn enter(&mut self, phase: Phase)
        ensures { self.new ≡ in_phase (code_of phase) self.old }
    {
        self.phase = phase;
    }

    // Ended, with its number.
    #[tactic(auto, unfolding(gateway_record::specs::Record::record_ok))]
    pub(crate) fn end(&mut self, ending: Ending)
        ensures { self.new ≡ ended_with (ending_code ending) self.old }
    {
        self.phase = Phase::Ended;
        self.ending = ending;
    }
}

// 29 for a record that breaks the rules.
impl TryFrom<Gateway> for SoundGateway {
    type Error = Refusal;

    ghost use Rattle.std.specs.Prelude.{◌≡◌, if◌then◌else◌, Ok, Err};
    ghost use Rattle.basis.specs.declared.refusal.Refusal.TheVariants.{BadRecord};
    ghost use Rattle.gateway_record.specs.Record.{record_ok};

    ghost try_from_gives = { λ d g. g ≡ (if record_ok d then Ok d else Err BadRecord) };

    #[tactic(auto, unfolding(gateway_record::specs::Record::record_ok))]
    fn try_from(gateway: Gateway) -> Result<SoundGateway, Refusal> {
        require(record_ok(gateway), Refusal::BadRecord)?;
        let phase = Phase::try_from(gateway.phase)?;
        let ending = Ending::try_from(gateway.ending)?;
        Ok(SoundGateway {
            phase,
            ending,
            fields: gateway.fields,
            length: gateway.length,
        })
    }
}

impl From<SoundGateway> for Gateway {
    ghost from_gives = { λ sound kept. kept ≡ sound };

    fn from(sound: SoundGateway) -> Gateway {
        sound.as_record()
    }
}
