//! Where a device is in an upgrade.
ghost use Rattle.std.specs.Prelude.{◌≡◌};
ghost use Rattle.device_record.specs.Phases.{code_of};

use basis::Refusal;

// Each of these enums has its two conversions written out: the gate takes no impl that a macro of our
// own writes.

/// The phases. Their numbers stand in the record.
#[derive(Clone, Copy, Debug, PartialEq, Eq)]
pub enum Phase {
    /// No download is held.
    Idle = 0,
    /// A download is held, and fragments of it are missing.
    Loading = 1,
    /// All fragments are stored, and the completed bytes pass.
    Loaded = 2,
    /// The gateway has acknowledged the completed download.
    Acked = 3,
    /// The completed bytes do not pass, or a fragment came again with other bytes.
    Failed = 4,
    /// The installer runs.
    Installing = 5,
    /// The installer has ended, and the gateway is to be told how.
    Reporting = 6,
}

impl Phase {
    /// The number that stands in the record: 0 to 6.
    pub fn code(self) -> u8
        ensures { result ≡ code_of self }
    {
        self as u8
    }
}

// A record with any other number breaks the rules.
impl TryFrom<u8> for Phase {
    type Error = Refusal;

    ghost use Rattle.device_record.specs.Phases.{phase_at};

    ghost try_from_gives = { λ number phase. phase ≡ phase_at number };

    fn try_from(number: u8) -> Result<Phase, Refusal> {
        match number {
            0 => Ok(Phase::Idle),
            1 => Ok(Phase::Loading),
            2 => Ok(Phase::Loaded),
            3 => Ok(Phase::Acked),
            4 => Ok(Phase::Failed),
            5 => Ok(Phase::Installing),
            6 => Ok(Phase::Reporting),
            _ => Err(Refusal::BadRecord),
        }
    }
}
