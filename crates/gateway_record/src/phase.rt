//! Where a gateway is, and how it ended.
ghost use Rattle.std.specs.Prelude.{◌≡◌};
ghost use Rattle.gateway_record.specs.Phases.{code_of, phase_at, ending_code, ending_at};

use basis::Refusal;

// Each of these enums has its two conversions written out: the gate takes no impl that a macro of our
// own writes.

/// The phases of a gateway, by their numbers in the record.
#[derive(Clone, Copy, Debug, PartialEq, Eq)]
pub enum Phase {
    /// It asks for the version that runs.
    Ask = 0,
    /// It announces the package.
    Offer = 1,
    /// It gives fragments.
    Serve = 2,
    /// It asks for the upgrade, and gives fragments.
    Run = 3,
    /// It is done.
    Ended = 4,
}

impl Phase {
    /// The number in the record.
    pub fn code(self) -> u8
        ensures { result ≡ code_of self }
    {
        self as u8
    }
}

/// The phase with that number, 0 to 4; a record with any other breaks the rules.
impl TryFrom<u8> for Phase {
    type Error = Refusal;

    ghost try_from_gives = { λ number phase. phase ≡ phase_at number };

    fn try_from(number: u8) -> Result<Phase, Refusal> {
        match number {
            0 => Ok(Phase::Ask),
            1 => Ok(Phase::Offer),
            2 => Ok(Phase::Serve),
            3 => Ok(Phase::Run),
            4 => Ok(Phase::Ended),
            _ => Err(Refusal::BadRecord),
        }
    }
}

/// How an upgrade ended, by the numbers in the record.
#[derive(Clone, Copy, Debug, PartialEq, Eq)]
pub enum Ending {
    /// The target runs.
    Success = 0,
    /// The target ran before.
    AlreadyRunning = 1,
    /// The device did not take the announcement.
    NotAccepted = 2,
    /// The device did not get the package.
    DownloadFailed = 3,
    /// The device did not take the order to install.
    NotExecuted = 4,
    /// The install failed, or another version runs.
    UpgradeFailed = 5,
}

impl Ending {
    /// The number in the record.
    pub fn code(self) -> u8
        ensures { result ≡ ending_code self }
    {
        self as u8
    }
}

/// The ending with that number, 0 to 5; a record with any other breaks the rules.
impl TryFrom<u8> for Ending {
    type Error = Refusal;

    ghost try_from_gives = { λ number ending. ending ≡ ending_at number };

    fn try_from(number: u8) -> Result<Ending, Refusal> {
        match number {
            0 => Ok(Ending::Success),
            1 => Ok(Ending::AlreadyRunning),
            2 => Ok(Ending::NotAccepted),
            3 => Ok(Ending::DownloadFailed),
            4 => Ok(Ending::NotExecuted),
            5 => Ok(Ending::UpgradeFailed),
            _ => Err(Refusal::BadRecord),
        }
    }
}
