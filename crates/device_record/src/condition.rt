//! What a host says of the device when it gives a message.
ghost use Rattle.std.specs.Prelude.{◌≡◌};
ghost use Rattle.device_record.specs.Conditions.{condition_code};

use basis::Refusal;

// Each of these enums has its two conversions written out: the gate takes no impl that a macro of our
// own writes.

/// The conditions that a host may state.
#[derive(Clone, Copy, Debug, PartialEq, Eq)]
pub enum Condition {
    /// Nothing stands in the way.
    Ready = 0,
    /// The device is busy.
    Busy = 1,
    /// The signal is weak.
    WeakSignal = 2,
    /// The power is low.
    LowPower = 4,
    /// Another obstacle, of the device's own.
    Internal = 127,
}

impl Condition {
    /// The number that hosts state: 0, 1, 2, 4 or 127.
    pub fn code(self) -> u8
        ensures { result ≡ condition_code self }
    {
        self as u8
    }
}

impl TryFrom<u8> for Condition {
    type Error = Refusal;

    ghost use Rattle.device_record.specs.Conditions.{condition_at};

    ghost try_from_gives = { λ number condition. condition ≡ condition_at number };

    fn try_from(number: u8) -> Result<Condition, Refusal> {
        match number {
            0 => Ok(Condition::Ready),
            1 => Ok(Condition::Busy),
            2 => Ok(Condition::WeakSignal),
            4 => Ok(Condition::LowPower),
            127 => Ok(Condition::Internal),
            _ => Err(Refusal::UnknownCondition),
        }
    }
}
