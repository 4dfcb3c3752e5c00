//! The record of the device: how it is made, whether it keeps the rules, and what each call is
//! refused for before anything is done.
#![tactic(auto)]

pub mod laws;

ghost use Rattle.std.specs.Prelude.{◌≡◌, ◌↔◌, IsNone, IfSome};
ghost use Rattle.device_record.specs.Record.{new_of};

use basis::Refusal;
use message::{Fields, ToGateway};

mod condition;
mod guards;
mod phase;
mod record;

pub use condition::Condition;
pub use guards::{asking, finishing, giving, receiving};
pub use phase::Phase;
pub use record::{
    begun, condition_ok, holding, in_phase, map_bytes, memory_ok, record_ok, with_digest,
    with_fragment, with_outcome,
};

/// The digest that the completed bytes must have, where one was given.
// The flag stands beside the digest, and no Option: hosts keep both in the record's bytes, and
// `layouts_lose_nothing` promises each of those back, the digest's beside a flag of 0 too.
#[derive(Clone, Copy, Debug, PartialEq, Eq)]
pub struct Expected {
    /// 0: none was given, and the digest counts for nothing; 1: this one.
    pub set: u8,
    pub digest: [u8; 16],
}

impl Expected {
    /// No digest was given.
    pub const NONE: Expected = Expected {
        set: 0,
        digest: [0; 16],
    };

    /// The digest, where one was given. The flag says so, never the digest's value.
    pub fn given(self) -> Option<[u8; 16]>
        ensures none { IsNone result ↔ (self.set ≡ 0) }
        ensures digest { IfSome result (λ digest. digest ≡ self.digest) }
    {
        if self.set == 0 {
            None
        } else {
            Some(self.digest)
        }
    }
}

/// What the device keeps between calls, as plain data: any bytes of a host are some record, and
/// `record_ok` says whether it keeps the rules.
// Phases and codes are numbers here, since the record is what hosts keep in bytes (`device_at`), and
// `receive_of` says of any number what is answered.
#[derive(Clone, Copy, Debug, PartialEq, Eq)]
pub struct Device {
    /// The number of a `Phase`: 0 to 6.
    pub phase: u8,
    /// The version that runs now.
    pub running: [u8; 16],
    /// The announced package. Its version is the target.
    pub fields: Fields,
    /// How many fragments are stored.
    pub stored: u16,
    /// The length of the last fragment in bytes, once it is stored.
    pub last: u16,
    /// The code with which the installer ended.
    pub outcome: u8,
    /// What the completed bytes must pass beside the package's code.
    pub expected: Expected,
}

/// What making a device answers: 0 and the device, or 17 and a record that every call refuses.
// No Result: `refused_making_is_unusable` speaks of the record of a refused making.
#[derive(Clone, Copy, Debug, PartialEq, Eq)]
pub struct Made {
    pub number: u8,
    pub device: Device,
}

impl Device {
    // The numbers of the phases, as the record has them in the bytes that hosts keep.
    pub const IDLE: u8 = Phase::Idle as u8;

    pub const LOADING: u8 = Phase::Loading as u8;

    pub const LOADED: u8 = Phase::Loaded as u8;

    pub const ACKED: u8 = Phase::Acked as u8;

    pub const FAILED: u8 = Phase::Failed as u8;

    pub const INSTALLING: u8 = Phase::Installing as u8;

    pub const REPORTING: u8 = Phase::Reporting as u8;

    /// The least size of a fragment in bytes.
    pub const SIZE_MIN: u16 = Fields::SIZE_MIN;

    /// The greatest size of a fragment in bytes.
    pub const SIZE_MAX: u16 = Fields::SIZE_MAX;

    /// The greatest number of fragments.
    pub const TOTAL_MAX: u16 = Fields::TOTAL_MAX;

    /// The least length of a reply buffer in bytes.
    pub const REPLY_ROOM: usize = ToGateway::ROOM;

    /// A fresh device, from the version that runs; 17 where its text is bad.
    #[tactic(auto, unfolding(crate::specs::Record::new_of, basis::specs::Choice::pick))]
    pub fn new(version: [u8; 16]) -> Made
        ensures { result ≡ new_of version }
    {
        if message::good_version(version) {
            Made {
                number: 0,
                device: record::fresh(version),
            }
        } else {
            Made {
                number: Refusal::BadVersionText.number(),
                device: record::fresh([0; 16]),
            }
        }
    }
}
