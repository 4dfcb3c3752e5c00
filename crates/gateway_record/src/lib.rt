//! The record of the gateway: how it is started, whether it keeps the rules, and what each call is
//! refused for before anything is done; and the package in fragments.
#![tactic(auto)]

pub mod laws;

ghost use Rattle.std.specs.Prelude.{◌≡◌};
ghost use Rattle.gateway_record.specs.Record.{start_of};

use message::{Fields, ToDevice};

mod fragments;
mod guards;
mod phase;
mod record;

pub use fragments::{announced_total, fragment, length_ok, package_fields, size_ok};
pub use guards::{calling, starting};
pub use phase::{Ending, Phase};
pub use record::{ended_with, in_phase, record_ok};

/// What the gateway keeps between calls, as plain data. The host keeps it, and lends it by value to
/// every call, with the package beside it. Phase and ending are numbers here: a host's bytes may hold
/// any, and a record that breaks the rules is refused.
#[derive(Clone, Copy)]
pub struct Gateway {
    /// A `Phase`: 0 Ask, 1 Offer, 2 Serve, 3 Run, 4 Ended.
    pub phase: u8,
    /// The number of an `Ending`: 0 until Ended.
    pub ending: u8,
    /// What is announced. Its version is the target.
    pub fields: Fields,
    /// The package's length in bytes.
    pub length: usize,
}

/// What starting a gateway answers: 0 and the gateway, or the number of the refusal and a record that
/// every call refuses.
// No Result: `refused_start_is_unusable` speaks of the record of a refused start.
#[derive(Clone, Copy)]
pub struct Started {
    pub number: u8,
    pub gateway: Gateway,
}

impl Gateway {
    // The numbers of the phases, as the record has them in the bytes that hosts keep.
    pub const ASK: u8 = Phase::Ask as u8;

    pub const OFFER: u8 = Phase::Offer as u8;

    pub const SERVE: u8 = Phase::Serve as u8;

    pub const RUN: u8 = Phase::Run as u8;

    pub const ENDED: u8 = Phase::Ended as u8;

    // The numbers of the endings, likewise.
    pub const SUCCESS: u8 = Ending::Success as u8;

    pub const ALREADY_RUNNING: u8 = Ending::AlreadyRunning as u8;

    pub const NOT_ACCEPTED: u8 = Ending::NotAccepted as u8;

    pub const DOWNLOAD_FAILED: u8 = Ending::DownloadFailed as u8;

    pub const NOT_EXECUTED: u8 = Ending::NotExecuted as u8;

    pub const UPGRADE_FAILED: u8 = Ending::UpgradeFailed as u8;

    /// The limits of a fragment's size in bytes and of their number, and the least reply buffer.
    pub const SIZE_MIN: u16 = Fields::SIZE_MIN;

    pub const SIZE_MAX: u16 = Fields::SIZE_MAX;

    pub const TOTAL_MAX: u16 = Fields::TOTAL_MAX;

    pub const REPLY_ROOM: usize = ToDevice::ROOM;

    /// A gateway for a package: the version text, the fragment size, the package's bytes, and whether
    /// its check code is the check of those bytes or 0.
    #[tactic(auto, unfolding(crate::specs::Record::start_of, basis::specs::Choice::pick))]
    pub fn start(version: [u8; 16], size: u16, content: &[u8], checked: bool) -> Started
        ensures { result ≡ start_of version size content.now checked }
    {
        if let Err(refusal) = starting(version, size, content.len()) {
            return Started {
                number: refusal.number(),
                gateway: record::started([0; 16], 0, 0, 0),
            };
        }
        let code = fragments::code_of(content, checked);
        Started {
            number: 0,
            gateway: record::started(version, size, content.len(), code),
        }
    }
}
