//! PCP messages: recognition, version text, and the twelve messages with what may stand in them.
#![tactic(auto)]

mod announcement;
pub mod laws;
mod ranges;
mod recognition;
mod version;

pub use announcement::{fields_at, put_fields};
pub use ranges::{device_valid, gateway_valid, install_code};
pub use recognition::recognise;
pub use version::{good_version, same_version, version_at, version_length};

/// The protocol version: what is written as the version byte, and what its lower four bits must be.
pub const PROTOCOL_VERSION: u8 = 0x01;

/// The four fields of an announcement, which name a package: version text, fragment size, number of
/// fragments, and check code.
#[derive(Clone, Copy, Debug, PartialEq, Eq)]
pub struct Fields {
    pub version: [u8; 16],
    pub size: u16,
    pub total: u16,
    pub code: u16,
}

impl Fields {
    /// The bytes of a version text.
    pub const VERSION_LENGTH: usize = 16;

    /// The bytes of the four fields, one behind the other.
    pub const LENGTH: usize = Fields::VERSION_LENGTH + 6;

    /// The least size of a fragment, in bytes.
    pub const SIZE_MIN: u16 = 32;

    /// The greatest size of a fragment, in bytes.
    pub const SIZE_MAX: u16 = 1024;

    /// The greatest number of fragments.
    pub const TOTAL_MAX: u16 = 65535;
}

/// A message toward the device. It may hold any values: `device_valid` tells those that are allowed.
// A result is a number, and no enum of those that are allowed: `device_valid` tells of any, and
// `write_to_device` refuses the others.
#[derive(Clone, Copy, Debug, PartialEq, Eq)]
pub enum ToDevice<'a> {
    Query,
    Announce(Fields),
    Fragment {
        result: u8,
        index: u16,
        content: &'a [u8],
    },
    DownloadReply(u8),
    Execute,
    ResultReply(u8),
}

impl ToDevice<'_> {
    /// The least buffer of the gateway, which sends these: its longest message is a full fragment.
    pub const ROOM: usize = 11 + Fields::SIZE_MAX as usize;
}

/// A message toward the gateway. It may hold any values: `gateway_valid` tells those that are allowed.
// Its results are numbers for the same reason: `gateway_valid`, `write_to_gateway`.
#[derive(Clone, Copy, Debug, PartialEq, Eq)]
pub enum ToGateway {
    QueryReply { result: u8, version: [u8; 16] },
    AnnounceReply(u8),
    FragmentRequest { version: [u8; 16], index: u16 },
    DownloadReport(u8),
    ExecuteReply(u8),
    ResultReport { result: u8, version: [u8; 16] },
}

impl ToGateway {
    /// The least buffer of the device, which sends these: its longest message is a fragment request.
    pub const ROOM: usize = 8 + Fields::VERSION_LENGTH + 2;
}
