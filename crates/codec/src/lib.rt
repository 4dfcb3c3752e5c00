//! PCP messages as bytes: the twelve messages read and written.
#![tactic(auto)]

mod messages;
mod read;
mod write;

pub use read::{read_to_device, read_to_gateway};
pub use write::{say_to_device, say_to_gateway, write_to_device, write_to_gateway};

/// Where the code of a message stands.
pub const CODE: usize = 3;

/// Where the data of a message begins.
pub const DATA: usize = 8;
