//! The device's end of an upgrade: a record that keeps the rules, its calls as methods, and the
//! same calls of a record as plain data.
#![tactic(auto)]

mod calls;
mod handlers;
mod messages;
mod sound;
mod steps;

pub use calls::{give_digest, install_finished, next_message, receive};
pub use device_record::{Condition, Device, Made, Phase};
pub use device_rules::{Answer, DigestAnswer, Finished};
pub use sound::SoundDevice;
