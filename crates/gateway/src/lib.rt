//! The gateway's end of an upgrade (platform): the calls that a host makes of it. One package, one
//! device.
#![tactic(auto)]

mod calls;
mod handlers;
mod messages;
mod sound;
mod steps;

pub use calls::{next_message, receive};
pub use gateway_record::{Ending, Gateway, Phase, Started, fragment};
pub use gateway_rules::Answer;
pub use sound::SoundGateway;
