//! What each call is refused for before anything is done: the first test that fails.
ghost use Rattle.std.specs.Prelude.{◌≡◌};
ghost use Rattle.basis.specs.Refusals.{answered};
ghost use Rattle.gateway_record.specs.Record.{start_refusal, call_refusal};

use crate::Gateway;
use crate::fragments::{length_ok, size_ok};
use crate::record::record_ok;
use basis::{Refusal, require};

/// A start: the version text, the fragment size, the package's length in bytes.
///
/// # Errors
///
/// `BadVersionText`, `BadSize`, `BadPackage`, in this order.
#[tactic(auto, unfolding(basis::specs::Choice::refusal, basis::specs::Choice::pick))]
pub fn starting(version: [u8; 16], size: u16, length: usize) -> Result<(), Refusal>
    ensures { answered result ≡ start_refusal version size length }
{
    require(message::good_version(version), Refusal::BadVersionText)?;
    require(size_ok(size), Refusal::BadSize)?;
    require(length_ok(length, size), Refusal::BadPackage)
}

/// A message is given, or the next one asked for, with a package and a reply buffer of so many bytes.
///
/// # Errors
///
/// `ShortReply`, `BadRecord`, `BadMemory` (the package's length is not the one at the start), in this
/// order.
#[tactic(auto, unfolding(basis::specs::Choice::refusal, basis::specs::Choice::pick))]
pub fn calling(gateway: Gateway, content: usize, reply: usize) -> Result<(), Refusal>
    ensures { answered result ≡ call_refusal gateway content reply }
{
    require(Gateway::REPLY_ROOM <= reply, Refusal::ShortReply)?;
    require(record_ok(gateway), Refusal::BadRecord)?;
    require(content == gateway.length, Refusal::BadMemory)
}
