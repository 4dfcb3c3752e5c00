//! Recognition: the tests 1 to 7 in their order. The first that fails gives its refusal.
ghost use Rattle.std.specs.Prelude.{◌≡◌, ◌≤◌, length, get_or, true, OnOk};
ghost use Rattle.basis.specs.Refusals.{answered};
ghost use Rattle.message.specs.Recognition.{start_holds, version_byte_holds, code_holds, check_holds, length_holds, recognition};

use crate::PROTOCOL_VERSION;
use basis::{Refusal, require};

/// 3: the first two bytes.
#[tactic(auto, unfolding(crate::specs::Recognition::start_holds))]
fn start_holds(message: &[u8]) -> bool
    ensures { result ≡ start_holds message.now }
{
    basis::byte_at(message, 0) == 0xFF && basis::byte_at(message, 1) == 0xFE
}

/// 4: the version byte. Its lower four bits alone count: the upper ones are reserved.
#[tactic(auto, unfolding(crate::specs::Recognition::version_byte_holds))]
fn version_byte_holds(message: &[u8]) -> bool
    ensures { result ≡ version_byte_holds message.now }
{
    basis::byte_at(message, 2) % 16 == PROTOCOL_VERSION
}

/// 5: the code.
#[tactic(auto, unfolding(crate::specs::Recognition::code_holds))]
fn code_holds(message: &[u8]) -> bool
    ensures value { result ≡ code_holds message.now }
    ensures within { result ≡ true → (19 ≤ get_or message.now 3 0) × (get_or message.now 3 0 ≤ 24) }
{
    (19..=24).contains(&basis::byte_at(message, 3))
}

/// 6: the check, over the message as it came, with its check field as 0000.
#[tactic(auto, unfolding(crate::specs::Recognition::check_holds))]
fn check_holds(message: &[u8]) -> bool
    ensures value { result ≡ check_holds message.now }
    ensures long { result ≡ true → 8 ≤ length message.now }
{
    8 <= message.len() && basis::word_at(message, 4) == checksum::message_check(message)
}

/// 7: the data length. It is asked of 8 bytes and more.
#[tactic(auto, unfolding(crate::specs::Recognition::length_holds))]
fn length_holds(message: &[u8]) -> bool
    requires { 8 ≤ length message.now }
    ensures { result ≡ length_holds message.now }
{
    usize::from(basis::word_at(message, 6)) == message.len() - 8
}

/// Nothing where the bytes are a PCP message, else the refusal of the first test that fails: 1 to 7.
/// The check runs only on what passes 1 to 5.
// The two facts are two arguments here and in all that reads or receives a message, as hosts state
// them, each by itself (`pcp_recognise`, `pcp_raw_device_receive`).
#[tactic(auto, unfolding(crate::specs::Recognition::recognition, basis::specs::Choice::refusal, basis::specs::Choice::pick))]
pub fn recognise(supported: bool, pcp: bool, message: &[u8]) -> Result<(), Refusal>
    ensures number { answered result ≡ recognition supported pcp message.now }
    ensures long { OnOk result (8 ≤ length message.now) }
    ensures code { OnOk result ((19 ≤ get_or message.now 3 0) × (get_or message.now 3 0 ≤ 24)) }
{
    require(supported, Refusal::Unsupported)?;
    require(pcp, Refusal::OtherProtocol)?;
    require(start_holds(message), Refusal::BadStart)?;
    require(version_byte_holds(message), Refusal::BadVersion)?;
    require(code_holds(message), Refusal::BadCode)?;
    require(check_holds(message), Refusal::BadCheck)?;
    require(length_holds(message), Refusal::BadLength)
}
