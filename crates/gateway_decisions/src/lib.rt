//! What the gateway decides of the messages that it is given: the tests of an answered query, of a
//! request for a fragment and of a reported install, each by itself, over the record and plain
//! values. Nothing is written here.
#![tactic(auto)]

ghost use Rattle.std.specs.Prelude.{◌≡◌};
ghost use Rattle.basis.specs.Bytes.{same};
ghost use Rattle.gateway_record.specs.Phases.{ending_code};
ghost use Rattle.gateway_rules.specs.Decisions.{after_query, serving, fragment_result, install_ending};

use gateway_record::{Ending, Gateway, ended_with, in_phase};
use message::Fields;

/// The version is the target's, in all of its bytes.
pub fn is_target(fields: Fields, version: [u8; 16]) -> bool
    ensures { result ≡ same version fields.version }
{
    message::same_version(version, fields.version)
}

/// An answered query in Ask: the target already runs, which ends with 1, else Offer.
// Of any record, also one that breaks the rules; `SoundGateway` does the same by its own methods.
#[tactic(auto, unfolding(gateway_rules::specs::Decisions::after_query, basis::specs::Choice::pick))]
pub fn after_query(gateway: Gateway, version: [u8; 16]) -> Gateway
    ensures { result ≡ after_query gateway version }
{
    if is_target(gateway.fields, version) {
        ended_with(gateway, Gateway::ALREADY_RUNNING)
    } else {
        in_phase(gateway, Gateway::OFFER)
    }
}

/// Serve or Run: fragments are given. The phase is a number, as the record has it: of any other they
/// are not.
#[tactic(auto, unfolding(gateway_rules::specs::Decisions::serving))]
pub fn serving(phase: u8) -> bool
    ensures { result ≡ serving phase }
{
    phase == Gateway::SERVE || phase == Gateway::RUN
}

/// The result with which a request for a fragment is answered: 80 for another version or phase, 81 for
/// an index past the last, else 00. It is the byte of the message.
#[tactic(auto, unfolding(gateway_rules::specs::Decisions::fragment_result, basis::specs::Choice::pick))]
pub fn fragment_result(phase: u8, fields: Fields, version: [u8; 16], index: u16) -> u8
    ensures { result ≡ fragment_result phase fields version index }
{
    if !serving(phase) || !is_target(fields, version) {
        return 0x80;
    }
    if index < fields.total { 0x00 } else { 0x81 }
}

/// A reported install in Run: 00 with the target version is success, anything else a failed upgrade.
#[tactic(auto, unfolding(gateway_rules::specs::Decisions::install_ending, basis::specs::Choice::pick))]
pub fn install_ending(fields: Fields, res: u8, version: [u8; 16]) -> Ending
    ensures { ending_code result ≡ install_ending fields res version }
{
    if res == 0x00 && is_target(fields, version) {
        Ending::Success
    } else {
        Ending::UpgradeFailed
    }
}
