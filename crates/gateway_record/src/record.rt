//! The record of the gateway: the ways in which it is made, and whether it keeps the rules.
ghost use Rattle.std.specs.Prelude.{◌≡◌};
ghost use Rattle.gateway_record.specs.Record.{started, in_phase, ended_with, record_ok};

use crate::Gateway;
use crate::fragments::{announced_total, length_ok, package_fields, size_ok};

// A record in Ask.
pub(crate) fn started(version: [u8; 16], size: u16, length: usize, code: u16) -> Gateway
    ensures { result ≡ started version size length code }
{
    Gateway {
        phase: Gateway::ASK,
        ending: 0,
        fields: package_fields(version, size, length, code),
        length,
    }
}

/// Only the phase changes.
pub fn in_phase(gateway: Gateway, phase: u8) -> Gateway
    ensures { result ≡ in_phase phase gateway }
{
    Gateway { phase, ..gateway }
}

/// Ended, with its number.
pub fn ended_with(gateway: Gateway, number: u8) -> Gateway
    ensures { result ≡ ended_with number gateway }
{
    Gateway {
        phase: Gateway::ENDED,
        ending: number,
        ..gateway
    }
}

/// The record keeps the rules: phase, ending number, version text, size, length, and the total that
/// follows from these two.
#[tactic(auto, unfolding(crate::specs::Record::record_ok, basis::specs::Choice::pick))]
pub fn record_ok(gateway: Gateway) -> bool
    ensures { result ≡ record_ok gateway }
{
    let Gateway {
        phase,
        ending,
        fields,
        length,
    } = gateway;
    phase <= Gateway::ENDED
        && ending <= Gateway::UPGRADE_FAILED
        && message::good_version(fields.version)
        && size_ok(fields.size)
        && length_ok(length, fields.size)
        && fields.total == announced_total(length, fields.size)
}
