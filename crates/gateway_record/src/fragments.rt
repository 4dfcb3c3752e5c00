//! The package in fragments: its limits, its fields, and each part.
ghost use Rattle.std.specs.Prelude.{◌≡◌, ◌*◌};
ghost use Rattle.basis.specs.Choice.{pick};
ghost use Rattle.basis.specs.Stretch.{Stretch};
ghost use Rattle.checksum.specs.Check.{check_of};
ghost use Rattle.message.specs.Limits.{size_ok};
ghost use Rattle.gateway_record.specs.Record.{length_ok, announced_total, package_fields};

use crate::Gateway;
use message::Fields;

/// The fragment size is in range: 32 to 1,024 bytes.
#[tactic(auto, unfolding(message::specs::Limits::size_ok))]
pub fn size_ok(size: u16) -> bool
    ensures { result ≡ size_ok size }
{
    (Gateway::SIZE_MIN..=Gateway::SIZE_MAX).contains(&size)
}

/// The package, of so many bytes, is neither empty nor longer than the most fragments of that size.
#[tactic(auto, unfolding(crate::specs::Record::length_ok))]
pub fn length_ok(length: usize, size: u16) -> bool
    ensures { result ≡ length_ok length size }
{
    (1..=usize::from(Gateway::TOTAL_MAX) * usize::from(size)).contains(&length)
}

/// The number of fragments: length over size, rounded up. A package that is refused for its length
/// has none, 0.
#[tactic(auto, using(crate::proofs::Package::rounded_up, crate::proofs::Package::total_most), unfolding(crate::specs::Record::length_ok, basis::specs::Choice::pick))]
pub fn announced_total(length: usize, size: u16) -> u16
    ensures { result ≡ announced_total length size }
{
    if !length_ok(length, size) {
        return 0;
    }
    length.div_ceil(usize::from(size)) as u16
}

// The package's check code: the check rule over it, or 0, as the caller chose.
#[tactic(auto, unfolding(basis::specs::Choice::pick))]
pub(crate) fn code_of(content: &[u8], checked: bool) -> u16
    ensures { result ≡ pick checked (check_of content.now) 0 }
{
    if checked { checksum::check(content) } else { 0 }
}

/// The four fields of a package of that length, in bytes.
pub fn package_fields(version: [u8; 16], size: u16, length: usize, code: u16) -> Fields
    ensures { result ≡ package_fields version size length code }
{
    Fields {
        version,
        size,
        total: announced_total(length, size),
        code,
    }
}

/// The cutter: the part of the package for an index, the part itself and not a copy. An index past
/// the last gives the empty part at the package's end.
pub fn fragment<'a>(content: &'a [u8], size: u16, index: u16) -> &'a [u8]
    ensures { Stretch result content.entry (index * size) size }
{
    basis::part_of(
        content,
        usize::from(index) * usize::from(size),
        usize::from(size),
    )
}
