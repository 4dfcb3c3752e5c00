//! What the device decides of the messages that it is given: the tests of an announcement, a
//! fragment and an order to install, each by itself, over the record and plain values. Nothing is
//! written here.
#![tactic(auto)]

ghost use Rattle.std.specs.Prelude.{◌≡◌};
ghost use Rattle.basis.specs.Refusals.{answered, number_of};
ghost use Rattle.device_record.specs.Phases.{code_of};
ghost use Rattle.device_rules.specs.Decisions.{announce_result, resumes, fragment_length, repeat_refusal, fragment_refusal};
ghost use Rattle.device_rules.specs.Decisions.{is_last, by_index, last_after, check_passes, digest_passes, passes, true_length, completion, execute_result};

use basis::{Refusal, part_of, product, require};
use device_record::{Condition, Device, Expected, Phase, holding, map_bytes};
use message::Fields;

// The conditions that stand in the way of an order to install, as numbers: `execute_result` promises
// an answer for any.
const BUSY: u8 = Condition::Busy as u8;

const LOW_POWER: u8 = Condition::LowPower as u8;

const INTERNAL: u8 = Condition::Internal as u8;

/// What an announcement is answered with, tests in order: 01 where the installer runs or has ended,
/// the condition where it is not ready, 03 for the version that runs, 05 where the image is too
/// short, 09 where the map is, else 00.
// A number, as the result of a message, and not an enum: any condition that is not ready is passed on.
#[tactic(auto, using(basis::proofs::Alike::same_is), unfolding(device_rules::specs::Decisions::announce_result, basis::specs::Choice::pick))]
pub fn announce_result(
    device: Device,
    condition: u8,
    fields: Fields,
    image: &[u8],
    map: &[u8],
) -> u8
    ensures { result ≡ announce_result device condition fields image.now map.now }
{
    if Device::INSTALLING <= device.phase {
        return 0x01;
    }
    if condition != 0 {
        return condition;
    }
    if message::same_version(fields.version, device.running) {
        return 0x03;
    }
    if image.len() < product(fields.size, fields.total) {
        return 0x05;
    }
    if map.len() < map_bytes(fields.total) {
        return 0x09;
    }
    0x00
}

/// Whether the download that is held goes on with an announcement: it is of the same package, which
/// has a check code.
#[tactic(auto, using(basis::proofs::Alike::same_is), unfolding(device_rules::specs::Decisions::resumes, device_rules::specs::Decisions::same_fields))]
pub fn resumes(device: Device, fields: Fields) -> bool
    ensures { result ≡ resumes device fields }
{
    holding(device.phase) && fields.code != 0 && fields == device.fields
}

// As long as every fragment, or as a last one may be.
#[tactic(auto, unfolding(device_rules::specs::Decisions::fragment_length, basis::specs::Choice::pick))]
fn fragment_length(fields: Fields, index: u16, len: usize) -> bool
    ensures { result ≡ fragment_length fields index len }
{
    let size = usize::from(fields.size);
    if is_last(fields, index) {
        (1..=size).contains(&len)
    } else {
        len == size
    }
}

// The index is that of the last fragment.
fn is_last(fields: Fields, index: u16) -> bool
    ensures { result ≡ is_last fields index }
{
    usize::from(index) + 1 == usize::from(fields.total)
}

// One length for the last index, another for every other.
#[tactic(auto, unfolding(basis::specs::Choice::pick))]
fn by_index(fields: Fields, index: u16, last: u16, other: u16) -> u16
    ensures { result ≡ by_index fields index last other }
{
    if is_last(fields, index) { last } else { other }
}

// Why a fragment that is stored is refused: it came with the same bytes and length, or with others.
// The stored bytes are as many as every fragment's, or as the last one's.
#[tactic(auto, using(basis::proofs::Alike::same_is), unfolding(device_rules::specs::Decisions::repeat_refusal, basis::specs::Choice::pick))]
fn repeat_refusal(fields: Fields, last: u16, index: u16, image: &[u8], content: &[u8]) -> Refusal
    ensures { number_of result ≡ repeat_refusal fields last index image.now content.now }
{
    let length = by_index(fields, index, last, fields.size);
    let stored = part_of(image, product(index, fields.size), usize::from(length));
    if basis::same_bytes(content, stored) {
        Refusal::AlreadyStored
    } else {
        Refusal::RepeatDiffers
    }
}

/// Why a fragment is not stored, tests in order: its index (10), its length (11), or that it is
/// stored already, with the same bytes (12) or with others (23). Only a repeat is compared.
#[tactic(auto, unfolding(device_rules::specs::Decisions::fragment_refusal, basis::specs::Choice::refusal, basis::specs::Choice::pick))]
pub fn fragment_refusal(
    fields: Fields,
    last: u16,
    index: u16,
    image: &[u8],
    map: &[u8],
    content: &[u8],
) -> Result<(), Refusal>
    ensures { answered result ≡ fragment_refusal fields last index image.now map.now content.now }
{
    require(index < fields.total, Refusal::BadIndex)?;
    require(
        fragment_length(fields, index, content.len()),
        Refusal::BadFragmentLength,
    )?;
    if bitmap::marked(map, usize::from(index)) {
        return Err(repeat_refusal(fields, last, index, image, content));
    }
    Ok(())
}

// The package has no check code, or it is that of the bytes.
#[tactic(auto, unfolding(device_rules::specs::Decisions::check_passes))]
fn check_passes(code: u16, bytes: &[u8]) -> bool
    ensures { result ≡ check_passes code bytes.now }
{
    code == 0 || code == checksum::check(bytes)
}

// No digest is expected, or it is that of the bytes.
#[tactic(auto, using(basis::proofs::Alike::same_is), unfolding(device_rules::specs::Decisions::digest_passes))]
fn digest_passes(expected: Expected, bytes: &[u8]) -> bool
    ensures { result ≡ digest_passes expected bytes.now }
{
    match expected.given() {
        None => true,
        Some(digest) => md5_digest::digest(bytes) == digest,
    }
}

// The completed bytes pass both. The digest is worked out only where the check has passed.
#[tactic(auto, unfolding(device_rules::specs::Decisions::passes))]
fn passes(code: u16, expected: Expected, bytes: &[u8]) -> bool
    ensures { result ≡ passes code expected bytes.now }
{
    check_passes(code, bytes) && digest_passes(expected, bytes)
}

// Where the package ends, in bytes: every fragment but the last is size long.
fn true_length(fields: Fields, last: u16) -> usize
    ensures { result ≡ true_length fields last }
{
    product(fields.size, fields.total.saturating_sub(1)) + usize::from(last)
}

/// The phase once a fragment is stored: Loading while one is missing, else Loaded where the
/// completed bytes pass, and Failed where they do not. The package ends where its last fragment
/// does.
#[tactic(auto, unfolding(device_rules::specs::Decisions::completion, basis::specs::Choice::pick))]
pub fn completion(device: Device, stored: u16, last: u16, image: &[u8]) -> Phase
    ensures { code_of result ≡ completion stored last device.fields device.expected image.now }
{
    let fields = device.fields;
    if stored != fields.total {
        return Phase::Loading;
    }
    let whole = part_of(image, 0, true_length(fields, last));
    if passes(fields.code, device.expected, whole) {
        Phase::Loaded
    } else {
        Phase::Failed
    }
}

/// The length of the last fragment in bytes, once one more is stored.
pub fn last_after(device: Device, index: u16, len: u16) -> u16
    ensures { result ≡ last_after device.fields index len device.last }
{
    by_index(device.fields, index, len, device.last)
}

/// What the order to install is answered with: 00 where the installer runs or may be started, the
/// condition where that stands in the way, else 01. A weak signal is no obstacle.
// A number, as the result of a message; phase and condition are numbers, since it promises for any.
#[tactic(auto, unfolding(device_rules::specs::Decisions::execute_result, basis::specs::Choice::one_of, basis::specs::Choice::pick))]
pub fn execute_result(phase: u8, condition: u8) -> u8
    ensures { result ≡ execute_result phase condition }
{
    match (phase, condition) {
        (Device::INSTALLING, _) => 0x00,
        (Device::LOADED | Device::ACKED, BUSY | LOW_POWER) => condition,
        (Device::LOADED | Device::ACKED, INTERNAL) => 0x01,
        (Device::LOADED | Device::ACKED, _) => 0x00,
        _ => 0x01,
    }
}
