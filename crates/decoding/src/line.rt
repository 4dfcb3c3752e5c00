//! The lines of decode, piece by piece.
ghost use Rattle.std.specs.Prelude.{◌≡◌, true, false, ◌++◌, eqb, length};
ghost use Rattle.basis.specs.Refusals.{number_of};
ghost use Rattle.message.specs.Messages.{Reading, to_device, to_gateway};
ghost use Rattle.message.specs.Enums.{device_message, gateway_message};
ghost use Rattle.codec.specs.Codec.{read_of};
ghost use Rattle.capture.specs.Answers as damage;
ghost use Rattle.text.specs.Text.{decimal};
ghost use Rattle.text.specs.Writing.{Puts};
ghost use Rattle.decoding_rules.specs.Line.{optional, result_text, version_text, code_text, package_text, index_text, data_text, reason, reason_text, end};
ghost use Rattle.decoding_rules.specs.Line.{device_text, gateway_text, read_text, message_text, record_text, fault_text};

use basis::Refusal;
use capture::{Fault, Record};
use message::{Fields, ToDevice, ToGateway};
use text::{NoRoom, Writer};

// Most functions here write two pieces, one behind the other: the prover closes those by itself
// (`pieces`), and wants an answer by hand for each that writes more.

// A number in decimal, with its name before it.
#[tactic(auto, using(text::proofs::Pages::pieces))]
fn put_field(out: &mut Writer<'_>, name: &[u8], n: usize) -> Result<(), NoRoom>
    ensures { Puts (name.now ++ decimal n) result out.old out.new }
{
    out.put(name)?;
    out.put_decimal(n)
}

// Why there is no message, or no record.
#[tactic(auto, unfolding(decoding_rules::specs::Line::reason, basis::specs::Choice::pick))]
fn words(refusal: Refusal) -> &'static [u8]
    ensures { result.now ≡ reason (number_of refusal) }
{
    match refusal {
        Refusal::BadStart => b" no FFFE",
        Refusal::BadVersion => b" other protocol version",
        Refusal::BadCode => b" unknown code",
        Refusal::BadCheck => b" wrong check",
        Refusal::BadLength => b" wrong length",
        Refusal::BadData => b" bad data",
        Refusal::BadMark => b" wrong mark",
        Refusal::CutShort => b" cut short",
        _ => b"",
    }
}

#[tactic(auto, unfolding(decoding_rules::specs::Line::reason_text), using(text::proofs::Pages::pieces))]
fn put_reason(out: &mut Writer<'_>, refusal: Refusal) -> Result<(), NoRoom>
    ensures { Puts (reason_text (number_of refusal)) result out.old out.new }
{
    put_field(out, b" ", refusal.number() as usize)?;
    out.put(words(refusal))
}

// The same, and the newline.
#[tactic(auto, using(text::proofs::Pages::pieces))]
fn end_reason(out: &mut Writer<'_>, refusal: Refusal) -> Result<(), NoRoom>
    ensures { Puts (reason_text (number_of refusal) ++ end) result out.old out.new }
{
    put_reason(out, refusal)?;
    out.put(b"\n")
}

#[tactic(auto, unfolding(decoding_rules::specs::Line::result_text), using(text::proofs::Pages::pieces))]
fn put_result(out: &mut Writer<'_>, outcome: u8) -> Result<(), NoRoom>
    ensures { Puts (result_text outcome) result out.old out.new }
{
    out.put(b" result ")?;
    out.put_hex(&[outcome])
}

#[tactic(auto, using(text::proofs::Pages::pieces))]
fn end_result(out: &mut Writer<'_>, outcome: u8) -> Result<(), NoRoom>
    ensures { Puts (result_text outcome ++ end) result out.old out.new }
{
    put_result(out, outcome)?;
    out.put(b"\n")
}

// Version text, without its 00.
#[tactic(auto, unfolding(decoding_rules::specs::Line::version_text), using(text::proofs::Pages::pieces, message::proofs::Texts::front_within))]
fn put_version(out: &mut Writer<'_>, version: [u8; 16]) -> Result<(), NoRoom>
    ensures { Puts (version_text version) result out.old out.new }
{
    out.put(b" version ")?;
    out.put(&version[..message::version_length(version)])
}

#[tactic(auto, using(text::proofs::Pages::pieces))]
fn end_version(out: &mut Writer<'_>, version: [u8; 16]) -> Result<(), NoRoom>
    ensures { Puts (version_text version ++ end) result out.old out.new }
{
    put_version(out, version)?;
    out.put(b"\n")
}

#[tactic(auto, using(text::proofs::Pages::pieces))]
fn end_result_and_version(
    out: &mut Writer<'_>,
    outcome: u8,
    version: [u8; 16],
) -> Result<(), NoRoom>
    ensures { Puts (result_text outcome ++ (version_text version ++ end)) result out.old out.new }
{
    put_result(out, outcome)?;
    end_version(out, version)
}

#[tactic(auto, unfolding(decoding_rules::specs::Line::code_text), using(text::proofs::Pages::pieces))]
fn put_code(out: &mut Writer<'_>, code: u16) -> Result<(), NoRoom>
    ensures { Puts (code_text code) result out.old out.new }
{
    out.put(b" code ")?;
    out.put_hex(&code.to_be_bytes())
}

#[tactic(auto, unfolding(decoding_rules::specs::Line::package_text), using(text::proofs::Pages::pieces))]
fn put_package(out: &mut Writer<'_>, size: u16, total: u16, code: u16) -> Result<(), NoRoom>
    ensures { Puts (package_text size total code) result out.old out.new }
{
    put_field(out, b" size ", size as usize)?;
    put_field(out, b" total ", total as usize)?;
    put_code(out, code)
}

#[tactic(auto, using(text::proofs::Pages::pieces))]
fn end_package(out: &mut Writer<'_>, size: u16, total: u16, code: u16) -> Result<(), NoRoom>
    ensures { Puts (package_text size total code ++ end) result out.old out.new }
{
    put_package(out, size, total, code)?;
    out.put(b"\n")
}

// The four fields of an announcement.
#[tactic(auto, using(text::proofs::Pages::pieces))]
fn end_fields(out: &mut Writer<'_>, fields: Fields) -> Result<(), NoRoom>
    ensures { Puts (version_text fields.version
        ++ (package_text fields.size fields.total fields.code ++ end)) result out.old out.new }
{
    put_version(out, fields.version)?;
    end_package(out, fields.size, fields.total, fields.code)
}

#[tactic(auto, unfolding(decoding_rules::specs::Line::index_text))]
fn put_index(out: &mut Writer<'_>, index: u16) -> Result<(), NoRoom>
    ensures { Puts (index_text index) result out.old out.new }
{
    put_field(out, b" index ", index as usize)
}

#[tactic(auto, using(text::proofs::Pages::pieces))]
fn end_index(out: &mut Writer<'_>, index: u16) -> Result<(), NoRoom>
    ensures { Puts (index_text index ++ end) result out.old out.new }
{
    put_index(out, index)?;
    out.put(b"\n")
}

// Version and index of a fragment that is asked for.
#[tactic(auto, using(text::proofs::Pages::pieces))]
fn end_request(out: &mut Writer<'_>, version: [u8; 16], index: u16) -> Result<(), NoRoom>
    ensures { Puts (version_text version ++ (index_text index ++ end)) result out.old out.new }
{
    put_version(out, version)?;
    end_index(out, index)
}

// How many bytes of data a fragment has, where it has any.
#[tactic(auto, unfolding(decoding_rules::specs::Line::data_text, decoding_rules::specs::Line::optional, basis::specs::Choice::pick), using(text::proofs::Pages::puts_none))]
fn put_data(out: &mut Writer<'_>, some: bool, count: usize) -> Result<(), NoRoom>
    ensures { Puts (data_text some count) result out.old out.new }
{
    if !some {
        return Ok(());
    }
    put_field(out, b" data ", count)
}

#[tactic(auto, using(text::proofs::Pages::pieces))]
fn put_piece(out: &mut Writer<'_>, outcome: u8, index: u16, count: usize) -> Result<(), NoRoom>
    ensures { Puts (index_text index ++ data_text (eqb outcome 0) count) result out.old out.new }
{
    put_index(out, index)?;
    put_data(out, outcome == 0x00, count)
}

#[tactic(auto, using(text::proofs::Pages::pieces))]
fn end_piece(out: &mut Writer<'_>, outcome: u8, index: u16, count: usize) -> Result<(), NoRoom>
    ensures { Puts ((index_text index ++ data_text (eqb outcome 0) count) ++ end)
        result out.old out.new }
{
    put_piece(out, outcome, index, count)?;
    out.put(b"\n")
}

// Result, index and data of a fragment.
#[tactic(auto, using(text::proofs::Pages::pieces))]
fn end_fragment(out: &mut Writer<'_>, outcome: u8, index: u16, count: usize) -> Result<(), NoRoom>
    ensures { Puts (result_text outcome
        ++ ((index_text index ++ data_text (eqb outcome 0) count) ++ end)) result out.old out.new }
{
    put_result(out, outcome)?;
    end_piece(out, outcome, index, count)
}

// A message toward the device, by name and fields, and the newline.
#[tactic(auto, unfolding(decoding_rules::specs::Line::device_text), using(text::proofs::Pages::pieces))]
fn put_device_message(out: &mut Writer<'_>, message: &ToDevice<'_>) -> Result<(), NoRoom>
    ensures { Puts (device_text (device_message message.now)) result out.old out.new }
{
    match message {
        ToDevice::Query => out.put(b" query\n"),
        ToDevice::Announce(fields) => {
            out.put(b" announce")?;
            end_fields(out, *fields)
        }
        ToDevice::Fragment {
            result,
            index,
            content,
        } => {
            out.put(b" fragment")?;
            end_fragment(out, *result, *index, content.len())
        }
        ToDevice::DownloadReply(result) => {
            out.put(b" download")?;
            end_result(out, *result)
        }
        ToDevice::Execute => out.put(b" execute\n"),
        ToDevice::ResultReply(result) => {
            out.put(b" result")?;
            end_result(out, *result)
        }
    }
}

// The same of a message from the device.
#[tactic(auto, unfolding(decoding_rules::specs::Line::gateway_text), using(text::proofs::Pages::pieces))]
fn put_gateway_message(out: &mut Writer<'_>, message: &ToGateway) -> Result<(), NoRoom>
    ensures { Puts (gateway_text (gateway_message message.now)) result out.old out.new }
{
    match message {
        ToGateway::QueryReply { result, version } => {
            out.put(b" query")?;
            end_result_and_version(out, *result, *version)
        }
        ToGateway::AnnounceReply(result) => {
            out.put(b" announce")?;
            end_result(out, *result)
        }
        ToGateway::FragmentRequest { version, index } => {
            out.put(b" fragment")?;
            end_request(out, *version, *index)
        }
        ToGateway::DownloadReport(result) => {
            out.put(b" download")?;
            end_result(out, *result)
        }
        ToGateway::ExecuteReply(result) => {
            out.put(b" execute")?;
            end_result(out, *result)
        }
        ToGateway::ResultReport { result, version } => {
            out.put(b" result")?;
            end_result_and_version(out, *result, *version)
        }
    }
}

// No message, and why.
#[tactic(auto, unfolding(decoding_rules::specs::Line::read_text), using(text::proofs::Pages::pieces))]
fn put_none(out: &mut Writer<'_>, refusal: Refusal) -> Result<(), NoRoom>
    ensures device { Puts (read_text device_text (Reading.refused (number_of refusal)))
        result out.old out.new }
    ensures gateway { Puts (read_text gateway_text (Reading.refused (number_of refusal)))
        result out.old out.new }
{
    out.put(b" none")?;
    end_reason(out, refusal)
}

#[tactic(auto, unfolding(decoding_rules::specs::Line::read_text))]
fn put_read_to_device(out: &mut Writer<'_>, message: &[u8]) -> Result<(), NoRoom>
    ensures { Puts (read_text device_text (read_of to_device true true message.now))
        result out.old out.new }
{
    match codec::read_to_device(true, true, message) {
        Ok(found) => put_device_message(out, &found),
        Err(refusal) => put_none(out, refusal),
    }
}

#[tactic(auto, unfolding(decoding_rules::specs::Line::read_text))]
fn put_read_from_device(out: &mut Writer<'_>, message: &[u8]) -> Result<(), NoRoom>
    ensures { Puts (read_text gateway_text (read_of to_gateway true true message.now))
        result out.old out.new }
{
    match codec::read_to_gateway(true, true, message) {
        Ok(found) => put_gateway_message(out, &found),
        Err(refusal) => put_none(out, refusal),
    }
}

#[tactic(auto, unfolding(decoding_rules::specs::Line::message_text), using(text::proofs::Pages::pieces))]
fn put_to_device(out: &mut Writer<'_>, message: &[u8]) -> Result<(), NoRoom>
    ensures { Puts (message_text true message.now) result out.old out.new }
{
    out.put(b" to-device")?;
    put_read_to_device(out, message)
}

#[tactic(auto, unfolding(decoding_rules::specs::Line::message_text), using(text::proofs::Pages::pieces))]
fn put_from_device(out: &mut Writer<'_>, message: &[u8]) -> Result<(), NoRoom>
    ensures { Puts (message_text false message.now) result out.old out.new }
{
    out.put(b" from-device")?;
    put_read_from_device(out, message)
}

/// A record's line.
#[tactic(auto, unfolding(decoding_rules::specs::Line::record_text), using(text::proofs::Pages::pieces))]
pub(crate) fn put_record(out: &mut Writer<'_>, kept: Record<'_>) -> Result<(), NoRoom>
    ensures { Puts (record_text kept.entry.at kept.entry.to_device kept.entry.message.now)
        result out.old out.new }
{
    out.put_decimal(kept.at)?;
    if kept.to_device {
        put_to_device(out, kept.message)
    } else {
        put_from_device(out, kept.message)
    }
}

/// The line of a place at which the reader stops.
#[tactic(auto, unfolding(decoding_rules::specs::Line::fault_text), using(text::proofs::Pages::pieces))]
pub(crate) fn put_fault(out: &mut Writer<'_>, fault: Fault) -> Result<(), NoRoom>
    ensures { Puts (fault_text fault.at (damage.number_of fault.damage)) result out.old out.new }
{
    out.put_decimal(fault.at)?;
    end_reason(out, Refusal::from(fault.damage))
}
