//! Messages read: recognised, their fields at their places, and nothing else in their data.
ghost use Rattle.std.specs.Prelude.{◌≡◌, ◌&&◌, ◌==◌, if◌then◌else◌, length, Ok, Err};
ghost use Rattle.basis.specs.declared.refusal.Refusal.TheVariants.{BadData};
ghost use Rattle.message.specs.Messages.{device_fields, gateway_fields, to_device, to_gateway};
ghost use Rattle.message.specs.Enums.{device_message, gateway_message, reading_of};
ghost use Rattle.codec.specs.Codec.{read_of};

use crate::messages::Message;
use crate::{CODE, DATA};
use basis::{Refusal, byte_at, word_at};
use message::{Fields, ToDevice, ToGateway};

// Where the index of a request stands in its data, behind the version text.
const INDEX: usize = Fields::VERSION_LENGTH;

/// The message that a code and data can only be. A byte that is not there counts as 0. Each side has
/// its own table, so these are two functions.
#[tactic(auto, unfolding(message::specs::Messages::device_fields, basis::specs::Choice::pick))]
fn device_fields(code: u8, content: &[u8]) -> ToDevice<'_>
    ensures { device_message result ≡ device_fields code content.now }
{
    let result = byte_at(content, 0);
    match code {
        19 => ToDevice::Query,
        20 => ToDevice::Announce(message::fields_at(content, 0)),
        21 => {
            ToDevice::Fragment {
                result,
                index: word_at(content, 1),
                content: content.get(3..).unwrap_or_default(),
            }
        }
        22 => ToDevice::DownloadReply(result),
        23 => ToDevice::Execute,
        _ => ToDevice::ResultReply(result),
    }
}

/// The same of a message toward the gateway.
#[tactic(auto, unfolding(message::specs::Messages::gateway_fields, basis::specs::Choice::pick))]
fn gateway_fields(code: u8, content: &[u8]) -> ToGateway
    ensures { gateway_message result ≡ gateway_fields code content.now }
{
    let result = byte_at(content, 0);
    match code {
        19 => ToGateway::QueryReply {
            result,
            version: message::version_at(content, 1),
        },
        20 => ToGateway::AnnounceReply(result),
        21 => ToGateway::FragmentRequest {
            version: message::version_at(content, 0),
            index: word_at(content, INDEX),
        },
        22 => ToGateway::DownloadReport(result),
        23 => ToGateway::ExecuteReply(result),
        _ => ToGateway::ResultReport {
            result,
            version: message::version_at(content, 1),
        },
    }
}

/// The message that was found at the places, where it is allowed and nothing else stands in the data.
fn whole<M: Message>(read: M, content: &[u8]) -> Result<M, Refusal>
    ensures { result ≡ (if M.allowed read && (length (M.content_of read) == length content.now) then Ok read else Err BadData) }
{
    if read.is_valid() && read.len() == content.len() {
        Ok(read)
    } else {
        Err(Refusal::BadData)
    }
}

/// A message toward the device, or why the bytes are none: 1 to 8.
#[tactic(auto, unfolding(crate::specs::Codec::read_of, basis::specs::Choice::pick), using(basis::proofs::Refused::number_is_not_zero))]
pub fn read_to_device(supported: bool, pcp: bool, message: &[u8]) -> Result<ToDevice<'_>, Refusal>
    ensures { reading_of device_message result ≡ read_of to_device supported pcp message.now }
{
    message::recognise(supported, pcp, message)?;
    let content = &message[DATA..];
    whole(device_fields(byte_at(message, CODE), content), content)
}

/// A message toward the gateway, or why the bytes are none: 1 to 8.
#[tactic(auto, unfolding(crate::specs::Codec::read_of, basis::specs::Choice::pick), using(basis::proofs::Refused::number_is_not_zero))]
pub fn read_to_gateway(supported: bool, pcp: bool, message: &[u8]) -> Result<ToGateway, Refusal>
    ensures { reading_of gateway_message result ≡ read_of to_gateway supported pcp message.now }
{
    message::recognise(supported, pcp, message)?;
    let content = &message[DATA..];
    whole(gateway_fields(byte_at(message, CODE), content), content)
}
