//! What may stand in the fields of a message.
ghost use Rattle.std.specs.Prelude.{◌≡◌, ◌&&◌};
ghost use Rattle.message.specs.Version.{good_version};
ghost use Rattle.message.specs.Limits.{size_ok, total_ok};
ghost use Rattle.message.specs.Messages.{DeviceMessage, GatewayMessage, fragment_ok, install_code, to_device, to_gateway};
ghost use Rattle.message.specs.Enums.{device_message, gateway_message, reading_by, valid_of};

use crate::version::good_version;
use crate::{Fields, ToDevice, ToGateway};
use basis::Numbered;

/// A fragment size.
#[tactic(auto, unfolding(crate::specs::Limits::size_ok))]
fn size_ok(size: u16) -> bool
    ensures { result ≡ size_ok size }
{
    (Fields::SIZE_MIN..=Fields::SIZE_MAX).contains(&size)
}

/// A number of fragments.
#[tactic(auto, unfolding(crate::specs::Limits::total_ok))]
fn total_ok(total: u16) -> bool
    ensures { result ≡ total_ok total }
{
    (1..=Fields::TOTAL_MAX).contains(&total)
}

/// A code with which an install may be reported.
#[tactic(auto, unfolding(crate::specs::Messages::install_code, basis::specs::Choice::one_of))]
pub fn install_code(res: u8) -> bool
    ensures { result ≡ install_code res }
{
    matches!(res, 0x00 | 0x01 | 0x04 | 0x05 | 0x09 | 0x0A | 0x7F)
}

/// The results of the other answers and reports toward the gateway.
#[tactic(auto, unfolding(crate::specs::Messages::gateway_row, basis::specs::Choice::one_of))]
fn announce_reply_ok(res: u8) -> bool
    ensures { result ≡ to_gateway.valid (GatewayMessage.announce_reply res) }
{
    matches!(res, 0x00 | 0x01 | 0x02 | 0x03 | 0x04 | 0x05 | 0x09 | 0x7F)
}

#[tactic(auto, unfolding(crate::specs::Messages::gateway_row, basis::specs::Choice::one_of))]
fn download_report_ok(res: u8) -> bool
    ensures { result ≡ to_gateway.valid (GatewayMessage.download_report res) }
{
    matches!(res, 0x00 | 0x05 | 0x06 | 0x07 | 0x08)
}

#[tactic(auto, unfolding(crate::specs::Messages::gateway_row, basis::specs::Choice::one_of))]
fn execute_reply_ok(res: u8) -> bool
    ensures { result ≡ to_gateway.valid (GatewayMessage.execute_reply res) }
{
    matches!(res, 0x00 | 0x01 | 0x04 | 0x05 | 0x09)
}

/// What the gateway answers to a report.
#[tactic(auto, unfolding(crate::specs::Messages::device_row, basis::specs::Choice::one_of))]
fn report_reply_ok(res: u8) -> bool
    ensures { result ≡ to_device.valid (DeviceMessage.download_reply res) }
{
    matches!(res, 0x00 | 0x80)
}

/// Fragment result 00 carries at least 1 and at most a full fragment's bytes; 80 and 81 carry none.
#[tactic(auto, unfolding(crate::specs::Messages::fragment_ok, basis::specs::Choice::one_of, basis::specs::Choice::pick))]
fn fragment_ok(res: u8, content: &[u8]) -> bool
    ensures { result ≡ fragment_ok res content.now }
{
    match res {
        0x00 => 1 <= content.len() && content.len() <= usize::from(Fields::SIZE_MAX),
        0x80 | 0x81 => content.is_empty(),
        _ => false,
    }
}

/// Version text, size and total. Any check code is allowed.
#[tactic(auto, unfolding(crate::specs::Messages::device_row), using(crate::proofs::Allowed::word_is, basis::proofs::Choosing::and_true))]
fn fields_ok(fields: Fields) -> bool
    ensures { result ≡ to_device.valid (DeviceMessage.announce fields) }
{
    good_version(fields.version) && (size_ok(fields.size) && total_ok(fields.total))
}

impl ToDevice<'_> {
    /// Its fields are allowed. An index is any WORD; it is read here, so that the check knows that it
    /// is one.
    #[tactic(auto, unfolding(crate::specs::Messages::device_row))]
    pub fn is_valid(&self) -> bool
        ensures { result ≡ to_device.valid (device_message self.now) }
    {
        match *self {
            ToDevice::Query | ToDevice::Execute => true,
            ToDevice::Announce(fields) => fields_ok(fields),
            ToDevice::Fragment {
                result,
                index: _index,
                content,
            } => fragment_ok(result, content),
            ToDevice::DownloadReply(code) | ToDevice::ResultReply(code) => report_reply_ok(code),
        }
    }
}

impl ToGateway {
    /// Its fields are allowed.
    #[tactic(auto, unfolding(crate::specs::Messages::gateway_row, basis::specs::Choice::one_of))]
    pub fn is_valid(&self) -> bool
        ensures { result ≡ to_gateway.valid (gateway_message self.now) }
    {
        match *self {
            ToGateway::QueryReply { result, version } => result == 0x00 && good_version(version),
            ToGateway::AnnounceReply(code) => announce_reply_ok(code),
            ToGateway::FragmentRequest {
                version,
                index: _index,
            } => good_version(version),
            ToGateway::DownloadReport(code) => download_report_ok(code),
            ToGateway::ExecuteReply(code) => execute_reply_ok(code),
            ToGateway::ResultReport { result, version } => {
                install_code(result) && good_version(version)
            }
        }
    }
}

/// There is a message toward the device, and its fields are allowed. A refusal is none, whatever its
/// number.
pub fn device_valid<E: Numbered>(message: &Result<ToDevice<'_>, E>) -> bool
    ensures { result ≡ valid_of to_device (reading_by device_message E.numbered message.now) }
{
    message
        .as_ref()
        .is_ok_and(|message| ToDevice::is_valid(message))
}

/// The same of a message toward the gateway.
pub fn gateway_valid<E: Numbered>(message: &Result<ToGateway, E>) -> bool
    ensures { result ≡ valid_of to_gateway (reading_by gateway_message E.numbered message.now) }
{
    message
        .as_ref()
        .is_ok_and(|message| ToGateway::is_valid(message))
}
