//! What the reader and the writer need of a message, whichever way it goes.
ghost use Rattle.std.specs.Prelude.{◌≡◌, ◌+◌, ◌++◌, ◌≤◌, ◌<◌, ℕ, Bool, List, true, length};
ghost use Rattle.basis.specs.Bytes.{patched};
ghost use Rattle.message.specs.Messages.{fields_bytes, to_device, to_gateway};
ghost use Rattle.message.specs.Enums.{device_message, gateway_message};

use crate::DATA;
use basis::put;
use message::{Fields, ToDevice, ToGateway};

/// A message of one receiver.
pub(crate) trait Message: Copy {
    /// Its code, its data, and whether its fields are allowed.
    ghost code_of: { Self → ℕ };

    ghost content_of: { Self → List ℕ };

    ghost allowed: { Self → Bool };

    /// The least buffer of its sender.
    ghost least: { ℕ };

    fn room(&self) -> usize
        ensures { result ≡ least };

    // A number, as the definitions have it: an enum of codes would be the variants' names again.
    fn code(&self) -> u8
        ensures { result ≡ code_of self.now };

    fn is_valid(&self) -> bool
        ensures { result ≡ allowed self.now };

    /// How many bytes of data it has.
    fn len(&self) -> usize
        ensures { result ≡ length (content_of self.now) };

    /// Puts its data into the buffer, behind a header.
    fn put(&self, out: &mut [u8])
        requires { 8 + length (content_of self.now) ≤ length out.old }
        ensures { out.new ≡ patched 8 (content_of self.now) out.old };

    /// What is allowed fits the buffer, and the length of its data a WORD.
    ghost fits: { (m : Self) → allowed m ≡ true → (8 + length (content_of m) ≤ least) × (length (content_of m) < 65536) };
}

/// Two parts of a message's data, one behind the other.
#[tactic(auto, using(basis::proofs::Lists::patched_patched))]
fn put_parts(out: &mut [u8], first: &[u8], second: &[u8])
    requires { 8 + (length first.now + length second.now) ≤ length out.old }
    ensures { out.new ≡ patched 8 (first.now ++ second.now) out.old }
{
    put(out, DATA, first);
    put(out, DATA + first.len(), second);
}

/// The four fields of an announcement. They come by value, so that the prover knows how long the
/// version text is.
fn put_announced(out: &mut [u8], fields: Fields)
    requires { 8 + length (fields_bytes fields) ≤ length out.old }
    ensures { out.new ≡ patched 8 (fields_bytes fields) out.old }
{
    message::put_fields(out, DATA, fields)
}

impl Message for ToDevice<'_> {
    ghost use Rattle.std.specs.Prelude.{◌≡◌, ◌+◌, ◌≤◌, ◌<◌, true, length};
    ghost use Rattle.message.specs.Messages.{to_device};
    ghost use Rattle.message.specs.Enums.{device_message};
    ghost use Rattle.message.proofs.Tables.{device_fits};

    ghost code_of = { λ m. to_device.code (device_message m) };

    ghost content_of = { λ m. to_device.content (device_message m) };

    ghost allowed = { λ m. to_device.valid (device_message m) };

    ghost least = { to_device.room };

    ghost fits = { λ m. device_fits (device_message m) };

    fn room(&self) -> usize {
        ToDevice::ROOM
    }

    #[tactic(auto, unfolding(message::specs::Messages::device_row))]
    fn code(&self) -> u8 {
        match self {
            ToDevice::Query => 19,
            ToDevice::Announce(_) => 20,
            ToDevice::Fragment { .. } => 21,
            ToDevice::DownloadReply(_) => 22,
            ToDevice::Execute => 23,
            ToDevice::ResultReply(_) => 24,
        }
    }

    fn is_valid(&self) -> bool {
        ToDevice::is_valid(self)
    }

    #[tactic(auto, unfolding(message::specs::Messages::device_row))]
    fn len(&self) -> usize {
        match self {
            ToDevice::Query | ToDevice::Execute => 0,
            ToDevice::Announce(fields) => fields.version.as_slice().len() + 6,
            ToDevice::Fragment { content, .. } => 3 + content.len(),
            ToDevice::DownloadReply(_) | ToDevice::ResultReply(_) => 1,
        }
    }

    #[tactic(auto, unfolding(message::specs::Messages::device_row), using(crate::proofs::Writing::nothing_put))]
    fn put(&self, out: &mut [u8]) {
        match self {
            ToDevice::Query | ToDevice::Execute => {}
            ToDevice::Announce(fields) => put_announced(out, *fields),
            ToDevice::Fragment {
                result,
                index,
                content,
            } => {
                let [high, low] = index.to_be_bytes();
                put_parts(out, &[*result, high, low], content)
            }
            ToDevice::DownloadReply(result) | ToDevice::ResultReply(result) => {
                put(out, DATA, &[*result])
            }
        }
    }
}

impl Message for ToGateway {
    ghost use Rattle.std.specs.Prelude.{◌≡◌, ◌+◌, ◌≤◌, ◌<◌, true, length};
    ghost use Rattle.message.specs.Messages.{to_gateway};
    ghost use Rattle.message.specs.Enums.{gateway_message};
    ghost use Rattle.message.proofs.Tables.{gateway_fits};

    ghost code_of = { λ m. to_gateway.code (gateway_message m) };

    ghost content_of = { λ m. to_gateway.content (gateway_message m) };

    ghost allowed = { λ m. to_gateway.valid (gateway_message m) };

    ghost least = { to_gateway.room };

    ghost fits = { λ m. gateway_fits (gateway_message m) };

    fn room(&self) -> usize {
        ToGateway::ROOM
    }

    #[tactic(auto, unfolding(message::specs::Messages::gateway_row))]
    fn code(&self) -> u8 {
        match self {
            ToGateway::QueryReply { .. } => 19,
            ToGateway::AnnounceReply(_) => 20,
            ToGateway::FragmentRequest { .. } => 21,
            ToGateway::DownloadReport(_) => 22,
            ToGateway::ExecuteReply(_) => 23,
            ToGateway::ResultReport { .. } => 24,
        }
    }

    fn is_valid(&self) -> bool {
        ToGateway::is_valid(self)
    }

    #[tactic(auto, unfolding(message::specs::Messages::gateway_row))]
    fn len(&self) -> usize {
        match self {
            ToGateway::QueryReply { version, .. } | ToGateway::ResultReport { version, .. } => {
                1 + version.as_slice().len()
            }
            ToGateway::FragmentRequest { version, .. } => version.as_slice().len() + 2,
            ToGateway::AnnounceReply(_)
            | ToGateway::DownloadReport(_)
            | ToGateway::ExecuteReply(_) => 1,
        }
    }

    #[tactic(auto, unfolding(message::specs::Messages::gateway_row), using(crate::proofs::Writing::nothing_put))]
    fn put(&self, out: &mut [u8]) {
        match self {
            ToGateway::QueryReply { result, version }
            | ToGateway::ResultReport { result, version } => { put_parts(out, &[*result], version) }
            ToGateway::FragmentRequest { version, index } => {
                put_parts(out, version, &index.to_be_bytes())
            }
            ToGateway::AnnounceReply(result)
            | ToGateway::DownloadReport(result)
            | ToGateway::ExecuteReply(result) => put(out, DATA, &[*result]),
        }
    }
}
