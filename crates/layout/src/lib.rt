//! The records as bytes in a buffer that a host lends (docs/MANUAL.md has the layouts). Any bytes are
//! some record: whether it keeps the rules, the calls tell (29).
#![tactic(auto)]

ghost use Rattle.std.specs.Prelude.{◌≡◌};
ghost use Rattle.layout_rules.specs.Layout.{device_at, device_bytes, device_length};
ghost use Rattle.layout_rules.specs.Layout.{gateway_at, gateway_bytes, gateway_length, kept};

use device_record::{Device, Expected};
use gateway_record::Gateway;
use layouts::{Layout, keep};
use message::Fields;

/// The bytes of a device's record.
// A number, since the header for C has it; `keep` asks that it is the layout's size.
pub const DEVICE_LENGTH: usize = 61;

/// The bytes of a gateway's record. A number for the same reason.
pub const GATEWAY_LENGTH: usize = 30;

// Version, size, total and check code of a package.
type FieldsParts = ([u8; 16], (u16, (u16, u16)));

// Phase, running version, fields, stored count, last length and outcome; whether a digest is set, and it.
type DeviceParts = (
    (u8, ([u8; 16], (FieldsParts, (u16, (u16, u8))))),
    (u8, [u8; 16]),
);

// Phase, ending number, version, size, package length and check code.
type GatewayParts = ((u8, u8), ([u8; 16], (u16, (u64, u16))));

/// The device's record that stands at the front of the bytes. A byte that is not there counts as 0.
#[tactic(auto, unfolding(layout_rules::specs::Layout::device_at))]
pub fn device_at(bytes: &[u8]) -> Device
    ensures { result ≡ device_at bytes.now }
{
    let (parts, _) = DeviceParts::at(bytes, 0);
    let ((phase, (running, (fields, (stored, (last, outcome))))), (set, digest)) = parts;
    let (version, (size, (total, code))) = fields;
    let fields = Fields {
        version,
        size,
        total,
        code,
    };
    let expected = Expected { set, digest };
    Device {
        phase,
        running,
        fields,
        stored,
        last,
        outcome,
        expected,
    }
}

/// The device's record as a call returned it, with whatever number; written only where there is room
/// for it.
#[tactic(auto, unfolding(layout_rules::specs::Layout::kept, layout_rules::specs::Layout::device_bytes, layout_rules::specs::Layout::front_bytes))]
pub fn keep_device(buffer: &mut [u8], device: Device)
    ensures { buffer.new ≡ kept device_length (device_bytes device) buffer.old }
{
    let Device {
        phase,
        running,
        fields,
        stored,
        last,
        outcome,
        expected,
    } = device;
    let Fields {
        version,
        size,
        total,
        code,
    } = fields;
    let Expected { set, digest } = expected;
    let announced = (version, (size, (total, code)));
    let parts: DeviceParts = (
        (phase, (running, (announced, (stored, (last, outcome))))),
        (set, digest),
    );
    keep(buffer, parts, DEVICE_LENGTH);
}

/// The gateway's record that stands at the front of the bytes. A byte that is not there counts as 0.
/// The total is worked out from size and length.
#[tactic(auto, unfolding(layout_rules::specs::Layout::gateway_at))]
pub fn gateway_at(bytes: &[u8]) -> Gateway
    ensures { result ≡ gateway_at bytes.now }
{
    let (parts, _) = GatewayParts::at(bytes, 0);
    let ((phase, ending), (version, (size, (length, code)))) = parts;
    let length = length as usize;
    let fields = gateway_record::package_fields(version, size, length, code);
    Gateway {
        phase,
        ending,
        fields,
        length,
    }
}

/// The gateway's record as a call returned it, with whatever number; written only where there is room
/// for it.
#[tactic(auto, unfolding(layout_rules::specs::Layout::kept, layout_rules::specs::Layout::gateway_bytes))]
pub fn keep_gateway(buffer: &mut [u8], gateway: Gateway)
    ensures { buffer.new ≡ kept gateway_length (gateway_bytes gateway) buffer.old }
{
    let Gateway {
        phase,
        ending,
        fields,
        length,
    } = gateway;
    let version = fields.version;
    let parts: GatewayParts = (
        (phase, ending),
        (version, (fields.size, (length as u64, fields.code))),
    );
    keep(buffer, parts, GATEWAY_LENGTH);
}
