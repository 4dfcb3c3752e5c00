//! A record of a capture, as its readers give it.
ghost use Rattle.std.specs.Prelude.{◌≤◌, length};

/// A record: its place in the capture, its direction, and its message, which is part of the
/// capture.
#[derive(Clone, Copy)]
pub struct Record<'a> {
    /// The place of its mark.
    pub at: usize,
    /// Toward the device, or from it.
    pub to_device: bool,
    pub message: &'a [u8],
    ghost short: { length message.now ≤ 65535 },
}
