//! A buffer that is written from a place on. What a writer writes stands in `writing`.
ghost use Rattle.std.specs.Prelude.{◌≤◌, length};

use std::error::Error;
use std::fmt;

/// There is no room for what is to be written.
#[derive(Clone, Copy, Debug, PartialEq, Eq)]
pub struct NoRoom;

impl fmt::Display for NoRoom {
    fn fmt<W: fmt::Write>(&self, f: &mut fmt::Formatter<W>) -> fmt::Result {
        f.write_str("no room in the buffer")
    }
}

impl Error for NoRoom {}

/// A borrowed buffer that is written piece by piece, and the place behind what was written.
#[derive(Drop)]
pub struct Writer<'a> {
    pub(crate) out: &'a mut [u8],
    pub(crate) at: usize,
    ghost within: { at ≤ length out.now },
}
