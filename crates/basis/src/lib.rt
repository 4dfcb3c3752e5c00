//! What the crates above share: refusals and their numbers, the product of two WORDs, bytes, numbers
//! and parts of a slice, and the one way in which a buffer is written.
#![tactic(auto)]

mod refusal;

ghost use Rattle.std.specs.Prelude.{◌≡◌, ◌++◌, ◌+◌, ◌*◌, ◌≤◌, length, get_or};
ghost use Rattle.basis.specs.Bytes.{word_at, word_bytes, dword_at, qword_at, part, same, patched};
ghost use Rattle.basis.specs.Stretch.{Stretch};

pub use refusal::{Numbered, Refusal, answered, require};

/// The product of two WORDs.
pub fn product(a: u16, b: u16) -> usize
    ensures { result ≡ a * b }
{
    usize::from(a) * usize::from(b)
}

/// The byte at a place, 0 where there is none.
pub fn byte_at(bytes: &[u8], at: usize) -> u8
    ensures { result ≡ get_or bytes.now at 0 }
{
    bytes.get(at).copied().unwrap_or(0)
}

/// The WORD at a place, high byte first; a byte that is not there counts as 0.
pub fn word_at(bytes: &[u8], at: usize) -> u16
    ensures { result ≡ word_at bytes.now at }
{
    let rest = &bytes[at.min(bytes.len())..];
    u16::from_be_bytes([byte_at(rest, 0), byte_at(rest, 1)])
}

/// Three WORDs, one behind the other.
pub fn words_of(a: u16, b: u16, c: u16) -> [u8; 6]
    ensures { result ≡ word_bytes a ++ (word_bytes b ++ word_bytes c) }
{
    let [a_high, a_low] = a.to_be_bytes();
    let [b_high, b_low] = b.to_be_bytes();
    let [c_high, c_low] = c.to_be_bytes();
    [a_high, a_low, b_high, b_low, c_high, c_low]
}

/// The DWORD at a place, high WORD first; a byte that is not there counts as 0.
pub fn dword_at(bytes: &[u8], at: usize) -> u32
    ensures { result ≡ dword_at bytes.now at }
{
    if bytes.len() <= at {
        return 0;
    }
    let high = word_at(bytes, at) as u32;
    let low = word_at(bytes, at + 2) as u32;
    high * 65536 + low
}

/// The QWORD at a place, high DWORD first; a byte that is not there counts as 0.
pub fn qword_at(bytes: &[u8], at: usize) -> u64
    ensures { result ≡ qword_at bytes.now at }
{
    if bytes.len() <= at {
        return 0;
    }
    let high = dword_at(bytes, at) as u64;
    let low = dword_at(bytes, at + 4) as u64;
    high * 4294967296 + low
}

/// The part of a slice from a place on, so many bytes of it or as many as there are: the part itself,
/// not a copy.
pub fn part_of<'a>(whole: &'a [u8], start: usize, count: usize) -> &'a [u8]
    ensures { Stretch result whole.entry start count }
{
    let rest = &whole[start.min(whole.len())..];
    &rest[..count.min(rest.len())]
}

/// The two slices hold the same bytes.
pub fn same_bytes(a: &[u8], b: &[u8]) -> bool
    ensures { result ≡ same a.now b.now }
{
    a == b
}

/// Writes src into the buffer from a place on. The buffer has room for it.
#[tactic(auto, unfolding(crate::specs::Bytes::patched))]
pub fn put(buffer: &mut [u8], at: usize, src: &[u8])
    requires { at + length src.now ≤ length buffer.old }
    ensures { buffer.new ≡ patched at src.now buffer.old }
{
    buffer[at..at + src.len()].copy_from_slice(src);
}

/// Sixteen bytes from a place on, 00 for each that is not there: a version text, or a digest.
pub fn sixteen_at(bytes: &[u8], at: usize) -> [u8; 16]
    ensures { result ≡ part bytes.now at 16 }
{
    let mut found = [0u8; 16];
    let there = part_of(bytes, at, 16);
    put(&mut found, 0, there);
    found
}
