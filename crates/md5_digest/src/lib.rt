//! MD5 (RFC 1321): the digest of bytes, whole or in pieces. It helps against accidents, and not
//! against someone who means harm.
#![tactic(auto)]

ghost use Rattle.std.specs.Prelude.{◌≡◌, ℕ, ◌+◌, ◌%◌, ◌<◌, ◌≤◌, List, length};
ghost use Rattle.md5_rules.specs.Md5.{sines, start_words, low_first, digest_of, md5_of};
ghost use Rattle.md5_rules.specs.Stream.{new_of, feed_of, finish_of};
ghost use Rattle.md5_rules.specs.Inner.{closed_of};

use md5_rounds::blocks;
pub use md5_rules::{Md5, Words};

// The constants of the 64 steps.
const SINES: [u32; 64] = [
    0xD76AA478, 0xE8C7B756, 0x242070DB, 0xC1BDCEEE, 0xF57C0FAF, 0x4787C62A, 0xA8304613, 0xFD469501,
    0x698098D8, 0x8B44F7AF, 0xFFFF5BB1, 0x895CD7BE, 0x6B901122, 0xFD987193, 0xA679438E, 0x49B40821,
    0xF61E2562, 0xC040B340, 0x265E5A51, 0xE9B6C7AA, 0xD62F105D, 0x02441453, 0xD8A1E681, 0xE7D3FBC8,
    0x21E1CDE6, 0xC33707D6, 0xF4D50D87, 0x455A14ED, 0xA9E3E905, 0xFCEFA3F8, 0x676F02D9, 0x8D2A4C8A,
    0xFFFA3942, 0x8771F681, 0x6D9D6122, 0xFDE5380C, 0xA4BEEA44, 0x4BDECFA9, 0xF6BB4B60, 0xBEBFBC70,
    0x289B7EC6, 0xEAA127FA, 0xD4EF3085, 0x04881D05, 0xD9D4D039, 0xE6DB99E5, 0x1FA27CF8, 0xC4AC5665,
    0xF4292244, 0x432AFF97, 0xAB9423A7, 0xFC93A039, 0x655B59C3, 0x8F0CCC92, 0xFFEFF47D, 0x85845DD1,
    0x6FA87E4F, 0xFE2CE6E0, 0xA3014314, 0x4E0811A1, 0xF7537E82, 0xBD3AF235, 0x2AD7D2BB, 0xEB86D391,
];

// The four words before any block.
const START: Words = Words {
    a: 0x67452301,
    b: 0xEFCDAB89,
    c: 0x98BADCFE,
    d: 0x10325476,
};

// The table by value, laid out on the stack once for each call that needs it, and lent from there on.
// Were every table lent from a `static`, the compiler would take the numbers into the code, which is
// 18 per cent slower at 8 MiB.
#[tactic(auto, unfolding(md5_rules::specs::Md5::sines))]
fn sines() -> [u32; 64]
    ensures { result ≡ sines }
{
    SINES
}

static TABLE: [u32; 64] = SINES;

// The same table where it lies, for a digest with no state between: that is taken deepest in a device's
// call, and so lays no copy on the stack.
#[tactic(auto, unfolding(md5_rules::specs::Md5::sines))]
fn table() -> &'static [u32; 64]
    ensures { result.now ≡ sines }
{
    &TABLE
}

/// The digest of bytes that come in pieces: methods for the state, whose struct is of md5_rules.
pub trait Hasher: Copy {
    ghost fed: { Self → List ℕ → Self };

    ghost digest: { Self → List ℕ };

    /// A piece more.
    fn update(&mut self, piece: &[u8])
        ensures { self.new ≡ fed self.old piece.now };

    /// The digest of the pieces so far.
    fn finish(self) -> [u8; 16]
        ensures { result ≡ digest self };
}

impl Hasher for Md5 {
    ghost use Rattle.md5_rules.specs.Stream.{feed_of, finish_of};

    ghost fed = { feed_of };

    ghost digest = { finish_of };

    #[tactic(auto, using(md5_rules::proofs::Feeding::cut_whole))]
    fn update(&mut self, piece: &[u8]) {
        let room = 64 - (self.count % 64) as usize;
        if piece.len() < room {
            return store(self, piece);
        }
        let table = sines();
        if room == 64 {
            return take(self, &table, piece);
        }
        fill(self, &table, &piece[..room]);
        take(self, &table, &piece[room..])
    }

    #[tactic(auto, using(md5_rules::proofs::Closing::finish_closed))]
    fn finish(self) -> [u8; 16] {
        let at = (self.count % 64) as usize;
        let Md5 {
            words,
            count,
            block,
        } = self;
        closed(&sines(), words, &block[..at], count)
    }
}

// Stores bytes in the block, which stays open.
#[tactic(auto, using(md5_rules::proofs::Feeding::open_is))]
#[inline(always)]
fn store(state: &mut Md5, bytes: &[u8])
    requires { state.old.count % 64 + length bytes.now < 64 }
    ensures { state.new ≡ feed_of state.old bytes.now }
{
    let at = (state.count % 64) as usize;
    basis::put(&mut state.block, at, bytes);
    state.count = state.count.wrapping_add(bytes.len() as u64);
}

// Stores the bytes that make the block whole.
#[tactic(auto, using(md5_rules::proofs::Feeding::filled_is))]
fn fill(state: &mut Md5, table: &[u32; 64], bytes: &[u8])
    requires table { table.now ≡ sines }
    requires whole { state.old.count % 64 + length bytes.now ≡ 64 }
    ensures { state.new ≡ feed_of state.old bytes.now }
{
    let at = (state.count % 64) as usize;
    basis::put(&mut state.block, at, bytes);
    state.words = blocks(table, state.words, &state.block);
    state.count = state.count.wrapping_add(bytes.len() as u64);
    state.block = [0; 64];
}

// Any bytes, where none waits: whole blocks from where they lie, and the rest is stored.
#[tactic(auto, using(crate::proofs::Low::taken))]
fn take(state: &mut Md5, table: &[u32; 64], bytes: &[u8])
    requires table { table.now ≡ sines }
    requires none { state.old.count % 64 ≡ 0 }
    ensures { state.new ≡ feed_of state.old bytes.now }
{
    if bytes.len() < 64 {
        return store(state, bytes);
    }
    let (front, rest) = bytes.split_at(bytes.len() - bytes.len() % 64);
    state.words = blocks(table, state.words, front);
    state.count = state.count.wrapping_add(front.len() as u64);
    state.block = [0; 64];
    store(state, rest)
}

/// The state before any byte.
pub fn new() -> Md5
    ensures { result ≡ new_of }
{
    Md5 {
        words: START,
        count: 0,
        block: [0; 64],
    }
}

/// A piece more.
pub fn feed(state: Md5, piece: &[u8]) -> Md5
    ensures { result ≡ feed_of state piece.now }
{
    let mut state = state;
    state.update(piece);
    state
}

// The words as a digest.
#[tactic(auto, using(crate::proofs::Low::four_low), unfolding(md5_rules::specs::Md5::digest_of))]
fn output(w: Words) -> [u8; 16]
    ensures { result ≡ digest_of w }
{
    let a = w.a.to_le_bytes();
    let b = w.b.to_le_bytes();
    let c = w.c.to_le_bytes();
    let d = w.d.to_le_bytes();
    [
        a[0], a[1], a[2], a[3], b[0], b[1], b[2], b[3], c[0], c[1], c[2], c[3], d[0], d[1], d[2],
        d[3],
    ]
}

// The digest at the end: of the words after the whole blocks, the bytes behind those, and the number of
// all bytes. The padding lies in the block of these bytes, or in that and one more.
fn closed(table: &[u32; 64], w: Words, rest: &[u8], count: u64) -> [u8; 16]
    requires { (table.now ≡ sines) × (count % 64 ≡ length rest.now) }
    ensures { result ≡ closed_of w rest.now count }
{
    let at = rest.len();
    let end = (at + 8) / 64 * 64 + 64;
    let field = (count << 3).to_le_bytes();
    let mut out = [0; 128];
    basis::put(&mut out, 0, rest);
    out[at] = 0x80;
    basis::put(&mut out, end - 8, &field);
    output(blocks(table, w, &out[..end]))
}

/// The digest.
pub fn finish(state: Md5) -> [u8; 16]
    ensures { result ≡ finish_of state }
{
    state.finish()
}

/// The digest of some bytes, with no state between.
#[tactic(auto, using(md5_rules::proofs::Closing::digest_closed))]
pub fn digest(bytes: &[u8]) -> [u8; 16]
    ensures { result ≡ md5_of bytes.now }
{
    let end = bytes.len() - bytes.len() % 64;
    let w = blocks(table(), START, bytes);
    closed(table(), w, &bytes[end..], bytes.len() as u64)
}
