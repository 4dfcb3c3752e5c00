//! Text into a buffer. A `Writer` holds a borrowed buffer and its place, and writes piece by piece;
//! each function here writes one text from a place on, and answers the place behind it. Text that
//! has no room there is not written, and the place stands. The functions stay beside the writer, since
//! they take any place, also one past the buffer.
#![tactic(auto)]

mod hex;
pub mod laws;
mod writer;
mod writing;

ghost use Rattle.std.specs.Prelude.{◌≡◌, ◌+◌, ◌-◌, ◌%◌, leb, length};
ghost use Rattle.text.specs.Text.{last_five, decimal, number_text, text_at};
ghost use Rattle.text.specs.Answers.{written};

pub use hex::put_hex;
pub use writer::{NoRoom, Writer};

/// Bytes as they are.
#[tactic(auto, using(crate::proofs::Pages::places))]
pub fn put_text(out: &mut [u8], at: usize, text: &[u8]) -> usize
    ensures { written result out.new ≡ text_at text.now out.old at }
{
    if out.len() < at {
        return at;
    }
    let mut writer = Writer::begin(out, at);
    match writer.put(text) {
        Ok(()) => writer.place(),
        Err(_) => at,
    }
}

// The last figure of a number.
fn figure(n: usize) -> u8
    ensures { result ≡ 48 + n % 10 }
{
    b'0' + (n % 10) as u8
}

// How many of a number's five figures are zeros before it.
#[tactic(auto, using(crate::proofs::Figures::zeros_of))]
fn zeros(n: usize) -> usize
    ensures { result ≡ 5 - length (decimal n) }
{
    if n < 10 {
        return 4;
    }
    if n < 100 {
        return 3;
    }
    if n < 1000 {
        return 2;
    }
    if n < 10000 { 1 } else { 0 }
}

// A number's last five figures, with the zeros before it.
fn last_five(n: usize) -> [u8; 5]
    ensures { result ≡ last_five n }
{
    [
        figure(n / 10000),
        figure(n / 1000),
        figure(n / 100),
        figure(n / 10),
        figure(n),
    ]
}

/// A number in decimal, with nothing behind it. Of a number from 100,000 on, its last five figures.
#[tactic(auto, using(crate::proofs::Figures::decimal_written))]
pub fn put_decimal(out: &mut [u8], at: usize, n: usize) -> usize
    ensures { written result out.new ≡ text_at (decimal n) out.old at }
{
    let five = last_five(n);
    put_text(out, at, &five[zeros(n)..5])
}

/// The same, and a character behind it.
#[tactic(auto, using(crate::proofs::Figures::number_written))]
pub fn put_number(out: &mut [u8], at: usize, n: usize, end: u8) -> usize
    ensures { written result out.new ≡ text_at (number_text n end) out.old at }
{
    let five = last_five(n);
    let text = [five[0], five[1], five[2], five[3], five[4], end];
    put_text(out, at, &text[zeros(n)..6])
}
