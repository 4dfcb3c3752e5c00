//! What a `Writer` writes. A piece that has no room is an error; std's `Write` says nothing of what
//! stands in a buffer after one.
ghost use Rattle.std.specs.Prelude.{◌≡◌, ◌≤◌, [], ◌∷◌, ◌++◌, length, take, drop, OnErr};
ghost use Rattle.text.specs.Text.{decimal, number_text, hex};
ghost use Rattle.text.specs.Writing.{Puts, Stands, text_of, rest_of};

use crate::hex::hex_figure;
use crate::writer::{NoRoom, Writer};
use crate::{last_five, zeros};

impl<'a> Writer<'a> {
    /// A writer that begins at a place of the buffer.
    #[tactic(auto, unfolding(crate::specs::Writing::text_of, crate::specs::Writing::rest_of))]
    pub fn begin(out: &'a mut [u8], at: usize) -> Writer<'a>
        requires { at ≤ length out.old }
        ensures reference { result.out.ghost_name ≡ out.entry.ghost_name }
        ensures kept { result.out.now ≡ out.old }
        ensures text { text_of result ≡ take at out.old }
        ensures left { rest_of result ≡ drop at out.old }
    {
        Writer { out, at }
    }

    /// The place behind what was written.
    #[tactic(auto, unfolding(crate::specs::Writing::text_of, crate::specs::Writing::rest_of))]
    pub fn place(&self) -> usize
        ensures place { result ≡ length (text_of self.now) }
        ensures whole { self.now.out.now ≡ text_of self.now ++ rest_of self.now }
    {
        self.at
    }

    /// Bytes as they are, or none of them.
    #[tactic(auto, unfolding(crate::specs::Writing::text_of, crate::specs::Writing::rest_of), using(crate::proofs::Pages::piece_put))]
    pub fn put(&mut self, text: &[u8]) -> Result<(), NoRoom>
        ensures puts { Puts text.now result self.old self.new }
        ensures kept { OnErr result (Stands self.old self.new) }
    {
        if self.out.len() - self.at < text.len() {
            return Err(NoRoom);
        }
        basis::put(self.out, self.at, text);
        self.at += text.len();
        Ok(())
    }

    /// A number in decimal, up to 99,999; of a higher one its last five figures. Or nothing.
    #[tactic(auto, using(crate::proofs::Figures::decimal_written))]
    pub fn put_decimal(&mut self, n: usize) -> Result<(), NoRoom>
        ensures puts { Puts (decimal n) result self.old self.new }
        ensures kept { OnErr result (Stands self.old self.new) }
    {
        let five = last_five(n);
        self.put(&five[zeros(n)..5])
    }

    /// The same, and a character behind it. Or nothing.
    #[tactic(auto, using(crate::proofs::Figures::number_written))]
    pub fn put_number(&mut self, n: usize, end: u8) -> Result<(), NoRoom>
        ensures puts { Puts (number_text n end) result self.old self.new }
        ensures kept { OnErr result (Stands self.old self.new) }
    {
        let five = last_five(n);
        let text = [five[0], five[1], five[2], five[3], five[4], end];
        self.put(&text[zeros(n)..6])
    }

    // A byte in upper-case hex.
    #[tactic(auto, unfolding(crate::specs::Text::hex))]
    fn put_byte(&mut self, byte: u8) -> Result<(), NoRoom>
        ensures { Puts (hex (byte ∷ [])) result self.old self.new }
    {
        self.put(&[hex_figure(byte / 16), hex_figure(byte % 16)])
    }

    /// Bytes in upper-case hex. Where they have no room, the first of them may have been written.
    #[tactic(auto, unfolding(crate::specs::Text::hex), using(crate::proofs::Pages::puts_none))]
    pub fn put_hex(&mut self, bytes: &[u8]) -> Result<(), NoRoom>
        ensures { Puts (hex bytes.now) result self.old self.new }
    {
        for byte in bytes {
            self.put_byte(*byte)?;
        }
        Ok(())
    }
}
