//! Values as bytes at a place of a buffer, one behind the other: numbers, high byte first, arrays of
//! bytes, and pairs of what has a layout. A record is pairs in pairs, so no place is written by hand.
//! The numbers have an impl each, since each width has a definition of its own in `basis`, and an impl
//! that a macro of our own writes is not taken by the gate.
#![tactic(auto)]

ghost use Rattle.std.specs.Prelude.{◌≡◌, ℕ, ◌+◌, ◌≤◌, ◌<◌, ◌^◌, List, length, leb};
ghost use Rattle.basis.specs.Bytes.{patched, over};
ghost use Rattle.basis.specs.Choice.{pick};

/// What has a fixed layout: SIZE bytes.
pub trait Layout: Copy {
    ghost SIZE: { ℕ };

    ghost bytes_of: { Self → List ℕ };

    ghost value_at: { List ℕ → ℕ → Self };

    /// The value at a place, and the place behind it. A byte that is not there counts as 0.
    fn at(bytes: &[u8], place: usize) -> (Self, usize)
        requires { place + SIZE < 2 ^ 64 }
        ensures value { result.0 ≡ value_at bytes.now place }
        ensures next { result.1 ≡ place + SIZE };

    /// Writes the value to a place of a buffer that has room for it, and gives the place behind it.
    fn put(self, buffer: &mut [u8], place: usize) -> usize
        requires { place + SIZE ≤ length buffer.old }
        ensures size { length (bytes_of self) ≡ SIZE }
        ensures written { buffer.new ≡ patched place (bytes_of self) buffer.old }
        ensures next { result ≡ place + SIZE };
}

impl Layout for u8 {
    ghost use Rattle.std.specs.Prelude.{ℕ, get_or, ◌∷◌, []};

    ghost SIZE = { 1 };

    ghost bytes_of = { λ n. n ∷ [] };

    ghost value_at = { λ b at. get_or b at 0 };

    fn at(bytes: &[u8], place: usize) -> (u8, usize) {
        (basis::byte_at(bytes, place), place + 1)
    }

    fn put(self, buffer: &mut [u8], place: usize) -> usize {
        basis::put(buffer, place, &[self]);
        place + 1
    }
}

impl Layout for u16 {
    ghost use Rattle.basis.specs.Bytes.{word_at, word_bytes};

    ghost SIZE = { 2 };

    ghost bytes_of = { word_bytes };

    ghost value_at = { word_at };

    fn at(bytes: &[u8], place: usize) -> (u16, usize) {
        (basis::word_at(bytes, place), place + 2)
    }

    fn put(self, buffer: &mut [u8], place: usize) -> usize {
        let [high, low] = self.to_be_bytes();
        basis::put(buffer, place, &[high, low]);
        place + 2
    }
}

impl Layout for u32 {
    ghost use Rattle.basis.specs.Bytes.{dword_at, dword_bytes};

    ghost SIZE = { 4 };

    ghost bytes_of = { dword_bytes };

    ghost value_at = { dword_at };

    fn at(bytes: &[u8], place: usize) -> (u32, usize) {
        (basis::dword_at(bytes, place), place + 4)
    }

    fn put(self, buffer: &mut [u8], place: usize) -> usize {
        basis::put(buffer, place, &self.to_be_bytes());
        place + 4
    }
}

impl Layout for u64 {
    ghost use Rattle.basis.specs.Bytes.{qword_at, qword_bytes};

    ghost SIZE = { 8 };

    ghost bytes_of = { qword_bytes };

    ghost value_at = { qword_at };

    fn at(bytes: &[u8], place: usize) -> (u64, usize) {
        (basis::qword_at(bytes, place), place + 8)
    }

    #[tactic(auto, unfolding(basis::specs::Bytes::qword_bytes))]
    fn put(self, buffer: &mut [u8], place: usize) -> usize {
        let bytes = self.to_be_bytes();
        basis::put(buffer, place, &bytes);
        place + 8
    }
}

impl<const N: usize> Layout for [u8; N] {
    ghost use Rattle.basis.specs.Bytes.{part};

    ghost SIZE = { N };

    ghost bytes_of = { λ xs. xs };

    ghost value_at = { λ b at. part b at N };

    #[tactic(auto, using(crate::proofs::Pairs::there_fits, crate::proofs::Pairs::filled))]
    fn at(bytes: &[u8], place: usize) -> ([u8; N], usize) {
        let mut found = [0u8; N];
        let there = basis::part_of(bytes, place, N);
        basis::put(&mut found, 0, there);
        (found, place + N)
    }

    fn put(self, buffer: &mut [u8], place: usize) -> usize {
        basis::put(buffer, place, &self);
        place + N
    }
}

impl<A: Layout, B: Layout> Layout for (A, B) {
    ghost use Rattle.std.specs.Prelude.{◌+◌, ◌++◌};

    ghost SIZE = { A.SIZE + B.SIZE };

    ghost bytes_of = { λ p. A.bytes_of p.0 ++ B.bytes_of p.1 };

    ghost value_at = { λ b at. (A.value_at b at, B.value_at b (at + A.SIZE)) };

    fn at(bytes: &[u8], place: usize) -> ((A, B), usize) {
        let (first, middle) = A::at(bytes, place);
        let (second, end) = B::at(bytes, middle);
        ((first, second), end)
    }

    #[tactic(auto, using(crate::proofs::Pairs::pair_put))]
    fn put(self, buffer: &mut [u8], place: usize) -> usize {
        let (first, second) = self;
        let middle = first.put(buffer, place);
        second.put(buffer, middle)
    }
}

/// The value kept at the front of a buffer, where there is room for it.
#[tactic(auto, using(crate::proofs::Pairs::kept_short, crate::proofs::Pairs::kept_new))]
pub fn keep<T: Layout>(buffer: &mut [u8], value: T, room: usize)
    requires { room ≡ T.SIZE }
    ensures { buffer.new ≡ pick (leb T.SIZE (length buffer.old)) (over (T.bytes_of value) buffer.old) buffer.old }
{
    if room <= buffer.len() {
        value.put(buffer, 0);
    }
}
