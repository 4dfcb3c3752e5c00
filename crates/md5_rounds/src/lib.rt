//! The four rounds of MD5 over a block (RFC 1321, section 3.4), and over as many blocks as there are.
//! The table of constants is lent down by the caller, and not by every one from the same `static`: so the
//! compiler adds each from memory, before the round's function is known. Else it takes the numbers into
//! the code, which is 18 per cent slower at 8 MiB.
#![tactic(auto)]

ghost use Rattle.std.specs.Prelude.{◌≡◌, ℕ, ◌+◌, ◌*◌, ◌/◌, ◌%◌, ◌<◌, ◌≤◌, List, [], ◌∷◌, length, slice_index};
ghost use Rattle.md5_rules.specs.Md5.{◌⊕◌, mix_f, mix_g, mix_h, mix_i, sines, block_word, step, steps};
ghost use Rattle.md5_rules.specs.Md5.{increased, compressed, blocks};
ghost use Rattle.md5_rounds.specs.Rows.{Turn, four_rows, round_rows};

use md5_rules::Words;

// One of the four rounds: its function of three words, and its schedule.
trait Round {
    ghost mix: { ℕ → ℕ → ℕ → ℕ };

    ghost place: { ℕ → ℕ };

    ghost TURNS: { List ℕ };

    // By how many bits its steps rotate, four by four.
    const TURNS: [u32; 4];

    // Which word of the block step i takes, of all 64 steps.
    fn place(i: usize) -> usize
        requires { i < 64 }
        ensures value { result ≡ place i }
        ensures within { result < 16 };

    // Its function in two parts, whose sum it is: one that may be added before the step before is done,
    // and one that waits for its word b.
    fn parts(b: u32, c: u32, d: u32) -> (u32, u32)
        ensures { result.0 + result.1 ≡ mix b c d };

    ghost turns: { Turn (slice_index TURNS 0) × Turn (slice_index TURNS 1) × Turn (slice_index TURNS 2) × Turn (slice_index TURNS 3) };
}

struct First;

struct Second;

struct Third;

struct Fourth;

impl Round for First {
    ghost use Rattle.std.specs.Prelude.{◌∷◌, [], ◌%◌};
    ghost use Rattle.std.proofs.Common.{rules};
    ghost use Rattle.md5_rules.specs.Md5.{mix_f};

    ghost mix = { mix_f };

    ghost place = { λ i. i % 16 };

    ghost TURNS = { 7 ∷ 12 ∷ 17 ∷ 22 ∷ [] };

    ghost turns = { Prim.search rules };

    const TURNS: [u32; 4] = [7, 12, 17, 22];

    fn place(i: usize) -> usize {
        i % 16
    }

    #[tactic(auto, unfolding(md5_rules::specs::Md5::mix_f))]
    fn parts(b: u32, c: u32, d: u32) -> (u32, u32) {
        (0, (b & c) | (!b & d))
    }
}

impl Round for Second {
    ghost use Rattle.std.specs.Prelude.{◌∷◌, [], ◌%◌, ◌*◌, ◌+◌};
    ghost use Rattle.std.proofs.Common.{rules};
    ghost use Rattle.md5_rules.specs.Md5.{mix_g};

    ghost mix = { mix_g };

    ghost place = { λ i. (5 * i + 1) % 16 };

    ghost TURNS = { 5 ∷ 9 ∷ 14 ∷ 20 ∷ [] };

    ghost turns = { Prim.search rules };

    const TURNS: [u32; 4] = [5, 9, 14, 20];

    fn place(i: usize) -> usize {
        (5 * i + 1) % 16
    }

    #[tactic(auto, using(crate::proofs::Steps::mix_g_sum))]
    fn parts(b: u32, c: u32, d: u32) -> (u32, u32) {
        (c & !d, b & d)
    }
}

impl Round for Third {
    ghost use Rattle.std.specs.Prelude.{◌∷◌, [], ◌%◌, ◌*◌, ◌+◌};
    ghost use Rattle.std.proofs.Common.{rules};
    ghost use Rattle.md5_rules.specs.Md5.{mix_h};

    ghost mix = { mix_h };

    ghost place = { λ i. (3 * i + 5) % 16 };

    ghost TURNS = { 4 ∷ 11 ∷ 16 ∷ 23 ∷ [] };

    ghost turns = { Prim.search rules };

    const TURNS: [u32; 4] = [4, 11, 16, 23];

    fn place(i: usize) -> usize {
        (3 * i + 5) % 16
    }

    #[tactic(auto, unfolding(md5_rules::specs::Md5::mix_h))]
    fn parts(b: u32, c: u32, d: u32) -> (u32, u32) {
        (0, (b ^ c) ^ d)
    }
}

impl Round for Fourth {
    ghost use Rattle.std.specs.Prelude.{◌∷◌, [], ◌%◌, ◌*◌};
    ghost use Rattle.std.proofs.Common.{rules};
    ghost use Rattle.md5_rules.specs.Md5.{mix_i};

    ghost mix = { mix_i };

    ghost place = { λ i. 7 * i % 16 };

    ghost TURNS = { 6 ∷ 10 ∷ 15 ∷ 21 ∷ [] };

    ghost turns = { Prim.search rules };

    const TURNS: [u32; 4] = [6, 10, 15, 21];

    fn place(i: usize) -> usize {
        7 * i % 16
    }

    #[tactic(auto, unfolding(md5_rules::specs::Md5::mix_i))]
    fn parts(b: u32, c: u32, d: u32) -> (u32, u32) {
        (0, c ^ (b | !d))
    }
}

// Word k of a block.
#[tactic(auto, unfolding(md5_rules::specs::Md5::block_word))]
#[inline(always)]
fn word(block: &[u8], k: usize) -> u32
    requires { (k < 16) × (length block.now ≡ 64) }
    ensures { result ≡ block_word block.now k }
{
    let at = k * 4;
    u32::from_le_bytes([block[at], block[at + 1], block[at + 2], block[at + 3]])
}

// Step i, which takes a word of the block and a constant. What waits for the step before is added last.
#[tactic(auto, using(crate::proofs::Steps::stepped))]
#[inline(always)]
fn step<R: Round>(w: Words, x: u32, s: u32, t: u32) -> Words
    requires { Turn s }
    ensures { result ≡ step R.mix w x s t }
{
    let (early, late) = R::parts(w.b, w.c, w.d);
    let sum = w
        .a
        .wrapping_add(early)
        .wrapping_add(x)
        .wrapping_add(t)
        .wrapping_add(late);
    Words {
        a: w.d,
        b: w.b.wrapping_add(sum.rotate_left(s)),
        c: w.b,
        d: w.c,
    }
}

// Four steps, from step i on.
#[tactic(auto, unfolding(md5_rules::specs::Md5::steps))]
#[inline(always)]
fn four<R: Round>(table: &[u32; 64], block: &[u8], w: Words, i: usize) -> Words
    requires { (table.now ≡ sines) × (i + 4 ≤ 64) × (length block.now ≡ 64) }
    ensures { result ≡ steps R.mix block.now w (four_rows R.place R.TURNS i) }
{
    let [s, t, u, v] = R::TURNS;
    let one = step::<R>(w, word(block, R::place(i)), s, table[i]);
    let two = step::<R>(one, word(block, R::place(i + 1)), t, table[i + 1]);
    let three = step::<R>(two, word(block, R::place(i + 2)), u, table[i + 2]);
    step::<R>(three, word(block, R::place(i + 3)), v, table[i + 3])
}

// Sixteen steps: a round, from step i on.
#[tactic(auto, unfolding(md5_rules::specs::Md5::steps))]
#[inline(always)]
fn sixteen<R: Round>(table: &[u32; 64], block: &[u8], w: Words, i: usize) -> Words
    requires { (table.now ≡ sines) × (i + 16 ≤ 64) × (length block.now ≡ 64) }
    ensures { result ≡ steps R.mix block.now w (round_rows R.place R.TURNS i) }
{
    let one = four::<R>(table, block, w, i);
    let two = four::<R>(table, block, one, i + 4);
    let three = four::<R>(table, block, two, i + 8);
    four::<R>(table, block, three, i + 12)
}

// The words after a block.
fn compressed(table: &[u32; 64], w: Words, block: &[u8]) -> Words
    requires { (table.now ≡ sines) × (length block.now ≡ 64) }
    ensures { result ≡ compressed w block.now }
{
    let one = sixteen::<First>(table, block, w, 0);
    let two = sixteen::<Second>(table, block, one, 16);
    let three = sixteen::<Third>(table, block, two, 32);
    let end = sixteen::<Fourth>(table, block, three, 48);
    Words {
        a: end.a.wrapping_add(w.a),
        b: end.b.wrapping_add(w.b),
        c: end.c.wrapping_add(w.c),
        d: end.d.wrapping_add(w.d),
    }
}

/// The words after the whole blocks of some bytes, with the table of the 64 constants.
#[tactic(auto, using(crate::proofs::Steps::blocks_turn, crate::proofs::Steps::blocks_ended))]
pub fn blocks(table: &[u32; 64], start: Words, bytes: &[u8]) -> Words
    requires { table.now ≡ sines }
    ensures { result ≡ blocks (length bytes.now / 64) start bytes.now }
{
    let mut w = start;
    for block in bytes.chunks_exact(64) {
        w = compressed(table, w, block);
    }
    w
}
