// Short inputs, four bytes at a time. What a byte leaves in the register is looked up by its nibbles:
// two functions with a `match` on numbers, of which the compiler makes a table of 16 bits for each use.
// One function over two const tables of 64 bits proves too, and takes 7 to 16 per cent more at 36 to 39 bytes.
ghost use Rattle.std.specs.Prelude.{◌≡◌, [], ◌∷◌, ◌*◌, ◌/◌, ◌%◌, ◌<◌, drop};
ghost use Rattle.checksum.specs.Check.{step, register};
ghost use Rattle.checksum.specs.Inner.{spread_of};

// The spread of the low nibble of a number's lowest byte.
fn low(n: u64) -> u64
    ensures { result ≡ spread_of (n % 16) }
{
    match n % 16 {
        0 => 0x0000000000000000,
        1 => 0x95C26AA234531021,
        2 => 0x0895D54468A62042,
        3 => 0x9D57BFE65CF53063,
        4 => 0x12198999D14C4084,
        5 => 0x87DBE33BE51F50A5,
        6 => 0x1A8C5CDDB9EA60C6,
        7 => 0x8F4E367F8DB970E7,
        8 => 0x2462002081898108,
        9 => 0xB1A06A82B5DA9129,
        10 => 0x2CF7D564E92FA14A,
        11 => 0xB935BFC6DD7CB16B,
        12 => 0x367B89B950C5C18C,
        13 => 0xA3B9E31B6496D1AD,
        14 => 0x3EEE5CFD3863E1CE,
        _ => 0xAB2C365F0C30F1EF,
    }
}

// The spread of the high nibble of a number's lowest byte, at its place.
fn high(n: u64) -> u64
    ensures { result ≡ spread_of (n / 16 % 16 * 16) }
{
    match n / 16 % 16 {
        0 => 0x0000000000000000,
        1 => 0x91E46C8026601231,
        2 => 0x00D9D9004CC02462,
        3 => 0x913DB5806AA03653,
        4 => 0x02819111998048C4,
        5 => 0x9365FD91BFE05AF5,
        6 => 0x02584811D5406CA6,
        7 => 0x93BC2491F3207E97,
        8 => 0x0002020010119188,
        9 => 0x91E66E80367183B9,
        10 => 0x00DBDB005CD1B5EA,
        11 => 0x913FB7807AB1A7DB,
        12 => 0x028393118991D94C,
        13 => 0x9367FF91AFF1CB7D,
        14 => 0x025A4A11C551FD2E,
        _ => 0x93BE2691E331EF1F,
    }
}

// What a number's lowest byte leaves in the register, and what of that is left one, two and three steps
// later: 16 bits for each, the first lowest.
#[tactic(auto, using(crate::proofs::Spreads::halves))]
fn spread(n: u64) -> u64
    ensures { result ≡ spread_of (n % 256) }
{
    low(n) ^ high(n)
}

// The register after four bytes. Its own two bytes count as changes of the first two.
#[tactic(auto, using(crate::proofs::Spreads::quad_is))]
fn quad(start: u32, a: u8, b: u8, c: u8, d: u8) -> u32
    requires { start < 65536 }
    ensures { result ≡ register start (a ∷ b ∷ c ∷ d ∷ []) }
{
    let two = (a as u64 + b as u64 * 256) ^ (start as u64);
    let first = spread(two) >> 48;
    let second = spread(two >> 8) >> 32;
    let third = spread(c as u64) >> 16;
    let fourth = spread(d as u64);
    ((((first ^ second) ^ third) ^ fourth) % 65536) as u32
}

// The register after one byte: its entry is worked out.
#[tactic(auto, using(crate::proofs::Spreads::step_closed, crate::proofs::Spreads::mixed_fits))]
fn single(start: u32, b: u8) -> u32
    requires { start < 65536 }
    ensures { result ≡ step start b }
{
    let index = (start % 256) ^ (b as u32);
    let mixed = index ^ (index >> 4);
    (start >> 8) ^ ((((mixed * 4096) % 65536) ^ (mixed * 32)) ^ mixed)
}

// The register after the bytes.
pub(crate) fn run(start: u16, bytes: &[u8]) -> u16
    ensures { result ≡ register start bytes.now }
{
    let mut r = start as u32;
    let (fours, rest) = bytes.as_chunks::<4>();
    for &[a, b, c, d] in fours {
        r = quad(r, a, b, c, d);
    }
    for &b in rest {
        r = single(r, b);
    }
    (r % 65536) as u16
}
