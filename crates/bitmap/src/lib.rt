//! The map of stored fragments: a bit for each, in bytes that the caller lends. Bit index mod 8 of
//! byte index/8 is the fragment's, lowest first.
#![tactic(auto)]

ghost use Rattle.std.specs.Prelude.{◌≡◌, [], ◌∷◌, ◌^◌, ◌%◌, ◌==◌, ◌≤◌, ◌<◌, min, length};
ghost use Rattle.std.specs.Prelude.{eqb, replicate};
ghost use lib.Pointwise.{pointwise};
ghost use Rattle.std.specs.List.{prefix_len};
ghost use Rattle.bitmap.specs.Bitmap.{marked, mark, cleared, lowest_missing};

// The weight of an index's bit in its byte.
#[tactic(auto, using(crate::proofs::FullBytes::weight_lem))]
fn weight(index: usize) -> u8
    ensures { result ≡ 2 ^ (index % 8) }
{
    1 << (index % 8)
}

/// The index's bit is set: its fragment is stored. There are no bits past the end.
#[tactic(auto, unfolding(crate::specs::Bitmap::marked))]
pub fn marked(map: &[u8], index: usize) -> bool
    ensures { result ≡ marked map.now index }
{
    (basis::byte_at(map, index / 8) >> (index % 8)) % 2 == 1
}

/// Sets the index's bit. Past the end nothing changes.
#[tactic(auto, unfolding(crate::specs::Bitmap::mark))]
pub fn mark(map: &mut [u8], index: usize)
    ensures { map.new ≡ mark index map.old }
{
    if index / 8 < map.len() {
        map[index / 8] |= weight(index);
    }
}

/// Zeroes the first n bytes, or all where there are fewer.
#[tactic(auto, unfolding(crate::specs::Bitmap::cleared, basis::specs::Bytes::over))]
pub fn clear(map: &mut [u8], n: usize)
    ensures { map.new ≡ cleared (min n (length map.old)) map.old }
{
    let end = n.min(map.len());
    map[..end].fill(0);
}

// How many eights at the front have every bit set.
fn full_eights(eights: &[[u8; 8]]) -> usize
    ensures { result ≡ prefix_len (λ eight. pointwise eqb eight (replicate 8 255)) eights.now }
{
    eights
        .iter()
        .take_while(|eight| **eight == [255; 8])
        .count()
}

// How many bytes at the front have every bit set.
fn ones(bytes: &[u8]) -> usize
    ensures { result ≡ prefix_len (λ b. b == 255) bytes.now }
{
    bytes.iter().take_while(|byte| **byte == 255).count()
}

// The same, faster: eight at a time are tested, and of the eight where that stops one by one.
#[tactic(auto, using(crate::proofs::FullBytes::eights_fit, crate::proofs::FullBytes::rest_fit, crate::proofs::FullBytes::eights_and_rest))]
fn full_bytes(bytes: &[u8]) -> usize
    ensures most { result ≤ length bytes.now }
    ensures value { result ≡ prefix_len (λ b. b == 255) bytes.now }
{
    let (eights, _) = bytes.as_chunks::<8>();
    let at = 8 * full_eights(eights);
    at + ones(&bytes[at..])
}

// The lowest bit of a byte that is not set, 8 where all are set.
#[tactic(auto, using(crate::proofs::FullBytes::lowest_clear))]
fn lowest_clear(byte: u8) -> usize
    ensures { result ≡ lowest_missing (byte ∷ []) 8 }
{
    byte.trailing_ones() as usize
}

/// The lowest index below total whose bit is not set, or total where all are set: full bytes are
/// passed over, and of the byte behind them the lowest clear bit is taken, up to total. A byte past
/// the map's end counts as 0.
#[tactic(auto, using(crate::proofs::FullBytes::lowest_found))]
pub fn lowest_missing(map: &[u8], total: usize) -> usize
    ensures { result ≡ lowest_missing map.now total }
{
    let end = (total / 8).min(map.len());
    let at = full_bytes(&map[..end]);
    let bit = lowest_clear(basis::byte_at(map, at));
    8 * at + bit.min(total - 8 * at)
}
