//! Version text: 1 to 16 letters, digits, underscores, hyphens and dots, then only 00.
ghost use Rattle.std.specs.Prelude.{◌≡◌, ◌≤◌, ◌==◌};
ghost use Rattle.std.specs.List.{list_all, prefix_len};
ghost use Rattle.basis.specs.Bytes.{part, same};
ghost use Rattle.message.specs.Version.{version_character, front, good_version};

/// A byte that version text may hold: a letter, a digit, an underscore, a hyphen or a dot.
#[tactic(auto, unfolding(crate::specs::Version::version_character))]
fn is_character(byte: u8) -> bool
    ensures { result ≡ version_character byte }
{
    // Joined by `|` in this order: one `matches!` of all, or a row of `|`, makes a text of 16 letters
    // up to three times as dear.
    (matches!(byte, b'A'..=b'Z') | matches!(byte, b'a'..=b'z'))
        | (matches!(byte, b'0'..=b'9') | ((byte == b'_') | ((byte == b'-') | (byte == b'.'))))
}

/// How many such bytes the text starts with.
#[tactic(auto, using(crate::proofs::Texts::within))]
fn text_len(text: &[u8; 16]) -> usize
    ensures text { result ≡ prefix_len version_character text.now }
    ensures within { result ≤ 16 }
{
    text.iter().take_while(|byte| is_character(**byte)).count()
}

/// Only 00.
fn all_zero(bytes: &[u8]) -> bool
    ensures { result ≡ list_all (λ b. b == 0) bytes.now }
{
    bytes.iter().all(|byte| *byte == 0)
}

/// How long the text is without its 00: at most 16.
#[tactic(auto, using(crate::proofs::Texts::front_is))]
pub fn version_length(version: [u8; 16]) -> usize
    ensures { result ≡ front version }
{
    text_len(&version)
}

// The text keeps the rule. It is lent, so that a record's test copies none.
#[tactic(auto, using(crate::proofs::Texts::good_when, crate::proofs::Texts::none_when))]
fn good_text(version: &[u8; 16]) -> bool
    ensures { result ≡ good_version version.now }
{
    let len = text_len(version);
    let (_, rest) = version.split_at(len);
    1 <= len && all_zero(rest)
}

/// The text keeps the rule.
#[inline(always)]
pub fn good_version(version: [u8; 16]) -> bool
    ensures { result ≡ good_version version }
{
    good_text(&version)
}

/// The two texts are the same, in all of their bytes.
#[tactic(auto, using(basis::proofs::Alike::same_is))]
pub fn same_version(a: [u8; 16], b: [u8; 16]) -> bool
    ensures { result ≡ same a b }
{
    a == b
}

/// The text at a place of a message. A byte that is not there counts as 00.
pub fn version_at(message: &[u8], at: usize) -> [u8; 16]
    ensures { result ≡ part message.now at 16 }
{
    basis::sixteen_at(message, at)
}
