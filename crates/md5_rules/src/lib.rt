// MD5 (RFC 1321) as definitions, over bytes as a whole and in pieces, with cases and claims, each the contract of a
// function. The code is in md5_rounds and md5_digest, which are proved equal to them; here are otherwise only the
// structs that these share.
#![tactic(auto)]

ghost use Rattle.md5_rules.specs.Cases.{Md5Cases};
ghost use Rattle.md5_rules.specs.Stream.{AnyCut};

// The four words, A to D.
#[derive(Clone, Copy)]
pub struct Words {
    pub a: u32,
    pub b: u32,
    pub c: u32,
    pub d: u32,
}

// The state between two pieces: the words after the whole blocks so far, the number of bytes so far, and
// the block that is not whole yet, with as many bytes at its front as the number is over a multiple of 64.
#[derive(Clone, Copy)]
pub struct Md5 {
    pub words: Words,
    pub count: u64,
    pub block: [u8; 64],
}

/// Padding, length field, words, constants and digests are what the rows of `Md5Cases` say, RFC
/// 1321's suite among them.
pub fn md5_cases_hold()
    ensures { Md5Cases }
{}

/// Bytes fed in any pieces have the digest of the bytes as a whole.
pub fn any_cut_has_one_digest()
    ensures { AnyCut }
{}
