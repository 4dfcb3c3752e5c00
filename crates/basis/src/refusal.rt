//! Why a message or a call is refused.
ghost use Rattle.std.specs.Prelude.{◌≡◌, ℕ, if◌then◌else◌, Ok, Err};
ghost use Rattle.basis.specs.declared.refusal.Refusal.{Refusal};
ghost use Rattle.basis.specs.Refusals.{number_of, answered};

use std::error::Error;
use std::fmt;

/// Why a message or a call of either end, of captures or of the boundary is refused. Each reason has
/// the number that hosts are answered with; 0 is no refusal, but `Ok`.
#[derive(Clone, Copy, Debug, PartialEq, Eq, Hash)]
pub enum Refusal {
    /// The caller states that upgrade is not supported.
    Unsupported = 1,
    /// The caller states that the upgrade protocol is not PCP.
    OtherProtocol = 2,
    /// The first two bytes are not FF FE.
    BadStart = 3,
    /// The version byte.
    BadVersion = 4,
    /// The message code.
    BadCode = 5,
    /// The check.
    BadCheck = 6,
    /// The data length.
    BadLength = 7,
    /// The data is not that of a message with this code.
    BadData = 8,
    /// A message or a call that this phase has no use for; nothing to send.
    NoUse = 9,
    /// A fragment's index.
    BadIndex = 10,
    /// A fragment's length.
    BadFragmentLength = 11,
    /// The fragment is stored already, with the same bytes and length.
    AlreadyStored = 12,
    /// A condition that is not known.
    UnknownCondition = 13,
    /// Image or map is too short, or the package has another length.
    BadMemory = 14,
    /// The reply buffer is too short.
    ShortReply = 15,
    /// The installer's code.
    BadInstallCode = 16,
    /// A version text.
    BadVersionText = 17,
    /// A fragment size.
    BadSize = 18,
    /// The package is empty or too long.
    BadPackage = 19,
    /// A capture's mark.
    BadMark = 20,
    /// A record of a capture is cut short.
    CutShort = 21,
    /// A record does not fit its buffer, or its message is too long for a length WORD.
    DoesNotFit = 22,
    /// The fragment is stored already, with other bytes or with another length.
    RepeatDiffers = 23,
    /// A lent record breaks the rules.
    BadRecord = 29,
    /// The boundary's own: a buffer is shorter than the layout of its record or state, or not of a
    /// digest's length.
    ShortRecord = 64,
}

impl Refusal {
    /// The number that hosts are answered with: 1 to 23, 29 or 64.
    pub fn number(self) -> u8
        ensures { result ≡ number_of self }
    {
        self as u8
    }
}

impl From<Refusal> for u8 {
    ghost from_gives = { λ refusal number. number ≡ number_of refusal };

    fn from(refusal: Refusal) -> u8 {
        refusal.number()
    }
}

/// Why there is no message: a `Refusal`, or a number alone, which may be any.
pub trait Numbered: Copy + From<Refusal> {
    ghost numbered: { Self → ℕ };

    /// A refusal keeps its number.
    ghost keeps: { (refusal : Refusal) (made : Self) → Self.from_gives refusal made → numbered made ≡ number_of refusal };
}

impl Numbered for Refusal {
    ghost use Rattle.std.proofs.Common.{rules};
    ghost use Rattle.basis.specs.Refusals.{number_of};

    ghost numbered = { number_of };

    ghost keeps = { Prim.search rules };
}

impl Numbered for u8 {
    ghost use Rattle.std.proofs.Common.{rules};

    ghost numbered = { λ number. number };

    ghost keeps = { Prim.search rules };
}

/// The words of the C header's `pcp_reason`.
impl fmt::Display for Refusal {
    fn fmt<W: fmt::Write>(&self, f: &mut fmt::Formatter<W>) -> fmt::Result {
        f.write_str(match self {
            Refusal::Unsupported => "the device does not support software upgrade",
            Refusal::OtherProtocol => "the device is upgraded by another protocol",
            Refusal::BadStart => "not the start of a PCP message",
            Refusal::BadVersion => "unknown protocol version",
            Refusal::BadCode => "unknown message code",
            Refusal::BadCheck => "wrong check, or cut short before the data",
            Refusal::BadLength => "wrong data length",
            Refusal::BadData => "the data is not what this code carries toward this end",
            Refusal::NoUse => "this phase has no use for it",
            Refusal::BadIndex => "no such fragment",
            Refusal::BadFragmentLength => "wrong fragment length",
            Refusal::AlreadyStored => "fragment already stored",
            Refusal::UnknownCondition => "unknown condition",
            Refusal::BadMemory =>
                "image or map too short for the download, or package of another length than at the start",
            Refusal::ShortReply => "reply buffer too short",
            Refusal::BadInstallCode => "unknown installer code",
            Refusal::BadVersionText => "bad version text",
            Refusal::BadSize => "fragment size not from 32 to 1024",
            Refusal::BadPackage => "package empty, or longer than 65,535 fragments",
            Refusal::BadMark => "no record of a capture begins here",
            Refusal::CutShort => "a record of a capture is not whole",
            Refusal::DoesNotFit =>
                "no room for a record, or its message is longer than 65,535 bytes",
            Refusal::RepeatDiffers =>
                "fragment already stored with other bytes: the download has failed",
            Refusal::BadRecord => "not a record, or not this map's",
            Refusal::ShortRecord =>
                "buffer too short for a record or for MD5's state, or a digest's of another length",
        })
    }
}

impl Error for Refusal {}

/// The refusal where a test fails: a chain of these with `?` is a list of refusals in order.
pub fn require(holds: bool, refusal: Refusal) -> Result<(), Refusal>
    ensures { result ≡ (if holds then Ok tt else Err refusal) }
{
    if holds { Ok(()) } else { Err(refusal) }
}

/// What hosts are answered: 0 where nothing is refused, else the refusal's number.
pub fn answered(outcome: Result<(), Refusal>) -> u8
    ensures { result ≡ answered outcome }
{
    match outcome {
        Ok(()) => 0,
        Err(refusal) => refusal.number(),
    }
}
