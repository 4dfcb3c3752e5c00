// The calls through bytes, as the library for hosts exports them: what each leaves, and what holds of
// them all. Definitions that the exports' code is proved equal to, and claims, each the contract of a
// function; there is no other code here.
#![tactic(auto)]

ghost use Rattle.exports.specs.Boundary.{Carried, Demand1, Short};
ghost use Rattle.exports.specs.Captures.{CaptureItems};
ghost use Rattle.exports.specs.Digests.{Digests};

/// Whatever bytes are lent: an answer other than 0 leaves them all as they were, but for 23, which
/// makes the phase Failed.
pub fn refusals_change_nothing()
    ensures { Demand1 }
{}

/// A buffer that is too short for its record or state is refused first of all, and all stays as it
/// was.
pub fn short_buffers_are_refused()
    ensures { Short }
{}

/// The record that a call left is the one that the next call finds.
pub fn records_are_carried()
    ensures { Carried }
{}

/// Any bytes are a state of MD5, and pieces fed through bytes have the digest of what they are
/// joined to.
pub fn any_bytes_are_a_digest_state()
    ensures { Digests }
{}

/// Every place of a capture is of one of five kinds, and what is found there lies within the
/// capture.
pub fn capture_items_lie_within()
    ensures { CaptureItems }
{}
