// Captures as definitions: what stands at a place, records written, captures mended, with cases and claims, each the
// contract of a function. The code is in capture, which is proved equal to them; there is no other here.
#![tactic(auto)]

ghost use Rattle.capture_rules.specs.Cases.{CaptureCases};
ghost use Rattle.capture_rules.specs.Mended.{MendedCapture};
ghost use Rattle.capture_rules.specs.Recorded.{NoRecord, Recorded};
ghost use Rattle.capture_rules.specs.Written.{Writing};

/// Reading, writing and mending captures give what the rows of `CaptureCases` say.
pub fn capture_cases_hold()
    ensures { CaptureCases }
{}

/// A record that was written reads as itself, behind any bytes and before any, and what reads as a
/// record stands there.
pub fn records_are_read()
    ensures { Recorded }
{}

/// Where there is no record, the number tells why, by the bytes that are left.
pub fn no_record_is_told()
    ensures { NoRecord }
{}

/// A record is written where there is room, and else 22 is answered and all stays; records written
/// one after the other are read back.
pub fn records_are_written()
    ensures { Writing }
{}

/// Records and stretches cover a capture in order; what is mended reads to its end, and mends to
/// itself.
pub fn mended_captures_hold()
    ensures { MendedCapture }
{}
