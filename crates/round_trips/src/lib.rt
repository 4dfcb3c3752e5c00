// Written then read, and read then written; the published values. Claims over the definitions that the codec's
// code is proved equal to, each the contract of a function; there is no other code here.
#![tactic(auto)]

ghost use Rattle.round_trips.specs.Demand2.{Demand2};
ghost use Rattle.round_trips.specs.Published.{Published};

/// What is written of each of the twelve messages reads as that message, and what was read is
/// written as its bytes, but for the version byte as it is written and the check made anew; with
/// what the check cannot see, and the published values.
pub fn messages_round_trip()
    ensures { Demand2 }
{}

/// Every row of the table of published values gives what is printed.
pub fn published_values_hold()
    ensures { Published }
{}
