// A capture as text, as definitions, with cases, which are the contract of a function. The code is in
// decoding, which is proved equal to them; there is no other here.
#![tactic(auto)]

ghost use Rattle.decoding_rules.specs.Cases.{DecodingCases};

/// Records and captures as text are those of the rows of `DecodingCases`.
pub fn decoding_cases_hold()
    ensures { DecodingCases }
{}
