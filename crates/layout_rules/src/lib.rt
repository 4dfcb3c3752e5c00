// The records as bytes (docs/MANUAL.md has the layouts) as definitions, and that they lose nothing, with cases, each
// the contract of a function. The code is in layout, which is proved equal to them; there is no other here.
#![tactic(auto)]

ghost use Rattle.layout_rules.specs.Cases.{LayoutCases};
ghost use Rattle.layout_rules.specs.Identity.{Identity};

/// Records as bytes are those of the rows of `LayoutCases`.
pub fn layout_cases_hold()
    ensures { LayoutCases }
{}

/// Bytes read as a record and put back are the bytes, and a record put into bytes is read as
/// itself.
pub fn layouts_lose_nothing()
    ensures { Identity }
{}
