// What is claimed of the definitions, each claim the contract of a function: so the check asks for its proof.
ghost use Rattle.md5_layout.specs.Cases.{LayoutCases};
ghost use Rattle.md5_layout.specs.Identity.{StateIdentity};

/// States as bytes are those of the rows of `LayoutCases`.
pub fn layout_cases_hold()
    ensures { LayoutCases }
{}

/// Bytes read as a state and put back are the bytes, and a state put into bytes is read as itself.
pub fn state_loses_nothing()
    ensures { StateIdentity }
{}
