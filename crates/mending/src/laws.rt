// What is claimed of the definitions, each claim the contract of a function: so the check asks for its proof.
ghost use Rattle.mending.specs.Cases.{MendingCases};

/// Mended captures and the lines that tell of them are those of the rows of `MendingCases`.
pub fn mending_cases_hold()
    ensures { MendingCases }
{}
