// What is claimed of the definitions, each claim the contract of a function: so the check asks for its proof.
ghost use Rattle.text.specs.Cases.{TextCases};

/// Numbers, texts and hexadecimal digits are those of the rows of `TextCases`.
pub fn text_cases_hold()
    ensures { TextCases }
{}
