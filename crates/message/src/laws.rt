// What is claimed of the definitions, each claim the contract of a function: so the check asks for its proof.
ghost use Rattle.message.specs.Cases.{MessageCases};

/// Ranges, version texts, result codes and recognition answer what the rows of `MessageCases` say.
pub fn message_cases_hold()
    ensures { MessageCases }
{}
