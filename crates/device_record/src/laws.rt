// What is claimed of the definitions, each claim the contract of a function: so the check asks for
// its proof.
ghost use Rattle.device_record.specs.Cases.{RecordCases};

/// The numbers that a record may hold, records made, and the records that keep the rules are those
/// of the rows of `RecordCases`.
pub fn record_cases_hold()
    ensures { RecordCases }
{}
