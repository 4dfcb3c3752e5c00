// What is claimed of the definitions, each claim the contract of a function: so the check asks for its proof.
ghost use Rattle.gateway_record.specs.Cases.{GatewayRecordCases};

/// Totals, lengths, the announced fields, starts and the records that keep the rules are those of
/// the rows of `GatewayRecordCases`.
pub fn gateway_record_cases_hold()
    ensures { GatewayRecordCases }
{}
