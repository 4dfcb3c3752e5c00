//! The gateway's rules: what each call leaves, with cases and claims, each the contract of a function. The code is
//! in gateway, which is proved equal to them; here is otherwise only the struct that it answers with.
#![tactic(auto)]

ghost use Rattle.gateway_rules.specs.Cases.{GatewayCases};
ghost use Rattle.gateway_rules.specs.DecisionCases.{GatewayDecisionCases};
ghost use Rattle.gateway_rules.specs.Leading.{CodesLead};
ghost use Rattle.gateway_rules.specs.RefusedStart.{RefusedStart};

use gateway_record::Gateway;

/// What a given message is answered with: the number, the length in bytes of the reply at the front of
/// its buffer, and the gateway after it. It is no `Result`, since `receive_of` gives the record on
/// every number, and C is told number and length beside it.
#[derive(Clone, Copy)]
pub struct Answer {
    pub number: u8,
    pub length: usize,
    pub gateway: Gateway,
}

/// The gateway's calls leave what the rows of `GatewayCases` say: each message in each phase, what
/// is said when asked, and the refusals in their order.
pub fn gateway_cases_hold()
    ensures { GatewayCases }
{}

/// What the gateway decides of answers, requests and reports is what the rows of
/// `GatewayDecisionCases` say.
pub fn gateway_decision_cases_hold()
    ensures { GatewayDecisionCases }
{}

/// Every call with the record of a refused start answers a number other than 0, and changes
/// nothing.
pub fn refused_start_is_unusable()
    ensures { RefusedStart }
{}

/// What is read from bytes is led by the code in them: to the rule of that code, and to no other.
pub fn codes_lead_to_their_rules()
    ensures { CodesLead }
{}
