//! The device's rules: what each call leaves, with cases and claims, each the contract of a
//! function. The code is in `device`, which is proved equal to them; here are otherwise only the
//! structs that it answers with. They hold a number and no Result, and are three, since `after_call`,
//! `install_finished_of` and `give_digest_of` name them.
#![tactic(auto)]

ghost use Rattle.device_rules.specs.Cases.{DeviceCases};
ghost use Rattle.device_rules.specs.DecisionCases.{DecisionCases};
ghost use Rattle.device_rules.specs.Leading.{CodesLead};
ghost use Rattle.device_rules.specs.RefusedMaking.{RefusedMaking};

use device_record::Device;

/// What a given message is answered with: the number, the length of the reply in bytes, and the
/// device after it.
#[derive(Clone, Copy, Debug, PartialEq, Eq)]
pub struct Answer {
    pub number: u8,
    pub length: usize,
    pub device: Device,
}

/// What a digest that is given is answered with: the number, and the device after it.
#[derive(Clone, Copy, Debug, PartialEq, Eq)]
pub struct DigestAnswer {
    pub number: u8,
    pub device: Device,
}

/// What the installer's end is answered with: the number, and the device after it.
#[derive(Clone, Copy, Debug, PartialEq, Eq)]
pub struct Finished {
    pub number: u8,
    pub device: Device,
}

/// The device's calls leave what the rows of `DeviceCases` say: each message in each phase, what is
/// said when asked, the installer's end, digests, and the refusals in their order.
pub fn device_cases_hold()
    ensures { DeviceCases }
{}

/// What the device decides of announcements, fragments and completed packages is what the rows of
/// `DecisionCases` say.
pub fn decision_cases_hold()
    ensures { DecisionCases }
{}

/// Every call with the record of a refused making answers a number other than 0, and changes
/// nothing; the installer's end and a digest are answered 29.
pub fn refused_making_is_unusable()
    ensures { RefusedMaking }
{}

/// What is read from bytes is led by the code in them: to the rule of that code, and to no other.
pub fn codes_lead_to_their_rules()
    ensures { CodesLead }
{}
