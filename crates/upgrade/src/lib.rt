// Runs of both ends together: what holds over all lists of calls, stated over the very definitions that the
// entries of device and gateway are proved equal to. Each claim is the contract of a function; there is no other code
// here.
#![tactic(auto)]

ghost use Rattle.upgrade.specs.Clean.{CleanRun, CleanRunWithDigests};
ghost use Rattle.upgrade.specs.Counted.{Count, Room};
ghost use Rattle.upgrade.specs.Demand3.{Demand3, InstallLength, RepeatsAgree, Upgrade};
ghost use Rattle.upgrade.specs.Repeats.{RepeatsCompared};
ghost use Rattle.upgrade.specs.Tested.{CompletedIsTested};
ghost use Rattle.upgrade.specs.Witnesses.{Witnesses};

/// Over every allowed list of calls: whenever the device answers Execute with 00, its image begins
/// with exactly the package and past it is as at the start; and the gateway records success only
/// after that answer and the installer's end with 00.
pub fn executes_exactly_the_package()
    ensures { Demand3 }
{}

/// Both halves joined: success is recorded only after Execute was answered 00 with the package in
/// the image and nothing else changed, and an installer's end with 00 after that.
pub fn success_follows_the_package()
    ensures { Upgrade }
{}

/// No call after the start gives the number 23: what comes again is what was stored.
pub fn repeats_agree()
    ensures { RepeatsAgree }
{}

/// What is there to be installed is as long as the package.
pub fn installs_the_package_length()
    ensures { InstallLength }
{}

/// In Loading a repeat is compared with a fragment that is held for its index: 12 for the same
/// bytes, 23 for others.
pub fn repeats_are_compared()
    ensures { RepeatsCompared }
{}

/// On any run with one map and one image, in Loaded, Acked, Installing and Reporting all fragments
/// are stored, and the completed bytes pass the announced check code and the digest that was given.
pub fn completed_is_tested()
    ensures { CompletedIsTested }
{}

/// On any run with one map, in every phase but Idle the stored count is the number of bits set among
/// the first total; the record keeps the rules, and no call is refused with 29.
pub fn stored_is_the_count()
    ensures { Count }
{}

/// On any run with one map and one image, no call is refused with 14.
pub fn memory_stays_enough()
    ensures { Room }
{}

/// Where each message and its reply arrive once, before the next ask, the device falls silent, the
/// gateway is then in Run, and the rest of the run leaves it Ended with 0.
pub fn clean_run_succeeds()
    ensures { CleanRun }
{}

/// The same where the device is given digests, any, and as the last one the package's.
pub fn clean_run_with_digests_succeeds()
    ensures { CleanRunWithDigests }
{}

/// Runs that meet the theorems' premises exist.
pub fn witnesses_hold()
    ensures { Witnesses }
{}
