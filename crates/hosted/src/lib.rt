// Runs of both ends through the exports, over records that their hosts keep as bytes. Definitions, and
// claims, each the contract of a function; there is no other code here.
#![tactic(auto)]

ghost use Rattle.hosted.specs.Hosted.{HostedCleanRun, HostedCleanRunWithDigests, HostedCompletedIsTested, HostedCount, HostedDemand3};
ghost use Rattle.hosted.specs.Hosted.{HostedInstallLength, HostedRepeatsAgree, HostedRoom, HostedUpgrade};
ghost use Rattle.hosted.specs.Hosts.{HostedAnswers, HostedRuns};
ghost use Rattle.hosted.specs.Witnesses.{HostedWitnesses};

/// After every list of calls through bytes, these hold the records to which the same calls lead
/// over records.
pub fn hosts_run_as_records()
    ensures { HostedRuns }
{}

/// Each call through bytes is answered with the number of the same call over records.
pub fn hosts_answer_as_records()
    ensures { HostedAnswers }
{}

/// Over every allowed list of calls through bytes: the image that Execute is answered 00 with, and
/// what precedes a recorded success.
pub fn hosts_execute_exactly_the_package()
    ensures { HostedDemand3 }
{}

/// Both halves joined, of what the hosts keep.
pub fn hosted_success_follows_the_package()
    ensures { HostedUpgrade }
{}

/// No call of the hosts after the start gives the number 23.
pub fn hosted_repeats_agree()
    ensures { HostedRepeatsAgree }
{}

/// What the device's host finds to be installed is as long as the package.
pub fn hosts_install_the_package_length()
    ensures { HostedInstallLength }
{}

/// With one map and one image, what a host's record calls completed passes the announced check code
/// and the digest that was given.
pub fn hosted_completed_is_tested()
    ensures { HostedCompletedIsTested }
{}

/// With one map, in every phase but Idle a host's stored count is the number of bits set among the
/// first total, and no call is refused with 29.
pub fn hosted_stored_is_the_count()
    ensures { HostedCount }
{}

/// With one map and one image, no call of a host is refused with 14.
pub fn hosted_memory_stays_enough()
    ensures { HostedRoom }
{}

/// The clean run through bytes reaches success.
pub fn hosted_clean_run_succeeds()
    ensures { HostedCleanRun }
{}

/// The same where the device's host gives digests, and as the last one the package's.
pub fn hosted_clean_run_with_digests_succeeds()
    ensures { HostedCleanRunWithDigests }
{}

/// Runs through bytes that meet the theorems' premises exist.
pub fn hosted_witnesses_hold()
    ensures { HostedWitnesses }
{}
