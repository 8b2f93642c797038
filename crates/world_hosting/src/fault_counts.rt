//! Laws of what is told. Each is the contract of a function that does nothing.

ghost use Rattle.world_hosting.specs.FaultCounts.{FaultsAreCounted};
ghost use Rattle.world_hosting.specs.MailFaults.{MailFaultsAreCounted};

/// The count of each device that is left rose by at least the number of its told faults.
pub fn told_faults_are_counted()
    ensures { FaultsAreCounted }
{}

/// So it is where there are mailboxes.
pub fn told_faults_with_mail_are_counted()
    ensures { MailFaultsAreCounted }
{}
