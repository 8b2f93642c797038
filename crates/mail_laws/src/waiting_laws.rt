//! What the definitions make of a program that waits for good, and of one that is sent what it waits for.

ghost use Rattle.mail_laws.specs.SendingRun.{SendsAndReceives};
ghost use Rattle.mail_laws.specs.WaitingRun.{WaitsForGood};

/// It parks at its first receive, and stalls.
pub fn one_waits_for_good()
    ensures { WaitsForGood }
{}

/// It parks at its first receive, is sent that value, receives the next one from the mailbox, and returns their sum.
pub fn one_is_sent_values()
    ensures { SendsAndReceives }
{}
