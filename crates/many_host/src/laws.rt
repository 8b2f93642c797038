//! Laws of what a host has told. Each is the contract of a function that does nothing.

ghost use Rattle.many_host.specs.Laws.{ToldBeginsWorld};
ghost use Rattle.many_host.specs.MailHosts.{MailHostBegins};

/// The lines that a host has told begin a run of the world.
pub fn told_lines_begin_a_world()
    ensures { ToldBeginsWorld }
{}

/// So do those where there are mailboxes, in a run whose calls meet first what the programs' calls have met.
pub fn told_lines_with_mail_begin_a_world()
    ensures { MailHostBegins }
{}
