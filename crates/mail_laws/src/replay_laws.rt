//! Laws of worlds with mailboxes that are told again by what was kept of them.

ghost use Rattle.mail_laws.specs.Determined.{MetFixLines, StoriesFixLines};
ghost use Rattle.mail_laws.specs.Replays.{JournalsFixLines, MailboxesFixLines, UnboundFixLines};

/// Two runs of one world that end with the same journals, and tell faults at the same places and there the same values of a wrong type, have the
/// same lines.
pub fn journals_with_mail_fix_lines()
    ensures { JournalsFixLines }
{}

/// A world of programs that are bound to mailboxes alone has one run, but for values of a wrong type; one of programs without bound imports has one.
pub fn mailboxes_fix_lines()
    ensures mailboxes { MailboxesFixLines }
    ensures unbound { UnboundFixLines }
{}

/// The outcomes that the programs' calls have met fix the lines of a world with mailboxes; in the blocking world the programs' notes do beside
/// them.
pub fn met_outcomes_with_mail_fix_lines()
    ensures protocol { MetFixLines }
    ensures blocking { StoriesFixLines }
{}
