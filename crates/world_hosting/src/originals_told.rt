//! Laws of what is told. Each is the contract of a function that does nothing.

ghost use Rattle.world_hosting.specs.Endings.{ToldEnds};
ghost use Rattle.world_hosting.specs.MailEndings.{MailToldEnds};
ghost use Rattle.world_hosting.specs.MailOriginalRuns.{MailToldOfOriginals};
ghost use Rattle.world_hosting.specs.OriginalRuns.{ToldOfOriginals};

/// What is told of rewritten modules is told of their originals.
pub fn told_of_originals()
    ensures { ToldOfOriginals }
{}

/// The programs over rewritten modules end as their originals do.
pub fn told_programs_end_as_originals()
    ensures { ToldEnds }
{}

/// What is told of rewritten modules with mailboxes is told of their originals.
pub fn told_with_mail_of_originals()
    ensures { MailToldOfOriginals }
{}

/// The programs with mailboxes over rewritten modules end as their originals do, or stall.
pub fn told_with_mail_end_as_originals()
    ensures { MailToldEnds }
{}
