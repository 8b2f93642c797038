//! Laws of worlds with mailboxes of rewritten modules beside those of their originals.

ghost use Rattle.mail_laws.specs.MailOriginals.{CutStoriesOfOriginals, CutStoriesUntold, MailWorldsOfOriginals, MailWorldsUntold};

/// A story under the protocol that is cut where the program waits is one of its original with blocking imports, which has to run orderly
/// only as far as that story goes.
pub fn cut_stories_are_of_originals()
    ensures told { CutStoriesOfOriginals }
    ensures untold { CutStoriesUntold }
{}

/// A run of the protocol world over rewritten modules is one of the blocking world over their originals.
pub fn worlds_with_mail_are_of_originals()
    ensures told { MailWorldsOfOriginals }
    ensures untold { MailWorldsUntold }
{}
