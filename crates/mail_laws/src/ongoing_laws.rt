//! Laws that worlds with mailboxes go on to an end.

ghost use Rattle.mail_laws.specs.Played.{EachWorldEnds, WorldsGoOn};

/// A world that is played up to an event can be played on to an end.
pub fn worlds_with_mail_go_on()
    ensures { WorldsGoOn }
{}

/// There is a run that ends.
pub fn each_world_with_mail_ends()
    ensures { EachWorldEnds }
{}
