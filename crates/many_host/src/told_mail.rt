//! Laws of notes that are told one after another where there are mailboxes. Each is the contract of a function that does nothing.

ghost use Rattle.many_host.specs.ToldMail.{HeldHasStory, MailBegunBegins, MailStalls, MailToldBegins, MailToldWhole, MailTurnAwake, MailTurnBegins, MailTurnEnds, MailTurnGoesOn, NothingMailTold};

/// Nothing is told at first; a turn begins, goes on with each note, and ends; and where none is due the first that waits stalls.
pub fn notes_with_mail_are_told()
    ensures nothing { NothingMailTold }
    ensures begins { MailTurnBegins }
    ensures goes_on { MailTurnGoesOn }
    ensures awake { MailTurnAwake }
    ensures ends { MailTurnEnds }
    ensures stalls { MailStalls }
{}

/// What a program that is held has told begins its story.
pub fn held_programs_have_stories()
    ensures { HeldHasStory }
{}

/// What is told at any time between two events begins a run of the world, and is a whole one once all programs have ended.
pub fn told_events_are_of_a_world()
    ensures events { MailToldBegins }
    ensures begun { MailBegunBegins }
    ensures whole { MailToldWhole }
{}
