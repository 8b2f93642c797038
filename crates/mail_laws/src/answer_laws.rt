//! The law of answers that aren't given yet.

ghost use Rattle.mail_laws.specs.Unread.{UnreadAnswers};

/// Behind the pause of a receive, where nothing was made since, a run stands for every value.
pub fn answers_are_unread()
    ensures { UnreadAnswers }
{}
