//! Laws of a program whose imports are bound to no device and to no mailbox.

ghost use Rattle.mail_laws.specs.AloneLines.{OwnLinesAlone, OwnLinesBlocking};

/// It has the lines that it would have alone, in a world without mailboxes, its number aside.
pub fn own_lines_with_mail_are_those_alone()
    ensures protocol { OwnLinesAlone }
    ensures blocking { OwnLinesBlocking }
{}
