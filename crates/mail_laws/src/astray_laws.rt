//! Laws of how rewritten modules of worlds with mailboxes end.

ghost use Rattle.mail_laws.specs.Astray.{NoneAstray, NoneAstrayUntold};

/// No rewritten module that runs orderly as far as is asked breaks the host's protocol, or traps while it rewinds.
pub fn none_with_mail_goes_astray()
    ensures told { NoneAstray }
    ensures untold { NoneAstrayUntold }
{}
