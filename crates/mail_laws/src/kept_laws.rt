//! Laws of the devices of worlds with mailboxes.

ghost use Rattle.mail_laws.specs.Kept.{DevicesKept, DevicesKeptBlocking, DevicesKeptUpTo, NoneTakenOut};

/// The devices at the end of a run are those of its start, but for those that were taken out; each journal begins with what it held.
pub fn devices_with_mail_are_kept()
    ensures protocol { DevicesKept }
    ensures played { DevicesKeptUpTo }
    ensures blocking { DevicesKeptBlocking }
    ensures all { NoneTakenOut }
{}
