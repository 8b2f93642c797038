//! Laws of what is told. Each is the contract of a function that does nothing.

ghost use Rattle.world_hosting.specs.DeviceLogs.{DevicesAreLogged};
ghost use Rattle.world_hosting.specs.MailLogs.{MailDevicesAreLogged};

/// The devices that are left are those that were there, in order, each with its log behind its journal.
pub fn told_devices_are_logged()
    ensures { DevicesAreLogged }
{}

/// So it is where there are mailboxes, which hide the devices of their names.
pub fn told_devices_with_mail_are_logged()
    ensures { MailDevicesAreLogged }
{}
