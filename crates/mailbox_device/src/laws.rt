//! Laws of mailboxes: public functions that do nothing, whose contracts are the laws.

ghost use Rattle.std.specs.Prelude.{◌≡◌, ℕ, List, Some, find, position, slice_get, slice_set};
ghost use Rattle.std.specs.Option.{option_and_then};
ghost use Rattle.mailbox_device.specs.Mail.{Box, is_box, at_box};

/// The place that `find` answers is that of the first mailbox of the name: what stands there is found by the name, and what is
/// changed there is changed by the name.
pub fn places_are_of_names()
    ensures found { (name : List ℕ) (boxes : List Box)
        → find (is_box name) boxes ≡ option_and_then (slice_get boxes) (position (is_box name) boxes) }
    ensures changed { (name : List ℕ) (boxes : List Box) (place : ℕ) (box : Box) (change : Box → Box)
        → position (is_box name) boxes ≡ Some place → slice_get boxes place ≡ Some box
        → slice_set boxes place (change box) ≡ at_box change name boxes }
{}
