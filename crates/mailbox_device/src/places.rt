//! The places of mailboxes, by their names.

ghost use Rattle.std.specs.Prelude.{◌≡◌, ◌∷◌, ◌++◌, [], List, ℕ, OnOk, length};
ghost use Rattle.mailbox_device.specs.Places.{TellsPlaces};

use std::alloc::{AllocError, Global};
use std::collections::BTreeMap;

/// Notes the place of one more mailbox by its name; the first of a name counts. Names are kept in order, so that whoever chooses them
/// can't make a look-up slow.
pub(crate) fn note_place(
    alloc: Global,
    places: &mut BTreeMap<String, usize>,
    name: &str,
    place: usize,
) -> Result<(), AllocError>
    ensures { (names : List (List ℕ)) → TellsPlaces places.old names → place ≡ length names → OnOk result (TellsPlaces places.new (names ++ name.now ∷ [])) }
{
    if places.contains_key(name) {
        return Ok(());
    }
    let name = String::from_str(alloc, name)?;
    places.insert(name, place)?;
    Ok(())
}
