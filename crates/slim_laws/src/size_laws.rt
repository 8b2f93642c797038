//! Laws of sizes.

ghost use Rattle.slim_laws.specs.Sizes.{NoDeeper, NoLarger, NoOthers, SameCalls};

/// Slim code is no larger, nests no deeper, and has no other instructions but for sets of its locals.
pub fn sizes_are_kept()
    ensures count { NoLarger }
    ensures depth { NoDeeper }
    ensures others { NoOthers }
    ensures calls { SameCalls }
{}
