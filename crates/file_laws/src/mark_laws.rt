//! The law that items show what sections hold. It is the contract of a function that does nothing.

ghost use Rattle.std.specs.Prelude.{◌<◌, ◌^◌, ◌∷◌, [], ℕ, List, length};
ghost use Rattle.wa_types.specs.Begun.{sections, start};
ghost use Rattle.wa_types.specs.Binary.{Section};
ghost use Rattle.wa_types.specs.ModuleBounds.{ModuleBounds};
ghost use Rattle.wa_types.specs.Spells.{Spells};
ghost use Rattle.file_laws.specs.Found.{MarksOf};
ghost use Rattle.file_laws.specs.Showing.{MarksAlong};
ghost use Rattle.file_laws.specs.declared.marks.Marks.{Marks as MarksValue};

/// Law: what is marked along all items of a file is what its sections are judged by.
pub fn items_show_the_sections()
    ensures { (b : ModuleBounds) (bytes : List ℕ) (last : ℕ) (m : MarksValue) (ss : List Section)
        → MarksAlong b 0 start bytes (sections last 0 ∷ []) m → length bytes < 2 ^ 32 → Spells bytes ss → MarksOf b ss m }
{}
