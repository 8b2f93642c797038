//! Laws of the binary format (standard, chapter 5). Each is the contract of a function that does nothing.

ghost use Rattle.std.specs.Prelude.{◌≡◌, List, [], ℕ, ◌++◌, ◌<◌, ◌^◌, All, length, take, sum_by};
ghost use Rattle.wa_types.specs.Binary.{Section};
ghost use Rattle.wa_types.specs.Spells.{Spells};
ghost use Rattle.wa_types.specs.Begun.{Begun, FaultAt, IsWhole};
ghost use Rattle.wa_types.specs.Encoding.{Enc, preamble};
ghost use Rattle.wa_types.specs.Norm.{Norm};
ghost use Rattle.wa_types.specs.Reading.{SpellsModule};
ghost use Rattle.wa_types.specs.Sizes.{WellFormed};
ghost use Rattle.wa_types.specs.Syntax.{Module};

/// Law: what the goals of the grammar accept as whole is what is spelled (standard, section 5.5.15).
pub fn whole_is_spelled()
    ensures sound { (bytes : List ℕ) → IsWhole bytes → (x : List Section) × Spells bytes x }
    ensures complete { (bytes : List ℕ) (x : List Section) → Spells bytes x → IsWhole bytes }
{}

/// Law: every beginning of bytes that spell a file is begun, and so is every beginning of what is begun.
pub fn beginnings_are_begun()
    ensures spelled { (bytes : List ℕ) (x : List Section) → Spells bytes x → (front back : List ℕ) → bytes ≡ front ++ back → Begun front }
    ensures beginnings { (bytes : List ℕ) → Begun bytes → (front back : List ℕ) → bytes ≡ front ++ back → Begun front }
{}

/// Law: bytes spell at most one file.
pub fn one_file_is_spelled()
    ensures { (bytes : List ℕ) (x y : List Section) → Spells bytes x → Spells bytes y → x ≡ y }
{}

/// Law: bytes spell at most one module.
pub fn one_module_is_spelled()
    ensures { (bytes : List ℕ) (m n : Module) → SpellsModule bytes m → SpellsModule bytes n → m ≡ n }
{}

/// Law: what a module is written as spells it, its runs merged and its custom sections in their written
/// order; where that is fewer than 2^32 bytes, and each function declares fewer than 2^32 locals.
pub fn written_is_spelled()
    ensures { (m : Module) → WellFormed m → All (λ f. sum_by (λ r. r.count) f.locals < 2 ^ 32) m.funcs → length (Enc m) < 2 ^ 32 → SpellsModule (Enc m) (Norm m) }
{}

/// Law: bytes with a fault spell no file; where they go on behind it, neither do others that begin as they
/// do up to it; and there is one such place.
pub fn faults_spell_nothing()
    ensures all { (bytes : List ℕ) (k : ℕ) (x : List Section) → FaultAt bytes k → Spells bytes x → ⊥ }
    ensures beginning { (bytes : List ℕ) (k : ℕ) → FaultAt bytes k → k < length bytes → (more : List ℕ) (x : List Section) → Spells (take k bytes ++ more) x → ⊥ }
    ensures one { (bytes : List ℕ) (j k : ℕ) → FaultAt bytes j → FaultAt bytes k → j ≡ k }
{}

/// Law: a module that bytes spell is well formed.
pub fn spelled_is_well_formed()
    ensures { (bytes : List ℕ) (m : Module) → All (λ b. b < 2 ^ 8) bytes → SpellsModule bytes m → WellFormed m }
{}

/// Law: the preamble alone spells a file without sections, and each cut of it, the empty file too, is at
/// fault where it ends.
pub fn cut_preambles_fail()
    ensures whole { Spells preamble [] }
    ensures cut { (k : ℕ) → k < 8 → FaultAt (take k preamble) k }
{}
