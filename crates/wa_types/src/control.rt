//! Which instructions transfer control unconditionally, so that what follows them can't be reached (standard, section 3.3.5).

ghost use Rattle.std.specs.Prelude.{◌≡◌};
ghost use Rattle.wa_types.specs.Pruned.{is_last_instr};

use crate::instrs::Instr;

impl Instr {
    /// Whether control never goes on behind it: `br`, `br_table`, `return` and `unreachable` (standard, section 3.3.5).
    #[tactic(auto, unfolding(crate::specs::Pruned::is_last_instr))]
    pub fn is_last(&self) -> bool
        ensures { result ≡ is_last_instr self.now }
    {
        matches!(
            self,
            Instr::Unreachable | Instr::Return | Instr::Br(_) | Instr::BrTable { .. }
        )
    }
}
