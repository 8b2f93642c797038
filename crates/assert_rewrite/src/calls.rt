//! Which instructions get a test behind them.

ghost use Rattle.std.specs.Prelude.{◌≡◌, slice_get};
ghost use Rattle.wa_types.specs.Pausing.{is_told};
ghost use Rattle.wa_types.specs.Syntax.{done};
ghost use Rattle.wa_types.specs.View.{in_front};
ghost use Rattle.guard_form.specs.Asserts.{any_callee};
ghost use Rattle.guard_form.specs.Pieces.{sole_callee};
ghost use Rattle.assert_rewrite.specs.Testing.{is_tested, without_number};

use wa_types::Instr;

/// Whether this index is told.
fn is_told(tells: &[bool], index: u32) -> bool
    ensures { result ≡ is_told (slice_get tells.now index) }
{
    match tells.get(index as usize) {
        Some(told) => *told,
        None => false,
    }
}

/// Whether it is a call whose callee has no number.
#[tactic(auto, using(crate::proofs::CallLemmas::freeing))]
pub fn is_free(instr: &Instr, which: &[bool], listed: &[bool], ignore_indirect: bool) -> bool
    ensures { result ≡ is_tested (without_number which.now listed.now ignore_indirect) (sole_callee (in_front instr.now done)) }
{
    match instr {
        Instr::Call(func) => {
            if is_told(listed, *func) {
                return false;
            }
            !is_told(which, *func)
        }
        Instr::CallIndirect(_) => ignore_indirect,
        _ => false,
    }
}

/// Whether it is a call.
#[tactic(auto, using(crate::proofs::CallLemmas::calling))]
pub fn is_call(instr: &Instr) -> bool
    ensures { result ≡ is_tested any_callee (sole_callee (in_front instr.now done)) }
{
    match instr {
        Instr::Call(_) => true,
        Instr::CallIndirect(_) => true,
        _ => false,
    }
}
