//! The declared locals of a written function.

ghost use Rattle.std.specs.Prelude.{◌≡◌, ◌≤◌, ◌++◌, ◌∷◌, [], drop, length, map, IfOk, OnOk};
ghost use Rattle.wa_types.specs.declared.values.ValType.TheVariants.{I32, I64};
ghost use Rattle.run_theory.specs.FlatFits.{one_run};

use std::alloc::{AllocError, Global};
use wa_types::{Run, ValType};

/// Puts one run for each of these types.
fn put_each(out: &mut Vec<Run>, types: &[ValType]) -> Result<(), AllocError>
    ensures { OnOk result (out.new.items ≡ out.old.items ++ map one_run types.now) }
{
    for ty in types {
        out.push(Run { count: 1, ty: *ty })?;
    }
    Ok(())
}

/// The declared locals of a written function: its own, the slots and result locals of the flat one, of which so many
/// are its own, the call index and a scratch local of each type.
pub fn written_locals(
    alloc: Global,
    runs: &[Run],
    locals: &[ValType],
    own: u32,
) -> Result<Vec<Run>, AllocError>
    requires { own ≤ length locals.now }
    ensures { IfOk result (λ v. v.items ≡ runs.now ++ map one_run (drop own locals.now ++ I32 ∷ I32 ∷ I64 ∷ [])) }
{
    let mut out = Vec::from_slice(alloc, runs)?;
    put_each(&mut out, &locals[own as usize..])?;
    put_each(&mut out, &[ValType::I32, ValType::I32, ValType::I64])?;
    Ok(out)
}
