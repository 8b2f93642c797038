//! The types of a flat function's locals: parameters, declared locals, slots and result locals.

ghost use Rattle.std.specs.Prelude.{◌≡◌, ◌+◌, ◌<◌, ◌^◌, ◌++◌, length, map, replicate, IfOk, OnOk};
ghost use Rattle.wa_types.specs.Frames.{Pair};
ghost use Rattle.wa_types.specs.Modules.{declared_locals};
ghost use Rattle.flatten.specs.declared.numbers.TypeAt.{TypeAt as TypeAtValue};

use crate::numbers::{Names, Numbered, TypeAt};
use std::alloc::{AllocError, Global};
use wa_types::{Run, ValType};

/// How many locals are declared.
#[tactic(auto, using(crate::proofs::LocalLemmas::counting))]
pub fn count_runs(runs: &[Run]) -> u32
    requires { length (declared_locals runs.now) < 2 ^ 32 }
    ensures { result ≡ length (declared_locals runs.now) }
{
    let mut count = 0;
    for run in runs {
        count += run.count;
    }
    count
}

/// Puts the types of declared locals.
#[tactic(auto, using(crate::proofs::LocalLemmas::putting))]
fn put_runs(out: &mut Vec<ValType>, runs: &[Run]) -> Result<(), AllocError>
    ensures { OnOk result (out.new.items ≡ out.old.items ++ declared_locals runs.now) }
{
    for run in runs {
        put_run(out, run.count, run.ty)?;
    }
    Ok(())
}

/// Puts so many of one type.
fn put_run(out: &mut Vec<ValType>, count: u32, ty: ValType) -> Result<(), AllocError>
    ensures { OnOk result (out.new.items ≡ out.old.items ++ replicate count ty) }
{
    for i in 0..count {
        out.push(ty)?;
    }
    Ok(())
}

/// Puts the types of these.
fn put_each_type(out: &mut Vec<ValType>, pairs: &[TypeAt]) -> Result<(), AllocError>
    ensures { OnOk result (out.new.items ≡ out.old.items ++ map (λ (p : TypeAtValue). p.ty) pairs.now) }
{
    for pair in pairs {
        out.push(pair.ty)?;
    }
    Ok(())
}

/// Puts the types of these pairs.
#[tactic(auto, using(crate::proofs::LocalLemmas::types_are))]
fn put_types(out: &mut Vec<ValType>, named: &Numbered) -> Result<(), AllocError>
    ensures { OnOk result (out.new.items ≡ out.old.items ++ map (λ (p : Pair). p.ty) named.now.pairs) }
{
    put_each_type(out, &named.pairs)
}

/// The types of parameters, declared locals, slots and result locals.
pub fn all_locals(
    alloc: Global,
    params: &[ValType],
    runs: &[Run],
    names: &Names,
) -> Result<Vec<ValType>, AllocError>
    ensures { IfOk result (λ v. v.items ≡ ((params.now ++ declared_locals runs.now) ++ map (λ (p : Pair). p.ty) names.now.slots) ++ map (λ (p : Pair). p.ty) names.now.results) }
{
    let mut locals = Vec::from_slice(alloc, params)?;
    put_runs(&mut locals, runs)?;
    put_types(&mut locals, &names.slots)?;
    put_types(&mut locals, &names.results)?;
    Ok(locals)
}
