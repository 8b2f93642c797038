//! `Valid` modules, and the first fault of a module that isn't (standard, section 3.4).

ghost use Rattle.std.specs.Prelude.{◌≡◌, ◌+◌, ◌<◌, true, Some, length, slice_get, IfOk};
ghost use Rattle.wa_types.specs.FirstFault.{FirstFault};
ghost use Rattle.wa_types.specs.Modules.{around, defined_at, func_imports};
ghost use Rattle.wa_types.specs.Sizes.{SizeRule};
ghost use Rattle.wa_types.specs.Syntax.{Func as PlainFunc};
ghost use Rattle.wa_types.specs.Validity.{Valid as IsValid, types_there};
ghost use Rattle.wa_types.specs.View.{module_of};
ghost use Rattle.validate_bodies.specs.Running.{body_verdict, funcs_answer};
ghost use Rattle.validate_bodies.specs.Spaces.{SpacesOf};
ghost use Rattle.wasm_validate.specs.Validated.{Answers, Tells, Validates};
ghost use Rattle.wasm_validate.specs.Walk.{around_or};

use crate::rules::broken_outside;
use std::alloc::{AllocError, Global};
use std::marker::Model;
use thiserror::Error;
use validate_bodies::{BodyFail, Context, Operands, Spaces, check_whole};
use wa_types::{Module, ValType};

/// A valid module (standard, section 3.4) that meets the size rule. Contracts see the module.
#[derive(Drop)]
pub struct Valid {
    module: Module,
    spaces: Spaces,
}

impl Model for Valid {
    ghost use Rattle.wa_types.specs.Sizes.{SizeRule};
    ghost use Rattle.wa_types.specs.Validity.{Valid as IsValid};
    ghost use Rattle.wa_types.specs.View.{module_of};
    ghost use Rattle.wa_types.specs.declared.syntax.Module.{Module as ModuleValue};
    ghost use Rattle.wa_types.specs.contracts.instrs.Instr as instr;
    ghost use Rattle.validate_bodies.specs.Spaces.{SpacesOf};
    ghost use Rattle.std.specs.Coded.{codes};

    ghost coded = { Prim.hlevel (codes, instr.the_row.coded) };

    ghost Value = { ModuleValue };

    ghost view = { λ s. s.«module» };

    ghost invariant = { λ s. IsValid (module_of s.«module») × SizeRule (module_of s.«module») × SpacesOf (module_of s.«module») s.spaces };
}

impl Valid {
    /// A module that is known to be valid, which isn't looked at again. Takes time linear in its lists.
    pub fn proved(alloc: Global, module: Module) -> Result<Valid, AllocError>
        requires valid { IsValid (module_of «module») }
        requires sizes { SizeRule (module_of «module») }
        ensures { IfOk result (λ v. v ≡ «module») }
    {
        let spaces = Spaces::of(alloc, &module)?;
        Ok(Valid { module, spaces })
    }

    /// The module.
    pub fn module(&self) -> &Module
        ensures same { result.now ≡ self.now }
        ensures valid { IsValid (module_of result.now) }
        ensures sizes { SizeRule (module_of result.now) }
    {
        &self.module
    }

    /// The module, given back.
    pub fn into_module(self) -> Module
        ensures same { result ≡ self }
        ensures valid { IsValid (module_of result) }
        ensures sizes { SizeRule (module_of result) }
    {
        self.module
    }

    /// The index of a defined function among the defined ones.
    pub fn defined(&self, func: u32) -> usize
        requires { (f : PlainFunc) × (defined_at (module_of self.now) func ≡ Some f) }
        ensures within { result < length self.now.funcs.items }
        ensures same { defined_at (module_of self.now) func ≡ slice_get (module_of self.now).funcs result }
    {
        func as usize - self.spaces.func_imports
    }

    /// What stands around the body of the defined function of this index, counted without imported ones.
    pub fn context(&self, index: usize) -> Context<'_>
        requires { index < length self.now.funcs.items }
        ensures { result ≡ around_or (module_of self.now) (slice_get (module_of self.now).funcs index) }
    {
        Context::of(&self.module, &self.spaces, index)
    }
}

/// Why a module wasn't validated.
#[derive(Clone, Copy, Debug, PartialEq, Eq, Error)]
pub enum ValidateFault {
    #[error("out of memory")]
    Memory,
    /// The module's first fault: the rule that fails, by its number; in the body of a function, whose number counts
    /// imported functions, the number of the instruction, `else` or `end`.
    #[error("invalid rule {rule}")]
    Invalid {
        func: Option<u32>,
        rule: u8,
        at: u64,
    },
}

impl From<AllocError> for ValidateFault {
    ghost use Rattle.std.specs.Prelude.{◌≡◌};
    ghost use Rattle.wasm_validate.specs.declared.valid.ValidateFault.TheVariants.{Memory};

    ghost from_gives = { λ _ fault. fault ≡ Memory };

    fn from(_error: AllocError) -> ValidateFault {
        ValidateFault::Memory
    }
}

/// The module where it is valid (standard, section 3.4), and else its first fault. Takes time near linear in the
/// module, and goes no deeper than its bodies nest.
pub fn validate(alloc: Global, module: Module) -> Result<Valid, ValidateFault>
    requires { SizeRule (module_of «module») }
    ensures { Validates «module» result }
{
    let spaces = Spaces::of(alloc, &module)?;
    if let Some(rule) = broken_outside(alloc, &module, &spaces)? {
        return Err(ValidateFault::Invalid {
            func: None,
            rule: rule.number(),
            at: 0,
        });
    }
    check_funcs(alloc, &module, &spaces)?;
    Ok(Valid { module, spaces })
}

/// Checks the bodies in index order.
#[tactic(auto, using(crate::proofs::FuncLemmas::checking))]
fn check_funcs(alloc: Global, module: &Module, spaces: &Spaces) -> Result<(), ValidateFault>
    requires sizes { SizeRule (module_of «module».now) }
    requires spaces { SpacesOf (module_of «module».now) spaces.now }
    requires sorts { types_there (module_of «module».now) ≡ true }
    ensures { Answers result (funcs_answer (module_of «module».now) (func_imports (module_of «module».now)) (module_of «module».now).funcs) }
{
    let mut labels = Vec::new(alloc);
    let mut operands = Operands {
        types: Vec::new(alloc),
        base: 0,
        free: false,
    };
    for index in 0..module.funcs.len() {
        check_func(module, spaces, &mut labels, &mut operands, index)?;
    }
    Ok(())
}

/// Checks the body of the defined function of this index, counted without imported ones.
#[tactic(auto, using(crate::proofs::FuncLemmas::checking))]
fn check_func(
    module: &Module,
    spaces: &Spaces,
    labels: &mut Vec<Option<ValType>>,
    operands: &mut Operands,
    index: usize,
) -> Result<(), ValidateFault>
    requires sizes { SizeRule (module_of «module».now) }
    requires spaces { SpacesOf (module_of «module».now) spaces.now }
    requires sorts { types_there (module_of «module».now) ≡ true }
    requires index { index < length «module».now.funcs.items }
    ensures { (f : PlainFunc) → slice_get (module_of «module».now).funcs index ≡ Some f
        → Tells result (func_imports (module_of «module».now) + index) (body_verdict (around (module_of «module».now) f) f.body) }
{
    let context = Context::of(module, spaces, index);
    match check_whole(&context, labels, operands, &module.funcs[index].body) {
        Ok(()) => Ok(()),
        Err(BodyFail::Memory) => Err(ValidateFault::Memory),
        Err(BodyFail::Invalid { rule, at }) => Err(ValidateFault::Invalid {
            func: Some((spaces.func_imports + index) as u32),
            rule: rule.number(),
            at,
        }),
    }
}
