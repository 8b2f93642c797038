//! The runtime's parts, appended behind a module's own: types, globals, functions and exports, and a memory where there is none.

ghost use Rattle.std.specs.Prelude.{◌≡◌, ◌<◌, ◌^◌, ◌+◌, ◌++◌, ◌∷◌, [], ◌↔◌, length, map, count_by, is_some, IfOk, OnOk, IsErrOf, Some};
ghost use Rattle.wa_types.specs.View.{code, onto, module_of, func_of, global_of, func_type_of};
ghost use Rattle.std.specs.List.{filter_map, list_any};
ghost use Rattle.wa_types.specs.Modules.{imported_func, imported_memory, imported_global};
ghost use Rattle.wa_types.specs.Base.{added_memories};
ghost use Rattle.wa_types.specs.Runtime.{with_runtime, func_space, global_space, runtime_types, runtime_globals, runtime_funcs, runtime_func, runtime_exports, func_export, zero_global, start_code, stop_code, test_code};
ghost use Rattle.local_spill.specs.Ids.{ids_behind};
ghost use Rattle.local_spill.specs.Reserved.{reserved_at};
ghost use Rattle.local_spill.specs.declared.adding.RuntimeFault.TheVariants.{Reserved};

use crate::RuntimeIds;
use crate::putting::put_all;
use crate::reserving::{ReservedAt, reserved};
use std::alloc::{AllocError, Global};
use thiserror::Error;
use wa_types::{
    Export, Func, FuncType, GlobalDef, Import, ImportKind, Instr, Limits, Module, Name, NumOp,
    Space, ValType, Value,
};

/// Why nothing was appended.
#[derive(Debug, Drop, Error)]
pub enum RuntimeFault {
    #[error("out of memory")]
    Memory,
    #[error("the module has a reserved name")]
    Reserved(ReservedAt),
}

impl From<AllocError> for RuntimeFault {
    ghost use Rattle.std.specs.Prelude.{◌≡◌};
    ghost use Rattle.local_spill.specs.declared.adding.RuntimeFault.TheVariants.{Memory};

    ghost from_gives = { λ _ e. e ≡ Memory };

    fn from(_error: AllocError) -> RuntimeFault {
        RuntimeFault::Memory
    }
}

/// A module with the appended parts, and their numbers.
#[derive(Drop)]
pub struct WithRuntime {
    pub module: Module,
    pub ids: RuntimeIds,
}

/// The memory of a module that has none: one page.
const ONE_PAGE: Limits = Limits {
    min: 1,
    max: Some(1),
};

/// The module with the runtime's parts behind its own, and their numbers. `Reserved` comes exactly where
/// `reserved` gives that place. After a fault the module is dropped.
#[tactic(auto, unfolding(wa_types::specs::Runtime::with_runtime))]
pub fn add_runtime(alloc: Global, module: Module) -> Result<WithRuntime, RuntimeFault>
    requires types { length «module».types.items < 2 ^ 31 }
    requires imports { length «module».imports.items < 2 ^ 31 }
    requires funcs { func_space (module_of «module») < 2 ^ 31 }
    requires globals { global_space (module_of «module») < 2 ^ 31 }
    requires exports { length «module».exports.items < 2 ^ 31 }
    ensures added { IfOk result (λ r. module_of r.«module» ≡ with_runtime (module_of «module»)) }
    ensures ids { IfOk result (λ r. r.ids ≡ ids_behind (module_of «module»)) }
    ensures reserved { (at : ReservedAt) → IsErrOf result (Reserved at) ↔ (reserved_at (module_of «module») ≡ Some at) }
{
    if let Some(at) = reserved(&module) {
        return Err(RuntimeFault::Reserved(at));
    }
    let ids = ids_behind(&module);
    let first_type = module.types.len() as u32;
    let mut module = module;
    add_memory(&module.imports, &mut module.memories)?;
    push_types(alloc, &mut module.types)?;
    push_globals(alloc, &mut module.globals)?;
    push_funcs(alloc, &mut module.funcs, first_type, ids)?;
    push_exports(alloc, &mut module.exports, ids.first)?;
    Ok(WithRuntime { module, ids })
}

/// The numbers that the appended parts get behind those of the module.
#[tactic(auto, using(crate::proofs::Counts::counting))]
pub fn ids_behind(module: &Module) -> RuntimeIds
    requires funcs { func_space (module_of «module».now) < 2 ^ 31 }
    requires globals { global_space (module_of «module».now) < 2 ^ 31 }
    ensures { result ≡ ids_behind (module_of «module».now) }
{
    let state = (imported_globals(&module.imports) + module.globals.len()) as u32;
    RuntimeIds {
        state,
        address: state + 1,
        first: (imported_funcs(&module.imports) + module.funcs.len()) as u32,
    }
}

fn imported_globals(imports: &[Import]) -> usize
    ensures { result ≡ count_by (λ (i : Import). is_some (imported_global i.kind)) imports.now }
{
    imports
        .iter()
        .filter(|import| matches!(import.kind, ImportKind::Global(..)))
        .count()
}

fn imported_funcs(imports: &[Import]) -> usize
    ensures { result ≡ count_by (λ (i : Import). is_some (imported_func i.kind)) imports.now }
{
    imports
        .iter()
        .filter(|import| matches!(import.kind, ImportKind::Func(_)))
        .count()
}

fn has_imported_memory(imports: &[Import]) -> bool
    ensures { result ≡ list_any (λ (i : Import). is_some (imported_memory i.kind)) imports.now }
{
    imports
        .iter()
        .any(|import| matches!(import.kind, ImportKind::Memory(_)))
}

// One page, where there is no memory.
fn add_memory(imports: &[Import], memories: &mut Vec<Limits>) -> Result<(), AllocError>
    ensures { OnOk result (memories.new.items ≡ memories.old.items ++ added_memories (filter_map (λ (i : Import). imported_memory i.kind) imports.now ++ memories.old.items)) }
{
    if !memories.is_empty() {
        return Ok(());
    }
    if has_imported_memory(imports) {
        return Ok(());
    }
    memories.push(ONE_PAGE)?;
    Ok(())
}

// The three types of the exports.
fn push_types(alloc: Global, types: &mut Vec<FuncType>) -> Result<(), AllocError>
    ensures { OnOk result (map func_type_of types.new.items ≡ map func_type_of types.old.items ++ runtime_types) }
{
    types.push(FuncType {
        params: vec![in alloc; ValType::I32]?,
        results: Vec::new(alloc),
    })?;
    types.push(FuncType {
        params: Vec::new(alloc),
        results: Vec::new(alloc),
    })?;
    types.push(FuncType {
        params: Vec::new(alloc),
        results: vec![in alloc; ValType::I32]?,
    })?;
    Ok(())
}

// The state and the address.
fn push_globals(alloc: Global, globals: &mut Vec<GlobalDef>) -> Result<(), AllocError>
    ensures { OnOk result (map global_of globals.new.items ≡ map global_of globals.old.items ++ runtime_globals) }
{
    push_zero_global(alloc, globals)?;
    push_zero_global(alloc, globals)
}

// A mutable i32 that begins as 0.
fn push_zero_global(alloc: Global, globals: &mut Vec<GlobalDef>) -> Result<(), AllocError>
    ensures { OnOk result (map global_of globals.new.items ≡ map global_of globals.old.items ++ zero_global ∷ []) }
{
    globals.push(GlobalDef {
        ty: ValType::I32,
        mutable: true,
        init: vec![in alloc; Instr::Const(Value::I32(0))]?,
    })?;
    Ok(())
}

// The five exports.
fn push_exports(alloc: Global, exports: &mut Vec<Export>, first: u32) -> Result<(), AllocError>
    requires { first < 2 ^ 31 }
    ensures { OnOk result (exports.new.items ≡ exports.old.items ++ runtime_exports first) }
{
    push_export(alloc, exports, "asyncify_start_unwind", first)?;
    push_export(alloc, exports, "asyncify_stop_unwind", first + 1)?;
    push_export(alloc, exports, "asyncify_start_rewind", first + 2)?;
    push_export(alloc, exports, "asyncify_stop_rewind", first + 3)?;
    push_export(alloc, exports, "asyncify_get_state", first + 4)
}

// An export of this function.
fn push_export(
    alloc: Global,
    exports: &mut Vec<Export>,
    name: &str,
    index: u32,
) -> Result<(), AllocError>
    ensures { OnOk result (exports.new.items ≡ exports.old.items ++ func_export name.now index ∷ []) }
{
    exports.push(Export {
        name: Name::new(alloc, name)?,
        space: Space::Func,
        index,
    })?;
    Ok(())
}

// The five functions.
fn push_funcs(
    alloc: Global,
    funcs: &mut Vec<Func>,
    first_type: u32,
    ids: RuntimeIds,
) -> Result<(), AllocError>
    requires { first_type < 2 ^ 31 }
    ensures { OnOk result (map func_of funcs.new.items ≡ map func_of funcs.old.items ++ runtime_funcs first_type ids.state ids.address) }
{
    push_start(alloc, funcs, first_type, 1, ids)?;
    push_stop(alloc, funcs, first_type + 1, ids)?;
    push_start(alloc, funcs, first_type, 2, ids)?;
    push_stop(alloc, funcs, first_type + 1, ids)?;
    push_func(
        alloc,
        funcs,
        first_type + 2,
        vec![in alloc; Instr::GlobalGet(ids.state)]?,
    )
}

// asyncify_start_unwind and asyncify_start_rewind, which set the state to this number.
fn push_start(
    alloc: Global,
    funcs: &mut Vec<Func>,
    sort: u32,
    number: u32,
    ids: RuntimeIds,
) -> Result<(), AllocError>
    ensures { OnOk result (map func_of funcs.new.items ≡ map func_of funcs.old.items ++ runtime_func sort (start_code number ids.state ids.address) ∷ []) }
{
    let set = vec![in alloc;
        Instr::Const(Value::I32(number)),
        Instr::GlobalSet(ids.state),
        Instr::LocalGet(0),
        Instr::GlobalSet(ids.address),
    ]?;
    push_func(alloc, funcs, sort, with_test(alloc, set, ids.address)?)
}

// asyncify_stop_unwind and asyncify_stop_rewind.
fn push_stop(
    alloc: Global,
    funcs: &mut Vec<Func>,
    sort: u32,
    ids: RuntimeIds,
) -> Result<(), AllocError>
    ensures { OnOk result (map func_of funcs.new.items ≡ map func_of funcs.old.items ++ runtime_func sort (stop_code ids.state ids.address) ∷ []) }
{
    let set = vec![in alloc; Instr::Const(Value::I32(0)), Instr::GlobalSet(ids.state)]?;
    push_func(alloc, funcs, sort, with_test(alloc, set, ids.address)?)
}

// A function of this type and body.
fn push_func(
    alloc: Global,
    funcs: &mut Vec<Func>,
    sort: u32,
    body: Vec<Instr>,
) -> Result<(), AllocError>
    ensures { OnOk result (map func_of funcs.new.items ≡ map func_of funcs.old.items ++ runtime_func sort (code body.items) ∷ []) }
{
    funcs.push(Func {
        sort,
        locals: Vec::new(alloc),
        body,
    })?;
    Ok(())
}

// The body with the test of the location behind it.
fn with_test(alloc: Global, body: Vec<Instr>, address: u32) -> Result<Vec<Instr>, AllocError>
    ensures { IfOk result (λ v. code v.items ≡ onto body.items (test_code address)) }
{
    let mut body = body;
    let trap = vec![in alloc; Instr::Unreachable]?;
    put_all(
        &mut body,
        [
            Instr::GlobalGet(address),
            Instr::Load {
                op: 0x28,
                align: 2,
                offset: 0,
            },
            Instr::GlobalGet(address),
            Instr::Load {
                op: 0x28,
                align: 2,
                offset: 4,
            },
            Instr::Num(NumOp::I32GtU),
            Instr::If {
                result: None,
                then_arm: trap,
                else_arm: Vec::new(alloc),
            },
        ],
    )?;
    Ok(body)
}
