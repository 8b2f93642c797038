//! The generated module, function by function.

ghost use Rattle.std.specs.Prelude.{◌≡◌, ◌<◌, ◌≤◌, IfOk, map, Some};
ghost use Rattle.wa_types.specs.View.{code, func_of, func_type_of, module_of};
ghost use Rattle.gen_module.specs.Generated.{adding, deciding, first_code, func_by, generated, generated_func, generated_funcs, looping, one_to_one, run_export, sleep};

use std::alloc::{AllocError, Global};
use wa_types::{
    Export, Func, FuncType, Import, ImportKind, Instr, Module, Name, NumOp, Run, Space, ValType,
    Value,
};

/// The module of `n` functions, from 1 to 4,000: `run`, the last one, calls down to the import `env.sleep`.
#[tactic(auto, using(crate::proofs::GeneratedTypes::next_funcs), unfolding(crate::specs::Generated::generated))]
pub fn generate(alloc: Global, n: u32) -> Result<Module, AllocError>
    requires least { 1 ≤ n }
    requires most { n ≤ 4000 }
    ensures { IfOk result (λ m. module_of m ≡ generated n) }
{
    let mut funcs = Vec::new(alloc);
    for i in 0..n {
        funcs.push(generated_func(alloc, i)?)?;
    }
    Ok(Module {
        types: vec![in alloc; one_to_one(alloc)?]?,
        imports: vec![in alloc; sleep(alloc)?]?,
        funcs,
        tables: Vec::new(alloc),
        memories: Vec::new(alloc),
        globals: Vec::new(alloc),
        exports: vec![in alloc; run_export(alloc, n)?]?,
        start: None,
        elems: Vec::new(alloc),
        segments: Vec::new(alloc),
        customs: Vec::new(alloc),
    })
}

// The type of all functions.
fn one_to_one(alloc: Global) -> Result<FuncType, AllocError>
    ensures { IfOk result (λ t. func_type_of t ≡ one_to_one) }
{
    Ok(FuncType {
        params: vec![in alloc; ValType::I32]?,
        results: vec![in alloc; ValType::I32]?,
    })
}

fn sleep(alloc: Global) -> Result<Import, AllocError>
    ensures { IfOk result (λ i. i ≡ sleep) }
{
    Ok(Import {
        module: Name::new(alloc, "env")?,
        base: Name::new(alloc, "sleep")?,
        kind: ImportKind::Func(0),
    })
}

fn run_export(alloc: Global, n: u32) -> Result<Export, AllocError>
    ensures { IfOk result (λ e. e ≡ run_export n) }
{
    Ok(Export {
        name: Name::new(alloc, "run")?,
        space: Space::Func,
        index: n,
    })
}

// The function of this number.
fn generated_func(alloc: Global, i: u32) -> Result<Func, AllocError>
    ensures { IfOk result (λ f. func_of f ≡ generated_func i) }
{
    if i == 0 {
        return Ok(func_with(Vec::new(alloc), first_body(alloc)?));
    }
    match i % 3 {
        0 => {
            let one_local = Run {
                count: 1,
                ty: ValType::I32,
            };
            Ok(func_with(vec![in alloc; one_local]?, looping(alloc, i)?))
        }
        1 => Ok(func_with(Vec::new(alloc), adding(alloc, i)?)),
        _ => Ok(func_with(Vec::new(alloc), deciding(alloc, i)?)),
    }
}

fn func_with(locals: Vec<Run>, body: Vec<Instr>) -> Func
    ensures sort { result.sort ≡ 0 }
    ensures locals { result.locals ≡ locals }
    ensures body { result.body ≡ body }
{
    Func {
        sort: 0,
        locals,
        body,
    }
}

// The import's answer, plus one.
#[tactic(auto, using(crate::proofs::Bodies::bodies))]
fn first_body(alloc: Global) -> Result<Vec<Instr>, AllocError>
    ensures { IfOk result (λ body. code body.items ≡ first_code) }
{
    Ok(vec![in alloc;
        Instr::LocalGet(0),
        Instr::Call(0),
        Instr::Const(Value::I32(1)),
        Instr::Num(NumOp::I32Add),
    ]?)
}

// The call behind an operand.
#[tactic(auto, using(crate::proofs::Bodies::bodies))]
fn adding(alloc: Global, i: u32) -> Result<Vec<Instr>, AllocError>
    ensures { IfOk result (λ body. code body.items ≡ adding i) }
{
    Ok(vec![in alloc;
        Instr::Const(Value::I32(i)),
        Instr::LocalGet(0),
        Instr::Call(i),
        Instr::Num(NumOp::I32Add),
    ]?)
}

// The call in an arm of an `if`.
#[tactic(auto, using(crate::proofs::Bodies::bodies))]
fn deciding(alloc: Global, i: u32) -> Result<Vec<Instr>, AllocError>
    ensures { IfOk result (λ body. code body.items ≡ deciding i) }
{
    let chosen = Instr::If {
        result: Some(ValType::I32),
        then_arm: vec![in alloc; Instr::LocalGet(0), Instr::Call(i)]?,
        else_arm: vec![in alloc; Instr::Const(Value::I32(0))]?,
    };
    Ok(vec![in alloc;
        Instr::LocalGet(0),
        chosen,
        Instr::Const(Value::I32(i)),
        Instr::Num(NumOp::I32Xor),
    ]?)
}

// The call in a loop.
#[tactic(auto, using(crate::proofs::Bodies::bodies))]
fn looping(alloc: Global, i: u32) -> Result<Vec<Instr>, AllocError>
    ensures { IfOk result (λ body. code body.items ≡ looping i) }
{
    let body = vec![in alloc;
        Instr::LocalGet(0),
        Instr::Call(i),
        Instr::LocalSet(1),
        Instr::Const(Value::I32(0)),
        Instr::BrIf(0),
    ]?;
    let turns = Instr::Loop { result: None, body };
    Ok(vec![in alloc; turns, Instr::LocalGet(1)]?)
}
