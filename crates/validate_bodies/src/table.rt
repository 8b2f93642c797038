//! What each instruction that holds no other takes off the operands and puts on (standard, sections 3.3.1 to 3.3.5).

ghost use Rattle.std.specs.Prelude.{◌≡◌, ℕ, [], ◌∷◌, Some, reverse, slice_get, true};
ghost use Rattle.wa_types.specs.Accesses.{load_row, store_row};
ghost use Rattle.wa_types.specs.declared.values.ValType.TheVariants.{I32};
ghost use Rattle.wa_types.specs.declared.instrs.Instr.TheVariants as Instr;
ghost use Rattle.wa_types.specs.Typing.{same_result, listed, sig, all_there, all_alike, jumps, jump, may_jump, calls, calls_at, gets, sets, tees, gets_global, sets_global, loads, stores, with_memory, moves, leaves};
ghost use Rattle.wa_types.specs.Leaves.{is_leaf};
ghost use Rattle.validate_bodies.specs.Table.{plain_of, sig_of, Says};

use crate::context::Context;
use wa_ops::{load_access, operands_of, result_of, same_types, store_access, type_of_value};
use wa_types::{Instr, Rule, ValType};

/// What an instruction asks of the operands, the deepest first, and whether an i32 lies on them; or the rule that it
/// breaks, whatever the operands are.
#[derive(Clone, Copy)]
pub enum Asks<'a> {
    /// Takes operands off and puts others on.
    Moves {
        test: bool,
        ins: &'a [ValType],
        outs: &'a [ValType],
    },
    /// Takes operands off, and control never goes on behind it.
    Leaves {
        test: bool,
        ins: &'a [ValType],
    },
    Drops,
    Selects,
    Lacks(Rule),
    /// Asks for operands, and then breaks a rule.
    Late {
        rule: Rule,
        ins: &'a [ValType],
        outs: &'a [ValType],
    },
}

fn same_results(a: Option<ValType>, b: Option<ValType>) -> bool
    ensures { result ≡ same_result a b }
{
    match (a, b) {
        (None, None) => true,
        (Some(t), Some(u)) => same_types(t, u),
        _ => false,
    }
}

pub fn listing(r: Option<ValType>) -> &'static [ValType]
    ensures { result.now ≡ listed r }
{
    match r {
        None => &[],
        Some(ValType::I32) => &[ValType::I32],
        Some(ValType::I64) => &[ValType::I64],
    }
}

// The result of the label, counted from the innermost.
#[tactic(auto, using(crate::proofs::LabelLemmas::labels_at))]
fn label_at(labels: &[Option<ValType>], l: u32) -> Option<Option<ValType>>
    ensures { result ≡ slice_get (reverse labels.now) l }
{
    let n = l as usize;
    if n >= labels.len() {
        return None;
    }
    Some(labels[labels.len() - 1 - n])
}

fn all_there(labels: &[Option<ValType>], table: &[u32]) -> bool
    ensures { result ≡ all_there (reverse labels.now) table.now }
{
    for l in table {
        if *l as usize >= labels.len() {
            return false;
        }
    }
    true
}

fn all_alike(labels: &[Option<ValType>], r: Option<ValType>, table: &[u32]) -> bool
    ensures { result ≡ all_alike (reverse labels.now) r table.now }
{
    for l in table {
        let Some(s) = label_at(labels, *l) else {
            return false;
        };
        if !same_results(r, s) {
            return false;
        }
    }
    true
}

#[tactic(auto, using(crate::proofs::LabelLemmas::jumps_on))]
fn jumping(labels: &[Option<ValType>], table: &[u32], last: u32) -> Asks<'static>
    ensures { sig_of result ≡ jumps (reverse labels.now) table.now (slice_get (reverse labels.now) last) }
{
    let Some(r) = label_at(labels, last) else {
        return Asks::Lacks(Rule::UnknownLabel);
    };
    if !all_alike(labels, r, table) {
        if !all_there(labels, table) {
            return Asks::Lacks(Rule::UnknownLabel);
        }
        return Asks::Lacks(Rule::StackTypes);
    }
    Asks::Leaves {
        test: true,
        ins: listing(r),
    }
}

#[tactic(auto, using(crate::proofs::LabelLemmas::listing))]
fn branching(labels: &[Option<ValType>], l: u32) -> Asks<'static>
    ensures { sig_of result ≡ jump (slice_get (reverse labels.now) l) }
{
    let Some(r) = label_at(labels, l) else {
        return Asks::Lacks(Rule::UnknownLabel);
    };
    Asks::Leaves {
        test: false,
        ins: listing(r),
    }
}

#[tactic(auto, using(crate::proofs::LabelLemmas::listing))]
fn testing(labels: &[Option<ValType>], l: u32) -> Asks<'static>
    ensures { sig_of result ≡ may_jump (slice_get (reverse labels.now) l) }
{
    let Some(r) = label_at(labels, l) else {
        return Asks::Lacks(Rule::UnknownLabel);
    };
    Asks::Moves {
        test: true,
        ins: listing(r),
        outs: listing(r),
    }
}

#[tactic(auto, using(crate::proofs::ContextLemmas::looking))]
fn calling<'m>(context: &Context<'m>, x: u32) -> Asks<'m>
    ensures { sig_of result ≡ calls (slice_get context.now.funcs x) }
{
    let Some(ty) = context.func(x) else {
        return Asks::Lacks(Rule::UnknownFunc);
    };
    Asks::Moves {
        test: false,
        ins: &ty.params,
        outs: &ty.results,
    }
}

#[tactic(auto, using(crate::proofs::ContextLemmas::looking))]
fn calling_at<'m>(context: &Context<'m>, x: u32) -> Asks<'m>
    ensures { sig_of result ≡ calls_at context.now.table (slice_get context.now.types x) }
{
    let Some(ty) = context.sort(x) else {
        return Asks::Lacks(Rule::UnknownType);
    };
    if !context.has_table() {
        return Asks::Lacks(Rule::UnknownTable);
    }
    Asks::Moves {
        test: true,
        ins: &ty.params,
        outs: &ty.results,
    }
}

#[tactic(auto, using(crate::proofs::LabelLemmas::listing))]
fn getting(local: Option<ValType>) -> Asks<'static>
    ensures { sig_of result ≡ gets local }
{
    let Some(ty) = local else {
        return Asks::Lacks(Rule::UnknownLocal);
    };
    Asks::Moves {
        test: false,
        ins: listing(None),
        outs: listing(Some(ty)),
    }
}

#[tactic(auto, using(crate::proofs::LabelLemmas::listing))]
fn setting(local: Option<ValType>) -> Asks<'static>
    ensures { sig_of result ≡ sets local }
{
    let Some(ty) = local else {
        return Asks::Lacks(Rule::UnknownLocal);
    };
    Asks::Moves {
        test: false,
        ins: listing(Some(ty)),
        outs: listing(None),
    }
}

#[tactic(auto, using(crate::proofs::LabelLemmas::listing))]
fn teeing(local: Option<ValType>) -> Asks<'static>
    ensures { sig_of result ≡ tees local }
{
    let Some(ty) = local else {
        return Asks::Lacks(Rule::UnknownLocal);
    };
    Asks::Moves {
        test: false,
        ins: listing(Some(ty)),
        outs: listing(Some(ty)),
    }
}

#[tactic(auto, using(crate::proofs::LabelLemmas::listing))]
fn getting_global(context: &Context<'_>, x: u32) -> Asks<'static>
    ensures { sig_of result ≡ gets_global (slice_get context.now.globals x) }
{
    let Some(global) = context.global(x) else {
        return Asks::Lacks(Rule::UnknownGlobal);
    };
    Asks::Moves {
        test: false,
        ins: listing(None),
        outs: listing(Some(global.ty)),
    }
}

#[tactic(auto, using(crate::proofs::LabelLemmas::listing))]
fn setting_global(context: &Context<'_>, x: u32) -> Asks<'static>
    ensures { sig_of result ≡ sets_global (slice_get context.now.globals x) }
{
    let Some(global) = context.global(x) else {
        return Asks::Lacks(Rule::UnknownGlobal);
    };
    if !global.mutable {
        return Asks::Late {
            rule: Rule::ConstantGlobal,
            ins: listing(Some(global.ty)),
            outs: listing(None),
        };
    }
    Asks::Moves {
        test: false,
        ins: listing(Some(global.ty)),
        outs: listing(None),
    }
}

#[tactic(auto, using(crate::proofs::LabelLemmas::listing))]
fn loading(memory: bool, op: u8, align: u32) -> Asks<'static>
    ensures { sig_of result ≡ loads memory align (load_row op) }
{
    if !memory {
        return Asks::Lacks(Rule::UnknownMemory);
    }
    let Some(access) = load_access(op) else {
        return Asks::Lacks(Rule::StackTypes);
    };
    let ins = listing(Some(ValType::I32));
    let outs = listing(Some(access.ty));
    if align > access.natural {
        return Asks::Late {
            rule: Rule::Alignment,
            ins,
            outs,
        };
    }
    Asks::Moves {
        test: false,
        ins,
        outs,
    }
}

/// An i32 and a value of this type, the value on top.
fn address_and(ty: ValType) -> &'static [ValType]
    ensures { reverse result.now ≡ ty ∷ I32 ∷ [] }
{
    match ty {
        ValType::I32 => &[ValType::I32, ValType::I32],
        ValType::I64 => &[ValType::I32, ValType::I64],
    }
}

#[tactic(auto, using(crate::proofs::LabelLemmas::listing))]
fn storing(memory: bool, op: u8, align: u32) -> Asks<'static>
    ensures { sig_of result ≡ stores memory align (store_row op) }
{
    if !memory {
        return Asks::Lacks(Rule::UnknownMemory);
    }
    let Some(access) = store_access(op) else {
        return Asks::Lacks(Rule::StackTypes);
    };
    let ins = address_and(access.ty);
    let outs = listing(None);
    if align > access.natural {
        return Asks::Late {
            rule: Rule::Alignment,
            ins,
            outs,
        };
    }
    Asks::Moves {
        test: false,
        ins,
        outs,
    }
}

#[tactic(auto, using(crate::proofs::LabelLemmas::listing))]
fn with_memory(memory: bool, ins: Option<ValType>, outs: Option<ValType>) -> Asks<'static>
    ensures { sig_of result ≡ with_memory memory (listed ins) (listed outs) }
{
    if !memory {
        return Asks::Lacks(Rule::UnknownMemory);
    }
    Asks::Moves {
        test: false,
        ins: listing(ins),
        outs: listing(outs),
    }
}

// What a copy or a fill of the memory asks.
#[tactic(auto, using(crate::proofs::LabelLemmas::listing))]
fn moving_bytes(memory: bool) -> Asks<'static>
    ensures { sig_of result ≡ with_memory memory (I32 ∷ I32 ∷ I32 ∷ []) [] }
{
    if !memory {
        return Asks::Lacks(Rule::UnknownMemory);
    }
    Asks::Moves {
        test: false,
        ins: &[ValType::I32, ValType::I32, ValType::I32],
        outs: listing(None),
    }
}

/// What an instruction that holds no other asks of the operands, under labels of which the last is the innermost.
#[tactic(auto, using(crate::proofs::LabelLemmas::listing), unfolding(crate::specs::Table::plain_of))]
pub fn asks_at<'m>(context: &Context<'m>, labels: &[Option<ValType>], instr: &Instr) -> Asks<'m>
    requires { is_leaf instr.now ≡ true }
    ensures { Says (plain_of instr.now) (λ p. sig_of result ≡ sig context.now (reverse labels.now) p) }
{
    if let Instr::Call(x) = instr {
        return calling(context, *x);
    }
    if let Instr::CallIndirect(x) = instr {
        return calling_at(context, *x);
    }
    own_asks(context, labels, instr)
}

/// The same of one that calls no function.
#[tactic(auto, using(crate::proofs::LabelLemmas::leaves), unfolding(crate::specs::Table::plain_of))]
fn own_asks(context: &Context<'_>, labels: &[Option<ValType>], instr: &Instr) -> Asks<'static>
    requires call { (x : ℕ) → instr.now ≡ Instr.Call x → ⊥ }
    requires indirect { (x : ℕ) → instr.now ≡ Instr.CallIndirect x → ⊥ }
    requires leaf { is_leaf instr.now ≡ true }
    ensures { Says (plain_of instr.now) (λ p. sig_of result ≡ sig context.now (reverse labels.now) p) }
{
    match instr {
        Instr::Unreachable => leaving(None),
        Instr::Return => leaving(context.result()),
        Instr::Nop => moving(listing(None), None),
        Instr::Drop => Asks::Drops,
        Instr::Select => Asks::Selects,
        Instr::MemorySize => with_memory(context.has_memory(), None, Some(ValType::I32)),
        Instr::MemoryGrow => {
            let ty = Some(ValType::I32);
            with_memory(context.has_memory(), ty, ty)
        }
        Instr::MemoryCopy => moving_bytes(context.has_memory()),
        Instr::MemoryFill => moving_bytes(context.has_memory()),
        Instr::Const(value) => moving(listing(None), Some(type_of_value(*value))),
        Instr::Num(op) => moving(operands_of(*op), Some(result_of(*op))),
        Instr::Br(label) => branching(labels, *label),
        Instr::BrIf(label) => testing(labels, *label),
        Instr::BrTable {
            labels: table,
            last,
        } => jumping(labels, table, *last),
        Instr::LocalGet(x) => getting(context.local(*x)),
        Instr::LocalSet(x) => setting(context.local(*x)),
        Instr::LocalTee(x) => teeing(context.local(*x)),
        Instr::GlobalGet(x) => getting_global(context, *x),
        Instr::GlobalSet(x) => setting_global(context, *x),
        Instr::Load { op, align, .. } => loading(context.has_memory(), *op, *align),
        Instr::Store { op, align, .. } => storing(context.has_memory(), *op, *align),
        Instr::Call(_) | Instr::CallIndirect(_) => unreachable!(),
        Instr::Block { .. } | Instr::Loop { .. } | Instr::If { .. } => unreachable!(),
    }
}

#[tactic(auto, using(crate::proofs::LabelLemmas::listing))]
fn leaving(ty: Option<ValType>) -> Asks<'static>
    ensures { sig_of result ≡ leaves (listed ty) }
{
    Asks::Leaves {
        test: false,
        ins: listing(ty),
    }
}

#[tactic(auto, using(crate::proofs::LabelLemmas::listing))]
fn moving(ins: &'static [ValType], ty: Option<ValType>) -> Asks<'static>
    ensures { sig_of result ≡ moves (reverse ins.now) (listed ty) }
{
    Asks::Moves {
        test: false,
        ins,
        outs: listing(ty),
    }
}
