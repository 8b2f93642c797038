//! A walk of operand types over the pruned body of a function of a valid module (standard, section 3.3).

ghost use Rattle.std.specs.Prelude.{◌≡◌, ◌+◌, ◌≤◌, [], ◌∷◌, ◌++◌, drop, false, length, reverse, slice_get, take, None, Some, IfOk, IsOk, MatchOption, OnErr, OnOk};
ghost use Rattle.std.specs.Vec.{vec_capacity, vec_len};
ghost use Rattle.wa_types.specs.Modules.{around, defined_at};
ghost use Rattle.wa_types.specs.Syntax.{done, Func as PlainFunc};
ghost use Rattle.wa_types.specs.Typing.{Takes, Types};
ghost use Rattle.wa_types.specs.View.{func_type_of, in_front, module_of};
ghost use Rattle.wa_types.specs.Leaves.{is_leaf};
ghost use Rattle.validate_bodies.specs.Table.{sig_of, tested};
ghost use Rattle.wasm_validate.specs.Walk.{left_at, outset, own_at, under_at, CanTake, Inside, Stays, TypedAt};

use crate::valid::Valid;
use std::alloc::{AllocError, Global};
use std::marker::Model;
use validate_bodies::{Asks, asks_at, listing};
use wa_types::{FuncType, Instr, ValType};

/// A walk of the types of operands over the pruned body of a function. Contracts see where it stands: what stands
/// around the body, the labels, and the operands of the innermost construct and those below them.
#[derive(Drop)]
pub struct Typing<'m> {
    alloc: Global,
    valid: &'m Valid,
    func: usize,
    labels: Vec<Option<ValType>>,
    types: Vec<ValType>,
    base: usize,
}

impl<'m> Model for Typing<'m> {
    ghost use Rattle.std.specs.Prelude.{◌<◌, ◌≤◌, length};
    ghost use Rattle.wasm_validate.specs.Walk.{standing, Walk};

    ghost Value = { Walk };

    ghost view = { λ w. standing w.valid.now w.func w.labels.items w.types.items w.base };

    ghost invariant = { λ w. (w.func < length w.valid.now.funcs.items) × (w.base ≤ length w.types.items) };
}

/// Takes the topmost types off.
#[tactic(auto, using(crate::proofs::Walks::taking))]
fn take_types(types: &mut Vec<ValType>, base: usize, count: usize)
    requires { base + count ≤ length types.old.items }
    ensures deep { base ≤ length types.new.items }
    ensures own { own_at base types.new.items ≡ drop count (own_at base types.old.items) }
    ensures kept { take base types.new.items ≡ take base types.old.items }
    ensures len { vec_len types.new ≤ vec_len types.old }
    ensures capacity { vec_capacity types.new ≡ vec_capacity types.old }
{
    types.truncate(types.len() - count);
}

#[tactic(auto, using(crate::proofs::Walks::taking))]
fn give_types(types: &mut Vec<ValType>, base: usize, given: &[ValType]) -> Result<(), AllocError>
    requires { base ≤ length types.old.items }
    ensures deep { base ≤ length types.new.items }
    ensures own { IfOk result (λ _. own_at base types.new.items ≡ reverse given.now ++ own_at base types.old.items) }
    ensures kept { take base types.new.items ≡ take base types.old.items }
    ensures succeeds { vec_len types.old + length given.now ≤ vec_capacity types.old → IsOk result }
{
    types.extend_from_slice(given)
}

/// Puts this type in place of so many topmost ones. Where there is no memory, all stay.
#[tactic(auto, using(crate::proofs::Walks::changing))]
fn change_to(
    types: &mut Vec<ValType>,
    base: usize,
    count: usize,
    given: ValType,
) -> Result<(), AllocError>
    requires { base + count ≤ length types.old.items }
    ensures deep { base ≤ length types.new.items }
    ensures own { IfOk result (λ _. own_at base types.new.items ≡ given ∷ drop count (own_at base types.old.items)) }
    ensures kept { take base types.new.items ≡ take base types.old.items }
    ensures err { OnErr result (types.new.items ≡ types.old.items) }
{
    if count == 0 {
        types.push(given)?;
        return Ok(());
    }
    let at = types.len() - count;
    types[at] = given;
    types.truncate(at + 1);
    Ok(())
}

/// Puts types in place of so many topmost ones. Where there is no memory, all stay.
#[tactic(auto, using(crate::proofs::Walks::taking))]
fn change_types(
    types: &mut Vec<ValType>,
    base: usize,
    count: usize,
    given: &[ValType],
) -> Result<(), AllocError>
    requires { base + count ≤ length types.old.items }
    ensures deep { base ≤ length types.new.items }
    ensures own { IfOk result (λ _. own_at base types.new.items ≡ reverse given.now ++ drop count (own_at base types.old.items)) }
    ensures kept { take base types.new.items ≡ take base types.old.items }
    ensures err { OnErr result (types.new.items ≡ types.old.items) }
{
    if given.len() == 1 {
        return change_to(types, base, count, given[0]);
    }
    types.reserve(given.len())?;
    take_types(types, base, count);
    give_types(types, base, given)
}

#[tactic(auto, using(crate::proofs::Walks::moving))]
fn taken(test: bool, ins: &[ValType]) -> usize
    ensures { result ≡ length (tested test (reverse ins.now)) }
{
    if test {
        return ins.len() + 1;
    }
    ins.len()
}

/// Does what an instruction does to the types of its operands.
#[tactic(auto, using(crate::proofs::Walks::moving))]
fn take_and_give(types: &mut Vec<ValType>, base: usize, asks: Asks) -> Result<(), AllocError>
    requires deep { base ≤ length types.old.items }
    requires typed { CanTake (sig_of asks) (own_at base types.old.items) }
    ensures deep { base ≤ length types.new.items }
    ensures typed { IfOk result (λ _. Takes (sig_of asks.entry) (own_at base types.old.items) (own_at base types.new.items)) }
    ensures kept { take base types.new.items ≡ take base types.old.items }
    ensures err { OnErr result (types.new.items ≡ types.old.items) }
{
    match asks {
        Asks::Moves { test, ins, outs } => {
            change_types(types, base, taken(test, ins), outs)?;
            Ok(())
        }
        Asks::Leaves { .. } => Ok(()),
        Asks::Drops => {
            take_types(types, base, 1);
            Ok(())
        }
        Asks::Selects => {
            take_types(types, base, 2);
            Ok(())
        }
        Asks::Lacks(_) => unreachable!(),
        Asks::Late { .. } => unreachable!(),
    }
}

impl<'m> Typing<'m> {
    /// The types of all operands, the deepest first.
    #[tactic(auto, using(crate::proofs::Walks::whole))]
    pub fn types(&self) -> &[ValType]
        ensures { reverse result.now ≡ self.now.own ++ self.now.under }
    {
        &self.types
    }

    /// A walk that stands at the beginning of the body of a defined function. Its number counts imported functions.
    pub fn start(alloc: Global, valid: &'m Valid, func: u32) -> Result<Typing<'m>, AllocError>
        requires { (f : PlainFunc) × (defined_at (module_of valid.now) func ≡ Some f) }
        ensures { IfOk result (λ w. (f : PlainFunc) → defined_at (module_of valid.now) func ≡ Some f → w ≡ outset (around (module_of valid.now) f)) }
    {
        let func = valid.defined(func);
        let mut labels = Vec::new(alloc);
        labels.push(valid.context(func).result())?;
        Ok(Typing {
            alloc,
            valid,
            func,
            labels,
            types: Vec::new(alloc),
            base: 0,
        })
    }

    /// Goes behind an instruction, or behind a whole block, loop or if, which is typed where the walk stands.
    /// Where there is no memory, the walk stays where it was.
    #[tactic(auto, using(crate::proofs::Walks::walking))]
    pub fn advance(&mut self, instr: &Instr) -> Result<(), AllocError>
        requires { TypedAt self.old (in_front instr.now done) }
        ensures stays { Stays self.old self.new }
        ensures err { OnErr result (self.new ≡ self.old) }
        ensures typed { IfOk result (λ _. Types self.old.around self.old.labels (in_front instr.now done) self.new.own self.old.own) }
    {
        match instr {
            Instr::Block { result, .. } => {
                change_types(&mut self.types, self.base, 0, listing(*result))?;
                Ok(())
            }
            Instr::Loop { result, .. } => {
                change_types(&mut self.types, self.base, 0, listing(*result))?;
                Ok(())
            }
            Instr::If { result, .. } => {
                change_types(&mut self.types, self.base, 1, listing(*result))?;
                Ok(())
            }
            _ => {
                let context = self.valid.context(self.func);
                let asks = asks_at(&context, &self.labels, instr);
                take_and_give(&mut self.types, self.base, asks)?;
                Ok(())
            }
        }
    }

    /// How many operands lie below those of the innermost construct.
    #[tactic(auto, using(crate::proofs::Walks::outer))]
    pub fn base(&self) -> usize
        ensures { result ≡ length self.now.under }
    {
        self.base
    }

    /// The type of the function of this index.
    #[tactic(auto, using(crate::proofs::Walks::outer))]
    pub fn func_type(&self, func: u32) -> Option<&'m FuncType>
        ensures { MatchOption result (slice_get self.now.around.funcs func ≡ None) (λ t. slice_get self.now.around.funcs func ≡ Some (func_type_of t.now)) }
    {
        self.valid.context(self.func).func(func)
    }

    /// The function type of this index.
    #[tactic(auto, using(crate::proofs::Walks::outer))]
    pub fn sort(&self, sort: u32) -> Option<&'m FuncType>
        ensures { MatchOption result (slice_get self.now.around.types sort ≡ None) (λ t. slice_get self.now.around.types sort ≡ Some (func_type_of t.now)) }
    {
        self.valid.context(self.func).sort(sort)
    }

    /// Goes on at the beginning of the body, or of each arm, of a block, loop or if, which is typed where the walk
    /// stands. Unlike `inside` it copies nothing. `leave` goes on behind the construct.
    pub fn enter(&mut self, instr: &Instr) -> Result<(), AllocError>
        requires typed { TypedAt self.old (in_front instr.now done) }
        requires opens { is_leaf instr.now ≡ false }
        ensures { OnOk result (Inside self.old (in_front instr.now done) self.new) }
    {
        match instr {
            Instr::Block { result, .. } => {
                self.labels.push(*result)?;
                self.base = self.types.len();
                Ok(())
            }
            Instr::Loop { .. } => {
                self.labels.push(None)?;
                self.base = self.types.len();
                Ok(())
            }
            Instr::If { result, .. } => {
                self.labels.push(*result)?;
                self.base = self.types.len() - 1;
                self.types.truncate(self.base);
                Ok(())
            }
            _ => unreachable!(),
        }
    }

    /// Goes back to the beginning of the innermost construct's body, for its other arm.
    pub fn restart(&mut self)
        ensures { self.new ≡ record { around = self.old.around; labels = self.old.labels; own = []; under = self.old.under } }
    {
        self.types.truncate(self.base);
    }

    /// Goes on behind the innermost construct, which has this result: so many operands lay below those of the construct
    /// around it.
    pub fn leave(&mut self, given: Option<ValType>, base: usize) -> Result<(), AllocError>
        requires { base ≤ length self.old.under }
        ensures { OnOk result (self.new ≡ left_at given base self.old) }
    {
        let _inner = self.labels.pop();
        self.types.truncate(self.base);
        self.types.extend_from_slice(listing(given))?;
        self.base = base;
        Ok(())
    }

    /// A walk at the beginning of the body, or of each arm, of a block, loop or if, which is typed where this one
    /// stands. It copies the labels and the types of all operands, so many small constructs above many operands take
    /// time of the product of both.
    #[tactic(auto, using(crate::proofs::Walks::insides))]
    pub fn inside(&self, instr: &Instr) -> Result<Typing<'m>, AllocError>
        requires typed { TypedAt self.now (in_front instr.now done) }
        requires opens { is_leaf instr.now ≡ false }
        ensures { IfOk result (λ w. Inside self.now (in_front instr.now done) w) }
    {
        match instr {
            Instr::Block { result, .. } => {
                let inner = enter(self, *result, &self.types)?;
                Ok(inner)
            }
            Instr::Loop { .. } => {
                let inner = enter(self, None, &self.types)?;
                Ok(inner)
            }
            Instr::If { result, .. } => {
                let inner = enter(self, *result, &self.types[..self.types.len() - 1])?;
                Ok(inner)
            }
            _ => unreachable!(),
        }
    }
}

/// A walk at the beginning of a construct's body: its label, and the operands below it.
#[tactic(auto, using(crate::proofs::Walks::entering))]
fn enter<'m>(
    walk: &Typing<'m>,
    label: Option<ValType>,
    below: &[ValType],
) -> Result<Typing<'m>, AllocError>
    ensures { IfOk result (λ w. w ≡ record { around = walk.now.around; labels = label ∷ walk.now.labels; own = []; under = reverse below.now }) }
{
    let mut labels = Vec::from_slice(walk.alloc, &walk.labels)?;
    labels.push(label)?;
    let types = Vec::from_slice(walk.alloc, below)?;
    let base = below.len();
    Ok(Typing {
        alloc: walk.alloc,
        valid: walk.valid,
        func: walk.func,
        labels,
        types,
        base,
    })
}
