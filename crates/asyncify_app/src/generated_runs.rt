//! A run of a generated module, rewritten, event by event.

ghost use Rattle.std.specs.Prelude.{◌≡◌, ◌≤◌, ◌∷◌, ◌+◌, ◌-◌, ◌*◌, [], ℕ, IfOk, List, OnOk, Some};
ghost use Rattle.wa_model.specs.Blocking.{Note};
ghost use Rattle.wa_model.specs.Outside.{Call, answered, called, ended, paused, returned};
ghost use Rattle.wa_model.specs.Rewrites.{Rewrites};
ghost use Rattle.world_model.specs.World.{Program as WorldProgram};
ghost use Rattle.wa_model.specs.declared.events.End.TheVariants.{Done};
ghost use Rattle.wa_types.specs.View.{module_of};
ghost use Rattle.wa_model.specs.declared.answers.Said.{Said};
ghost use Rattle.wa_types.specs.declared.values.Value.TheVariants as V;
ghost use Rattle.gen_module.specs.Generated.{generated};
ghost use Rattle.gen_module.specs.GeneratedRuns.{all_listed, pauses_once, value_of_func};
ghost use Rattle.pause_host.specs.Programs.{FollowsAlone};
ghost use Rattle.asyncify_app.specs.Playing.{PausesOnce, PlaysGenerated, run_program};
ghost use Rattle.asyncify_app.specs.Telling.{StandsBefore, TellsFirst, TellsNext};

use crate::program::{program_of, rewritten};
use pause_host::Program;
use std::alloc::{AllocError, Global};
use wa_model::Event;
use wa_types::{Module, Value};
use wasm_validate::Valid;

/// What a run told: how many bytes of its area the pause used, and the value that its entry returned.
#[derive(Clone, Copy)]
pub struct Played {
    pub used: u32,
    pub value: u32,
}

/// Rewrites a generated module, each import listed, and runs it through its one pause. The one error is want of memory.
pub fn play_generated(alloc: Global, module: Module) -> Result<Played, AllocError>
    requires { (n : ℕ) × (1 ≤ n) × (n ≤ 4000) × (module_of «module» ≡ generated n) }
    ensures { (n : ℕ) → 1 ≤ n → n ≤ 4000 → module_of «module» ≡ generated n → IfOk result (λ p. PlaysGenerated n p.used p.value) }
{
    let rewritten = rewritten(alloc, module)?;
    play(alloc, &rewritten)
}

fn play(alloc: Global, module: &Valid) -> Result<Played, AllocError>
    requires { (n : ℕ) × (1 ≤ n) × (n ≤ 4000) × Rewrites (generated n) all_listed (module_of «module».now) }
    ensures { (n : ℕ) → 1 ≤ n → n ≤ 4000 → Rewrites (generated n) all_listed (module_of «module».now)
        → IfOk result (λ p. PausesOnce (run_program n (module_of «module».now)) p.used p.value × (p.used ≡ 8 + 16 * n) × (p.value ≡ value_of_func (n - 1))) }
{
    let mut program = program_of(alloc, module)?;
    play_through(&mut program)
}

fn play_through(program: &mut Program<'_>) -> Result<Played, AllocError>
    requires { (w : WorldProgram) × (used : ℕ) × (value : ℕ) × FollowsAlone w [] program.old × TellsFirst w (pauses_once used value) }
    ensures { (w : WorldProgram) (used value : ℕ) → FollowsAlone w [] program.old → TellsFirst w (pauses_once used value)
        → IfOk result (λ p. PausesOnce w p.used p.value × (p.used ≡ used) × (p.value ≡ value)) }
{
    hear_call(program)?;
    let used = hear_pause(program)?;
    hear_answer(program)?;
    let value = hear_return(program)?;
    hear_end(program)?;
    Ok(Played { used, value })
}

// The import is called.
fn hear_call(program: &mut Program<'_>) -> Result<(), AllocError>
    requires { (w : WorldProgram) × (notes : List Note) × (call : Call) × StandsBefore w notes (called call) program.old }
    ensures { (w : WorldProgram) (notes : List Note) (call : Call) → StandsBefore w notes (called call) program.old
        → OnOk result (TellsNext w notes (called call) program.new) }
{
    match program.advance_alone()? {
        Event::Called(_) => Ok(()),
        _ => unreachable!(),
    }
}

// The program pauses; how many bytes of its area are used.
fn hear_pause(program: &mut Program<'_>) -> Result<u32, AllocError>
    requires { (w : WorldProgram) × (notes : List Note) × (ticks : ℕ) × (used : ℕ) × StandsBefore w notes (paused ticks used) program.old }
    ensures { (w : WorldProgram) (notes : List Note) (ticks used : ℕ) → StandsBefore w notes (paused ticks used) program.old
        → IfOk result (λ told. (told ≡ used) × TellsNext w notes (paused ticks used) program.new) }
{
    match program.advance_alone()? {
        Event::Paused { used, .. } => Ok(used),
        _ => unreachable!(),
    }
}

// The call is answered.
fn hear_answer(program: &mut Program<'_>) -> Result<(), AllocError>
    requires { (w : WorldProgram) × (notes : List Note) × (said : Said) × StandsBefore w notes (answered said) program.old }
    ensures { (w : WorldProgram) (notes : List Note) (said : Said) → StandsBefore w notes (answered said) program.old
        → OnOk result (TellsNext w notes (answered said) program.new) }
{
    match program.advance_alone()? {
        Event::Answered(_) => Ok(()),
        _ => unreachable!(),
    }
}

// The entry returns this number.
fn hear_return(program: &mut Program<'_>) -> Result<u32, AllocError>
    requires { (w : WorldProgram) × (notes : List Note) × (entry : ℕ) × (value : ℕ) × StandsBefore w notes (returned entry (Some (V.I32 value))) program.old }
    ensures { (w : WorldProgram) (notes : List Note) (entry value : ℕ) → StandsBefore w notes (returned entry (Some (V.I32 value))) program.old
        → IfOk result (λ told. (told ≡ value) × TellsNext w notes (returned entry (Some (V.I32 value))) program.new) }
{
    match program.advance_alone()? {
        Event::Returned { value, .. } => Ok(number_of(value)),
        _ => unreachable!(),
    }
}

fn number_of(value: Option<Value>) -> u32
    requires { (number : ℕ) × (value ≡ Some (V.I32 number)) }
    ensures { value ≡ Some (V.I32 result) }
{
    match value {
        Some(value) => number_in(value),
        None => unreachable!(),
    }
}

fn number_in(value: Value) -> u32
    requires { (number : ℕ) × (value ≡ V.I32 number) }
    ensures { value ≡ V.I32 result }
{
    match value {
        Value::I32(number) => number,
        Value::I64(_) => unreachable!(),
    }
}

// All entries have returned.
fn hear_end(program: &mut Program<'_>) -> Result<(), AllocError>
    requires { (w : WorldProgram) × (notes : List Note) × StandsBefore w notes (ended Done) program.old }
    ensures { (w : WorldProgram) (notes : List Note) → StandsBefore w notes (ended Done) program.old
        → OnOk result (TellsNext w notes (ended Done) program.new) }
{
    match program.advance_alone()? {
        Event::Ended(_) => Ok(()),
        _ => unreachable!(),
    }
}
