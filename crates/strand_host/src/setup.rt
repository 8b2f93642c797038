//! A plan with strands, set up: the functions of each strand's entries, areas that are apart, and the strands at their start.

ghost use Rattle.std.specs.Prelude.{◌≡◌, ◌<◌, ◌≤◌, ◌+◌, ◌^◌, ◌++◌, ◌∷◌, [], ℕ, List, IfOk, OnOk, All, Option, Some, Result, length, map};
ghost use Rattle.wa_types.specs.View.{module_of};
ghost use Rattle.strand_host.specs.StrandPlans.{AllSetUp, AreasApart, FailsFirst, IsPart, IsStrandPlan, OverlapsFirst, entries_of, first_overlap, overlaps_one, areas_overlap, parts_of, set_up_of};
ghost use Rattle.strand_host.specs.StrandSetups.{AllOfLength, AreAtStart, BlamesStrand, IsAtStart, SetsUpAll, SetsUpOne, SetsUpParted, area_of, items_of};
ghost use Rattle.strand_host.specs.declared.plan.StrandPart.{StrandPart as StrandPartValue};
ghost use Rattle.host_setup.specs.SetUp.{Fault};
ghost use Rattle.host_setup.specs.Views.{Blames};

use crate::plan::{StrandFault, StrandPart, StrandPlan};
use crate::strands::Strand;
use host_setup::{SetupFault, set_up};
use pause_host::{Left, Plan, Setting, Stage, entry_calls, setting_of};
use std::alloc::{AllocError, Global};
use std::collections::VecDeque;
use wa_model::Area;
use wa_types::Value;
use wasm_validate::Valid;

/// What a program with strands begins with.
#[derive(Drop)]
pub(crate) struct Parted<'m> {
    pub valid: &'m Valid,
    pub globals: Vec<Value>,
    pub setting: Setting,
    pub steps_left: u64,
    pub dues: Vec<Option<u64>>,
    pub strands: Vec<Option<Strand>>,
}

/// The strands of a plan at their start, or the first fault.
pub(crate) fn all_parted<'m>(alloc: Global, plan: StrandPlan<'m>) -> Result<Parted<'m>, StrandFault>
    requires { IsStrandPlan plan }
    ensures { SetsUpParted plan.entry result }
{
    let StrandPlan { plan, strands } = plan;
    let Plan {
        module: valid,
        listed,
        binds,
        area,
        steps,
        globals,
        entries,
        answers,
    } = plan;
    let first = StrandPart {
        area,
        entries,
        answers,
    };
    let parts = in_front(alloc, first, strands)?;
    let funcs = all_set_up(alloc, valid, &parts)?;
    let areas = areas(alloc, &parts)?;
    if let Some(strand) = overlapping(&areas) {
        return Err(StrandFault::Overlap { strand });
    }
    let mut setting = setting_of(alloc, valid.module(), listed, binds, area, steps)?;
    setting.others = areas;
    let dues = all_due(alloc, &parts)?;
    let strands = at_start(alloc, parts, &funcs)?;
    Ok(Parted {
        valid,
        globals,
        setting,
        steps_left: steps,
        dues,
        strands,
    })
}

// One part before the others.
fn in_front(
    alloc: Global,
    first: StrandPart,
    others: Vec<StrandPart>,
) -> Result<Vec<StrandPart>, AllocError>
    ensures { IfOk result (λ parts. parts.items ≡ first ∷ others.items) }
{
    let mut parts = Vec::with_capacity(alloc, 1)?;
    parts.push(first)?;
    for part in others {
        parts.push(part)?;
    }
    Ok(parts)
}

// The functions of each strand's entries, or the first fault of the first strand that has one.
fn all_set_up(
    alloc: Global,
    valid: &Valid,
    parts: &[StrandPart],
) -> Result<Vec<Vec<u32>>, StrandFault>
    requires few { length parts.now ≤ 16 }
    requires entries { All (λ s. length s.entries.items < 2 ^ 32) parts.now }
    ensures { SetsUpAll (module_of valid.now) parts.now result }
{
    let mut all = Vec::new(alloc);
    let mut strand: u32 = 0;
    for part in parts {
        let funcs = match strand_set_up(alloc, valid, part, strand) {
            Ok(funcs) => funcs,
            Err(fault) => return Err(fault),
        };
        put(&mut all, funcs)?;
        strand += 1;
    }
    Ok(all)
}

fn put(all: &mut Vec<Vec<u32>>, funcs: Vec<u32>) -> Result<(), AllocError>
    ensures { OnOk result (all.new.items ≡ all.old.items ++ funcs ∷ []) }
{
    all.push(funcs)?;
    Ok(())
}

// Those of one strand.
fn strand_set_up(
    alloc: Global,
    valid: &Valid,
    part: &StrandPart,
    strand: u32,
) -> Result<Vec<u32>, StrandFault>
    requires { length part.now.entries.items < 2 ^ 32 }
    ensures { SetsUpOne (set_up_of (module_of valid.now) part.now) strand result }
{
    match set_up(alloc, valid, part.area, &part.entries) {
        Ok(funcs) => Ok(funcs),
        Err(fault) => Err(setup_fault(strand, fault)),
    }
}

// A fault of a strand; want of memory is nobody's.
fn setup_fault(strand: u32, fault: SetupFault) -> StrandFault
    ensures { (told : Result (List ℕ) Fault) → Blames fault told → BlamesStrand told strand result }
{
    match fault {
        SetupFault::Memory => StrandFault::Memory,
        fault => StrandFault::Setup { strand, fault },
    }
}

// The first of these areas that shares a byte with an earlier one.
fn overlapping(areas: &[Area]) -> Option<u32>
    requires { length areas.now ≤ 16 }
    ensures { result ≡ first_overlap [] 0 areas.now }
{
    let mut strand: u32 = 0;
    for (place, area) in areas.iter().enumerate() {
        if overlaps_one(&areas[..place], *area) {
            return Some(strand);
        }
        strand += 1;
    }
    None
}

// An area shares a byte with one of these.
fn overlaps_one(earlier: &[Area], area: Area) -> bool
    ensures { result ≡ overlaps_one earlier.now area }
{
    earlier.iter().any(|other| overlap(*other, area))
}

// Two areas share a byte.
fn overlap(one: Area, other: Area) -> bool
    ensures { result ≡ areas_overlap one other }
{
    0 < one.len
        && 0 < other.len
        && u64::from(one.at) < u64::from(other.at) + u64::from(other.len)
        && u64::from(other.at) < u64::from(one.at) + u64::from(one.len)
}

// The areas of all strands.
fn areas(alloc: Global, parts: &[StrandPart]) -> Result<Vec<Area>, AllocError>
    ensures { IfOk result (λ areas. areas.items ≡ map area_of parts.now) }
{
    let mut areas = Vec::new(alloc);
    for part in parts {
        areas.push(part.area)?;
    }
    Ok(areas)
}

// All strands are due at once.
fn all_due(alloc: Global, parts: &[StrandPart]) -> Result<Vec<Option<u64>>, AllocError>
    ensures { IfOk result (λ dues. dues.items ≡ map (λ (s : StrandPartValue). Some 0) parts.now) }
{
    let mut dues = Vec::new(alloc);
    for _part in parts {
        dues.push(Some(0))?;
    }
    Ok(dues)
}

// The strands at their start, with the functions of their entries.
fn at_start(
    alloc: Global,
    parts: Vec<StrandPart>,
    funcs: &[Vec<u32>],
) -> Result<Vec<Option<Strand>>, AllocError>
    requires { AllOfLength parts.items (items_of funcs.now) }
    ensures { IfOk result (λ strands. AreAtStart parts.items (items_of funcs.now) strands.items) }
{
    let mut strands = Vec::new(alloc);
    let mut rest = VecDeque::from_vec(parts);
    for own in funcs {
        let Some(part) = rest.pop_front() else {
            unreachable!();
        };
        let strand = strand_at_start(alloc, part, own)?;
        strands.push(Some(strand))?;
    }
    Ok(strands)
}

fn strand_at_start(alloc: Global, part: StrandPart, funcs: &[u32]) -> Result<Strand, AllocError>
    requires { length funcs.now ≡ length part.entries.items }
    ensures { IfOk result (λ strand. IsAtStart part funcs.now strand) }
{
    let StrandPart {
        area,
        entries,
        answers,
    } = part;
    let entries = entry_calls(alloc, entries, funcs)?;
    let left = Left {
        number: 0,
        entries,
        answers: VecDeque::from_vec(answers),
    };
    Ok(Strand {
        area,
        left,
        stage: Stage::Free,
    })
}
