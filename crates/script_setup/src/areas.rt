//! The areas of a program's strands: which is asked, what is shown off them, and which overlaps another.

ghost use Rattle.std.specs.Prelude.{◌≡◌, [], ◌∷◌, IfOk, map, position};
ghost use Rattle.std.specs.List.{list_any};
ghost use Rattle.wa_types.specs.Modules.{all_memories, imported, imported_memory};
ghost use Rattle.wa_types.specs.View.{module_of};
ghost use Rattle.wa_model.specs.Blocking.{overlap};
ghost use Rattle.wa_model.specs.Instantiation.{least_of};
ghost use Rattle.host_setup.specs.SetUp.{is_area_in, least_pages};
ghost use Rattle.script_reader.specs.Views.{program_of, show_of, strand_of};
ghost use Rattle.script_setup.specs.SetUpRules.{asked_area, asked_from, bad_show, overlap_line, overlaps, overlaps_one, shares_byte, worse};
ghost use Rattle.script_setup.specs.Views.{area_text_of, earlier_areas};

use script_reader::{ProgramText, ShowText, StrandText};
use std::alloc::{AllocError, Global};
use wa_model::Area;
use wa_types::{ImportKind, Limits, Module};

const PAGE: u64 = 65_536;

const LEAST_AREA: u32 = 8;

/// The area of a strand, told at this line.
#[derive(Clone, Copy)]
pub(crate) struct AreaText {
    pub line: u32,
    pub area: Area,
}

/// Of the areas of a program's strands a bad one, that of the earliest line, where one is bad.
pub(crate) fn asked_area(
    alloc: Global,
    module: &Module,
    text: &ProgramText,
) -> Result<AreaText, AllocError>
    ensures { IfOk result (λ asked. asked_area (module_of «module».now) (program_of text.now) ≡ area_text_of asked) }
{
    let pages = least_pages(alloc, module)?;
    let own = AreaText {
        line: text.area_line,
        area: text.area,
    };
    let asked = asked_from(pages, own, &text.strands);
    Ok(asked)
}

fn asked_from(pages: u32, own: AreaText, strands: &[StrandText]) -> AreaText
    ensures { asked_from pages (area_text_of own) (map strand_of strands.now) ≡ area_text_of result }
{
    let mut asked = own;
    for strand in strands {
        asked = worse(
            pages,
            asked,
            AreaText {
                line: strand.line,
                area: strand.area,
            },
        );
    }
    asked
}

// Of two areas one that is bad, that of the earlier line where both are; else the second.
fn worse(pages: u32, one: AreaText, other: AreaText) -> AreaText
    ensures { worse pages (area_text_of one) (area_text_of other) ≡ area_text_of result }
{
    if is_area_in(pages, one.area) {
        return other;
    }
    if is_area_in(pages, other.area) || one.line <= other.line {
        return one;
    }
    other
}

// Whether the area begins at a multiple of 4, has 8 bytes at least and lies inside so many pages.
fn is_area_in(pages: u32, area: Area) -> bool
    ensures { result ≡ is_area_in pages area }
{
    area.at % 4 == 0
        && LEAST_AREA <= area.len
        && u64::from(area.at) + u64::from(area.len) <= u64::from(pages) * PAGE
}

// The pages of the memory's declared minimum; 0 where there is no memory.
fn least_pages(alloc: Global, module: &Module) -> Result<u32, AllocError>
    ensures { IfOk result (λ n. n ≡ least_pages (module_of «module».now)) }
{
    let mut limits = imported_memories(alloc, module)?;
    limits.extend_from_slice(&module.memories)?;
    Ok(least_of(&limits))
}

fn imported_memories(alloc: Global, module: &Module) -> Result<Vec<Limits>, AllocError>
    ensures { IfOk result (λ v. v.items ≡ imported imported_memory (module_of «module».now)) }
{
    let imports = module.imports.as_slice();
    imports
        .iter()
        .filter_map(|import| memory_limits(import.kind))
        .collect(alloc)
}

fn memory_limits(kind: ImportKind) -> Option<Limits>
    ensures { result ≡ imported_memory kind }
{
    match kind {
        ImportKind::Memory(limits) => Some(limits),
        _ => None,
    }
}

fn least_of(limits: &[Limits]) -> u32
    ensures { result ≡ least_of limits.now }
{
    match limits {
        [] => 0,
        [first, ..] => first.min,
    }
}

/// The place of the first range of memory that `run` may not show.
pub(crate) fn bad_show(
    runs: bool,
    area: Area,
    strands: &[StrandText],
    shows: &[ShowText],
) -> Option<usize>
    ensures { bad_show runs area (map strand_of strands.now) (map show_of shows.now) ≡ result }
{
    if runs {
        first_overlap(area, strands, shows)
    } else {
        None
    }
}

fn first_overlap(area: Area, strands: &[StrandText], shows: &[ShowText]) -> Option<usize>
    ensures { position (overlaps_one area (map strand_of strands.now)) (map show_of shows.now) ≡ result }
{
    let place = overlapping(area, strands, shows);
    place
}

fn overlapping(area: Area, strands: &[StrandText], shows: &[ShowText]) -> Option<usize>
    ensures { result ≡ position (λ s. overlaps_one area (map strand_of strands.now) (show_of s)) shows.now }
{
    shows
        .iter()
        .position(|show| overlaps_one(area, strands, show))
}

fn overlaps_one(area: Area, strands: &[StrandText], show: &ShowText) -> bool
    ensures { overlaps_one area (map strand_of strands.now) (show_of show.now) ≡ result }
{
    let own = overlaps(area, show);
    let further = overlaps_further(strands, show);
    own || further
}

fn overlaps_further(strands: &[StrandText], show: &ShowText) -> bool
    ensures { result ≡ list_any (λ s. overlaps s.area (show_of show.now)) strands.now }
{
    strands.iter().any(|strand| overlaps(strand.area, show))
}

fn overlaps(area: Area, show: &ShowText) -> bool
    ensures { result ≡ overlaps area (show_of show.now) }
{
    u64::from(show.at) < u64::from(area.at) + u64::from(area.len)
        && u64::from(area.at) < u64::from(show.at) + u64::from(show.len)
}

/// The line of the first of these strands whose area shares a byte with this one or with that of an earlier one.
pub(crate) fn overlap_line(own: Area, strands: &[StrandText]) -> Option<u32>
    ensures { overlap_line (own ∷ []) (map strand_of strands.now) ≡ result }
{
    for (place, strand) in strands.iter().enumerate() {
        if shares_byte(own, &strands[..place], strand.area) {
            return Some(strand.line);
        }
    }
    None
}

fn shares_byte(own: Area, earlier: &[StrandText], area: Area) -> bool
    ensures { shares_byte (own ∷ earlier_areas earlier.now) area ≡ result }
{
    let first = overlap(own, area);
    let further = shares_further(earlier, area);
    first || further
}

fn shares_further(earlier: &[StrandText], area: Area) -> bool
    ensures { result ≡ list_any (λ s. overlap s.area.at s.area.len area.at area.len) earlier.now }
{
    earlier.iter().any(|strand| overlap(strand.area, area))
}

// Two areas share a byte.
fn overlap(one: Area, other: Area) -> bool
    ensures { result ≡ overlap one.at one.len other.at other.len }
{
    0 < one.len
        && 0 < other.len
        && u64::from(one.at) < u64::from(other.at) + u64::from(other.len)
        && u64::from(other.at) < u64::from(one.at) + u64::from(one.len)
}
