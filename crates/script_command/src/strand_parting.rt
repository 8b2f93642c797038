//! The programs with strands that are set up, parted in what hosts them and what prints their lines.

ghost use Rattle.std.specs.Prelude.{◌≡◌, ◌<◌, ◌≤◌, ◌^◌, ◌++◌, [], ◌∷◌, IfOk, OnOk, length, map};
ghost use Rattle.script_command.specs.StrandParts.{AreStrandsParted, range_at};

use crate::strand_starts::{MemoryRange, StagedStrands};
use event_order::Show;
use std::alloc::{AllocError, Global};
use strand_host::StrandProgram;
use transcript::Names;

/// Programs with strands, the names of their strands' lines, and what is shown behind their ends.
#[derive(Drop)]
pub(crate) struct PartedStrands<'m> {
    pub programs: Vec<StrandProgram<'m>>,
    pub names: Vec<Vec<Names>>,
    pub shows: Vec<Show>,
}

/// The programs in their order.
pub(crate) fn part_strands<'m>(
    alloc: Global,
    staged: Vec<StagedStrands<'m>>,
) -> Result<PartedStrands<'m>, AllocError>
    requires { length staged.items ≤ 16 }
    ensures { IfOk result (AreStrandsParted staged.entry.items) }
{
    let mut programs = Vec::new(alloc);
    let mut names = Vec::new(alloc);
    let mut shows = Vec::new(alloc);
    for one in staged {
        put_strand_parts(&mut programs, &mut names, &mut shows, one)?;
    }
    Ok(PartedStrands {
        programs,
        names,
        shows,
    })
}

// Puts a program's parts behind those of the programs before it.
fn put_strand_parts<'m>(
    programs: &mut Vec<StrandProgram<'m>>,
    names: &mut Vec<Vec<Names>>,
    shows: &mut Vec<Show>,
    one: StagedStrands<'m>,
) -> Result<(), AllocError>
    requires { length names.old.items < 2 ^ 32 }
    ensures programs { OnOk result (programs.new.items ≡ programs.old.items ++ one.entry.program ∷ []) }
    ensures names { OnOk result (names.new.items ≡ names.old.items ++ one.entry.names ∷ []) }
    ensures shows { OnOk result (shows.new.items ≡ shows.old.items ++ map (range_at (length names.old.items)) one.entry.shows.items) }
{
    let number = names.len() as u32;
    let StagedStrands {
        program,
        names: own,
        shows: ranges,
    } = one;
    programs.push(program)?;
    names.push(own)?;
    put_ranges(shows, number, &ranges)?;
    Ok(())
}

// What is shown of the memory of the program of this number.
fn put_ranges(shows: &mut Vec<Show>, program: u32, ranges: &[MemoryRange]) -> Result<(), AllocError>
    ensures { OnOk result (shows.new.items ≡ shows.old.items ++ map (range_at program) ranges.now) }
{
    for range in ranges {
        shows.push(Show {
            program,
            at: range.at,
            len: range.len,
        })?;
    }
    Ok(())
}
