//! The programs that are set up, parted in what hosts them and what prints their lines.

ghost use Rattle.std.specs.Prelude.{◌≡◌, ◌<◌, ◌≤◌, ◌^◌, ◌++◌, [], ◌∷◌, IfOk, OnOk, length, map};
ghost use Rattle.world_hosting.specs.Parted.{AreParted, show_at};

use crate::staging::Staged;
use event_order::Show;
use many_host::Program;
use script_reader::ShowText;
use std::alloc::{AllocError, Global};
use transcript::Names;

/// Programs, the names of their lines, and what is shown behind their ends.
#[derive(Drop)]
pub(crate) struct Parted<'m> {
    pub programs: Vec<Program<'m>>,
    pub names: Vec<Names>,
    pub shows: Vec<Show>,
}

/// The programs in their order.
pub(crate) fn part_programs<'m>(
    alloc: Global,
    staged: Vec<Staged<'m>>,
) -> Result<Parted<'m>, AllocError>
    requires { length staged.items ≤ 16 }
    ensures { IfOk result (AreParted staged.entry.items) }
{
    let mut programs = Vec::new(alloc);
    let mut names = Vec::new(alloc);
    let mut shows = Vec::new(alloc);
    for one in staged {
        put_parts(&mut programs, &mut names, &mut shows, one)?;
    }
    Ok(Parted {
        programs,
        names,
        shows,
    })
}

// Puts a program's parts behind those of the programs before it.
fn put_parts<'m>(
    programs: &mut Vec<Program<'m>>,
    names: &mut Vec<Names>,
    shows: &mut Vec<Show>,
    one: Staged<'m>,
) -> Result<(), AllocError>
    requires { length names.old.items < 2 ^ 32 }
    ensures programs { OnOk result (programs.new.items ≡ programs.old.items ++ one.entry.program ∷ []) }
    ensures names { OnOk result (names.new.items ≡ names.old.items ++ one.entry.names ∷ []) }
    ensures shows { OnOk result (shows.new.items ≡ shows.old.items ++ map (show_at (length names.old.items)) one.entry.shows.items) }
{
    let number = names.len() as u32;
    let Staged {
        program,
        names: own,
        shows: texts,
    } = one;
    programs.push(program)?;
    names.push(own)?;
    put_shows(shows, number, &texts)?;
    Ok(())
}

// What is shown of the memory of the program of this number.
fn put_shows(shows: &mut Vec<Show>, program: u32, texts: &[ShowText]) -> Result<(), AllocError>
    ensures { OnOk result (shows.new.items ≡ shows.old.items ++ map (show_at program) texts.now) }
{
    for text in texts {
        shows.push(Show {
            program,
            at: text.at,
            len: text.len,
        })?;
    }
    Ok(())
}
