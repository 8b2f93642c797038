//! The names in the lines of a program's strands: its function imports, the strand's entries, and the length of its area.

ghost use Rattle.std.specs.Prelude.{◌≡◌, ◌++◌, [], ◌∷◌, IfOk, OnOk, map};
ghost use Rattle.std.specs.String.{string_bytes};
ghost use Rattle.transcript.specs.Printing.{names_of};
ghost use Rattle.wa_types.specs.Modules.{imported_func};
ghost use Rattle.wa_types.specs.Pausing.{joined_name};
ghost use Rattle.wa_types.specs.View.{module_of};
ghost use Rattle.script_model.specs.Script.{EntryText as PlainEntry};
ghost use Rattle.world_model.specs.World.{name_if};
ghost use Rattle.script_reader.specs.Views.{entry_of, program_of, strand_of};
ghost use Rattle.script_setup.specs.SetUpRules.{program_names, strand_names};
ghost use Rattle.std.specs.List.{filter_map};

use script_reader::{EntryText, ProgramText, StrandText};
use std::alloc::{AllocError, Global};
use transcript::Names;
use wa_types::{Import, ImportKind, Module, Name};

/// The names of the lines of a program's first strand: its module's function imports, joined, its entries, and the length of its area.
pub fn program_names(
    alloc: Global,
    module: &Module,
    text: &ProgramText,
) -> Result<Names, AllocError>
    ensures { IfOk result (λ names. names_of names ≡ program_names (module_of «module».now) (program_of text.now)) }
{
    let imports = import_names(alloc, &module.imports)?;
    let entries = entry_names(alloc, &text.entries)?;
    Ok(Names {
        imports,
        entries,
        len: text.area.len,
    })
}

/// The same of a further strand.
pub fn strand_names(alloc: Global, module: &Module, text: &StrandText) -> Result<Names, AllocError>
    ensures { IfOk result (λ names. names_of names ≡ strand_names (module_of «module».now) (strand_of text.now)) }
{
    let imports = import_names(alloc, &module.imports)?;
    let entries = entry_names(alloc, &text.entries)?;
    Ok(Names {
        imports,
        entries,
        len: text.area.len,
    })
}

fn import_names(alloc: Global, imports: &[Import]) -> Result<Vec<Name>, AllocError>
    ensures { IfOk result (λ names. names.items ≡ filter_map (λ (i : Import). name_if (joined_name i) (imported_func i.kind)) imports.now) }
{
    let mut names = Vec::new(alloc);
    for import in imports {
        put_import(alloc, &mut names, import)?;
    }
    Ok(names)
}

// Puts the name of an imported function behind others.
fn put_import(alloc: Global, names: &mut Vec<Name>, import: &Import) -> Result<(), AllocError>
    ensures { OnOk result (names.new.items ≡ names.old.items ++ filter_map (λ (i : Import). name_if (joined_name i) (imported_func i.kind)) (import.now ∷ [])) }
{
    match import.kind {
        ImportKind::Func(_) => {
            let joined = joined(alloc, import)?;
            names.push(joined)?;
            Ok(())
        }
        _ => Ok(()),
    }
}

fn joined(alloc: Global, import: &Import) -> Result<Name, AllocError>
    ensures { IfOk result (λ name. name ≡ joined_name import.now) }
{
    let joined = joined_text(alloc, import)?;
    Name::new(alloc, joined.as_str())
}

/// The import's module name, a dot and its base name.
pub fn joined_text(alloc: Global, import: &Import) -> Result<String, AllocError>
    ensures { IfOk result (λ text. string_bytes text ≡ joined_name import.now) }
{
    let mut joined = String::from_str(alloc, import.module.as_str())?;
    joined.push_str(".")?;
    joined.push_str(import.base.as_str())?;
    Ok(joined)
}

fn entry_names(alloc: Global, texts: &[EntryText]) -> Result<Vec<Name>, AllocError>
    ensures { IfOk result (λ names. names.items ≡ map (λ (e : PlainEntry). e.name) (map entry_of texts.now)) }
{
    let mut names = Vec::new(alloc);
    for text in texts {
        let name = Name::new(alloc, text.name.as_str())?;
        names.push(name)?;
    }
    Ok(names)
}
