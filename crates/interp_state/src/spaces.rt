//! The limits of a module's memories and tables, imported ones first (standard, section 2.5.1).

ghost use Rattle.std.specs.Prelude.{◌≡◌, IfOk, map};
ghost use Rattle.wa_types.specs.Modules.{imported_table, imported_memory, imported, all_memories, all_tables};
ghost use Rattle.wa_types.specs.View.{module_of};

use std::alloc::{AllocError, Global};
use validate_bodies::{imported_memory, imported_table};
use wa_types::{Limits, Module};

fn imported_memories(alloc: Global, source: &Module) -> Result<Vec<Limits>, AllocError>
    ensures { IfOk result (λ v. v.items ≡ imported imported_memory (module_of source.now)) }
{
    let imports = source.imports.as_slice();
    imports
        .iter()
        .filter_map(|import| imported_memory(import.kind))
        .collect(alloc)
}

/// The limits of all memories.
pub fn all_memories(alloc: Global, source: &Module) -> Result<Vec<Limits>, AllocError>
    ensures { IfOk result (λ v. v.items ≡ all_memories (module_of source.now)) }
{
    let mut limits = imported_memories(alloc, source)?;
    limits.extend_from_slice(&source.memories)?;
    Ok(limits)
}

fn imported_tables(alloc: Global, source: &Module) -> Result<Vec<Limits>, AllocError>
    ensures { IfOk result (λ v. v.items ≡ imported imported_table (module_of source.now)) }
{
    let imports = source.imports.as_slice();
    imports
        .iter()
        .filter_map(|import| imported_table(import.kind))
        .collect(alloc)
}

/// The limits of all tables.
pub fn all_tables(alloc: Global, source: &Module) -> Result<Vec<Limits>, AllocError>
    ensures { IfOk result (λ v. v.items ≡ all_tables (module_of source.now)) }
{
    let mut limits = imported_tables(alloc, source)?;
    limits.extend_from_slice(&source.tables)?;
    Ok(limits)
}
