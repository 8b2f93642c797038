//! Entries of a LIST that fit no import: most are slips of the pen, and the program then doesn't pause where it was to.

use crate::imports::import_names;
use script_reader::{ProgramText, read_script};
use std::fs::{Files, metadata, read};

/// The most bytes of a script.
const SCRIPT_LIMIT: usize = 1_048_576;

/// Tells the entries of a LIST that fit no function import of a module, which stands in two files, of which one may be none
/// that can be read again.
pub(crate) fn tell_list<R: Files + AllocGlobal + Eprint>(
    rt: &R,
    list: &str,
    input: &str,
    output: &str,
) {
    let Some(names) = names_in(rt, input).or_else(|| names_in(rt, output)) else {
        return;
    };
    for entry in list.split(',') {
        if !fits(entry, &names) {
            let _ = eprintln!(rt;
                "asyncify: --imports: {entry} fits no function import of {input}"
            );
        }
    }
}

/// Tells them of each program of a script.
pub(crate) fn tell_script<R: Files + AllocGlobal + Eprint>(rt: &R, script: &str) {
    let Some(text) = bytes_in(rt, script) else {
        return;
    };
    if text.len() > SCRIPT_LIMIT {
        return;
    }
    let Ok(script) = read_script(rt.alloc(), text.as_slice()) else {
        return;
    };
    for (number, program) in script.programs.iter().enumerate() {
        tell_program(rt, number, program);
    }
}

fn tell_program<R: Files + AllocGlobal + Eprint>(rt: &R, number: usize, program: &ProgramText) {
    let Some(list) = &program.list else {
        return;
    };
    let path = program.path.as_str();
    let Some(names) = names_in(rt, path) else {
        return;
    };
    for entry in list.as_str().split(',') {
        if !fits(entry, &names) {
            let _ = eprintln!(rt;
                "asyncify: program {number}: imports: {entry} fits no function import of {path}"
            );
        }
    }
}

/// Whether an entry is one of these names, which are in order, or the beginning of one and a star.
fn fits(entry: &str, names: &Vec<String>) -> bool {
    let beginning = entry.strip_suffix('*');
    let text = beginning.unwrap_or(entry);
    let place = names
        .as_slice()
        .partition_point(|name| name.as_str() < text);
    match names.get(place) {
        Some(name) if beginning.is_some() => name.starts_with(text),
        Some(name) => name.as_str() == text,
        None => false,
    }
}

/// The function imports of the module in a file.
fn names_in<R: Files + AllocGlobal>(rt: &R, path: &str) -> Option<Vec<String>> {
    let module = bytes_in(rt, path)?;
    import_names(rt.alloc(), module.as_slice())
}

/// What a file holds that can be read once more; a pipe can't.
fn bytes_in<R: Files + AllocGlobal>(rt: &R, path: &str) -> Option<Vec<u8>> {
    if !metadata(rt, path).ok()?.is_file() {
        return None;
    }
    read(rt, path).ok()
}
