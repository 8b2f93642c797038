//! The names under which a module imports functions, read from the front of its file.
//!
//! Only modules that were accepted are read here, so nothing is said of why others can't be.

use leb_numbers::read_u32;
use std::alloc::Global;
use std::str::from_utf8;

/// The section of imports.
const IMPORTS: u8 = 2;

/// What stands before the first section.
const HEADER: usize = 8;

/// The joined names of a module's function imports, in order; none where they can't be read, or there is no memory.
pub(crate) fn import_names(alloc: Global, module: &[u8]) -> Option<Vec<String>> {
    let mut names = Vec::new(alloc);
    if let Some(content) = section_of(module, IMPORTS) {
        let mut content = Reading { rest: content };
        for _ in 0..content.number()? {
            let (base, name) = (content.name()?, content.name()?);
            if content.describes_function()? {
                names.push(format!(in alloc; "{base}.{name}").ok()?).ok()?;
            }
        }
    }
    names.sort_unstable();
    Some(names)
}

/// The content of the first section with this id.
fn section_of(module: &[u8], wanted: u8) -> Option<&[u8]> {
    let mut sections = Reading { rest: module };
    sections.bytes(HEADER)?;
    for _ in 0..module.len() {
        let id = sections.byte()?;
        let length = sections.number()? as usize;
        let content = sections.bytes(length)?;
        if id == wanted {
            return Some(content);
        }
    }
    None
}

/// Bytes that are read from their front on.
#[derive(Drop)]
struct Reading<'m> {
    rest: &'m [u8],
}

impl<'m> Reading<'m> {
    fn byte(&mut self) -> Option<u8> {
        let (first, rest) = self.rest.split_first()?;
        self.rest = rest;
        Some(*first)
    }

    fn bytes(&mut self, count: usize) -> Option<&'m [u8]> {
        let (front, rest) = self.rest.split_at_checked(count)?;
        self.rest = rest;
        Some(front)
    }

    fn number(&mut self) -> Option<u32> {
        let mut at = 0;
        let number = read_u32(self.rest, &mut at).ok()?;
        self.bytes(at)?;
        Some(number)
    }

    fn name(&mut self) -> Option<&'m str> {
        let length = self.number()? as usize;
        from_utf8(self.bytes(length)?).ok()
    }

    /// Passes over what an import is: a function, a table, a memory or a global.
    fn describes_function(&mut self) -> Option<bool> {
        let kind = self.byte()?;
        match kind {
            0 => {
                self.number()?;
            }
            1 => {
                self.byte()?;
                self.limits()?;
            }
            2 => self.limits()?,
            _ => {
                self.bytes(2)?;
            }
        }
        Some(kind == 0)
    }

    fn limits(&mut self) -> Option<()> {
        let has_most = self.byte()? != 0;
        self.number()?;
        if has_most {
            self.number()?;
        }
        Some(())
    }
}
