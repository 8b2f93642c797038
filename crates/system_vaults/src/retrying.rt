//! Calls of the system that a signal may interrupt: each is made again until one isn't interrupted.

ghost use Rattle.std.specs.Prelude.{◌≤◌, IfOk, length};

use std::io::{self, Error, ErrorKind, Read, Seek, SeekFrom, Write};

/// Whether a signal came before the call did anything.
pub(crate) fn is_interrupted(error: &Error) -> bool {
    error.kind() == ErrorKind::Interrupted
}

/// Reads what comes next.
pub(crate) fn read<F: Read>(file: &mut F, buf: &mut [u8]) -> io::Result<usize>
    ensures { IfOk result (λ count. count ≤ length buf.new) }
{
    'reading: for _ in 0..u64::MAX {
        match file.read(buf) {
            Ok(count) => return Ok(count),
            Err(error) if is_interrupted(&error) => {}
            Err(error) => return Err(error),
        }
    }
    Err(Error::from(ErrorKind::Interrupted))
}

/// Writes what comes next.
pub(crate) fn write<F: Write>(file: &mut F, piece: &[u8]) -> io::Result<usize>
    ensures { IfOk result (λ count. count ≤ length piece.now) }
{
    'writing: for _ in 0..u64::MAX {
        match file.write(piece) {
            Ok(count) => return Ok(count),
            Err(error) if is_interrupted(&error) => {}
            Err(error) => return Err(error),
        }
    }
    Err(Error::from(ErrorKind::Interrupted))
}

/// Goes to a place.
pub(crate) fn seek<F: Seek>(file: &mut F, place: u64) -> io::Result<()> {
    'seeking: for _ in 0..u64::MAX {
        match file.seek(SeekFrom::Start(place)) {
            Ok(_) => return Ok(()),
            Err(error) if is_interrupted(&error) => {}
            Err(error) => return Err(error),
        }
    }
    Err(Error::from(ErrorKind::Interrupted))
}
