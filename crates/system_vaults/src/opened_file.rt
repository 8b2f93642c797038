//! `OpenedFile`: a file that stays open from one call to the next.

ghost use Rattle.std.specs.Prelude.{◌≤◌, IfOk, length};

use crate::retrying;
use std::fs::{Files, Metadata, OpenFile, OpenOptions};
use std::io::{self, Error, ErrorKind, Read, Seek, Write};
use std::os::unix::fs::{FileTypeExt, MetadataExt};

/// A file that was opened, which of all files it is, and the place at which it stands: of a pipe or a device, how many bytes went
/// through it.
#[derive(Drop)]
pub(crate) struct OpenedFile<F: Read + Write + Seek + OpenFile + Drop> {
    file: F,
    device: u64,
    node: u64,
    place: u64,
}

impl<F: Read + Write + Seek + OpenFile + Drop> OpenedFile<F> {
    /// Opens one at its beginning.
    pub(crate) fn open<R: Files<File = F>>(
        rt: &R,
        how: &OpenOptions,
        name: &str,
    ) -> io::Result<OpenedFile<F>> {
        let file = how.open(rt, name)?;
        let found = file.metadata()?;
        Ok(OpenedFile {
            file,
            device: found.dev(),
            node: found.ino(),
            place: 0,
        })
    }

    /// Whether it is this file, and stands at this place.
    pub(crate) fn stands_at(&self, found: &Metadata, place: u64) -> bool {
        self.device == found.dev() && self.node == found.ino() && self.place == place
    }

    /// Makes it its first `at` bytes, and goes behind them.
    pub(crate) fn cut(&mut self, at: u64) -> io::Result<()> {
        self.file.set_len(at)?;
        retrying::seek(&mut self.file, at)?;
        self.place = at;
        Ok(())
    }

    /// Reads what comes next.
    pub(crate) fn read(&mut self, buf: &mut [u8]) -> io::Result<usize>
        ensures { IfOk result (λ count. count ≤ length buf.new) }
    {
        let count = retrying::read(&mut self.file, buf)?;
        self.place = self.place.saturating_add(count as u64);
        Ok(count)
    }

    /// Writes what comes next.
    pub(crate) fn write(&mut self, piece: &[u8]) -> io::Result<usize>
        ensures { IfOk result (λ count. count ≤ length piece.now) }
    {
        let count = retrying::write(&mut self.file, piece)?;
        self.place = self.place.saturating_add(count as u64);
        Ok(count)
    }
}

/// The error of a place that can't be sought.
pub(crate) fn no_seek() -> Error {
    Error::new(
        ErrorKind::NotSeekable,
        "bytes that have gone through a pipe can't be had again",
    )
}

/// Fails where standard output goes to this file or pipe too: the line that is printed would stand among the bytes. Of a
/// terminal or `/dev/null` there is nothing to spoil.
pub(crate) fn check_output<R: Files>(rt: &R, found: &Metadata) -> io::Result<()> {
    match rt.metadata("/dev/stdout") {
        Ok(out) if is_same(&out, found) && !found.file_type().is_char_device() => Err(Error::new(
            ErrorKind::InvalidInput,
            "standard output goes there too, and the line printed would spoil the file",
        )),
        _ => Ok(()),
    }
}

fn is_same(one: &Metadata, other: &Metadata) -> bool {
    one.dev() == other.dev() && one.ino() == other.ino()
}
