//! `SystemFiles`: what is asked of a system's files, call by call.

ghost use Rattle.std.specs.Prelude.{◌≤◌, IfOk, length};

use crate::opened_file::{OpenedFile, check_output, no_seek};
use crate::retrying;
use std::fs::{Files, OpenFile, OpenOptions};
use std::io;

/// The files of a system, by path.
///
/// A regular file is opened anew by each call that reads or cuts, which costs little beside a piece of 64 KiB. One that was cut stays open for
/// the next call, and no other file is written. A pipe or a device, in which no place can be sought, is opened by the call at its beginning and
/// kept: the next calls go on where it stands.
#[derive(Drop)]
pub(crate) struct SystemFiles<R: Files + Drop> {
    rt: R,
    opened: Option<OpenedFile<R::File>>,
}

impl<R: Files + Drop> SystemFiles<R> {
    /// The files that this runtime reaches.
    pub(crate) fn new(rt: R) -> SystemFiles<R> {
        SystemFiles { rt, opened: None }
    }

    /// Reads once from the place `from` of a file on.
    pub(crate) fn read(&mut self, name: &str, from: u64, buf: &mut [u8]) -> io::Result<usize>
        ensures { IfOk result (λ n. n ≤ length buf.old) }
    {
        let found = self.rt.metadata(name)?;
        if found.is_file() {
            let mut file = OpenOptions::new().read(true).open(&self.rt, name)?;
            retrying::seek(&mut file, from)?;
            return retrying::read(&mut file, buf);
        }
        if from == 0 {
            self.opened = Some(OpenedFile::open(&self.rt, OpenOptions::new().read(true), name)?);
        }
        match &mut self.opened {
            Some(opened) if opened.stands_at(&found, from) => opened.read(buf),
            _ => Err(no_seek()),
        }
    }

    /// Makes a file its first `at` bytes.
    pub(crate) fn cut(&mut self, name: &str, at: u64) -> io::Result<()> {
        let found = self.rt.metadata(name).ok();
        if let Some(found) = &found {
            check_output(&self.rt, found)?;
            if !found.is_file() {
                if at == 0 {
                    let opened = OpenedFile::open(&self.rt, OpenOptions::new().write(true), name)?;
                    // Where standard output was closed, what was opened now may stand in its place.
                    check_output(&self.rt, found)?;
                    self.opened = Some(opened);
                }
                return Ok(());
            }
        }
        let mut opened = OpenedFile::open(
            &self.rt,
            OpenOptions::new().write(true).create(true),
            name,
        )?;
        opened.cut(at)?;
        self.opened = Some(opened);
        Ok(())
    }

    /// Writes once behind the bytes of a file, which has `from` of them.
    pub(crate) fn write(&mut self, name: &str, from: u64, piece: &[u8]) -> io::Result<usize>
        ensures { IfOk result (λ n. n ≤ length piece.now) }
    {
        // A regular file is closed whatever comes: where standard output was closed, it may stand in its place.
        let Some(mut opened) = self.opened.take() else {
            return Err(no_seek());
        };
        let found = self.rt.metadata(name)?;
        if !opened.stands_at(&found, from) {
            return Err(no_seek());
        }
        let count = opened.write(piece)?;
        if !found.is_file() {
            self.opened = Some(opened);
        }
        Ok(count)
    }
}
