//! A file that the log of an audit is appended to.

use service_loop::AuditLog;
use std::fs::File;
use std::io::{ErrorKind, Seek, SeekFrom, Write};
use std::os::unix::fs::{MetadataExt, OpenOptionsExt};
use std::rt::Files;
use std::{fs, io};

/// Who may read and write a file that is made: its owner both, its group read.
const MODE: u32 = 0o640;

/// A file of a path, locked as long as it is open. Once the path names it no more, a new one is made there.
#[derive(Drop)]
pub struct AuditFile<'a, R> {
    rt: &'a R,
    path: &'a str,
    file: File,
    /// Why the last lines were not written.
    unwritten: Option<ErrorKind>,
    /// Why no new file could be made.
    unmade: Option<ErrorKind>,
}

// Opens the file of a path to append to it, and makes it where there is none.
fn opened<R: Files<File = File>>(rt: &R, path: &str) -> io::Result<File> {
    File::options()
        .read(true)
        .append(true)
        .create(true)
        .mode(MODE)
        .open(rt, path)
}

// The same, of a regular file that nobody else has locked.
fn locked<R: Files<File = File>>(rt: &R, path: &str) -> Result<File, ErrorKind> {
    match opened(rt, path) {
        Ok(file) => match lock(&file) {
            Ok(true) => Ok(file),
            Ok(false) => Err(ErrorKind::InvalidInput),
            Err(error) => Err(error.kind()),
        },
        Err(error) => Err(error.kind()),
    }
}

// Locks a file, and says whether it is a regular one: a pipe that is full would hold up all clients.
fn lock(file: &File) -> io::Result<bool> {
    File::try_lock(file)?;
    Ok(File::metadata(file)?.is_file())
}

// Whether a path names a file that is open.
fn is_named<R: Files<File = File>>(rt: &R, path: &str, file: &File) -> bool {
    match (fs::metadata(rt, path), File::metadata(file)) {
        (Ok(named), Ok(held)) => named.dev() == held.dev() && named.ino() == held.ino(),
        _ => false,
    }
}

// Appends bytes. Where they are not all written, what was written of them is cut off again.
fn append(file: &mut File, bytes: &[u8]) -> io::Result<()> {
    let len = file.seek(SeekFrom::End(0))?;
    match file.write_all(bytes) {
        Ok(()) => Ok(()),
        Err(error) => {
            let _ = File::set_len(file, len);
            Err(error)
        }
    }
}

impl<'a, R: Files<File = File>> AuditFile<'a, R> {
    /// Opens the file of a path, and makes it where there is none.
    ///
    /// # Errors
    ///
    /// What the system says: `WouldBlock` where another program has locked it; or `InvalidInput` where it is no regular file.
    pub fn open(rt: &'a R, path: &'a str) -> Result<AuditFile<'a, R>, ErrorKind> {
        let file = locked(rt, path)?;
        Ok(AuditFile {
            rt,
            path,
            file,
            unwritten: None,
            unmade: None,
        })
    }
}

impl<'a, R: Files<File = File>> AuditLog for AuditFile<'a, R> {
    fn write(&mut self, lines: &[u8]) -> bool {
        self.unwritten = match append(&mut self.file, lines) {
            Ok(()) => None,
            Err(error) => Some(error.kind()),
        };
        self.unwritten.is_none()
    }

    // Where the path names the file no more, a new one is made. Until that is there lines go on to the old one.
    fn tick(&mut self) {
        if is_named(self.rt, self.path, &self.file) {
            self.unmade = None;
            return;
        }
        match locked(self.rt, self.path) {
            Ok(file) => {
                self.file = file;
                self.unmade = None;
            }
            Err(why) => self.unmade = Some(why),
        }
    }

    fn trouble(&self) -> Option<ErrorKind> {
        match self.unwritten {
            Some(why) => Some(why),
            None => self.unmade,
        }
    }
}
