//! The log of a search, which takes its place whole or not at all.
use crate::failure::{Failed, Failure};
use std::fs::File;
use std::io::{ErrorKind, Write};
use std::os::unix::fs::MetadataExt;
use std::{fs, io};

/// A log that is to be written. Where its place may hold a file, it is written beside that first.
#[derive(Drop)]
pub struct Log<'a> {
    name: &'a str,
    file: File,
    place: String,
    part: Option<String>,
}

impl<'a> Log<'a> {
    /// Begins the log of a book's search, so that what stands against it is told before the search.
    pub fn begin(rt: &HostRuntime, name: &'a str, book: &str) -> Result<Log<'a>, Failed<'a>> {
        Log::open(rt, name, book).map_err(|failure| Failed {
            file: name,
            failure,
        })
    }

    fn open(rt: &HostRuntime, name: &'a str, book: &str) -> Result<Log<'a>, Failure> {
        let place = place_of(rt, name)?;
        if !is_free(rt, place.as_str(), book)? {
            return Ok(Log {
                name,
                file: fs::create(rt, place.as_str())?,
                place,
                part: None,
            });
        }
        let part = format!(in rt.alloc(); "{place}.part")?;
        match File::create_new(rt, part.as_str()) {
            Ok(file) => Ok(Log {
                name,
                file,
                place,
                part: Some(part),
            }),
            Err(e) if e.kind() == ErrorKind::AlreadyExists => Err(Failure::InTheWay(part)),
            Err(e) => Err(Failure::from(e)),
        }
    }

    /// Writes the log, and puts it into its place. What was there stays where that fails.
    pub fn finish(mut self, rt: &HostRuntime, text: &str) -> Result<(), Failed<'a>> {
        let placed = self.write(rt, text);
        if placed.is_err() {
            self.remove(rt);
        }
        placed.map_err(|e| Failed {
            file: self.name,
            failure: Failure::from(e),
        })
    }

    fn write(&mut self, rt: &HostRuntime, text: &str) -> io::Result<()> {
        self.file.write_all(text.as_bytes())?;
        if let Some(part) = &self.part {
            self.file.sync_all()?;
            fs::rename(rt, part.as_str(), self.place.as_str())?;
        }
        Ok(())
    }

    /// Leaves no log, since there is nothing to be written.
    pub fn give_up(self, rt: &HostRuntime) {
        self.remove(rt);
    }

    fn remove(&self, rt: &HostRuntime) {
        if let Some(part) = &self.part {
            let _ = fs::remove_file(rt, part.as_str());
        }
    }
}

/// Where a log stands: what a link leads to, if it is there.
fn place_of(rt: &HostRuntime, name: &str) -> io::Result<String> {
    match fs::canonicalize(rt, name) {
        Ok(path) => Ok(path.into_string()),
        Err(e) if e.kind() == ErrorKind::NotFound => Ok(String::from_str(rt.alloc(), name)?),
        Err(e) => Err(e),
    }
}

/// Whether a file that was found is the one of a name, if that is there.
fn is_that_of(rt: &HostRuntime, found: &fs::Metadata, name: &str) -> bool {
    match fs::metadata(rt, name) {
        Ok(other) => found.dev() == other.dev() && found.ino() == other.ino(),
        Err(_) => false,
    }
}

/// Whether a place may hold a file that is the log's alone: nothing is there, or a plain file is, neither that of the
/// log's own book nor the one where the verdict is printed.
fn is_free(rt: &HostRuntime, place: &str, book: &str) -> Result<bool, Failure> {
    let found = match fs::metadata(rt, place) {
        Ok(found) => found,
        Err(e) if e.kind() == ErrorKind::NotFound => return Ok(true),
        Err(e) => return Err(Failure::from(e)),
    };
    if !found.is_file() {
        return Ok(false);
    }
    let book = if book == "-" { "/dev/stdin" } else { book };
    if is_that_of(rt, &found, book) {
        return Err(Failure::LogOverBook);
    }
    if is_that_of(rt, &found, "/dev/stdout") {
        return Err(Failure::LogOverOutput);
    }
    Ok(true)
}
