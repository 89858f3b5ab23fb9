//! Why nothing is printed.
use crate::misfit::Misfit;
use crate::refused::Refused;
use crate::text::FileName;
use book::{Fault, Proposed, Unread};
use std::alloc::AllocError;
use std::{fmt, io};
use thiserror::Error;

/// The words for want of memory, wherever it comes.
pub const NO_MEMORY: &str = "no memory is left";

/// Why nothing is printed for a file.
#[derive(Debug, Drop, Error)]
pub enum Failure {
    #[error("{0}")]
    Io(io::Error),
    #[error("{NO_MEMORY}")]
    NoMemory(#[from(alloc)] AllocError),
    #[error("{wrong}", wrong = .0.wrong)]
    Unread(#[from] Fault),
    #[error("no trial is open to close")]
    NoTrial {
        line: usize,
    },
    #[error("{misfit} (refused {number})")]
    Misfit {
        line: Option<usize>,
        misfit: Misfit,
        number: u8,
    },
    #[error("{0}")]
    Unmade(theory::Unmade),
    #[error("{0}")]
    Unopened(rules::Unopened),
    #[error("{step}: refused {number}: {refused}", number = .refused.number())]
    StepRefused {
        line: Option<usize>,
        step: Proposed,
        refused: Refused,
    },
    #[error("a book to solve has no step lines")]
    StepsToSolve {
        line: Option<usize>,
    },
    #[error("the log would stand in the book's own place")]
    LogOverBook,
    #[error("the log would stand where standard output goes")]
    LogOverOutput,
    #[error("{part} is in the way", part = FileName(.0.as_str()))]
    InTheWay(String),
}

impl Failure {
    /// The line that is at fault, if one is.
    fn line(&self) -> Option<usize> {
        match self {
            Failure::Unread(fault) => Some(fault.line),
            Failure::NoTrial { line } => Some(*line),
            Failure::Misfit { line, .. }
            | Failure::StepRefused { line, .. }
            | Failure::StepsToSolve { line } => *line,
            _ => None,
        }
    }
}

impl From<io::Error> for Failure {
    fn from(e: io::Error) -> Failure {
        match e.kind() {
            io::ErrorKind::OutOfMemory => Failure::NoMemory(AllocError),
            _ => Failure::Io(e),
        }
    }
}

impl From<Unread> for Failure {
    fn from(e: Unread) -> Failure {
        match e {
            Unread::Fault(fault) => Failure::Unread(fault),
            Unread::NoMemory => Failure::NoMemory(AllocError),
        }
    }
}

/// A file that nothing is printed for, and why.
#[derive(Debug, Drop)]
pub struct Failed<'a> {
    pub file: &'a str,
    pub failure: Failure,
}

impl<'a> fmt::Display for Failed<'a> {
    fn fmt<W: fmt::Write>(&self, f: &mut fmt::Formatter<W>) -> fmt::Result {
        let (file, failure) = (FileName(self.file), &self.failure);
        match failure.line() {
            Some(line) => write!(f, "{file}:{line}: {failure}"),
            None => write!(f, "{file}: {failure}"),
        }
    }
}
