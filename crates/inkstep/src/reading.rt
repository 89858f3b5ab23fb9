//! A book that was read, with the text that it was read from, so that a line can be named.
use crate::failure::Failure;
use crate::misfit;
use book::word::Kind;
use book::{Book, line_of};
use rules::{Unopened, Verdict};
use std::alloc::AllocError;
use theory::Unmade;

/// A book and the text that it was read from.
#[derive(Clone, Copy)]
pub struct Reading<'a> {
    pub file: &'a str,
    pub text: &'a [u8],
    pub book: &'a Book,
}

/// What is said of a book.
#[derive(Drop)]
pub struct Told {
    pub text: String,
    pub verdict: Option<Verdict>,
    /// The book with every step of a search, where that is wanted.
    pub log: Option<String>,
}

impl Told {
    /// What is said of a book that is no history.
    pub fn plain(text: String) -> Told {
        Told {
            text,
            verdict: None,
            log: None,
        }
    }
}

impl<'a> Reading<'a> {
    /// The line of the step with a number, from 0.
    pub fn step_line(&self, i: usize) -> Option<usize> {
        line_of(self.text, Kind::Step, i)
    }

    /// Why the book's theory was not made.
    pub fn unmade(&self, why: Unmade) -> Failure {
        match why {
            Unmade::NoMemory => Failure::NoMemory(AllocError),
            Unmade::Refused(refusal) => match misfit::of_making(self.book, refusal) {
                Some(misfit) => self.placed(misfit, refusal.number()),
                None => Failure::Unmade(why),
            },
        }
    }

    /// Why no history of the book was opened, over so many claims.
    pub fn unopened(&self, claims: usize, why: Unopened) -> Failure {
        match why {
            Unopened::NoMemory => Failure::NoMemory(AllocError),
            Unopened::Refused(refusal) => match misfit::of_opening(
                &self.book.row,
                claims,
                refusal,
            ) {
                Some(misfit) => self.placed(misfit, refusal.number()),
                None => Failure::Unopened(why),
            },
        }
    }

    fn placed(&self, misfit: misfit::Misfit, number: u8) -> Failure {
        let (kind, i) = misfit.place();
        Failure::Misfit {
            line: line_of(self.text, kind, i),
            misfit,
            number,
        }
    }
}
