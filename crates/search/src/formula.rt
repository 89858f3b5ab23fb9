//! The live clauses, as masks, with an index of where each literal stands.
use crate::literals::{Bits, Literals, bit};
use history::History;
use std::alloc::{AllocError, Global};
use theory::{Literal, Theory};

/// The live clauses by number: the book's from 0, learned ones from 512.
#[derive(Drop)]
pub(crate) struct Formula {
    clauses: Vec<Literals>,
    book: usize,
    // The book's clauses that have a literal: those from `starts[l]` up to `starts[l + 1]`.
    starts: Vec<usize>,
    occurrences: Vec<u16>,
    // The places of the learned clauses that have a literal.
    learned: Vec<u128>,
    pub(crate) live: u128,
}

impl Formula {
    pub(crate) fn new(heap: Global) -> Result<Formula, AllocError> {
        Ok(Formula {
            clauses: vec![in heap; Literals::NONE; 640]?,
            book: 0,
            starts: vec![in heap; 0; 257]?,
            occurrences: vec![in heap; 0; 4096]?,
            learned: vec![in heap; 0; 256]?,
            live: 0,
        })
    }

    /// Takes over the clauses of the book.
    pub(crate) fn load<T: Theory>(&mut self, history: &History<T>) {
        for c in 0..512u16 {
            let Some(clause) = history.clause(c) else {
                break;
            };
            self.book = usize::from(c) + 1;
            self.set(usize::from(c), Literals::of(clause));
            for l in clause {
                self.count(usize::from(*l) + 1);
            }
        }
        let mut sum = 0;
        for start in self.starts.iter_mut() {
            sum = (*start).saturating_add(sum);
            *start = sum;
        }
        let mut next = [0usize; 256];
        for (place, start) in next.iter_mut().zip(self.starts.iter()) {
            *place = *start;
        }
        for c in 0..512u16 {
            let Some(clause) = history.clause(c) else {
                break;
            };
            for l in clause {
                let l = usize::from(*l) % 256;
                if let Some(place) = self.occurrences.get_mut(next[l]) {
                    *place = c;
                }
                next[l] = next[l].saturating_add(1);
            }
        }
    }

    fn set(&mut self, c: usize, clause: Literals) {
        if let Some(place) = self.clauses.get_mut(c) {
            *place = clause;
        }
    }

    fn count(&mut self, l: usize) {
        if let Some(n) = self.starts.get_mut(l) {
            *n = n.saturating_add(1);
        }
    }

    /// How many clauses the book has.
    pub(crate) fn book_len(&self) -> usize {
        self.book
    }

    pub(crate) fn clause(&self, c: u16) -> Literals {
        match self.clauses.get(usize::from(c)) {
            Some(clause) => *clause,
            None => Literals::NONE,
        }
    }

    /// The book's clauses that have a literal.
    pub(crate) fn with(&self, l: Literal) -> &[u16] {
        let l = usize::from(l);
        let from = match self.starts.get(l) {
            Some(from) => *from,
            None => 0,
        };
        let to = match self.starts.get(l + 1) {
            Some(to) => *to,
            None => 0,
        };
        self.occurrences.get(from..to).unwrap_or(&[])
    }

    /// The places of the learned clauses that have a literal.
    pub(crate) fn learned_with(&self, l: Literal) -> u128 {
        match self.learned.get(usize::from(l)) {
            Some(places) => *places,
            None => 0,
        }
    }

    /// A learned clause is live in a place.
    pub(crate) fn learn(&mut self, place: usize, clause: Literals) {
        let place = place % 128;
        self.set(512 + place, clause);
        self.live |= bit(place);
        for claim in Bits(clause.claims) {
            self.index(2 * (claim % 128), place, true);
        }
        for claim in Bits(clause.denials) {
            self.index(2 * (claim % 128) + 1, place, true);
        }
    }

    /// A learned clause is live no more.
    pub(crate) fn forget(&mut self, place: usize) {
        let place = place % 128;
        let clause = self.clause(512 + (place as u16));
        self.live &= !bit(place);
        for claim in Bits(clause.claims) {
            self.index(2 * (claim % 128), place, false);
        }
        for claim in Bits(clause.denials) {
            self.index(2 * (claim % 128) + 1, place, false);
        }
    }

    fn index(&mut self, l: usize, place: usize, is_in: bool) {
        if let Some(places) = self.learned.get_mut(l) {
            if is_in {
                *places |= bit(place);
            } else {
                *places &= !bit(place);
            }
        }
    }
}
