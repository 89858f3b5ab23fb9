//! Lemmas of the theory that the search remembers: a literal that one makes unit is implied again without a trial.
use crate::assignment::Assignment;
use crate::literals::{Bits, Literals};
use std::alloc::{AllocError, Global};
use theory::Literal;
use theory::literal::complement_of;

/// Lemmas of at most six literals, in 384 places, the oldest replaced first.
#[derive(Drop)]
pub(crate) struct Lemmas {
    lemmas: Vec<Literals>,
    // By literal, the places of the lemmas that have it.
    places: Vec<[u128; 3]>,
    clock: usize,
    head: usize,
}

impl Lemmas {
    pub(crate) fn new(heap: Global) -> Result<Lemmas, AllocError> {
        Ok(Lemmas {
            lemmas: vec![in heap; Literals::NONE; 384]?,
            places: vec![in heap; [0u128; 3]; 256]?,
            clock: 0,
            head: 0,
        })
    }

    pub(crate) fn cut(&mut self, len: usize) {
        self.head = self.head.min(len);
    }

    fn index(&mut self, lemma: Literals, place: usize, is_in: bool) {
        for claim in Bits(lemma.claims) {
            self.mark(2 * (claim % 128), place, is_in);
        }
        for claim in Bits(lemma.denials) {
            self.mark(2 * (claim % 128) + 1, place, is_in);
        }
    }

    fn mark(&mut self, l: usize, place: usize, is_in: bool) {
        if let Some(words) = self.places.get_mut(l) {
            let word = (place / 128) % 3;
            let bit = crate::literals::bit(place % 128);
            if is_in {
                words[word] |= bit;
            } else {
                words[word] &= !bit;
            }
        }
    }

    /// Remembers a lemma, if it is short.
    pub(crate) fn remember(&mut self, lemma: Literals) {
        if lemma.len() > 6 {
            return;
        }
        let place = self.clock % 384;
        self.clock = (place + 1) % 384;
        let Some(old) = self.lemmas.get(place).copied() else {
            return;
        };
        self.index(old, place, false);
        self.index(lemma, place, true);
        if let Some(stored) = self.lemmas.get_mut(place) {
            *stored = lemma;
        }
    }

    /// A literal that some lemma makes unit.
    pub(crate) fn unit(&mut self, trail: &Assignment) -> Option<Literal> {
        for _ in 0..129 {
            let l = trail.at(self.head)?;
            if let Some(unit) = self.unit_by(trail, complement_of(l)) {
                return Some(unit);
            }
            self.head = self.head.saturating_add(1);
        }
        None
    }

    fn unit_by(&self, trail: &Assignment, l: Literal) -> Option<Literal> {
        let words = self.places.get(usize::from(l))?;
        for (word, bits) in words.iter().enumerate() {
            for place in Bits(*bits) {
                if let Some(lemma) = self.lemmas.get((word % 3) * 128 + place % 128)
                    && lemma.and(trail.on).is_empty()
                    && let Some(unit) = lemma.minus(trail.false_literals()).only()
                {
                    return Some(unit);
                }
            }
        }
        None
    }
}
