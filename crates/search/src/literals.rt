//! Sets of literals, of at most 128 claims.
ghost use Rattle.std.specs.Prelude.{◌<◌};

use theory::Literal;

/// A set of literals: a bit for each claim, and a bit for each denial.
#[derive(Clone, Copy, PartialEq, Eq, Debug)]
pub(crate) struct Literals {
    pub(crate) claims: u128,
    pub(crate) denials: u128,
}

/// The bit of a claim.
pub(crate) fn bit(claim: usize) -> u128 {
    1 << (claim % 128)
}

/// The claim that a literal names.
pub(crate) fn claim_of(l: Literal) -> usize
    ensures { result < 128 }
{
    usize::from(l / 2) % 128
}

impl Literals {
    pub(crate) const NONE: Literals = Literals {
        claims: 0,
        denials: 0,
    };

    pub(crate) fn has(self, l: Literal) -> bool {
        let row = if l % 2 == 0 {
            self.claims
        } else {
            self.denials
        };
        row & bit(claim_of(l)) != 0
    }

    pub(crate) fn with(self, l: Literal) -> Literals {
        if l % 2 == 0 {
            Literals {
                claims: self.claims | bit(claim_of(l)),
                denials: self.denials,
            }
        } else {
            Literals {
                claims: self.claims,
                denials: self.denials | bit(claim_of(l)),
            }
        }
    }

    pub(crate) fn of(list: &[Literal]) -> Literals {
        let mut set = Literals::NONE;
        for l in list {
            set = set.with(*l);
        }
        set
    }

    /// Without the literals of some claims.
    pub(crate) fn off(self, claims: u128) -> Literals {
        Literals {
            claims: self.claims & !claims,
            denials: self.denials & !claims,
        }
    }

    pub(crate) fn and(self, other: Literals) -> Literals {
        Literals {
            claims: self.claims & other.claims,
            denials: self.denials & other.denials,
        }
    }

    pub(crate) fn or(self, other: Literals) -> Literals {
        Literals {
            claims: self.claims | other.claims,
            denials: self.denials | other.denials,
        }
    }

    pub(crate) fn complements(self) -> Literals {
        Literals {
            claims: self.denials,
            denials: self.claims,
        }
    }

    /// The literals that the other set does not have.
    pub(crate) fn minus(self, other: Literals) -> Literals {
        Literals {
            claims: self.claims & !other.claims,
            denials: self.denials & !other.denials,
        }
    }

    /// The claims that it names.
    pub(crate) fn named(self) -> u128 {
        self.claims | self.denials
    }

    pub(crate) fn is_empty(self) -> bool {
        self.named() == 0
    }

    pub(crate) fn len(self) -> u32 {
        self.claims.count_ones() + self.denials.count_ones()
    }

    /// Its lowest literal, if it has just one.
    pub(crate) fn only(self) -> Option<Literal> {
        if self.len() != 1 {
            return None;
        }
        if self.claims != 0 {
            return Some(claim_literal(self.claims.trailing_zeros() as usize));
        }
        Some(claim_literal(self.denials.trailing_zeros() as usize) + 1)
    }
}

/// The literal of a claim by its number.
pub(crate) fn claim_literal(claim: usize) -> Literal
    ensures { result < 255 }
{
    ((claim % 128) * 2) as u16
}

/// The claims of a set, rising.
#[derive(Clone, Copy, Drop)]
pub(crate) struct Bits(pub(crate) u128);

impl Iterator for Bits {
    type Item = usize;

    ghost use Rattle.std.specs.Iterator.{at_most};

    ghost remaining = { λ s. at_most s.0 };

    fn next(&mut self) -> Option<usize> {
        if self.0 == 0 {
            return None;
        }
        let claim = self.0.trailing_zeros() as usize;
        self.0 &= self.0 - 1;
        Some(claim % 128)
    }
}
