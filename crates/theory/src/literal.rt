//! Literals: claim `i` has the literal `2 * i`, and its denial is `2 * i + 1`.
ghost use Rattle.std.specs.Prelude.{◌≡◌};
ghost use Rattle.theory.specs.Literals.{complement, names};

/// A claim or its denial, by number.
// No type of its own: the interface numbers literals, and a caller may pass any number of 16 bits.
pub type Literal = u16;

/// The denial of a claim, or the claim of a denial.
pub fn complement_of(l: Literal) -> Literal
    ensures { result ≡ complement l }
{
    if l % 2 == 0 { l + 1 } else { l - 1 }
}

/// Whether a list has the literal or its complement.
pub fn names(list: &[Literal], l: Literal) -> bool
    ensures { result ≡ names list.now l }
{
    list.iter().any(|m| *m / 2 == l / 2)
}
