//! A term record, as the caller keeps it.
ghost use Rattle.std.specs.Prelude.{IsTrue, ◌↔◌};
ghost use Rattle.theory.specs.Terms.{Arities, Limits};

/// A measure of a face: a symbol applied to arguments, which are numbers of terms.
/// `args[i]` counts only where `i` is below `arity`; a record may hold anything.
// The count stands beside the arguments: the interface fixes the record, and a count past the limit
// is refused, not unsayable.
#[derive(Clone, Copy, PartialEq, Eq, Debug)]
pub struct Term {
    pub symbol: u16,
    pub arity: u8,
    pub args: [u16; 2],
}

/// Whether no term has more than `most` arguments.
pub fn few_arguments(terms: &[Term], most: u8) -> bool
    ensures { IsTrue result ↔ Arities most terms.now }
{
    terms.iter().all(|t| t.arity <= most)
}

/// Whether there are at most 256 terms, with at most `most` arguments each, and at most 128 claims.
pub fn within_limits(terms: &[Term], claims: usize, most: u8) -> bool
    ensures { IsTrue result ↔ Limits most terms.now claims }
{
    terms.len() <= 256 && claims <= 128 && few_arguments(terms, most)
}
