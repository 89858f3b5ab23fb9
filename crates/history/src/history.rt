//! A history of one book over one theory.
ghost use Rattle.std.specs.Prelude.{◌≤◌, take};
ghost use Rattle.std.specs.Option.{ForSome};
ghost use Rattle.theory.specs.Members.{meaning};
ghost use Rattle.history.specs.Links.{Linked, Denies};

use rules::Unopened;
use table::Table;
use theory::{Literal, Theory};

pub mod next;
pub mod open;
pub mod steps;

/// A theory, and the table of a run of steps over it.
///
/// That its state is one that some steps lead to, from a book that was opened, is part of its type,
/// so what stands of every run stands of every history there is.
#[derive(Drop)]
pub struct History<T: Theory> {
    theory: T,
    table: Table,
    // Where the theory puts its cores.
    core: [u16; 128],
    // Whether the trail as it stands was found possible.
    sure: bool,
    // What the core in its place is of, if it is that of the trail as it stands with the complement of a literal.
    denied: Option<Denied>,
    ghost linked: { Linked (meaning T.Theory theory) (T.asserted theory) table sure },
    ghost denies: { ForSome denied (λ d. Denies (meaning T.Theory theory) (T.asserted theory) d.literal (take d.len core)) },
    ghost short: { ForSome denied (λ d. d.len ≤ 128) },
}

/// A literal that follows from the trail by the theory, and the length of the core that says so.
#[derive(Clone, Copy)]
struct Denied {
    literal: Literal,
    len: usize,
}

/// A theory that comes back to its caller as it was, and why no history was opened over it.
#[derive(Drop)]
pub struct Returned<T> {
    pub theory: T,
    pub why: Unopened,
}
