//! A claim record, as the caller keeps it.

/// The claim that two terms, given by their numbers, are equal. A record may hold anything.
#[derive(Clone, Copy, PartialEq, Eq, Debug)]
pub struct Claim {
    pub left: u16,
    pub right: u16,
}
