//! A claim record of the theory of distances, as the caller keeps it.

/// The claim that the number of `term` minus that of `base` is at most `most`. A record may hold
/// anything.
#[derive(Clone, Copy, PartialEq, Eq, Debug)]
pub struct Bound {
    pub term: u16,
    pub base: u16,
    pub most: i32,
}
