//! A merge of two classes of terms, as a log of merges keeps it.

/// Why two terms were merged.
// No `Option` of a position: congruence is a reason too, and not the want of one.
#[derive(Clone, Copy, PartialEq, Eq, Debug)]
pub enum Reason {
    /// They have one symbol, and arguments of the same classes.
    Congruence,
    /// The literal at this position of the list says that they are equal.
    Asserted(u16),
}

/// One merge of the closure: the class labelled `high` came under the label `low`.
#[derive(Clone, Copy, PartialEq, Eq, Debug)]
pub struct Step {
    pub left: u16,
    pub right: u16,
    pub high: u16,
    pub low: u16,
    pub reason: Reason,
}
