//! Clauses: sets of literals, the book's clauses in their row, and the learned ones.
#![tactic(auto)]

pub mod book;
pub mod learned;
pub mod row;
pub mod set;
pub mod stored;

pub use book::Book;
pub use learned::Learned;
pub use row::Clauses;
pub use set::{LiteralSet, Literals};
pub use stored::StoredClause;
