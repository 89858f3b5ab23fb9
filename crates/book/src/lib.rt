//! Books: texts that give a theory with its terms and claims, and the calls to make on it, or the clauses and the
//! steps of a history.
#![tactic(auto)]

ghost use Rattle.book.specs.Canonical.{ReadsBack};

pub mod contents;
pub mod fault;
mod line;
mod places;
mod proposed;
mod reading;
mod scan;
pub mod word;
mod writing;

pub use contents::{Asked, Book, Call, Claims};
pub use fault::{Fault, Unread, Wrong};
pub use places::line_of;
pub use proposed::Proposed;
pub use reading::{Purpose, read};
pub use writing::log_text;

/// The canonical text of a book, with single blanks, means that book: of one to ask and of one to replay.
pub fn canonical_stands()
    ensures { ReadsBack }
{}
