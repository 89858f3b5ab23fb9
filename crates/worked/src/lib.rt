//! The worked books and the edges of the limits: what the definitions come to on them, as one fact.
#![tactic(auto)]

ghost use Rattle.worked.specs.Worked.{WorkedBooks};

/// What the definitions that every contract cites come to on the worked books, with nothing left open.
pub fn worked_books_stand()
    ensures { WorkedBooks }
{}
