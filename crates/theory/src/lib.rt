//! What every theory has: literals, a meaning, the calls with their refusals, and trials.
#![tactic(auto)]

pub mod asserted;
pub mod law;
pub mod literal;
pub mod marks;
pub mod refusal;
pub mod term;
pub mod theory;
pub mod trial;

pub use asserted::Asserted;
pub use law::answers_stand;
pub use literal::Literal;
pub use marks::list_marks;
pub use refusal::{Found, Refusal, Unmade};
pub use term::Term;
pub use theory::Theory;
pub use trial::Trial;
