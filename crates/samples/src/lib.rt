//! Worked books and edges of the calls, run as tests.
#![tactic(auto)]

#[cfg(test)]
mod calls;
#[cfg(test)]
mod distant;
#[cfg(test)]
mod equal;
#[cfg(test)]
mod texts;
