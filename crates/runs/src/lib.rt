//! Worked histories, and rows at the limits of opening, run as tests.
#![tactic(auto)]

#[cfg(test)]
mod apart;
#[cfg(test)]
mod equal;
#[cfg(test)]
mod play;
#[cfg(test)]
mod rows;
