//! A whole run: a history is opened, and some steps are proposed to it.
ghost use Rattle.history.specs.Law.{KeepsLaw};
ghost use Rattle.history.specs.Replays.{Plays};

use crate::history::{History, Returned};
use rules::{Refusal, Step, Unopened};
use std::alloc::Global;
use table::Table;
use theory::Theory;

/// A history, and what each step that was proposed to it returned.
#[derive(Drop)]
pub struct Played<T: Theory> {
    pub history: History<T>,
    pub answers: Vec<Result<u32, Refusal>>,
}

/// Opens a history, proposes some steps to it, and hands it back with what each step returned.
///
/// Whatever the theory, the book, the allowance and the steps: a verdict is right, some step is always to be had before
/// one, and the steps come to an end.
pub fn replay<T: Theory>(
    heap: Global,
    theory: T,
    row: &[u16],
    allowance: u32,
    steps: &[Step],
    place: &mut [i64],
) -> Result<Played<T>, Returned<T>>
    ensures law { KeepsLaw T.Theory theory row.now allowance steps.now place.old place.new result }
    ensures plays { Plays T.Theory theory row.now allowance steps.now place.old place.new result }
{
    let table = match Table::open(heap, row, theory.claims(), allowance) {
        Ok(table) => table,
        Err(why) => return Err(Returned { theory, why }),
    };
    let Ok(mut answers) = Vec::with_capacity(heap, steps.len()) else {
        return Err(Returned {
            theory,
            why: Unopened::NoMemory,
        });
    };
    let mut history = History::begin(theory, table);
    for step in steps {
        answers.push_reserved(history.step(*step, place));
    }
    Ok(Played { history, answers })
}
