//! A book solved from end to end.
ghost use Rattle.std.specs.Prelude.{◌≡◌, ◌≤◌, length, vec_len, OnOk, OnErr, IfOk, None};
ghost use Rattle.theory.specs.Calls.{over};
ghost use Rattle.rules.specs.declared.refusal.Unopened.TheVariants.{NoMemory};
ghost use Rattle.rules.specs.Moves.{Going, Moves};
ghost use Rattle.history.specs.Seen.{means, shape, state};
ghost use Rattle.history.specs.Fits.{within};
ghost use Rattle.search.specs.Outcomes.{outcome_of};
ghost use Rattle.search.specs.Runs.{Ran, Over, Settled, filled, filled_by};
ghost use Rattle.search.specs.Solved.{Short, Solved};

use crate::outcome::Outcome;
use crate::recorder::Recorder;
use crate::strategy::Strategy;
use crate::task::{Searched, Task};
use clauses::Book;
use history::{History, Returned};
use rules::{Refusal, Step, Unopened, Verdict};
use std::alloc::{AllocError, Global};
use theory::Theory;

/// Searches a book over a theory for a fit, until there is a verdict or the allowance of steps is used up.
///
/// Refused, in this order: what opening a history is refused for (1, 4), and a place that is shorter than the number of
/// terms (22). A refused search hands the theory back as it was. Whatever the strategy proposes, a verdict is right.
pub fn search<T: Theory, R: Recorder>(
    heap: Global,
    theory: T,
    task: Task<'_>,
    place: &mut [i64],
    recorder: &mut R,
) -> Result<Searched<T>, Returned<T>>
    ensures { Solved T.Theory theory task.entry.row.now task.entry.allowance place.old place.new
        (R.seen recorder.old) (R.seen recorder.new) result }
{
    let Task { row, allowance } = task;
    if place.len() < theory.terms() {
        let why = short_place(heap, row, theory.claims());
        return Err(Returned { theory, why });
    }
    let mut history = match History::open(heap, theory, row, allowance) {
        Ok(history) => history,
        Err(returned) => return Err(returned),
    };
    let Ok((mut strategy, mut fit)) = prepare(heap, &history) else {
        return Err(without_memory(history));
    };
    let Ok(outcome) = settle(&mut history, &mut strategy, &mut fit, place, recorder) else {
        return Err(without_memory(history));
    };
    history.stands();
    let steps = history.count();
    Ok(Searched {
        theory: history.into_theory(),
        outcome,
        steps,
    })
}

/// Why a search is refused whose place is too short: what opening is refused for comes first.
fn short_place(heap: Global, row: &[u16], claims: usize) -> Unopened
    ensures { Short claims row.now result }
{
    match Book::read(heap, row, claims) {
        Ok(_) => Refusal::ShortFitPlace.into(),
        Err(why) => why,
    }
}

/// Searches to the end, and puts a fit that was found into the caller's place.
fn settle<T: Theory, R: Recorder>(
    history: &mut History<T>,
    strategy: &mut Strategy,
    fit: &mut [i64],
    place: &mut [i64],
    recorder: &mut R,
) -> Result<Outcome, AllocError>
    requires fresh { (state history.old).verdict ≡ None }
    requires room { (means history.old).terms ≡ length fit.old }
    requires long { length fit.old ≤ length place.old }
    ensures shape { shape history.new ≡ shape history.old }
    ensures ok { IfOk result (Settled (means history.old) (state history.old) (state history.new)
        place.old place.new (R.seen recorder.old) (R.seen recorder.new)) }
    ensures err { OnErr result (place.new ≡ place.old) }
{
    run(history, strategy, fit, recorder)?;
    Ok(conclude(history, fit, place))
}

/// What was found. A fit is put into the front of the caller's place.
fn conclude<T: Theory>(history: &History<T>, fit: &[i64], place: &mut [i64]) -> Outcome
    requires room { length fit.now ≤ length place.old }
    ensures outcome { result ≡ outcome_of (state history.now).verdict }
    ensures place { place.new ≡ filled_by (state history.now).verdict fit.now place.old }
{
    match history.verdict() {
        None => Outcome::Spent,
        Some(Verdict::NoFit) => Outcome::NoFit,
        Some(Verdict::Fit) => {
            put(fit, place);
            Outcome::Fit
        }
    }
}

fn put(fit: &[i64], place: &mut [i64])
    requires room { length fit.now ≤ length place.old }
    ensures { place.new ≡ over fit.now place.old }
{
    let n = fit.len();
    place[..n].copy_from_slice(fit);
}

/// A strategy for a new history, and room for a fit.
fn prepare<T: Theory>(
    heap: Global,
    history: &History<T>,
) -> Result<(Strategy, Vec<i64>), AllocError>
    ensures { IfOk result (λ r. vec_len r.1 ≡ (means history.now).terms) }
{
    let mut strategy = Strategy::new(heap)?;
    let fit = vec![in heap; 0i64; history.terms()]?;
    strategy.begin(history);
    Ok((strategy, fit))
}

fn without_memory<T: Theory>(history: History<T>) -> Returned<T>
    ensures why { result.why ≡ NoMemory }
    ensures shape { T.shape_of result.theory ≡ shape history }
{
    Returned {
        theory: history.into_theory(),
        why: Unopened::NoMemory,
    }
}

/// Takes steps until a verdict stands or the allowance is used up.
fn run<T: Theory, R: Recorder>(
    history: &mut History<T>,
    strategy: &mut Strategy,
    fit: &mut [i64],
    recorder: &mut R,
) -> Result<(), AllocError>
    requires fresh { (state history.old).verdict ≡ None }
    requires room { (means history.old).terms ≡ length fit.old }
    ensures shape { shape history.new ≡ shape history.old }
    ensures ran { OnOk result (Ran (means history.old) (state history.old) (state history.new)
        fit.old fit.new (R.seen recorder.old) (R.seen recorder.new)) }
    ensures ended { OnOk result (Over (state history.new)) }
{
    while history.verdict().is_none() && history.count() < history.allowance() {
        let step = turn(history, strategy, fit);
        recorder.record(step)?;
        strategy.accepted(history, step);
    }
    Ok(())
}

/// One accepted step: what the strategy proposes, or, where that is refused, the step that is always to be had.
fn turn<T: Theory>(history: &mut History<T>, strategy: &mut Strategy, fit: &mut [i64]) -> Step
    requires going { Going (state history.old) }
    requires room { (means history.old).terms ≡ length fit.old }
    ensures shape { shape history.new ≡ shape history.old }
    ensures moved { Moves (means history.old) (state history.old) result (state history.new) }
    ensures place { fit.new ≡ filled (means history.old) (state history.new) fit.old }
{
    let step = fitted(strategy.propose(history, fit.len()), fit.len());
    history.stands();
    if history.step(step, fit).is_ok() {
        return step;
    }
    let step = history.next_step();
    history.stands();
    let _ = history.step(step, fit);
    step
}

/// The step, with the length of the place that a fit is written into.
fn fitted(step: Step, len: usize) -> Step
    ensures { within len result ≡ result }
{
    match step {
        Step::Fit(_) => Step::Fit(len),
        other => other,
    }
}
