//! What the steps of a history return, one line for each, and its verdict.
use crate::failure::Failure;
use crate::options::Replaying;
use crate::reading::{Reading, Told};
use crate::refused::Refused;
use crate::states::put_state;
use crate::text::put_fit;
use book::Proposed;
use history::{History, Played, replay};
use rules::{Refusal, Step, Verdict};
use std::alloc::{AllocError, Global};
use theory::Theory;

/// How many numbers the largest place that is lent to a fit has.
fn room(steps: &[Step]) -> usize {
    let mut most = 0;
    for step in steps {
        if let Step::Fit(len) = step {
            most = most.max(*len);
        }
    }
    most
}

/// The steps of a book over a theory of so many terms, and a place for the fits among them.
fn prepared(
    heap: Global,
    terms: usize,
    proposed: &[Proposed],
) -> Result<(Vec<Step>, Vec<i64>), AllocError> {
    let steps: Vec<Step> = proposed.iter().map(|step| step.step(terms)).collect(heap)?;
    let place = vec![in heap; 0i64; room(&steps)]?;
    Ok((steps, place))
}

fn put_answer(
    out: &mut String,
    step: Proposed,
    answer: Result<u32, Refusal>,
) -> Result<(), AllocError> {
    match answer {
        Ok(count) => writeln!(out, "{step}: {count}"),
        Err(refusal) => {
            let number = refusal.number();
            writeln!(out, "{step}: refused {number}")
        }
    }
}

/// The verdict, with the numbers of a fit.
fn put_verdict(
    out: &mut String,
    verdict: Option<Verdict>,
    terms: usize,
    place: &[i64],
) -> Result<(), AllocError> {
    match verdict {
        None => writeln!(out, "verdict none"),
        Some(Verdict::NoFit) => writeln!(out, "verdict no fit"),
        Some(Verdict::Fit) => {
            write!(out, "verdict fit\nfit")?;
            put_fit(out, place.get(..terms).unwrap_or(place))
        }
    }
}

/// What is said of a history, below what its steps returned.
fn ended<T: Theory>(
    mut text: String,
    history: &History<T>,
    place: &[i64],
) -> Result<Told, AllocError> {
    let verdict = history.verdict();
    put_verdict(&mut text, verdict, history.terms(), place)?;
    Ok(Told {
        text,
        verdict,
        log: None,
    })
}

/// One line for each step: its words, a colon, and the count or the refusal; and then the verdict.
fn at_once<T: Theory + Drop>(
    heap: Global,
    theory: T,
    reading: Reading<'_>,
) -> Result<Told, Failure> {
    let (claims, book) = (theory.claims(), reading.book);
    let (steps, mut place) = prepared(heap, theory.terms(), &book.steps)?;
    let Played { history, answers } = match replay(
        heap,
        theory,
        &book.row,
        book.allowance,
        &steps,
        &mut place,
    ) {
        Ok(played) => played,
        Err(returned) => return Err(reading.unopened(claims, returned.why)),
    };
    let mut text = String::new(heap);
    for (step, answer) in book.steps.iter().zip(answers.iter()) {
        put_answer(&mut text, *step, *answer)?;
    }
    Ok(ended(text, &history, &place)?)
}

/// The same step by step: with the trail and the conflict, or to the first refusal.
fn one_by_one<T: Theory + Drop>(
    heap: Global,
    theory: T,
    reading: Reading<'_>,
    replaying: Replaying,
) -> Result<Told, Failure> {
    let (claims, book) = (theory.claims(), reading.book);
    let (steps, mut place) = prepared(heap, theory.terms(), &book.steps)?;
    let mut history = match History::open(heap, theory, &book.row, book.allowance) {
        Ok(history) => history,
        Err(returned) => return Err(reading.unopened(claims, returned.why)),
    };
    let mut text = String::new(heap);
    for (i, (proposed, step)) in book.steps.iter().zip(steps.iter()).enumerate() {
        let answer = history.step(*step, &mut place);
        if replaying.strict
            && let Err(refusal) = answer
        {
            return Err(Failure::StepRefused {
                line: reading.step_line(i),
                step: *proposed,
                refused: Refused::of(&history, *step, refusal),
            });
        }
        put_answer(&mut text, *proposed, answer)?;
        if replaying.states {
            put_state(&mut text, &history, *step, answer)?;
        }
    }
    Ok(ended(text, &history, &place)?)
}

/// Proposes the steps of a book to a history of it.
pub fn replayed<T: Theory + Drop>(
    heap: Global,
    theory: T,
    reading: Reading<'_>,
    replaying: Replaying,
) -> Result<Told, Failure> {
    if replaying.states || replaying.strict {
        one_by_one(heap, theory, reading, replaying)
    } else {
        at_once(heap, theory, reading)
    }
}
