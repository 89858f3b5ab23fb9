//! What a search finds for a book, and how many steps it took.
use crate::failure::Failure;
use crate::options::Solving;
use crate::reading::{Reading, Told};
use crate::text::put_row;
use crate::watch::{Progress, Watch};
use book::log_text;
use rules::Verdict;
use search::{Outcome, Recording, Task, search};
use std::alloc::AllocError;
use std::time::{Duration, Instant};
use theory::Theory;

fn verdict_of(outcome: Outcome) -> Option<Verdict> {
    match outcome {
        Outcome::Spent => None,
        Outcome::Fit => Some(Verdict::Fit),
        Outcome::NoFit => Some(Verdict::NoFit),
    }
}

/// What was found, with the numbers of a fit, and how many steps were taken.
fn put_found(
    out: &mut String,
    outcome: Outcome,
    place: &[i64],
    steps: u32,
) -> Result<(), AllocError> {
    match outcome {
        Outcome::Spent => writeln!(out, "spent")?,
        Outcome::Fit => {
            write!(out, "fit")?;
            put_row(out, place)?;
        }
        Outcome::NoFit => writeln!(out, "no fit")?,
    }
    writeln!(out, "steps {steps}")
}

/// How many steps of each kind there were, and how long they took.
fn put_stats(out: &mut String, watch: &Watch<'_>, took: Duration) -> Result<(), AllocError> {
    let (counts, seconds, micros) = (&watch.counts, took.as_secs(), took.subsec_micros());
    write!(out, "{counts}")?;
    writeln!(out, "seconds {seconds}.{micros:06}")
}

/// Searches a book over its theory.
pub fn solved<T: Theory + Drop>(
    rt: &HostRuntime,
    theory: T,
    reading: Reading<'_>,
    solving: Solving<'_>,
) -> Result<Told, Failure> {
    let (heap, book) = (rt.alloc(), reading.book);
    if !book.steps.is_empty() {
        return Err(Failure::StepsToSolve {
            line: reading.step_line(0),
        });
    }
    let claims = theory.claims();
    let mut place = vec![in heap; 0i64; theory.terms()]?;
    let mut watch = Watch::new(
        solving.log.map(|_| Recording::new(heap)),
        Progress::wanted(rt, reading.file, solving.progress)?,
    );
    let task = Task {
        row: &book.row,
        allowance: book.allowance,
    };
    let start = Instant::now(rt)?;
    let found = match search(heap, theory, task, &mut place, &mut watch) {
        Ok(found) => found,
        Err(returned) => return Err(reading.unopened(claims, returned.why)),
    };
    let took = start.elapsed(rt)?;
    let mut text = String::new(heap);
    put_found(&mut text, found.outcome, &place, found.steps)?;
    if solving.stats {
        put_stats(&mut text, &watch, took)?;
    }
    let log = match &watch.kept {
        Some(kept) => Some(log_text(heap, book, &kept.steps)?),
        None => None,
    };
    Ok(Told {
        text,
        verdict: verdict_of(found.outcome),
        log,
    })
}
