//! A history played over any theory.
use history::{Played, replay};
use rules::{Refusal, Step, Verdict};
use std::alloc::{AllocError, Global};
use std::test::Fail;
use theory::{Term, Theory, Unmade};

/// A step, and what it has to return, a refusal by its number.
pub type Told = (Step, Result<u32, u8>);

pub fn constant(symbol: u16) -> Term {
    Term {
        symbol,
        arity: 0,
        args: [0, 0],
    }
}

pub fn constants(heap: Global, n: u16) -> Result<Vec<Term>, AllocError> {
    (0..n).map(constant).collect(heap)
}

/// Fails a test whose two values differ.
// Not `assert_eq!`: a helper that may end the process would need a bound that says so.
fn agree<T: PartialEq + Drop>(found: T, wanted: T) -> Result<(), Fail> {
    if found == wanted {
        Ok(())
    } else {
        Err(Fail::new("another answer was wanted"))
    }
}

/// Plays steps over a theory and a book in its row, and gives the verdict; each step has to return what stands beside it.
pub fn play<T: Theory + Drop>(
    heap: Global,
    made: Result<T, Unmade>,
    row: &[u16],
    allowance: u32,
    told: &[Told],
    place: &mut [i64],
) -> Result<Option<Verdict>, Fail> {
    let theory = made.map_err(|_| Fail::new("no theory"))?;
    let steps: Vec<Step> = told.iter().map(|(step, _)| *step).collect(heap)?;
    let Ok(Played { history, answers }) = replay(heap, theory, row, allowance, &steps, place) else {
        return Err(Fail::new("not opened"));
    };
    agree(answers.len(), told.len())?;
    for (answer, (_, wanted)) in answers.iter().zip(told) {
        agree(answer.map_err(Refusal::number), *wanted)?;
    }
    Ok(history.verdict())
}
