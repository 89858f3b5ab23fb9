//! Calls on any theory, and what they tell.
use std::alloc::{AllocError, Global};
use std::test::Fail;
use theory::literal::complement_of;
use theory::trial::query_with;
use theory::{Asserted, Found, Literal, Refusal, Term, Theory, Unmade, list_marks};

/// Why calls went no further: no theory was made, or one was refused.
#[derive(Clone, Copy, PartialEq, Eq, Debug)]
pub enum Stopped {
    Unmade(Unmade),
    Refused(Refusal),
}

impl From<Unmade> for Stopped {
    fn from(e: Unmade) -> Stopped {
        Stopped::Unmade(e)
    }
}

impl From<Refusal> for Stopped {
    fn from(e: Refusal) -> Stopped {
        Stopped::Refused(e)
    }
}

pub fn constant(symbol: u16) -> Term {
    Term {
        symbol,
        arity: 0,
        args: [0, 0],
    }
}

pub fn constants(heap: Global, n: u16) -> Result<Vec<Term>, AllocError> {
    (0..n).map(constant).collect(heap)
}

/// What a test compares where no theory is to be made.
pub fn refused(refusal: Refusal) -> Option<Unmade> {
    Some(Unmade::Refused(refusal))
}

pub fn assert_all<T: Theory>(theory: &mut T, literals: &[Literal]) -> Result<(), Refusal> {
    for l in literals {
        theory.assert(*l)?;
    }
    Ok(())
}

/// The theory once the literals are asserted.
fn asserted<T: Theory + Drop>(made: Result<T, Unmade>, literals: &[Literal]) -> Result<T, Stopped> {
    let mut theory = made?;
    assert_all(&mut theory, literals)?;
    Ok(theory)
}

/// Asserts the literals and writes a fit.
pub fn write_after<T: Theory + Drop>(
    made: Result<T, Unmade>,
    literals: &[Literal],
    place: &mut [i64],
) -> Result<(), Stopped> {
    asserted(made, literals)?.write(place)?;
    Ok(())
}

/// Asserts the literals and queries.
pub fn query_after<T: Theory + Drop>(
    made: Result<T, Unmade>,
    literals: &[Literal],
    place: &mut [u16],
) -> Result<Found, Stopped> {
    let found = asserted(made, literals)?.query(place)?;
    Ok(found)
}

/// Fails a test whose two values differ.
// Not `assert_eq!`: a helper that may end the process would need a bound that says so.
pub fn agree<T: PartialEq + Drop>(found: T, wanted: T) -> Result<(), Fail> {
    if found == wanted {
        Ok(())
    } else {
        Err(Fail::new("another answer was wanted"))
    }
}

/// Calls at their edges, on three constants and two claims, with places one number too short.
pub fn at_edges<T: Theory + Drop>(
    made: Result<T, Unmade>,
    short_core: &mut [u16],
    short_place: &mut [i64],
    place: &mut [i64],
) -> Result<(), Fail> {
    let mut theory = made.map_err(|_| Fail::new("no theory"))?;
    agree(theory.assert(4), Err(Refusal::NoSuchLiteral))?;
    agree(theory.assert(3), Ok(()))?;
    agree(theory.assert(2), Err(Refusal::ClaimOnList))?;
    agree(theory.take_back(2), Err(Refusal::AboveLength))?;
    agree(theory.take_back(1), Ok(()))?;
    agree(theory.query(short_core), Err(Refusal::ShortCorePlace))?;
    agree(theory.write(short_place), Err(Refusal::ShortFitPlace))?;
    agree(theory.write(place), Ok(()))
}

/// A trial, and one inside it, over three constants and the claims 0 = 1, 1 = 2, 0 = 2.
pub fn trials<T: Theory + Drop>(made: Result<T, Unmade>, core: &mut [u16]) -> Result<(), Fail> {
    let mut theory = made.map_err(|_| Fail::new("no theory"))?;
    agree(theory.assert(0), Ok(()))?;
    agree(query_with(&mut theory, 5, core), Ok(Found::Possible))?;
    agree(theory.assert(2), Ok(()))?;
    agree(query_with(&mut theory, 5, core), Ok(Found::Impossible(3)))?;
    agree(query_with(&mut theory, 3, core), Err(Refusal::ClaimOnList))?;
    agree(theory.asserted_len(), 2)
}

#[test]
fn complements(rt: HostRuntime) {
    assert_eq!(rt; complement_of(6), 7);
    assert_eq!(rt; complement_of(7), 6);
}

/// The numbers by which callers know the refusals.
#[test]
fn refusal_numbers(rt: HostRuntime) {
    for (refusal, number) in [
        (Refusal::PastLimit, 1),
        (Refusal::ArgumentNotLower, 2),
        (Refusal::TermHasArgument, 2),
        (Refusal::NoSuchTerm, 3),
        (Refusal::ConstantOutOfRange, 3),
        (Refusal::NoSuchLiteral, 5),
        (Refusal::ClaimOnList, 6),
        (Refusal::AboveLength, 7),
        (Refusal::ShortCorePlace, 8),
        (Refusal::ShortFitPlace, 9),
        (Refusal::ListImpossible, 10),
    ] {
        assert_eq!(rt; refusal.number(), number);
    }
}

/// A list of literals takes each claim once.
#[test]
fn a_list_of_literals(rt: HostRuntime) -> Result<(), Fail> {
    let mut list = Asserted::new(rt.alloc(), 2)?;
    assert_eq!(rt; list.push(4), Err(Refusal::NoSuchLiteral));
    assert_eq!(rt; list.push(3), Ok(()));
    assert_eq!(rt; list.push(2), Err(Refusal::ClaimOnList));
    assert_eq!(rt; list.push(0), Ok(()));
    assert_eq!(rt; list.literals(), [3, 0].as_slice());
    assert_eq!(rt; list.take_back(3), Err(Refusal::AboveLength));
    assert_eq!(rt; list.take_back(1), Ok(()));
    assert_eq!(rt; list.literals(), [3].as_slice());
    Ok(())
}

/// Marked positions are put down, rising; the rest of the place stays.
#[test]
fn marked_positions(rt: HostRuntime) {
    let mut place = [9u16; 4];
    assert_eq!(rt; list_marks(&[true, false, true], &mut place), Ok(2));
    assert_eq!(rt; place, [0, 2, 9, 9]);
    assert_eq!(rt;
        list_marks(&[true; 5], &mut place),
        Err(Refusal::ShortCorePlace)
    );
    assert_eq!(rt;
        list_marks(&[false; 129], &mut place),
        Err(Refusal::PastLimit)
    );
    assert_eq!(rt; place, [0, 2, 9, 9]);
}
