//! Tests of the theory of distances through the interface.
use crate::calls::*;
use difference::Bound;
use distance::make;
use std::alloc::{AllocError, Global};
use std::iter;
use std::test::Fail;
use theory::{Found, Literal, Refusal, Term};

/// The claim that `term` minus `base` is at most `most`.
pub fn apart(term: u16, base: u16, most: i32) -> Bound {
    Bound { term, base, most }
}

/// A chain of claims: each term minus the next is at most `step`, and the last minus the term `end` at most `back`.
fn chain(
    heap: Global,
    length: u16,
    step: i32,
    end: u16,
    back: i32,
) -> Result<Vec<Bound>, AllocError> {
    let last = length.saturating_sub(1);
    (0..last)
        .map(|term| apart(term, term.saturating_add(1), step))
        .chain(iter::once(apart(last, end, back)))
        .collect(heap)
}

/// A chain back to its first term.
fn ring(heap: Global, length: u16, step: i32, back: i32) -> Result<Vec<Bound>, AllocError> {
    chain(heap, length, step, 0, back)
}

/// The literals from `first` on, by twos, of 128 claims in their order or from the last back.
fn literals(heap: Global, first: Literal, reversed: bool) -> Result<Vec<Literal>, AllocError> {
    let mut all: Vec<Literal> = (0..128u16)
        .map(|claim| first.wrapping_add(claim.wrapping_mul(2)))
        .collect(heap)?;
    if reversed {
        all.reverse();
    }
    Ok(all)
}

#[test]
fn one_below_and_not_above(rt: HostRuntime) -> Result<(), Fail> {
    let terms = constants(rt.alloc(), 2)?;
    let claims = [apart(0, 1, -1), apart(1, 0, 0)];
    let mut core = [9u16; 3];
    assert_eq!(rt;
        query_after(make(rt.alloc(), &terms, &claims), &[0, 2], &mut core),
        Ok(Found::Impossible(2))
    );
    assert_eq!(rt; core, [0, 1, 9]);
    let mut place = [5i64; 2];
    assert_eq!(rt;
        write_after(make(rt.alloc(), &terms, &claims), &[0, 2], &mut place),
        Err(Stopped::Refused(Refusal::ListImpossible))
    );
    assert_eq!(rt; place, [5, 5]);
    Ok(())
}

#[test]
fn one_below_and_one_above(rt: HostRuntime) -> Result<(), Fail> {
    let terms = constants(rt.alloc(), 2)?;
    let claims = [apart(0, 1, -1), apart(1, 0, 1)];
    let mut place = [5i64; 3];
    assert_eq!(rt;
        write_after(make(rt.alloc(), &terms, &claims), &[0, 2], &mut place),
        Ok(())
    );
    assert_eq!(rt; place, [-1, 0, 5]);
    Ok(())
}

#[test]
fn a_denial_is_one_more(rt: HostRuntime) -> Result<(), Fail> {
    let terms = constants(rt.alloc(), 2)?;
    let claims = [apart(0, 1, 3), apart(0, 1, 4), apart(1, 0, -4)];
    let mut place = [5i64; 2];
    assert_eq!(rt;
        write_after(make(rt.alloc(), &terms, &claims), &[1], &mut place),
        Ok(())
    );
    assert_eq!(rt; place, [0, -4]);
    let queries: [(&[Literal], Found, [u16; 3]); 2] = [
        (&[1, 2, 4], Found::Possible, [9, 9, 9]),
        (&[0, 3], Found::Impossible(2), [0, 1, 9]),
    ];
    for (asserted, found, wanted) in queries {
        let mut core = [9u16; 3];
        assert_eq!(rt;
            query_after(make(rt.alloc(), &terms, &claims), asserted, &mut core),
            Ok(found)
        );
        assert_eq!(rt; core, wanted);
    }
    Ok(())
}

/// 256 terms and not 257, 128 claims and not 129.
#[test]
fn limits(rt: HostRuntime) -> Result<(), Fail> {
    let heap = rt.alloc();
    for (terms, claims, wanted) in [
        (256, 1, None),
        (257, 1, refused(Refusal::PastLimit)),
        (1, 1, None),
        (128, 128, None),
        (129, 129, refused(Refusal::PastLimit)),
    ] {
        let terms = constants(heap, terms)?;
        let claims = ring(heap, claims, 0, 0)?;
        assert_eq!(rt; make(heap, &terms, &claims).err(), wanted);
    }
    Ok(())
}

#[test]
fn claims_on_two_terms(rt: HostRuntime) -> Result<(), Fail> {
    let heap = rt.alloc();
    let terms = constants(heap, 2)?;
    for (claim, wanted) in [
        (apart(0, 1, 1_000_000), None),
        (apart(0, 1, 1_000_001), refused(Refusal::ConstantOutOfRange)),
        (apart(0, 1, -1_000_000), None),
        (
            apart(0, 1, -1_000_001),
            refused(Refusal::ConstantOutOfRange),
        ),
        (apart(0, 1, i32::MIN), refused(Refusal::ConstantOutOfRange)),
        (apart(0, 1, i32::MAX), refused(Refusal::ConstantOutOfRange)),
        (apart(1, 2, 0), refused(Refusal::NoSuchTerm)),
        (apart(2, 1, 0), refused(Refusal::NoSuchTerm)),
    ] {
        assert_eq!(rt; make(heap, &terms, &[claim]).err(), wanted);
    }
    Ok(())
}

/// The limits and causes of tables without claims.
#[test]
fn without_claims(rt: HostRuntime) -> Result<(), Fail> {
    let heap = rt.alloc();
    for (terms, wanted) in [(256, None), (257, refused(Refusal::PastLimit))] {
        assert_eq!(rt; make(heap, &constants(heap, terms)?, &[]).err(), wanted);
    }
    for (arity, cause) in [(1, Refusal::TermHasArgument), (3, Refusal::PastLimit)] {
        assert_eq!(rt;
            make(heap, &[constant(0), applied(arity)], &[]).err(),
            refused(cause)
        );
    }
    Ok(())
}

/// A term with so many arguments, all of them the term 0.
fn applied(arity: u8) -> Term {
    Term {
        symbol: 7,
        arity,
        args: [0, 0],
    }
}

#[test]
fn lower_numbers_first(rt: HostRuntime) {
    let bad = apart(0, 9, 0);
    for (terms, claim, cause) in [
        (
            [constant(0), applied(1)],
            apart(0, 1, 0),
            Refusal::TermHasArgument,
        ),
        ([constant(0), applied(2)], bad, Refusal::TermHasArgument),
        (
            [constant(0), applied(3)],
            apart(0, 1, 0),
            Refusal::PastLimit,
        ),
        ([applied(1), applied(3)], bad, Refusal::PastLimit),
    ] {
        assert_eq!(rt; make(rt.alloc(), &terms, &[claim]).err(), refused(cause));
    }
}

#[test]
fn edges(rt: HostRuntime) -> Result<(), Fail> {
    let terms = constants(rt.alloc(), 3)?;
    let claims = [apart(0, 1, 0), apart(1, 2, 5)];
    let mut core = [7u16; 1];
    let mut short = [5i64; 2];
    let mut place = [5i64; 4];
    at_edges(
        make(rt.alloc(), &terms, &claims),
        &mut core,
        &mut short,
        &mut place,
    )?;
    assert_eq!(rt; core, [7]);
    assert_eq!(rt; short, [5, 5]);
    assert_eq!(rt; place, [0, 0, -6, 5]);
    Ok(())
}

#[test]
fn trial_of_a_denial(rt: HostRuntime) -> Result<(), Fail> {
    let terms = constants(rt.alloc(), 3)?;
    let claims = [apart(0, 1, 0), apart(1, 2, 0), apart(0, 2, 0)];
    let mut core = [9u16; 3];
    trials(make(rt.alloc(), &terms, &claims), &mut core)?;
    assert_eq!(rt; core, [0, 1, 2]);
    Ok(())
}

#[test]
fn a_chain_over_256_terms(rt: HostRuntime) -> Result<(), Fail> {
    let heap = rt.alloc();
    let terms = constants(heap, 256)?;
    let claims = chain(heap, 128, -1_000_000, 255, -1_000_000)?;
    for reversed in [false, true] {
        let mut place = [5i64; 256];
        assert_eq!(rt;
            write_after(
                make(heap, &terms, &claims),
                &literals(heap, 0, reversed)?,
                &mut place,
            ),
            Ok(())
        );
        assert_eq!(rt;
            [place[0], place[127], place[128], place[255]],
            [-128_000_000, -1_000_000, 0, 0]
        );
    }
    Ok(())
}

/// All 128 claims denied, each a step of 1,000,001.
#[test]
fn the_largest_constants(rt: HostRuntime) -> Result<(), Fail> {
    let heap = rt.alloc();
    let terms = constants(heap, 256)?;
    let claims = chain(heap, 128, 1_000_000, 255, 1_000_000)?;
    let mut place = [5i64; 256];
    assert_eq!(rt;
        write_after(
            make(heap, &terms, &claims),
            &literals(heap, 1, false)?,
            &mut place,
        ),
        Ok(())
    );
    assert_eq!(rt;
        [place[0], place[127], place[255]],
        [0, -127_000_127, -128_000_128]
    );
    Ok(())
}

/// A ring of 128 steps of -7 that comes back to 0, and one that is negative by 1.
#[test]
fn a_ring_of_128(rt: HostRuntime) -> Result<(), Fail> {
    let heap = rt.alloc();
    let terms = constants(heap, 128)?;
    let even = (889, Found::Possible, [999, 999, 999]);
    let below = (888, Found::Impossible(128), [0, 127, 999]);
    for (back, found, wanted) in [even, below] {
        let claims = ring(heap, 128, -7, back)?;
        for reversed in [false, true] {
            let mut core = [999u16; 129];
            assert_eq!(rt;
                query_after(
                    make(heap, &terms, &claims),
                    &literals(heap, 0, reversed)?,
                    &mut core
                ),
                Ok(found)
            );
            assert_eq!(rt; [core[0], core[127], core[128]], wanted);
        }
    }
    Ok(())
}
