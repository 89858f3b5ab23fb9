//! Tests of the theory of equality through the interface.
use crate::calls::*;
use congruence::Claim;
use equality::make;
use std::alloc::{AllocError, Global};
use std::iter;
use std::test::Fail;
use theory::{Found, Refusal, Term};

fn applied(symbol: u16, arity: u8, first: u16, second: u16) -> Term {
    Term {
        symbol,
        arity,
        args: [first, second],
    }
}

fn same(left: u16, right: u16) -> Claim {
    Claim { left, right }
}

/// A constant, and a symbol applied to it again and again.
fn tower(heap: Global, height: u16) -> Result<Vec<Term>, AllocError> {
    iter::once(constant(0))
        .chain((0..height).map(|below| applied(1, 1, below, 0)))
        .collect(heap)
}

#[test]
fn five_symbols(rt: HostRuntime) -> Result<(), Fail> {
    let terms = constants(rt.alloc(), 5)?;
    let claims = [same(0, 1), same(1, 2), same(3, 4), same(4, 0)];
    let mut place = [9i64; 7];
    assert_eq!(rt;
        write_after(make(rt.alloc(), &terms, &claims), &[0, 2, 4, 7], &mut place),
        Ok(())
    );
    assert_eq!(rt; place, [0, 0, 0, 3, 3, 9, 9]);
    Ok(())
}

#[test]
fn a_term_equals_itself(rt: HostRuntime) {
    let terms = [constant(7)];
    let claims = [same(0, 0)];
    let mut core = [5u16; 2];
    assert_eq!(rt;
        query_after(make(rt.alloc(), &terms, &claims), &[1], &mut core),
        Ok(Found::Impossible(1))
    );
    assert_eq!(rt; core, [0, 5]);
}

#[test]
fn equal_parts(rt: HostRuntime) {
    let terms = [
        constant(0),
        constant(1),
        constant(2),
        applied(3, 2, 0, 2),
        applied(3, 2, 1, 2),
    ];
    let claims = [same(0, 1), same(3, 4)];
    let mut core = [7u16; 4];
    assert_eq!(rt;
        query_after(make(rt.alloc(), &terms, &claims), &[0, 3], &mut core),
        Ok(Found::Impossible(2))
    );
    assert_eq!(rt; core, [0, 1, 7, 7]);
}

/// 256 terms and not 257, 128 claims and not 129.
#[test]
fn limits(rt: HostRuntime) -> Result<(), Fail> {
    let heap = rt.alloc();
    for (terms, claims, wanted) in [
        (256, 0, None),
        (257, 0, refused(Refusal::PastLimit)),
        (1, 128, None),
        (1, 129, refused(Refusal::PastLimit)),
    ] {
        let terms = constants(heap, terms)?;
        let claims = vec![in heap; same(0, 0); claims]?;
        assert_eq!(rt; make(heap, &terms, &claims).err(), wanted);
    }
    Ok(())
}

/// Each cause is looked for over the whole input before the next.
#[test]
fn causes(rt: HostRuntime) {
    for (terms, claim, cause) in [
        (
            [constant(0), applied(1, 3, 0, 0)],
            same(0, 0),
            Refusal::PastLimit,
        ),
        (
            [applied(1, 1, 0, 0), applied(1, 3, 0, 0)],
            same(0, 9),
            Refusal::PastLimit,
        ),
        (
            [constant(0), applied(1, 1, 1, 0)],
            same(0, 0),
            Refusal::ArgumentNotLower,
        ),
        (
            [constant(0), applied(1, 2, 0, 1)],
            same(9, 0),
            Refusal::ArgumentNotLower,
        ),
        ([constant(0), constant(1)], same(0, 2), Refusal::NoSuchTerm),
    ] {
        assert_eq!(rt; make(rt.alloc(), &terms, &[claim]).err(), refused(cause));
    }
}

/// Tables without claims, and tables of one term.
#[test]
fn causes_in_small_tables(rt: HostRuntime) {
    let heap = rt.alloc();
    assert_eq!(rt;
        make(heap, &[constant(0), applied(1, 3, 0, 0)], &[]).err(),
        refused(Refusal::PastLimit)
    );
    assert_eq!(rt;
        make(heap, &[constant(0), applied(1, 1, 1, 0)], &[]).err(),
        refused(Refusal::ArgumentNotLower)
    );
    assert_eq!(rt;
        make(heap, &[constant(0)], &[same(0, 1)]).err(),
        refused(Refusal::NoSuchTerm)
    );
    assert_eq!(rt;
        make(heap, &[applied(1, 2, 0, 0)], &[same(9, 0)]).err(),
        refused(Refusal::ArgumentNotLower)
    );
}

#[test]
fn edges(rt: HostRuntime) -> Result<(), Fail> {
    let terms = constants(rt.alloc(), 3)?;
    let claims = [same(0, 1), same(1, 2)];
    let mut core = [7u16; 1];
    let mut short = [5i64; 2];
    let mut place = [5i64; 4];
    at_edges(
        make(rt.alloc(), &terms, &claims),
        &mut core,
        &mut short,
        &mut place,
    )?;
    assert_eq!(rt; core, [7]);
    assert_eq!(rt; short, [5, 5]);
    assert_eq!(rt; place, [0, 1, 2, 5]);
    Ok(())
}

#[test]
fn trial_of_a_denial(rt: HostRuntime) -> Result<(), Fail> {
    let terms = constants(rt.alloc(), 3)?;
    let claims = [same(0, 1), same(1, 2), same(0, 2)];
    let mut core = [9u16; 3];
    trials(make(rt.alloc(), &terms, &claims), &mut core)?;
    assert_eq!(rt; core, [0, 1, 2]);
    Ok(())
}

#[test]
fn a_tower_of_two_hundred(rt: HostRuntime) -> Result<(), Fail> {
    let terms = tower(rt.alloc(), 200)?;
    let claims = [same(0, 1), same(0, 200)];
    let mut core = [9u16; 2];
    let mut place = [9i64; 201];
    assert_eq!(rt;
        write_after(make(rt.alloc(), &terms, &claims), &[0], &mut place),
        Ok(())
    );
    assert_eq!(rt; place, [0; 201]);
    assert_eq!(rt;
        query_after(make(rt.alloc(), &terms, &claims), &[0, 3], &mut core),
        Ok(Found::Impossible(2))
    );
    assert_eq!(rt; core, [0, 1]);
    Ok(())
}

#[test]
fn an_impossible_list_is_not_written(rt: HostRuntime) {
    let mut place = [5i64; 1];
    assert_eq!(rt;
        write_after(
            make(rt.alloc(), &[constant(0)], &[same(0, 0)]),
            &[1],
            &mut place,
        ),
        Err(Stopped::Refused(Refusal::ListImpossible))
    );
    assert_eq!(rt; place, [5]);
}
