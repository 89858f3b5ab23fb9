//! Histories over equality.
use crate::play::{Told, constant, constants, play};
use congruence::Claim;
use equality::make;
use rules::{Step, Verdict};
use std::test::Fail;
use theory::Term;

pub fn same(left: u16, right: u16) -> Claim {
    Claim { left, right }
}

fn applied(symbol: u16, first: u16, second: u16) -> Term {
    Term {
        symbol,
        arity: 2,
        args: [first, second],
    }
}

#[test]
fn implied_by_two(rt: HostRuntime) -> Result<(), Fail> {
    let heap = rt.alloc();
    let terms = constants(heap, 3)?;
    let claims = [same(0, 1), same(1, 2), same(0, 2)];
    let told = [
        (Step::Decide(0), Ok(1)),
        (Step::Imply(4), Err(21)),
        (Step::Decide(2), Ok(2)),
        (Step::Imply(4), Ok(3)),
        (Step::Imply(5), Err(15)),
    ];
    assert_eq!(rt;
        play(heap, make(heap, &terms, &claims), &[], 1000, &told, &mut [])?,
        None
    );
    Ok(())
}

#[test]
fn nothing_to_keep(rt: HostRuntime) -> Result<(), Fail> {
    let heap = rt.alloc();
    let told = [(Step::Fit(0), Ok(1)), (Step::Fit(0), Err(11))];
    assert_eq!(rt;
        play(heap, make(heap, &[], &[]), &[], 1000, &told, &mut [])?,
        Some(Verdict::Fit)
    );
    Ok(())
}

#[test]
fn one_clause_is_learned(rt: HostRuntime) -> Result<(), Fail> {
    let heap = rt.alloc();
    let terms = constants(heap, 3)?;
    let claims = [same(0, 1), same(0, 2)];
    let told = [
        (Step::Decide(0), Ok(1)),
        (Step::Propagate(0, 2), Ok(2)),
        (Step::Conflict(1), Ok(3)),
        (Step::Jump(0, 512), Err(18)),
        (Step::Resolve, Ok(4)),
        (Step::Resolve, Err(18)),
        (Step::Jump(0, 640), Err(19)),
        (Step::Jump(1, 512), Err(18)),
        (Step::Jump(0, 512), Ok(5)),
        (Step::Forget(512), Err(19)),
        (Step::Fit(3), Err(20)),
        (Step::Decide(3), Ok(6)),
        (Step::Fit(2), Err(22)),
        (Step::Fit(3), Ok(7)),
    ];
    let mut place = [9i64; 4];
    assert_eq!(rt;
        play(
            heap,
            make(heap, &terms, &claims),
            &[2, 1, 2, 2, 1, 3],
            1000,
            &told,
            &mut place
        )?,
        Some(Verdict::Fit)
    );
    assert_eq!(rt; place, [0, 1, 2, 9]);
    Ok(())
}

#[test]
fn the_theory_clashes(rt: HostRuntime) -> Result<(), Fail> {
    let heap = rt.alloc();
    let terms = [
        constant(0),
        constant(1),
        constant(2),
        applied(7, 0, 2),
        applied(7, 1, 2),
    ];
    let claims = [same(0, 1), same(3, 4)];
    let told = [
        (Step::Propagate(0, 0), Ok(1)),
        (Step::Clash, Err(21)),
        (Step::Propagate(1, 3), Ok(2)),
        (Step::NoFit, Err(13)),
        (Step::Fit(5), Err(21)),
        (Step::Clash, Ok(3)),
        (Step::NoFit, Err(18)),
        (Step::Resolve, Ok(4)),
        (Step::Resolve, Ok(5)),
        (Step::Resolve, Err(18)),
        (Step::NoFit, Ok(6)),
    ];
    let mut place = [9i64; 5];
    assert_eq!(rt;
        play(
            heap,
            make(heap, &terms, &claims),
            &[1, 0, 1, 3],
            1000,
            &told,
            &mut place
        )?,
        Some(Verdict::NoFit)
    );
    assert_eq!(rt; place, [9; 5]);
    Ok(())
}

#[test]
fn an_implied_literal_is_resolved(rt: HostRuntime) -> Result<(), Fail> {
    let heap = rt.alloc();
    let terms = constants(heap, 3)?;
    let claims = [same(0, 1), same(1, 2), same(0, 2)];
    // The last clause is false once the third claim follows from the first two; what follows by the theory is explained
    // by literals before it alone.
    let row = [1, 0, 2, 2, 5, 1, 5];
    let told = [
        (Step::Propagate(0, 0), Ok(1)),
        (Step::Decide(2), Ok(2)),
        (Step::Imply(4), Ok(3)),
        (Step::Conflict(2), Ok(4)),
        (Step::Resolve, Ok(5)),
        (Step::Jump(0, 512), Ok(6)),
        (Step::Propagate(1, 5), Ok(7)),
        (Step::Fit(3), Ok(8)),
    ];
    let mut place = [9i64; 3];
    assert_eq!(rt;
        play(
            heap,
            make(heap, &terms, &claims),
            &row,
            1000,
            &told,
            &mut place
        )?,
        Some(Verdict::Fit)
    );
    assert_eq!(rt; place, [0, 0, 2]);
    Ok(())
}

#[test]
fn no_step_past_the_allowance(rt: HostRuntime) -> Result<(), Fail> {
    let heap = rt.alloc();
    let terms = constants(heap, 3)?;
    let claims = [same(0, 1), same(1, 2), same(0, 2)];
    let told = [
        (Step::Decide(6), Err(14)),
        (Step::Decide(1), Ok(1)),
        (Step::Decide(0), Err(15)),
        (Step::Decide(2), Ok(2)),
        (Step::Decide(4), Err(12)),
        (Step::Decide(9), Err(12)),
    ];
    assert_eq!(rt;
        play(heap, make(heap, &terms, &claims), &[], 2, &told, &mut [])?,
        None
    );
    let none = [(Step::Clash, Err(12))];
    assert_eq!(rt;
        play(heap, make(heap, &terms, &claims), &[], 0, &none, &mut [])?,
        None
    );
    Ok(())
}

#[test]
fn clauses_that_are_not_live(rt: HostRuntime) -> Result<(), Fail> {
    let heap = rt.alloc();
    let terms = constants(heap, 2)?;
    let claims = [same(0, 1)];
    let told = [
        (Step::Propagate(1, 0), Err(16)),
        (Step::Propagate(0, 1), Err(17)),
        (Step::Propagate(512, 0), Err(16)),
        (Step::Propagate(65535, 0), Err(16)),
        (Step::Conflict(0), Err(17)),
        (Step::Conflict(639), Err(16)),
        (Step::Forget(0), Err(19)),
        (Step::Forget(1), Err(16)),
        (Step::Forget(600), Err(16)),
        (Step::Jump(0, 512), Err(13)),
        (Step::Propagate(0, 0), Ok(1)),
    ];
    assert_eq!(rt;
        play(
            heap,
            make(heap, &terms, &claims),
            &[1, 0],
            1000,
            &told,
            &mut []
        )?,
        None
    );
    Ok(())
}

/// Of the steps by which 126 claims are learned, three for each: it is denied, its clause is false, and a clause is made.
fn learning(at: u16) -> Told {
    let claim = at / 3;
    let step = match at % 3 {
        0 => Step::Decide(claim.wrapping_mul(2).wrapping_add(1)),
        1 => Step::Conflict(claim),
        _ => Step::Jump(0, claim.wrapping_add(513)),
    };
    (step, Ok(u32::from(at).wrapping_add(7)))
}

#[test]
fn every_learned_number_is_taken(rt: HostRuntime) -> Result<(), Fail> {
    let heap = rt.alloc();
    let terms = constants(heap, 256)?;
    let claims: Vec<Claim> = (0..128u16)
        .map(|claim| same(claim.wrapping_mul(2), claim.wrapping_mul(2).wrapping_add(1)))
        .collect(heap)?;
    // Each claim is a clause.
    let row: Vec<u16> = (0..256u16)
        .map(|at| if at % 2 == 0 { 1 } else { at.wrapping_sub(1) })
        .collect(heap)?;
    // The first learned clause is a reason of level 1, and no reason any more once that level is cut.
    let first = [
        (Step::Decide(255), Ok(1)),
        (Step::Decide(1), Ok(2)),
        (Step::Conflict(0), Ok(3)),
        (Step::Jump(1, 639), Ok(4)),
        (Step::Conflict(127), Ok(5)),
        (Step::Jump(0, 512), Ok(6)),
    ];
    let others = (0..378u16).map(learning);
    let last = [
        (Step::Decide(253), Ok(385)),
        (Step::Conflict(126), Ok(386)),
        (Step::Jump(0, 512), Err(19)),
        (Step::Jump(0, 639), Err(19)),
        (Step::Forget(512), Err(19)),
        (Step::Forget(639), Ok(387)),
        (Step::Jump(0, 639), Ok(388)),
        (Step::Fit(256), Ok(389)),
    ];
    let told: Vec<Told> = first.into_iter().chain(others).chain(last).collect(heap)?;
    let mut place = [9i64; 256];
    assert_eq!(rt;
        play(
            heap,
            make(heap, &terms, &claims),
            &row,
            1000,
            &told,
            &mut place
        )?,
        Some(Verdict::Fit)
    );
    assert_eq!(rt; place[254], 254);
    assert_eq!(rt; place[255], 254);
    Ok(())
}
