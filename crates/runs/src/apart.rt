//! Histories over distances.
use crate::play::{constants, play};
use difference::Bound;
use distance::make;
use rules::{Step, Verdict};
use std::test::Fail;

/// The claim that `term` minus `base` is at most `most`.
fn apart(term: u16, base: u16, most: i32) -> Bound {
    Bound { term, base, most }
}

#[test]
fn an_empty_clause(rt: HostRuntime) -> Result<(), Fail> {
    let heap = rt.alloc();
    let terms = constants(heap, 2)?;
    let claims = [apart(0, 1, 0)];
    let told = [
        (Step::NoFit, Err(13)),
        (Step::Conflict(0), Ok(1)),
        (Step::Decide(0), Err(13)),
        (Step::NoFit, Ok(2)),
    ];
    assert_eq!(rt;
        play(
            heap,
            make(heap, &terms, &claims),
            &[0],
            1000,
            &told,
            &mut []
        )?,
        Some(Verdict::NoFit)
    );
    Ok(())
}

#[test]
fn two_claims_clash(rt: HostRuntime) -> Result<(), Fail> {
    let heap = rt.alloc();
    let terms = constants(heap, 2)?;
    let claims = [apart(0, 1, -1), apart(1, 0, 0)];
    let told = [
        (Step::Propagate(0, 0), Ok(1)),
        (Step::Imply(3), Ok(2)),
        (Step::Conflict(1), Ok(3)),
        (Step::Resolve, Ok(4)),
        (Step::Resolve, Ok(5)),
        (Step::NoFit, Ok(6)),
    ];
    assert_eq!(rt;
        play(
            heap,
            make(heap, &terms, &claims),
            &[1, 0, 1, 2],
            1000,
            &told,
            &mut []
        )?,
        Some(Verdict::NoFit)
    );
    Ok(())
}

#[test]
fn two_claims_fit(rt: HostRuntime) -> Result<(), Fail> {
    let heap = rt.alloc();
    let terms = constants(heap, 2)?;
    let claims = [apart(0, 1, -1), apart(1, 0, 1)];
    let told = [
        (Step::Propagate(0, 0), Ok(1)),
        (Step::Imply(3), Err(21)),
        (Step::Propagate(1, 2), Ok(2)),
        (Step::Clash, Err(21)),
        (Step::Fit(2), Ok(3)),
    ];
    let mut place = [9i64; 2];
    assert_eq!(rt;
        play(
            heap,
            make(heap, &terms, &claims),
            &[1, 0, 1, 2],
            1000,
            &told,
            &mut place
        )?,
        Some(Verdict::Fit)
    );
    assert_eq!(rt; place, [-1, 0]);
    Ok(())
}
