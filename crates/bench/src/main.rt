//! The calls at full size. Alone it prints what they find; `bench time` prints how long they take as well.
#![tactic(auto)]

use anyhow::anyhow;
use congruence::Claim;
use difference::Bound;
use std::alloc::{AllocError, Global};
use std::time::Instant;
use std::{env, iter};
use theory::{Found, Refusal, Term, Theory, Unmade};

// The makers of records stand here and in `samples`, which is tests alone; a public function for them would serve no
// theory.
fn constant(symbol: u16) -> Term {
    Term {
        symbol,
        arity: 0,
        args: [0, 0],
    }
}

fn constants(heap: Global) -> Result<Vec<Term>, AllocError> {
    (0..256u16).map(constant).collect(heap)
}

/// A symbol of one argument, applied to a term.
fn over(below: u16) -> Term {
    Term {
        symbol: 2,
        arity: 1,
        args: [below, 0],
    }
}

fn same(left: u16, right: u16) -> Claim {
    Claim { left, right }
}

fn apart(term: u16, base: u16, most: i32) -> Bound {
    Bound { term, base, most }
}

/// A chain of equalities between neighbours, and one between its ends.
fn chain(heap: Global) -> Result<Vec<Claim>, AllocError> {
    (1..128u16)
        .map(|right| same(right.saturating_sub(1), right))
        .chain(iter::once(same(0, 127)))
        .collect(heap)
}

/// A chain of terms, each one below the next, so that each claim lowers all terms before it; the denial of the last
/// claim
/// has the chain come back one too low.
fn ring(heap: Global) -> Result<Vec<Bound>, AllocError> {
    (1..128u16)
        .map(|base| apart(base.saturating_sub(1), base, -1))
        .chain(iter::once(apart(0, 127, -127)))
        .collect(heap)
}

/// One term below 127 others, each claim by one more, so that each claim lowers just that term; the denial of the
/// last has
/// it above one of them.
fn star(heap: Global) -> Result<Vec<Bound>, AllocError> {
    (1..128u16)
        .map(|base| apart(0, base, -i32::from(base)))
        .chain(iter::once(apart(0, 127, -127)))
        .collect(heap)
}

/// Two towers of one symbol over two constants, and the claims that their feet and their tops are equal.
fn towers(heap: Global) -> Result<(Vec<Term>, Vec<Claim>), AllocError> {
    let terms = (0..2u16)
        .map(constant)
        .chain((0..254u16).map(over))
        .collect(heap)?;
    let claims = vec![in heap; same(0, 1), same(254, 255)]?;
    Ok((terms, claims))
}

/// Asserts the claims before the last, and denies the last.
fn assert_all<T: Theory>(theory: &mut T, last: u16) -> Result<(), Refusal> {
    for claim in 0..last {
        theory.assert(claim.wrapping_mul(2))?;
    }
    theory.assert(last.wrapping_mul(2).wrapping_add(1))
}

/// The length of the core, if what is asserted is impossible.
fn core_len<T: Theory>(theory: &mut T, core: &mut [u16]) -> Option<usize> {
    match theory.query(core) {
        Ok(Found::Impossible(n)) => Some(n),
        _ => None,
    }
}

/// Runs the calls of one table, and tells what they found and, if asked, how long they took.
fn run<T: Theory + Drop>(
    rt: &HostRuntime,
    name: &str,
    timed: bool,
    made: Result<T, Unmade>,
    last: u16,
) -> anyhow::Result<()> {
    let mut theory = made.map_err(|_| anyhow!("no theory was made"))?;
    let mut core = vec![in rt.alloc(); 0u16; 128]?;
    let start = Instant::now(rt)?;
    let told = assert_all(&mut theory, last);
    let asserted = start.elapsed(rt)?;
    told.map_err(|e| anyhow!("{name}: {e}"))?;
    let start = Instant::now(rt)?;
    let found = core_len(&mut theory, &mut core);
    let queried = start.elapsed(rt)?;
    let n = found.ok_or_else(|| anyhow!("{name}: no core"))?;
    println!(rt; "{name}: a core of {n}")?;
    if timed {
        let a = asserted.as_nanos();
        let q = queried.as_nanos();
        println!(rt; "{name}: {a} ns to assert all, {q} ns to query")?;
    }
    Ok(())
}

fn main(rt: HostRuntime) -> anyhow::Result<()> {
    let heap = rt.alloc();
    let timed = env::args(&rt)?.count() > 1;
    let terms = constants(heap)?;
    let claims = chain(heap)?;
    let made = equality::make(heap, &terms, &claims);
    run(&rt, "chain", timed, made, 127)?;
    let (nested, claims) = towers(heap)?;
    let made = equality::make(heap, &nested, &claims);
    run(&rt, "towers", timed, made, 1)?;
    let bounds = ring(heap)?;
    let made = distance::make(heap, &terms, &bounds);
    run(&rt, "ring", timed, made, 127)?;
    let bounds = star(heap)?;
    let made = distance::make(heap, &terms, &bounds);
    run(&rt, "star", timed, made, 127)
}
