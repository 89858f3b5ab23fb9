//! Which rows are opened.
use crate::equal::same;
use crate::play::constant;
use equality::make;
use history::replay;
use rules::{Refusal, Unopened};
use std::alloc::{AllocError, Global};
use std::test::Fail;

/// Why a row is not opened, where there are so many claims.
fn unopened(heap: Global, claims: usize, row: &[u16]) -> Result<Option<Unopened>, Fail> {
    let terms = [constant(0)];
    let claims = vec![in heap; same(0, 0); claims]?;
    let theory = make(heap, &terms, &claims).map_err(|_| Fail::new("no theory"))?;
    Ok(
        replay(heap, theory, row, 1000, &[], &mut [])
            .err()
            .map(|returned| returned.why),
    )
}

fn refused(refusal: Refusal) -> Option<Unopened> {
    Some(Unopened::Refused(refusal))
}

/// The row of 32 clauses of all 128 claims, and then some numbers.
fn full(heap: Global, more: &[u16]) -> Result<Vec<u16>, AllocError> {
    (0..4128u16)
        .map(|at| match at % 129 {
            0 => 128,
            place => place.wrapping_sub(1).wrapping_mul(2),
        })
        .chain(more.iter().copied())
        .collect(heap)
}

#[test]
fn rows_of_two_claims(rt: HostRuntime) -> Result<(), Fail> {
    let heap = rt.alloc();
    let cases: [(&[u16], Option<Unopened>); 7] = [
        (&[2, 0, 3, 0], None),
        (&[3, 0, 2], refused(Refusal::PastLimit)),
        (&[1], refused(Refusal::PastLimit)),
        // A count past the end goes before a literal of no claim.
        (&[1, 9, 5], refused(Refusal::PastLimit)),
        (&[1, 4], refused(Refusal::BadClause)),
        (&[2, 0, 1], refused(Refusal::BadClause)),
        (&[2, 2, 2], refused(Refusal::BadClause)),
    ];
    for (row, wanted) in cases {
        assert_eq!(rt; unopened(heap, 2, row)?, wanted, "of {row:?}");
    }
    Ok(())
}

/// 512 clauses and not 513; 4,096 literals and not 4,097.
#[test]
fn rows_at_the_limits(rt: HostRuntime) -> Result<(), Fail> {
    let heap = rt.alloc();
    for (clauses, wanted) in [(512, None), (513, refused(Refusal::PastLimit))] {
        let empty = vec![in heap; 0u16; clauses]?;
        assert_eq!(rt; unopened(heap, 2, &empty)?, wanted);
    }
    assert_eq!(rt; unopened(heap, 128, &full(heap, &[])?)?, None);
    assert_eq!(rt;
        unopened(heap, 128, &full(heap, &[1, 0])?)?,
        refused(Refusal::PastLimit)
    );
    Ok(())
}
