//! Tests of texts with faults, and of what a book of distances gives.
use crate::distant::apart;
use book::word::{Ask, Kind, Name, Rule};
use book::{Claims, Fault, Proposed, Purpose, Unread, Wrong, log_text};
use rules::Step;
use std::alloc::Global;
use std::test::Fail;

fn fault(line: usize, wrong: Wrong) -> Option<Unread> {
    Some(Unread::Fault(Fault { line, wrong }))
}

/// Why a text is no book to ask.
fn unread(heap: Global, text: &str) -> Option<Unread> {
    book::read(heap, Purpose::Ask, text.as_bytes()).err()
}

/// Why a text is no book to replay.
fn unplayed(heap: Global, text: &str) -> Option<Unread> {
    book::read(heap, Purpose::Replay, text.as_bytes()).err()
}

const CLAIM: Name = Name::Kind(Kind::Claim);

#[test]
fn faults(rt: HostRuntime) {
    for (text, line, wrong) in [
        ("", 1, Wrong::NoTheory),
        ("term 1\n", 1, Wrong::NoTheory),
        ("claim 0 1\ntheory distance\n", 1, Wrong::NoTheory),
        ("theory distances\n", 1, Wrong::NoSuchTheory),
        ("theory distance\ntheory equality\n", 2, Wrong::SecondTheory),
        (
            "theory equality\nterm 65536\n",
            2,
            Wrong::TooLarge { most: 65535 },
        ),
        (
            "theory equality\nclaim 0\n",
            2,
            Wrong::Missing { after: CLAIM },
        ),
        (
            "theory distance\nclaim 0 1\n",
            2,
            Wrong::Missing { after: CLAIM },
        ),
        ("theory equality\n\nclaims 0 0\n", 3, Wrong::NoSuchLine),
        ("theory equality\nclaim 0 0\nterm 1\n", 3, Wrong::LateTerm),
        (
            "theory distance\ncall query\nclaim 0 0 0\n",
            3,
            Wrong::LateClaim,
        ),
        (
            "theory equality\nclaim 0 0 0\n",
            2,
            Wrong::TooMany { after: CLAIM },
        ),
        (
            "theory distance\nclaim 0 1 2 3\n",
            2,
            Wrong::TooMany { after: CLAIM },
        ),
        ("theory equality\nterm -1\n", 2, Wrong::NoNumber),
        ("theory distance\nclaim 0 -1 0\n", 2, Wrong::NoNumber),
        (
            "theory equality\ncall close 1",
            2,
            Wrong::TooMany {
                after: Name::Ask(Ask::Close),
            },
        ),
    ] {
        assert_eq!(rt; unread(rt.alloc(), text), fault(line, wrong), "of {text}");
    }
}

/// A line may be empty or end in a comment, and between its words and at its end stand blanks of any kind.
#[test]
fn blanks(rt: HostRuntime) {
    let text = "\n theory\tequality # first\r\nterm 7 0 0 0\n";
    assert_eq!(rt; unread(rt.alloc(), text), None);
}

#[test]
fn constants_that_are_none(rt: HostRuntime) {
    for text in [
        "theory distance\nclaim 0 1 2147483648\n",
        "theory distance\nclaim 0 1 -2147483649\n",
        "theory distance\nclaim 0 1 18446744073709551616\n",
        "theory distance\nclaim 0 1 -18446744073709551616\n",
    ] {
        assert_eq!(rt; unread(rt.alloc(), text), fault(2, Wrong::OutOfRange));
    }
    for text in [
        "theory distance\nclaim 0 1 -\n",
        "theory distance\nclaim 0 1 --5\n",
        "theory distance\nclaim 0 1 +5\n",
        "theory distance\nclaim 0 1 0x5\n",
    ] {
        assert_eq!(rt; unread(rt.alloc(), text), fault(2, Wrong::NoNumber));
    }
}

/// A book of distances, whose constants are as far as a record holds them.
const FAR: &str = "theory distance
term 7
claim 2 1 -0080
claim 0 9 -2147483648
claim 9 0 2147483647
claim 1 1 -0
";

#[test]
fn bounds_as_written(rt: HostRuntime) -> Result<(), Fail> {
    let book = book::read(rt.alloc(), Purpose::Ask, FAR.as_bytes()).map_err(|_| Fail::new(
        "no book",
    ))?;
    let Claims::Distance(bounds) = &book.claims else {
        return Err(Fail::new("no book of distances"));
    };
    assert_eq!(rt;
        bounds.as_slice(),
        [
            apart(2, 1, -80),
            apart(0, 9, i32::MIN),
            apart(9, 0, i32::MAX),
            apart(1, 1, 0),
        ]
        .as_slice()
    );
    Ok(())
}

#[test]
fn history_faults(rt: HostRuntime) {
    let heap = rt.alloc();
    for (text, wrong) in [
        ("clause 0\nterm 1\n", Wrong::LateTerm),
        ("row 0\nclaim 0 0\n", Wrong::LateClaim),
        ("allowance 9\nrow 0\n", Wrong::LateClause),
        ("step clash\nclause 0\n", Wrong::LateClause),
        ("clause 0\nrow 0\n", Wrong::ClausesAndRows),
        ("row\nclause\n", Wrong::ClausesAndRows),
        ("allowance 9\nallowance 9\n", Wrong::SecondAllowance),
        ("step clash\nallowance 9\n", Wrong::LateAllowance),
        ("clause 0\ncall query\n", Wrong::CallsToReplay),
        ("clause\nclause 65536\n", Wrong::TooLarge { most: 65535 }),
        ("row\nrow -1\n", Wrong::NoNumber),
        (
            "\nallowance 4294967296\n",
            Wrong::TooLarge { most: 4294967295 },
        ),
        (
            "\nstep jump 4294967296 512\n",
            Wrong::TooLarge { most: 4294967295 },
        ),
        ("\nstep jump 0 65536\n", Wrong::TooLarge { most: 65535 }),
        ("\nstep fit 65536\n", Wrong::TooLarge { most: 65535 }),
        ("\nstep assert 0\n", Wrong::NoSuchStep),
        (
            "\nstep propagate 0\n",
            Wrong::Missing {
                after: Name::Rule(Rule::Propagate),
            },
        ),
        (
            "\nstep nofit 0\n",
            Wrong::TooMany {
                after: Name::Rule(Rule::NoFit),
            },
        ),
    ] {
        let mut book = String::new(heap);
        assert_eq!(rt; write!(book, "theory equality\n{text}").is_ok(), true);
        assert_eq!(rt; unplayed(heap, book.as_str()), fault(3, wrong));
    }
    assert_eq!(rt; unplayed(heap, "step clash\n"), fault(1, Wrong::NoTheory));
    assert_eq!(rt;
        unread(heap, "theory equality\nstep clash\n"),
        fault(2, Wrong::HistoryToAsk)
    );
}

/// A book of a history, whose numbers are as far as its lines hold them.
const LONG: &str = "theory equality
clause 1 65535
clause
allowance 0
step decide 65535
step jump 4294967295 65535
step fit
step fit 65535
step nofit
";

#[test]
fn history_as_written(rt: HostRuntime) -> Result<(), Fail> {
    let book = book::read(rt.alloc(), Purpose::Replay, LONG.as_bytes()).map_err(|_| Fail::new(
        "no book",
    ))?;
    assert_eq!(rt; book.row.as_slice(), [2, 1, 65535, 0].as_slice());
    assert_eq!(rt; book.allowance, 0);
    assert_eq!(rt;
        book.steps.as_slice(),
        [
            Proposed::Decide(65535),
            Proposed::Jump(u32::MAX, 65535),
            Proposed::Fit(None),
            Proposed::Fit(Some(65535)),
            Proposed::NoFit,
        ]
        .as_slice()
    );
    Ok(())
}

#[test]
fn no_allowance_named(rt: HostRuntime) -> Result<(), Fail> {
    let text = "theory distance\nrow 7\nrow 1 2 3\n";
    let book = book::read(rt.alloc(), Purpose::Replay, text.as_bytes()).map_err(|_| Fail::new(
        "no book",
    ))?;
    assert_eq!(rt; book.row.as_slice(), [7, 1, 2, 3].as_slice());
    assert_eq!(rt; book.allowance, u32::MAX);
    Ok(())
}

/// The text of a book, with steps in place of its own.
fn log(heap: Global, text: &str, steps: &[Step]) -> Result<String, Fail> {
    let book = book::read(heap, Purpose::Replay, text.as_bytes()).map_err(|_| Fail::new(
        "no book",
    ))?;
    log_text(heap, &book, steps).map_err(|_| Fail::new("no memory"))
}

/// A book whose text is not the canonical one.
const LOOSE: &str = "theory equality # two constants and a pair
term 7
term 8
term 9 0 01
 claim 0  1
clause 0 1
clause
step clash
";

/// The canonical text of the same book, with other steps.
const LOGGED: &str = "theory equality
term 7
term 8
term 9 0 1
claim 0 1
clause 0 1
clause
allowance 4294967295
step decide 1
step propagate 512 0
step imply 0
step conflict 1
step clash
step resolve
step jump 70000 513
step forget 512
step fit
step fit 4
step nofit
";

#[test]
fn a_log_with_each_step(rt: HostRuntime) -> Result<(), Fail> {
    let steps = [
        Step::Decide(1),
        Step::Propagate(512, 0),
        Step::Imply(0),
        Step::Conflict(1),
        Step::Clash,
        Step::Resolve,
        Step::Jump(70000, 513),
        Step::Forget(512),
        Step::Fit(3),
        Step::Fit(4),
        Step::NoFit,
    ];
    assert_eq!(rt; log(rt.alloc(), LOOSE, &steps)?.as_str(), LOGGED);
    Ok(())
}

#[test]
fn a_log_of_a_torn_row(rt: HostRuntime) -> Result<(), Fail> {
    let text = "theory distance\nclaim 0 1 -5\nrow 1 0\nrow 3 0 1\nallowance 9\nstep nofit\n";
    assert_eq!(rt;
        log(rt.alloc(), text, &[])?.as_str(),
        "theory distance\nclaim 0 1 -5\nrow 1 0 3 0 1\nallowance 9\n"
    );
    Ok(())
}
