//! What a line says.
ghost use Rattle.std.specs.Prelude.{◌≡◌, Ok, vec_items};
ghost use Rattle.book.specs.declared.line.Unsaid.TheVariants.{Wrong as wrong, NoMemory};
ghost use Rattle.book.specs.Lines.{saying_of, and_then, number_to, short_of, middle_of, long_of, signed_of, shorts_of, first_two, none_of, only_of, two_of, place_of, theory_line_of, term_of, equal_of, bound_of, called_by, call_of, propagate_of, jump_of, proposed_by, step_of, line_by, said_by, unread_at, Says};

use crate::contents::Call;
use crate::fault::{Fault, Unread, Wrong};
use crate::proposed::Proposed;
use crate::word::{Ask, Kind, Name, Rule, Sort, Word};
use congruence::Claim;
use difference::Bound;
use std::alloc::{AllocError, Global};
use theory::{Literal, Term};

/// What one line says.
#[derive(Drop)]
pub enum Said {
    Nothing,
    Theory(Sort),
    Term(Term),
    Claim(Claim),
    Bound(Bound),
    Clause(Vec<Literal>),
    Row(Vec<u16>),
    Allowance(u32),
    Call(Call),
    Step(Proposed),
}

/// Why a line says nothing.
#[derive(Clone, Copy, PartialEq, Eq, Debug)]
pub enum Unsaid {
    Wrong(Wrong),
    NoMemory,
}

impl Unsaid {
    /// The same of a book that has the line.
    pub fn at(self, line: usize) -> Unread
        ensures { result ≡ unread_at line self }
    {
        match self {
            Unsaid::Wrong(wrong) => Unread::Fault(Fault { line, wrong }),
            Unsaid::NoMemory => Unread::NoMemory,
        }
    }
}

impl From<Wrong> for Unsaid {
    ghost from_gives = { λ w r. r ≡ wrong w };

    fn from(wrong: Wrong) -> Unsaid {
        Unsaid::Wrong(wrong)
    }
}

impl From<AllocError> for Unsaid {
    ghost from_gives = { λ _ r. r ≡ NoMemory };

    fn from(_e: AllocError) -> Unsaid {
        Unsaid::NoMemory
    }
}

/// A number up to `most`.
fn number(word: Word, most: usize) -> Result<usize, Wrong>
    ensures { result ≡ number_to most word }
{
    match word {
        Word::Number(Some(n)) if n <= most => Ok(n),
        Word::Number(_) => Err(Wrong::TooLarge { most }),
        Word::Known(_) | Word::Negative(_) | Word::Other => Err(Wrong::NoNumber),
    }
}

/// A number of 16 bits.
fn short(word: Word) -> Result<u16, Wrong>
    ensures { result ≡ short_of word }
{
    let n = number(word, usize::from(u16::MAX))?;
    // No `try_from`: by the contract of `number` the cast loses nothing, and an answer for what cannot come is no
    // plainer.
    Ok(n as u16)
}

/// A number of 32 bits.
fn middle(word: Word) -> Result<u32, Wrong>
    ensures { result ≡ middle_of word }
{
    let n = number(word, u32::MAX as usize)?;
    // As in `short`, the cast loses nothing.
    Ok(n as u32)
}

/// A number of 64 bits.
fn long(word: Word) -> Result<usize, Wrong>
    ensures { result ≡ long_of word }
{
    number(word, usize::MAX)
}

/// A signed number of 32 bits.
fn signed(word: Word) -> Result<i32, Wrong>
    ensures { result ≡ signed_of word }
{
    let fitting = match word {
        Word::Number(Some(n)) => i32::try_from(n).ok(),
        Word::Negative(Some(n)) => i64::try_from(n).ok().and_then(|n| i32::try_from(-n).ok()),
        Word::Number(None) | Word::Negative(None) => None,
        Word::Known(_) | Word::Other => return Err(Wrong::NoNumber),
    };
    fitting.ok_or(Wrong::OutOfRange)
}

/// No words after a name.
fn none(after: Name, words: &[Word]) -> Result<(), Wrong>
    ensures { result ≡ none_of after words.now }
{
    match words {
        [] => Ok(()),
        _ => Err(Wrong::TooMany { after }),
    }
}

/// The one word after a name.
fn only(after: Name, words: &[Word]) -> Result<Word, Wrong>
    ensures { result ≡ only_of after words.now }
{
    match words {
        [] => Err(Wrong::Missing { after }),
        [word] => Ok(*word),
        _ => Err(Wrong::TooMany { after }),
    }
}

/// The two words after a name.
fn two(after: Name, words: &[Word]) -> Result<(Word, Word), Wrong>
    ensures { result ≡ two_of after words.now }
{
    match words {
        [] | [_] => Err(Wrong::Missing { after }),
        [first, second] => Ok((*first, *second)),
        _ => Err(Wrong::TooMany { after }),
    }
}

/// The length of a place, which may be left out.
fn place(after: Name, words: &[Word]) -> Result<Option<u16>, Wrong>
    ensures { result ≡ place_of after words.now }
{
    match words {
        [] => Ok(None),
        [len] => Ok(Some(short(*len)?)),
        _ => Err(Wrong::TooMany { after }),
    }
}

fn theory(words: &[Word]) -> Result<Sort, Wrong>
    ensures { result ≡ theory_line_of words.now }
{
    match only(Name::Kind(Kind::Theory), words)? {
        Word::Known(Name::Sort(theory)) => Ok(theory),
        _ => Err(Wrong::NoSuchTheory),
    }
}

#[tactic(auto, unfolding(crate::specs::Lines::shorts_of))]
fn all_short(words: &[Word]) -> Result<(), Wrong>
    ensures { result ≡ and_then (shorts_of words.now) (λ _. Ok (tt {0})) }
{
    for word in words {
        short(*word)?;
    }
    Ok(())
}

/// The first two of some numbers of 16 bits.
#[tactic(auto, unfolding(crate::specs::Lines::shorts_of))]
fn arguments(words: &[Word]) -> Result<[u16; 2], Wrong>
    ensures { result ≡ and_then (shorts_of words.now) (λ ns. Ok (first_two ns)) }
{
    match words {
        [] => Ok([0, 0]),
        [first] => Ok([short(*first)?, 0]),
        [first, second, rest @ ..] => {
            let args = [short(*first)?, short(*second)?];
            all_short(rest)?;
            Ok(args)
        }
    }
}

/// Any numbers of 16 bits.
#[tactic(auto, unfolding(crate::specs::Lines::shorts_of))]
fn numbers(heap: Global, words: &[Word]) -> Result<Vec<u16>, Unsaid>
    ensures { Says result (λ v. vec_items v) (shorts_of words.now) }
{
    let mut numbers = Vec::new(heap);
    for word in words {
        numbers.push(short(*word)?).map_err(AllocError::from)?;
    }
    Ok(numbers)
}

#[tactic(auto, unfolding(crate::specs::Lines::shorts_of))]
fn term(words: &[Word]) -> Result<Term, Wrong>
    ensures { result ≡ term_of words.now }
{
    match words {
        [] => Err(Wrong::Missing {
            after: Name::Kind(Kind::Term),
        }),
        [symbol, rest @ ..] => {
            let symbol = short(*symbol)?;
            let args = arguments(rest)?;
            Ok(Term {
                symbol,
                arity: u8::try_from(rest.len()).unwrap_or(u8::MAX),
                args,
            })
        }
    }
}

/// A claim that two terms are equal.
fn equal(words: &[Word]) -> Result<Claim, Wrong>
    ensures { result ≡ equal_of words.now }
{
    let (left, right) = two(Name::Kind(Kind::Claim), words)?;
    Ok(Claim {
        left: short(left)?,
        right: short(right)?,
    })
}

/// A claim that bounds the distance of two terms.
fn bound(words: &[Word]) -> Result<Bound, Wrong>
    ensures { result ≡ bound_of words.now }
{
    let after = Name::Kind(Kind::Claim);
    match words {
        [term, base, most] => Ok(Bound {
            term: short(*term)?,
            base: short(*base)?,
            most: signed(*most)?,
        }),
        [] | [_] | [_, _] => Err(Wrong::Missing { after }),
        _ => Err(Wrong::TooMany { after }),
    }
}

fn called(ask: Ask, words: &[Word]) -> Result<Call, Wrong>
    ensures { result ≡ called_by ask words.now }
{
    let after = Name::Ask(ask);
    match ask {
        Ask::Assert => Ok(Call::Assert(short(only(after, words)?)?)),
        Ask::TakeBack => Ok(Call::TakeBack(long(only(after, words)?)?)),
        Ask::Query => Ok(Call::Query(place(after, words)?)),
        Ask::Write => Ok(Call::Write(place(after, words)?)),
        Ask::Trial => Ok(Call::Trial(short(only(after, words)?)?)),
        Ask::Close => none(after, words).map(|()| Call::Close),
    }
}

fn call(words: &[Word]) -> Result<Call, Wrong>
    ensures { result ≡ call_of words.now }
{
    match words {
        [] => Err(Wrong::Missing {
            after: Name::Kind(Kind::Call),
        }),
        [Word::Known(Name::Ask(ask)), rest @ ..] => called(*ask, rest),
        _ => Err(Wrong::NoSuchCall),
    }
}

fn propagate(words: &[Word]) -> Result<Proposed, Wrong>
    ensures { result ≡ propagate_of words.now }
{
    let (c, l) = two(Name::Rule(Rule::Propagate), words)?;
    Ok(Proposed::Propagate(short(c)?, short(l)?))
}

fn jump(words: &[Word]) -> Result<Proposed, Wrong>
    ensures { result ≡ jump_of words.now }
{
    let (k, c) = two(Name::Rule(Rule::Jump), words)?;
    Ok(Proposed::Jump(middle(k)?, short(c)?))
}

fn proposed(rule: Rule, words: &[Word]) -> Result<Proposed, Wrong>
    ensures { result ≡ proposed_by rule words.now }
{
    let after = Name::Rule(rule);
    match rule {
        Rule::Decide => Ok(Proposed::Decide(short(only(after, words)?)?)),
        Rule::Propagate => propagate(words),
        Rule::Imply => Ok(Proposed::Imply(short(only(after, words)?)?)),
        Rule::Conflict => Ok(Proposed::Conflict(short(only(after, words)?)?)),
        Rule::Clash => none(after, words).map(|()| Proposed::Clash),
        Rule::Resolve => none(after, words).map(|()| Proposed::Resolve),
        Rule::Jump => jump(words),
        Rule::Forget => Ok(Proposed::Forget(short(only(after, words)?)?)),
        Rule::Fit => Ok(Proposed::Fit(place(after, words)?)),
        Rule::NoFit => none(after, words).map(|()| Proposed::NoFit),
    }
}

fn step(words: &[Word]) -> Result<Proposed, Wrong>
    ensures { result ≡ step_of words.now }
{
    match words {
        [] => Err(Wrong::Missing {
            after: Name::Kind(Kind::Step),
        }),
        [Word::Known(Name::Rule(rule)), rest @ ..] => proposed(*rule, rest),
        _ => Err(Wrong::NoSuchStep),
    }
}

fn named(heap: Global, of: Option<Sort>, kind: Kind, words: &[Word]) -> Result<Said, Unsaid>
    ensures { Says result saying_of (line_by of kind words.now) }
{
    match kind {
        Kind::Theory => Ok(Said::Theory(theory(words)?)),
        Kind::Term => Ok(Said::Term(term(words)?)),
        Kind::Claim => match of {
            Some(Sort::Equality) => Ok(Said::Claim(equal(words)?)),
            Some(Sort::Distance) => Ok(Said::Bound(bound(words)?)),
            None => Err(Unsaid::Wrong(Wrong::NoTheory)),
        },
        Kind::Clause => Ok(Said::Clause(numbers(heap, words)?)),
        Kind::Row => Ok(Said::Row(numbers(heap, words)?)),
        Kind::Allowance => Ok(Said::Allowance(middle(only(Name::Kind(kind), words)?)?)),
        Kind::Call => Ok(Said::Call(call(words)?)),
        Kind::Step => Ok(Said::Step(step(words)?)),
    }
}

/// What the words of a line say in a book of a theory, or before its theory line.
pub fn meaning(heap: Global, of: Option<Sort>, words: &[Word]) -> Result<Said, Unsaid>
    ensures { Says result saying_of (said_by of words.now) }
{
    match words {
        [] => Ok(Said::Nothing),
        [Word::Known(Name::Kind(kind)), rest @ ..] => named(heap, of, *kind, rest),
        _ => Err(Unsaid::Wrong(Wrong::NoSuchLine)),
    }
}
