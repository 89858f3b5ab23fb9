//! The words of a line.
ghost use Rattle.std.specs.Prelude.{◌≡◌, IfOk, Some};
ghost use Rattle.std.specs.Str.{bytes_eq};
ghost use Rattle.book.specs.Words.{spelling, names_of_length, first_spelled, name_of, digits, value_after, held, numeral, number_of, word_of, words_of};

use crate::scan::{before_comment, is_blank};
use std::alloc::{AllocError, Global};
use std::fmt;

/// The first word of a line.
#[derive(Clone, Copy, PartialEq, Eq, Debug)]
pub enum Kind {
    Theory,
    Term,
    Claim,
    Clause,
    Row,
    Allowance,
    Call,
    Step,
}

/// The name of a call.
#[derive(Clone, Copy, PartialEq, Eq, Debug)]
pub enum Ask {
    Assert,
    TakeBack,
    Query,
    Write,
    Trial,
    Close,
}

/// The name of a step.
#[derive(Clone, Copy, PartialEq, Eq, Debug)]
pub enum Rule {
    Decide,
    Propagate,
    Imply,
    Conflict,
    Clash,
    Resolve,
    Jump,
    Forget,
    Fit,
    NoFit,
}

/// The name of a theory.
#[derive(Clone, Copy, PartialEq, Eq, Debug)]
pub enum Sort {
    Equality,
    Distance,
}

/// A word that a book knows.
#[derive(Clone, Copy, PartialEq, Eq, Debug)]
pub enum Name {
    Kind(Kind),
    Ask(Ask),
    Rule(Rule),
    Sort(Sort),
}

impl Name {
    /// How the name is written.
    pub fn text(self) -> &'static str
        ensures { result.now ≡ spelling self }
    {
        match self {
            Name::Kind(Kind::Theory) => "theory",
            Name::Kind(Kind::Term) => "term",
            Name::Kind(Kind::Claim) => "claim",
            Name::Kind(Kind::Clause) => "clause",
            Name::Kind(Kind::Row) => "row",
            Name::Kind(Kind::Allowance) => "allowance",
            Name::Kind(Kind::Call) => "call",
            Name::Kind(Kind::Step) => "step",
            Name::Ask(Ask::Assert) => "assert",
            Name::Ask(Ask::TakeBack) => "takeback",
            Name::Ask(Ask::Query) => "query",
            Name::Ask(Ask::Write) => "write",
            Name::Ask(Ask::Trial) => "trial",
            Name::Ask(Ask::Close) => "close",
            Name::Rule(Rule::Decide) => "decide",
            Name::Rule(Rule::Propagate) => "propagate",
            Name::Rule(Rule::Imply) => "imply",
            Name::Rule(Rule::Conflict) => "conflict",
            Name::Rule(Rule::Clash) => "clash",
            Name::Rule(Rule::Resolve) => "resolve",
            Name::Rule(Rule::Jump) => "jump",
            Name::Rule(Rule::Forget) => "forget",
            Name::Rule(Rule::Fit) => "fit",
            Name::Rule(Rule::NoFit) => "nofit",
            Name::Sort(Sort::Equality) => "equality",
            Name::Sort(Sort::Distance) => "distance",
        }
    }
}

impl fmt::Display for Name {
    ghost output = { λ n. Some (spelling n) };

    fn fmt<W: fmt::Write>(&self, f: &mut fmt::Formatter<W>) -> fmt::Result {
        let text = self.text();
        write!(f, "{text}")
    }
}

/// The names of so many bytes.
fn of_length(length: usize) -> &'static [Name]
    ensures { result.now ≡ names_of_length length }
{
    match length {
        3 => &[Name::Kind(Kind::Row), Name::Rule(Rule::Fit)],
        4 => &[
            Name::Kind(Kind::Term),
            Name::Kind(Kind::Call),
            Name::Kind(Kind::Step),
            Name::Rule(Rule::Jump),
        ],
        5 => &[
            Name::Kind(Kind::Claim),
            Name::Ask(Ask::Query),
            Name::Ask(Ask::Write),
            Name::Ask(Ask::Trial),
            Name::Ask(Ask::Close),
            Name::Rule(Rule::Imply),
            Name::Rule(Rule::Clash),
            Name::Rule(Rule::NoFit),
        ],
        6 => &[
            Name::Kind(Kind::Theory),
            Name::Kind(Kind::Clause),
            Name::Ask(Ask::Assert),
            Name::Rule(Rule::Decide),
            Name::Rule(Rule::Forget),
        ],
        7 => &[Name::Rule(Rule::Resolve)],
        8 => &[
            Name::Ask(Ask::TakeBack),
            Name::Rule(Rule::Conflict),
            Name::Sort(Sort::Equality),
            Name::Sort(Sort::Distance),
        ],
        9 => &[Name::Kind(Kind::Allowance), Name::Rule(Rule::Propagate)],
        _ => &[],
    }
}

/// What a word is. A number has the value of its digits, unless no field can hold it; a negative one has a `-` before
/// them.
#[derive(Clone, Copy, PartialEq, Eq, Debug)]
pub enum Word {
    Known(Name),
    Number(Option<usize>),
    Negative(Option<usize>),
    Other,
}

fn spells(name: Name, word: &[u8]) -> bool
    ensures { result ≡ bytes_eq word.now (spelling name) }
{
    word == name.text().as_bytes()
}

/// The first of some names that a word spells.
#[tactic(auto, unfolding(crate::specs::Words::first_spelled))]
fn spelled(names: &[Name], word: &[u8]) -> Option<Name>
    ensures { result ≡ first_spelled names.now word.now }
{
    names.iter().copied().find(|name| spells(*name, word))
}

/// The name that a word spells. No name begins with a digit or a sign, so numbers are compared with none. Other words
/// are compared only with the names of their length.
fn known(word: &[u8]) -> Option<Name>
    ensures { result ≡ name_of word.now }
{
    match word {
        [first, ..] if *first <= b'9' => None,
        _ => spelled(of_length(word.len()), word),
    }
}

fn all_digits(word: &[u8]) -> bool
    ensures { result ≡ digits word.now }
{
    word.iter().all(u8::is_ascii_digit)
}

/// The number that digits write, if a `usize` can hold it.
#[tactic(auto, using(crate::proofs::Numbers::value_ge), unfolding(crate::specs::Words::value_after))]
fn value(word: &[u8]) -> Option<usize>
    ensures { result ≡ held (value_after 0 word.now) }
{
    word.iter().try_fold(0usize, |n, b| {
        n.checked_mul(10)?
            .checked_add(usize::from(b.saturating_sub(b'0')))
    })
}

/// Whether there are digits, and nothing else.
fn numeral(word: &[u8]) -> bool
    ensures { result ≡ numeral word.now }
{
    !word.is_empty() && all_digits(word)
}

fn number(word: &[u8]) -> Word
    ensures { result ≡ number_of word.now }
{
    match word {
        [b'-', digits @ ..] if numeral(digits) => Word::Negative(value(digits)),
        _ if numeral(word) => Word::Number(value(word)),
        _ => Word::Other,
    }
}

fn word_of(word: &[u8]) -> Word
    ensures { result ≡ word_of word.now }
{
    match known(word) {
        Some(name) => Word::Known(name),
        None => number(word),
    }
}

/// The words of a line before its comment.
pub fn words(heap: Global, line: &[u8]) -> Result<Vec<Word>, AllocError>
    ensures { IfOk result (λ v. v.items ≡ words_of line.now) }
{
    before_comment(line)
        .split(|b| is_blank(*b))
        .filter(|word| !word.is_empty())
        .map(word_of)
        .collect(heap)
}
