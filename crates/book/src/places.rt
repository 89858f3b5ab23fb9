//! Where the lines of a kind stand in a text.
ghost use Rattle.std.specs.Prelude.{◌≡◌, option_map, slice_get};
ghost use Rattle.book.specs.Pieces.{lines};
ghost use Rattle.book.specs.Places.{first_word, is_of, places};

use crate::scan::{Lines, before_comment, is_blank};
use crate::word::{Kind, Name};

/// The first word of a line, before its comment.
fn first_word(line: &[u8]) -> Option<&[u8]>
    ensures { option_map (λ w. w.now) result ≡ first_word line.now }
{
    before_comment(line)
        .split(|b| is_blank(*b))
        .find(|word| !word.is_empty())
}

/// Whether a line is of a kind.
fn is_of(kind: Kind, line: &[u8]) -> bool
    ensures { result ≡ is_of kind line.now }
{
    match first_word(line) {
        Some(word) => word == Name::Kind(kind).text().as_bytes(),
        None => false,
    }
}

/// The line, counted from 1, of the `i`th line (from 0) of a kind.
#[tactic(auto, using(crate::proofs::Cuts::lines_le))]
pub fn line_of(text: &[u8], kind: Kind, i: usize) -> Option<usize>
    ensures { result ≡ slice_get (places kind 1 (lines text.now)) i }
{
    let mut left = i;
    for (n, line) in Lines(text).enumerate() {
        if is_of(kind, line) {
            if left == 0 {
                return Some(n + 1);
            }
            left -= 1;
        }
    }
    None
}
