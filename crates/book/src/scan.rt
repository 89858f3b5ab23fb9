//! Cutting a text into its lines, and a line before its comment.
ghost use Rattle.std.specs.Prelude.{◌≡◌, ◌==◌, position};
ghost use Rattle.std.specs.Iterator.{YieldsFirstRef, item_count};
ghost use Rattle.std.specs.List.{before_first, after_first};
ghost use Rattle.book.specs.Pieces.{hash, blank, lines};

/// Whether a byte stands between words.
pub fn is_blank(b: u8) -> bool
    ensures { result ≡ blank b }
{
    b == b' ' || b == b'\t' || b == b'\r'
}

/// Where a byte stands first.
fn place(byte: u8, bytes: &[u8]) -> Option<usize>
    ensures { result ≡ position (λ b. b == byte) bytes.now }
{
    bytes.iter().position(|b| *b == byte)
}

/// What stands before the first of a byte, and what stands after it.
fn cut(byte: u8, bytes: &[u8]) -> (&[u8], &[u8])
    ensures before { result.0.now ≡ before_first (λ b. b == byte) bytes.now }
    ensures after { result.1.now ≡ after_first (λ b. b == byte) bytes.now }
{
    match place(byte, bytes) {
        Some(n) => (&bytes[..n], &bytes[n + 1..]),
        None => (bytes, &[]),
    }
}

/// The bytes before the first number sign.
pub fn before_comment(line: &[u8]) -> &[u8]
    ensures { result.now ≡ before_first hash line.now }
{
    cut(b'#', line).0
}

/// The lines of a text, without the line feeds that end them.
// Not `split`: a line feed at the text's end begins no further line.
#[derive(Clone, Copy)]
pub struct Lines<'a>(pub &'a [u8]);

impl<'a> Iterator for Lines<'a> {
    type Item = &'a [u8];

    ghost next_gives = { YieldsFirstRef (λ s. lines s.0.now) };

    ghost remaining = { item_count (λ s. lines s.0.now) };

    #[tactic(auto, using(crate::proofs::Cuts::lines_none, crate::proofs::Cuts::lines_first))]
    fn next(&mut self) -> Option<&'a [u8]> {
        if self.0.is_empty() {
            return None;
        }
        let (line, rest) = cut(b'\n', self.0);
        self.0 = rest;
        Some(line)
    }
}
