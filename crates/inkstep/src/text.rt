//! Pieces of lines that are printed.
use std::alloc::AllocError;
use std::fmt;

/// Some numbers, each with a blank before it, and the line's end.
pub fn put_row<N: fmt::Display>(out: &mut String, numbers: &[N]) -> Result<(), AllocError> {
    for number in numbers {
        write!(out, " {number}")?;
    }
    writeln!(out)
}

/// The numbers of a fit, or a `-` where there are none, and the line's end.
pub fn put_fit(out: &mut String, numbers: &[i64]) -> Result<(), AllocError> {
    if numbers.is_empty() {
        write!(out, " -")?;
    }
    put_row(out, numbers)
}

/// The name of a file, with control characters escaped, so that it stays on its line.
#[derive(Clone, Copy, PartialEq, Eq, Debug)]
pub struct FileName<'a>(pub &'a str);

impl<'a> fmt::Display for FileName<'a> {
    fn fmt<W: fmt::Write>(&self, f: &mut fmt::Formatter<W>) -> fmt::Result {
        for c in self.0.chars() {
            if c.is_control() {
                let escaped = c.escape_default();
                write!(f, "{escaped}")?;
            } else {
                f.write_char(c)?;
            }
        }
        Ok(())
    }
}
