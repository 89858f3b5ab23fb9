//! Marked positions of a list, as a core is put down.
ghost use Rattle.std.specs.Prelude.{◌≡◌};
ghost use Rattle.theory.specs.Positions.{marks_say, marks_leave};

use crate::refusal::Refusal;

/// Puts the marked positions into the place, rising, and returns how many there are.
pub fn list_marks(marks: &[bool], place: &mut [u16]) -> Result<usize, Refusal>
    ensures says { result ≡ marks_say marks.now place.old }
    ensures place { place.new ≡ marks_leave marks.now place.old }
{
    if marks.len() > 128 {
        return Err(Refusal::PastLimit);
    }
    if place.len() < marks.len() {
        return Err(Refusal::ShortCorePlace);
    }
    // By number: what an adapter of `iter_mut` wrote into the place would not be known afterwards.
    let mut n = 0;
    for (p, marked) in marks.iter().enumerate() {
        if *marked {
            // Below 128; `try_from` would add a branch that never runs.
            place[n] = p as u16;
            n += 1;
        }
    }
    Ok(n)
}
