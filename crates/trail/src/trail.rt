//! The trail, kept so that a literal's value is one look-up.
ghost use Rattle.std.specs.Prelude.{◌≡◌, ◌≤◌, length, vec_capacity, reverse};
ghost use Rattle.theory.specs.Literals.{Proper};
ghost use Rattle.rules.specs.States.{asserted};
ghost use Rattle.trail.specs.Kept.{Leveled, Placed};

use rules::Entry;

pub mod reads;
pub mod writes;

/// A trail over so many claims, at most 128. Positions, from 0, and levels are 32-bit numbers.
#[derive(Drop)]
pub struct Trail {
    claims: usize,
    // The oldest first.
    entries: Vec<Entry>,
    // By position.
    levels: Vec<u32>,
    // By literal; a literal that is not on the trail has none.
    places: [Option<u32>; 256],
    ghost few: { claims ≤ 128 },
    ghost room: { claims ≤ vec_capacity entries },
    ghost level_room: { claims ≤ vec_capacity levels },
    ghost level_each: { length levels.items ≡ length entries.items },
    ghost proper: { Proper claims (asserted (reverse entries.items)) },
    ghost leveled: { Leveled levels.items entries.items },
    ghost placed: { Placed places entries.items },
}
