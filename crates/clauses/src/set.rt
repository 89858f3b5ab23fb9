//! A set of literals, as a mark for each.
ghost use Rattle.std.specs.Iterator.{YieldsFirst, item_count};
ghost use Rattle.clauses.specs.Left.{literals_left};

use theory::Literal;
use theory::literal::complement_of;

/// A set of literals. A theory has at most 128 claims, so every literal is below 256; a number from
/// 256 on is no literal, and no set has it.
#[derive(Clone, Copy, Drop)]
pub struct LiteralSet {
    marks: [bool; 256],
}

impl LiteralSet {
    ghost use Rattle.std.specs.Prelude.{◌≡◌, ◌↔◌, IsTrue, [], length, not, ◌&&◌, ◌||◌, ◌==◌};
    ghost use Rattle.theory.specs.Literals.{has};
    ghost use Rattle.rules.specs.Clauses.{set_of};
    ghost use Rattle.rules.specs.Rules.{resolved};
    ghost use Rattle.clauses.specs.Sets.{members};

    /// The set of a clause's literals.
    pub fn of(clause: &[Literal]) -> LiteralSet
        ensures { members result ≡ set_of (has clause.now) }
    {
        let mut set = LiteralSet {
            marks: [false; 256],
        };
        for l in clause {
            set.mark(*l, true);
        }
        set
    }

    /// Whether the set has a literal.
    pub fn has(&self, l: Literal) -> bool
        ensures { result ≡ has (members self.now) l }
    {
        match self.marks.get(usize::from(l)) {
            Some(mark) => *mark,
            None => false,
        }
    }

    /// Whether the set has none.
    pub fn is_empty(&self) -> bool
        ensures { IsTrue result ↔ (members self.now ≡ []) }
    {
        self.marks.iter().all(|mark| !*mark)
    }

    /// How many it has.
    pub fn len(&self) -> usize
        ensures { result ≡ length (members self.now) }
    {
        self.iter().count()
    }

    /// Its literals, rising.
    pub fn iter(&self) -> Literals<'_>
        ensures { literals_left result ≡ members self.now }
    {
        Literals { set: self, next: 0 }
    }

    /// Takes the complement of `l` out, and puts the other literals of a clause that has `l` in.
    pub fn resolve(&mut self, l: Literal, clause: &[Literal])
        ensures { members self.new ≡ resolved (members self.old) l clause.now }
    {
        self.mark(complement_of(l), false);
        for m in clause {
            if *m != l {
                self.mark(*m, true);
            }
        }
    }

    /// Puts a literal in, or takes it out.
    fn mark(&mut self, l: Literal, is_in: bool)
        ensures { members self.new ≡ set_of (λ m. (m == l && is_in) || (not (m == l) && has (members self.old) m)) }
    {
        // By index: what is written through `get_mut` of an array would not be known afterwards.
        let l = usize::from(l);
        if l < self.marks.len() {
            self.marks[l] = is_in;
        }
    }
}

/// The literals of a set, one by one, rising.
#[derive(Clone, Copy)]
pub struct Literals<'a> {
    set: &'a LiteralSet,
    next: Literal,
}

impl Iterator for Literals<'_> {
    type Item = Literal;

    ghost next_gives = { YieldsFirst literals_left };

    ghost remaining = { item_count literals_left };

    fn next(&mut self) -> Option<Literal> {
        while self.next < 256 {
            let l = self.next;
            self.next += 1;
            if self.set.has(l) {
                return Some(l);
            }
        }
        None
    }
}
