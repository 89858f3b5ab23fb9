//! The strategy: which step to propose.
ghost use Rattle.history.specs.Next.{Same};

use crate::activity::Activity;
use crate::assignment::Assignment;
use crate::choices::Choices;
use crate::formula::Formula;
use crate::lemmas::Lemmas;
use crate::literals::{Literals, bit, claim_literal, claim_of};
use crate::propagation::Propagation;
use crate::rounds::Rounds;
use history::History;
use rules::{Reason, Step};
use std::alloc::{AllocError, Global};
use theory::literal::complement_of;
use theory::{Literal, Theory};

/// What a search remembers of its history.
#[derive(Drop)]
pub(crate) struct Strategy {
    formula: Formula,
    trail: Assignment,
    propagation: Propagation,
    activity: Activity,
    lemmas: Lemmas,
    rounds: Rounds,
    choices: Choices,
    claims: u128,
    conflict: Option<Literals>,
    // The claims that were bumped since the conflict began.
    bumped: u128,
    // The position of the conflict's latest literal is below this.
    top: usize,
    // The trail as it stands was found possible.
    sure: bool,
    conflicts: u64,
    // By place of a learned clause: when it was last used, and at how many levels its literals were.
    used: [u64; 128],
    glue: [u32; 128],
}

impl Strategy {
    pub(crate) fn new(heap: Global) -> Result<Strategy, AllocError> {
        Ok(Strategy {
            formula: Formula::new(heap)?,
            trail: Assignment::new(),
            propagation: Propagation::new(),
            activity: Activity::new(),
            lemmas: Lemmas::new(heap)?,
            rounds: Rounds::new(),
            choices: Choices::none(),
            claims: 0,
            conflict: None,
            bumped: 0,
            top: 0,
            sure: false,
            conflicts: 0,
            used: [0; 128],
            glue: [0; 128],
        })
    }

    /// Takes over the book of a new history.
    pub(crate) fn begin<T: Theory>(&mut self, history: &History<T>) {
        self.formula.load(history);
        self.propagation.begin(&self.formula);
        self.activity.begin(&self.formula);
        self.choices = Choices::of(&self.formula);
        self.claims = below(history.claims());
    }

    /// The step to propose.
    pub(crate) fn propose<T: Theory>(&mut self, history: &mut History<T>, terms: usize) -> Step
        ensures { Same history.old history.new }
    {
        match self.conflict {
            Some(conflict) => self.dispute(conflict),
            None => self.advance(history, terms),
        }
    }

    /// In a conflict: Resolve to the first unique implication point, then Jump.
    fn dispute(&mut self, conflict: Literals) -> Step {
        if conflict.is_empty() {
            return Step::NoFit;
        }
        let level = self.trail.highest(conflict.named(), self.trail.level());
        let here = conflict.named() & self.trail.claims_at(level);
        if level == 0 || here.count_ones() > 1 {
            return Step::Resolve;
        }
        let Some(place) = free_place(self.formula.live) else {
            return Step::Forget(512 + self.least_useful() % 128);
        };
        let below = self.trail.highest(conflict.named() & !here, level - 1);
        Step::Jump((below % 129) as u32, 512 + place % 128)
    }

    /// Without a conflict: what follows by a clause; then what the theory says; then a decision.
    fn advance<T: Theory>(&mut self, history: &mut History<T>, terms: usize) -> Step
        ensures { Same history.old history.new }
    {
        if let Some(step) = self.propagation.next(&self.formula, &self.trail) {
            return step;
        }
        if !self.sure && !history.is_possible() {
            return Step::Clash;
        }
        self.sure = true;
        if let Some(l) = self.lemmas.unit(&self.trail) {
            return Step::Imply(l);
        }
        let free = self.claims & !self.trail.named();
        if free == 0 {
            return Step::Fit(terms);
        }
        if self.rounds.is_on()
            && let Some(l) = self.try_round(history)
        {
            return Step::Imply(l);
        }
        Step::Decide(self.decision(free))
    }

    /// Goes on with a round of trials; a literal that follows.
    fn try_round<T: Theory>(&mut self, history: &mut History<T>) -> Option<Literal>
        ensures { Same history.old history.new }
    {
        let from = self.rounds.next.unwrap_or(0);
        for claim in from..128 {
            if self.claims & !self.trail.named() & bit(claim) != 0
                && let Some(l) = self.try_claim(history, claim)
            {
                self.rounds.next = Some(claim);
                return Some(l);
            }
        }
        self.rounds.next = None;
        None
    }

    /// Tries a claim and its denial.
    fn try_claim<T: Theory>(&mut self, history: &mut History<T>, claim: usize) -> Option<Literal>
        ensures { Same history.old history.new }
    {
        let l = claim_literal(claim);
        if self.follows(history, l) {
            return Some(l);
        }
        self.follows(history, l + 1).then_some(l + 1)
    }

    fn follows<T: Theory>(&mut self, history: &mut History<T>, l: Literal) -> bool
        ensures { Same history.old history.new }
    {
        let implied = history.is_implied(l);
        self.rounds.tried(implied);
        implied
    }

    fn decision(&self, free: u128) -> Literal {
        if let Some(claims) = self.choices.free(&self.formula, &self.trail)
            && let Some(claim) = self.activity.most(claims)
        {
            return claim_literal(claim);
        }
        let claim = self.activity.most(free).unwrap_or(0);
        let l = claim_literal(claim);
        if self.trail.phase(claim) { l } else { l + 1 }
    }

    /// The place of the learned clause that is no reason and was used longest ago.
    fn least_useful(&self) -> u16 {
        let reasons = self.trail.learned_reasons();
        let mut best = 0;
        let mut found = false;
        for place in 0..128usize {
            if reasons & bit(place) == 0 && (!found || self.goes_before(place, best)) {
                best = place;
                found = true;
            }
        }
        (best % 128) as u16
    }

    fn goes_before(&self, a: usize, b: usize) -> bool {
        let (a, b) = (a % 128, b % 128);
        if self.used[a] != self.used[b] {
            return self.used[a] < self.used[b];
        }
        if self.glue[a] != self.glue[b] {
            return self.glue[a] > self.glue[b];
        }
        self.formula.clause(512 + a as u16).len() > self.formula.clause(512 + b as u16).len()
    }

    /// Takes over what an accepted step did.
    pub(crate) fn accepted<T: Theory>(&mut self, history: &History<T>, step: Step) {
        match step {
            Step::Decide(l) => self.put(l, Reason::Decided),
            Step::Propagate(c, l) => self.put(l, Reason::Clause(c)),
            Step::Imply(l) => {
                let sure = self.sure;
                let due = self.rounds.next;
                self.trail.push(l, Reason::Theory);
                self.sure = sure;
                self.rounds.next = due;
            }
            Step::Conflict(c) => {
                self.use_clause(c);
                let clause = self.formula.clause(c);
                self.begin_conflict(clause);
            }
            Step::Clash => {
                let mut conflict = Literals::NONE;
                if let Some(set) = history.conflicting() {
                    for l in set.iter() {
                        conflict = conflict.with(l);
                    }
                }
                self.lemmas.remember(conflict);
                self.begin_conflict(conflict);
            }
            Step::Resolve => self.resolve(history),
            Step::Jump(k, c) => self.jump(k as usize, c),
            Step::Forget(c) => self.formula.forget(usize::from(c.saturating_sub(512))),
            Step::Fit(_) | Step::NoFit => {}
        }
    }

    fn put(&mut self, l: Literal, reason: Reason) {
        self.trail.push(l, reason);
        self.sure = false;
        self.rounds.literal_added();
    }

    fn use_clause(&mut self, c: u16) {
        if c >= 512 {
            self.used[usize::from(c - 512) % 128] = self.conflicts;
        }
    }

    fn begin_conflict(&mut self, conflict: Literals) {
        self.conflicts = self.conflicts.saturating_add(1);
        self.conflict = Some(conflict);
        self.bumped = 0;
        self.top = self.trail.len();
        self.bump(conflict);
    }

    fn bump(&mut self, literals: Literals) {
        let fresh = literals.named() & !self.bumped;
        self.bumped |= fresh;
        self.activity.bump(fresh);
    }

    fn resolve<T: Theory>(&mut self, history: &History<T>) {
        let Some(conflict) = self.conflict else {
            return;
        };
        while self.top > 0 {
            self.top -= 1;
            if let Some(l) = self.trail.at(self.top)
                && conflict.has(complement_of(l))
            {
                let reason = self.explanation(history, l);
                self.bump(reason);
                self.conflict = Some(conflict.or(reason).off(bit(claim_of(l))));
                return;
            }
        }
    }

    /// The clause by which a literal of the trail followed.
    fn explanation<T: Theory>(&mut self, history: &History<T>, l: Literal) -> Literals {
        match self.trail.reason(l) {
            Reason::Decided => Literals::NONE,
            Reason::Clause(c) => {
                self.use_clause(c);
                self.formula.clause(c)
            }
            Reason::Theory => {
                if let Some(known) = self.trail.explained[claim_of(l)] {
                    return known;
                }
                let explained = match history.explanation(self.top) {
                    Some(clause) => Literals::of(clause),
                    None => Literals::NONE,
                };
                self.trail.explained[claim_of(l)] = Some(explained);
                self.lemmas.remember(explained);
                explained
            }
        }
    }

    fn jump(&mut self, level: usize, c: u16) {
        let Some(conflict) = self.conflict else {
            return;
        };
        let place = usize::from(c.saturating_sub(512)) % 128;
        let mut glue = 0u32;
        for k in 0..129 {
            if self.trail.claims_at(k) & conflict.named() != 0 {
                glue = glue.saturating_add(1);
            }
        }
        self.trail.cut(level);
        self.propagation.cut(self.trail.len());
        self.lemmas.cut(self.trail.len());
        self.rounds.cut();
        self.formula.learn(place, conflict);
        self.used[place] = self.conflicts;
        self.glue[place] = glue;
        self.conflict = None;
        self.activity.decay();
        if let Some(l) = conflict.minus(self.trail.false_literals()).only() {
            self.put(l, Reason::Clause(c));
        }
    }
}

/// The lowest place that is not taken.
fn free_place(taken: u128) -> Option<u16> {
    let place = (!taken).trailing_zeros();
    if place < 128 {
        Some(place as u16)
    } else {
        None
    }
}

/// The claims below a number, as a mask.
fn below(claims: usize) -> u128 {
    if claims == 0 {
        0
    } else {
        u128::MAX >> (128 - claims.min(128))
    }
}
