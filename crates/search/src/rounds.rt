//! Rounds of trials: each literal of each free claim is tried, where that has paid of late.

/// When rounds are run, and how far the one under way has come.
#[derive(Drop)]
pub(crate) struct Rounds {
    // How often a trial implied something, as a moving average.
    rate: f64,
    // A literal that no trial implied was added since the last round.
    due: bool,
    // Times at rest since the last probe.
    rests: u32,
    // The next claim to try, in a round under way.
    pub(crate) next: Option<usize>,
}

impl Rounds {
    pub(crate) fn new() -> Rounds {
        Rounds {
            rate: 0.1,
            due: true,
            rests: 0,
            next: None,
        }
    }

    pub(crate) fn literal_added(&mut self) {
        self.due = true;
    }

    pub(crate) fn cut(&mut self) {
        self.due = true;
        self.next = None;
    }

    /// Whether a round goes on, or one begins now.
    pub(crate) fn is_on(&mut self) -> bool {
        if self.next.is_some() {
            return true;
        }
        if !self.due {
            return false;
        }
        self.due = false;
        self.rests = self.rests.saturating_add(1);
        if self.rate < 0.02 && self.rests < 64 {
            return false;
        }
        self.rests = 0;
        self.next = Some(0);
        true
    }

    pub(crate) fn tried(&mut self, implied: bool) {
        let hit = if implied { 1.0 } else { 0.0 };
        self.rate += 0.05 * (hit - self.rate);
    }
}
