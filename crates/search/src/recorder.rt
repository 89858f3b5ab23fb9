//! Who is told the accepted steps, one by one.
ghost use Rattle.std.specs.Prelude.{◌≡◌, OnOk, OnErr, Option, List, [], Some, None};
ghost use Rattle.rules.specs.declared.step.Step.{Step};
ghost use Rattle.search.specs.Recorders.{pushed};

use rules::Step;
use std::alloc::{AllocError, Global};

/// Is told each accepted step, in their order.
///
/// `seen` is the list of steps that a recorder has seen, or `None` where it keeps nothing and claims nothing.
pub trait Recorder {
    ghost seen: { Self → Option (List Step) };

    /// One step more was accepted. Want of memory leaves what was seen.
    fn record(&mut self, step: Step) -> Result<(), AllocError>
        ensures ok { OnOk result (seen self.new ≡ pushed (seen self.old) step) }
        ensures err { OnErr result (seen self.new ≡ seen self.old) };
}

/// Keeps nothing.
#[derive(Clone, Copy, PartialEq, Eq, Debug)]
pub struct Forgetful;

impl Recorder for Forgetful {
    ghost seen = { λ _. None };

    fn record(&mut self, _step: Step) -> Result<(), AllocError> {
        Ok(())
    }
}

/// Keeps every step.
#[derive(Drop)]
pub struct Recording {
    pub steps: Vec<Step>,
}

impl Recording {
    /// A recorder that has seen nothing.
    pub fn new(heap: Global) -> Recording
        ensures { result.steps.items ≡ [] }
    {
        Recording {
            steps: Vec::new(heap),
        }
    }
}

impl Recorder for Recording {
    ghost seen = { λ r. Some r.steps.items };

    fn record(&mut self, step: Step) -> Result<(), AllocError> {
        self.steps.push(step)?;
        Ok(())
    }
}
