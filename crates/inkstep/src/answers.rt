//! The answers of a theory to the calls of a book, one line for each.
use crate::failure::Failure;
use crate::text::{put_fit, put_row};
use book::{Asked, Call};
use std::alloc::{AllocError, Global};
use theory::{Found, Literal, Refusal, Theory, Trial};

/// A theory while its calls are answered: the trials that are open, the latest last, and the answers so far.
struct Session<'t, T: Theory> {
    heap: Global,
    theory: &'t mut T,
    open: Vec<Trial>,
    out: String,
}

impl<'t, T: Theory> Session<'t, T> {
    fn new(heap: Global, theory: &'t mut T) -> Session<'t, T> {
        Session {
            heap,
            theory,
            open: Vec::new(heap),
            out: String::new(heap),
        }
    }

    /// The line of a call that answers no more than whether it was refused.
    fn plain(&mut self, call: Call, told: Result<(), Refusal>) -> Result<(), AllocError> {
        match told {
            Ok(()) => writeln!(self.out, "{call}: ok"),
            Err(refusal) => self.refused(call, refusal),
        }
    }

    fn refused(&mut self, call: Call, refusal: Refusal) -> Result<(), AllocError> {
        let number = refusal.number();
        writeln!(self.out, "{call}: refused {number}")
    }

    fn query(&mut self, len: Option<u16>) -> Result<(), AllocError> {
        let call = Call::Query(len);
        let room = len.map_or(self.theory.claims(), usize::from);
        let mut core = vec![in self.heap; 0u16; room]?;
        match self.theory.query(&mut core) {
            Ok(Found::Possible) => writeln!(self.out, "{call}: possible"),
            Ok(Found::Impossible(n)) => {
                write!(self.out, "{call}: impossible")?;
                put_row(&mut self.out, core.get(..n).unwrap_or(&core))
            }
            Err(refusal) => self.refused(call, refusal),
        }
    }

    fn write(&mut self, len: Option<u16>) -> Result<(), AllocError> {
        let call = Call::Write(len);
        let terms = self.theory.terms();
        let room = len.map_or(terms, usize::from);
        let mut place = vec![in self.heap; 0i64; room]?;
        match self.theory.write(&mut place) {
            Ok(()) => {
                write!(self.out, "{call}:")?;
                put_fit(&mut self.out, place.get(..terms).unwrap_or(&place))
            }
            Err(refusal) => self.refused(call, refusal),
        }
    }

    fn open_trial(&mut self, l: Literal) -> Result<(), Failure> {
        let call = Call::Trial(l);
        match Trial::open(self.theory, l) {
            Ok(trial) => {
                if let Err(back) = self.open.push(trial) {
                    back.value.close(self.theory);
                    return Err(Failure::NoMemory(AllocError));
                }
                self.plain(call, Ok(()))?;
            }
            Err(refusal) => self.refused(call, refusal)?,
        }
        Ok(())
    }

    fn close_trial(&mut self, line: usize) -> Result<(), Failure> {
        let Some(trial) = self.open.pop() else {
            return Err(Failure::NoTrial { line });
        };
        trial.close(self.theory);
        self.plain(Call::Close, Ok(()))?;
        Ok(())
    }

    fn answer(&mut self, asked: Asked) -> Result<(), Failure> {
        match asked.call {
            Call::Assert(l) => {
                let told = self.theory.assert(l);
                self.plain(asked.call, told)?;
            }
            Call::TakeBack(k) => {
                let told = self.theory.take_back(k);
                self.plain(asked.call, told)?;
            }
            Call::Query(len) => self.query(len)?,
            Call::Write(len) => self.write(len)?,
            Call::Trial(l) => self.open_trial(l)?,
            Call::Close => self.close_trial(asked.line)?,
        }
        Ok(())
    }

    fn answer_all(&mut self, calls: &[Asked]) -> Result<(), Failure> {
        for asked in calls {
            self.answer(*asked)?;
        }
        Ok(())
    }

    /// Closes the trials that are still open, the latest first, and hands out the answers.
    fn end(self) -> String {
        let Session {
            heap: _,
            theory,
            mut open,
            out,
        } = self;
        while let Some(trial) = open.pop() {
            trial.close(theory);
        }
        open.destroy_empty();
        out
    }
}

/// One line for each call: its words, a colon, and the answer.
pub fn answers<T: Theory>(
    heap: Global,
    theory: &mut T,
    calls: &[Asked],
) -> Result<String, Failure> {
    let mut session = Session::new(heap, theory);
    let told = session.answer_all(calls);
    let out = session.end();
    told?;
    Ok(out)
}
