//! The command-line tool: `inkstep solve FILE` searches a book for a fit, `inkstep replay FILE` checks the steps of a
//! history, `inkstep ask FILE` answers the calls of a book.
#![tactic(auto)]

mod answers;
mod failure;
mod misfit;
mod options;
mod output;
mod reading;
mod refused;
mod replays;
mod solves;
mod states;
mod text;
mod watch;

use answers::answers;
use book::{Book, Claims, Purpose};
use clap::error::ErrorKind;
use failure::{Failed, Failure, NO_MEMORY};
use options::{Job, Options, Solving};
use output::Log;
use reading::{Reading, Told};
use replays::replayed;
use rules::Verdict;
use solves::solved;
use std::alloc::AllocError;
use std::fmt::Display;
use std::io::Read;
use std::process::ExitCode;
use std::{env, fs, io};
use text::FileName;
use theory::{Theory, Unmade};

fn bytes_of(rt: &HostRuntime, file: &str) -> io::Result<Vec<u8>> {
    if file != "-" {
        return fs::read(rt, file);
    }
    let mut bytes = Vec::new(rt.alloc());
    rt.stdin().read_to_end(&mut bytes)?;
    Ok(bytes)
}

fn purpose_of(job: Job<'_>) -> Purpose {
    match job {
        Job::Ask => Purpose::Ask,
        Job::Replay(_) | Job::Solve(_) => Purpose::Replay,
    }
}

/// What a theory says to a book. Calls are answered without the text, so it is let go before.
fn served<T: Theory + Drop>(
    rt: &HostRuntime,
    made: Result<T, Unmade>,
    job: Job<'_>,
    file: &str,
    text: Vec<u8>,
    book: &Book,
) -> Result<Told, Failure> {
    let reading = Reading {
        file,
        text: &text,
        book,
    };
    let mut theory = made.map_err(|why| reading.unmade(why))?;
    match job {
        Job::Ask => {
            drop(text);
            Ok(Told::plain(answers(rt.alloc(), &mut theory, &book.calls)?))
        }
        Job::Replay(replaying) => replayed(rt.alloc(), theory, reading, replaying),
        Job::Solve(solving) => solved(rt, theory, reading, solving),
    }
}

/// What is said of one book.
fn told(rt: &HostRuntime, job: Job<'_>, file: &str) -> Result<Told, Failure> {
    let heap = rt.alloc();
    let text = bytes_of(rt, file)?;
    let mut book = book::read(heap, purpose_of(job), &text)?;
    if let Job::Solve(
        Solving {
            allowance: Some(allowance),
            ..
        },
    ) = job
    {
        book.allowance = allowance;
    }
    match &book.claims {
        Claims::Equality(claims) => {
            let made = equality::make(heap, &book.terms, claims);
            served(rt, made, job, file, text, &book)
        }
        Claims::Distance(claims) => {
            let made = distance::make(heap, &book.terms, claims);
            served(rt, made, job, file, text, &book)
        }
    }
}

/// The name of the log, where one is wanted.
fn log_of<'a>(job: Job<'a>) -> Option<&'a str> {
    match job {
        Job::Solve(solving) => solving.log,
        _ => None,
    }
}

/// What is said of one book, below its name if it is `named`; the log is written, if one is wanted.
fn tell<'a>(
    rt: &HostRuntime,
    job: Job<'a>,
    file: &'a str,
    named: bool,
    all: &mut Told,
) -> Result<(), Failed<'a>> {
    let log = log_of(job)
        .map(|name| Log::begin(rt, name, file))
        .transpose()?;
    match told(rt, job, file) {
        Ok(told) => {
            if let Some(log) = log {
                log.finish(rt, told.log.as_ref().map_or("", |text| text.as_str()))?;
            }
            add(all, file, named, told).map_err(|e| Failed {
                file,
                failure: Failure::from(e),
            })
        }
        Err(failure) => {
            if let Some(log) = log {
                log.give_up(rt);
            }
            Err(Failed { file, failure })
        }
    }
}

/// Adds what is said of one book. What is said of a book alone is all there is, and is not copied.
fn add(all: &mut Told, file: &str, named: bool, told: Told) -> Result<(), AllocError> {
    if !named {
        *all = told;
        return Ok(());
    }
    let file = FileName(file);
    writeln!(all.text, "{file}:")?;
    all.text.push_str(told.text.as_str())?;
    all.verdict = told.verdict;
    Ok(())
}

/// What is said of each book, of several below the book's name; and the verdict on the last.
fn tell_all<'a>(rt: &HostRuntime, options: &Options<'a>) -> Result<Told, Failed<'a>> {
    let mut all = Told::plain(String::new(rt.alloc()));
    let named = options.files.len() > 1;
    for file in options.files.iter().copied() {
        tell(rt, options.job, file, named, &mut all)?;
    }
    Ok(all)
}

/// The exit status that tells a verdict, as solvers do.
fn status_of(verdict: Option<Verdict>) -> u8 {
    match verdict {
        None => 0,
        Some(Verdict::Fit) => 10,
        Some(Verdict::NoFit) => 20,
    }
}

/// Says what went wrong. Where standard error takes no more, nothing can be said.
fn complain<D: Display + Drop>(rt: &HostRuntime, what: D) -> ExitCode {
    let _ = rt.eprintln(what);
    ExitCode::FAILURE
}

/// There is no memory before there is a file to name.
fn without_memory(rt: &HostRuntime) -> ExitCode {
    complain(rt, format_args!("inkstep: {NO_MEMORY}"))
}

/// Prints, and ends with a status. A reader who closed the pipe wants no word.
fn print<D: Display + Drop>(rt: &HostRuntime, what: D, status: u8) -> ExitCode {
    match rt.print(what) {
        Ok(()) => ExitCode::from(status),
        Err(e) if e.kind() == io::ErrorKind::BrokenPipe => ExitCode::FAILURE,
        Err(e) => complain(rt, format_args!("inkstep: standard output: {e}")),
    }
}

/// Does what the words ask for.
fn run(rt: &HostRuntime, words: &[String]) -> ExitCode {
    let options = match options::read(rt.alloc(), words) {
        Ok(options) => options,
        Err(e) if e.kind() == ErrorKind::OutOfMemory => {
            return without_memory(rt);
        }
        Err(e) if e.use_stderr() => {
            let _ = rt.eprint(e);
            return ExitCode::FAILURE;
        }
        Err(e) => return print(rt, e, 0),
    };
    match tell_all(rt, &options) {
        Ok(told) if options.exit_code => print(rt, told.text, status_of(told.verdict)),
        Ok(told) => print(rt, told.text, 0),
        Err(failed) => complain(rt, failed),
    }
}

/// The words of the command line, the program's name first.
fn words_of(rt: &HostRuntime) -> io::Result<Vec<String>> {
    Ok(env::args(rt)?.collect(rt.alloc())?)
}

fn main(rt: HostRuntime) -> ExitCode {
    match words_of(&rt) {
        Ok(words) => run(&rt, &words),
        Err(e) => match e.kind() {
            io::ErrorKind::OutOfMemory => without_memory(&rt),
            io::ErrorKind::InvalidData => {
                complain(&rt, "inkstep: a word of the command line is not UTF-8")
            }
            _ => complain(&rt, format_args!("inkstep: the command line: {e}")),
        },
    }
}
