//! The command line.
use clap::error::ErrorKind;
use clap::{Arg, ArgAction, ArgMatches, Command, Error, value_parser};
use std::alloc::{AllocError, Global};

/// The program's version, and the toolchain whose checker proved it: people rely on a verdict.
const VERSION: &str = "0.2.0, proved by rattle-kit-13f logic dac8208d650f15bf";

const ABOUT: &str = "Decides by rule books which drawings of a face may exist";

const STATUSES: &str =
    "Exit status: 0, or 1 where anything is at fault. With --exit-code 10 for fit, 20 for no fit, 0 for neither.";

/// What is done with a history's steps.
#[derive(Clone, Copy, PartialEq, Eq, Debug)]
pub struct Replaying {
    /// Show what each step changes of the trail and the conflict, and why one is refused.
    pub states: bool,
    /// Stop at the first step that is refused.
    pub strict: bool,
}

/// How a book is solved, and what is said of it.
#[derive(Clone, Copy, PartialEq, Eq, Debug)]
pub struct Solving<'a> {
    /// In place of the book's own allowance.
    pub allowance: Option<u32>,
    pub stats: bool,
    pub progress: bool,
    /// Where the book is written with every step.
    pub log: Option<&'a str>,
}

/// What is done with books.
#[derive(Clone, Copy, PartialEq, Eq, Debug)]
pub enum Job<'a> {
    Ask,
    Replay(Replaying),
    Solve(Solving<'a>),
}

/// What the command line asks for.
#[derive(Drop)]
pub struct Options<'a> {
    pub job: Job<'a>,
    /// Tell the verdict by the exit status.
    pub exit_code: bool,
    pub files: Vec<&'a str>,
}

fn files<'a>(heap: Global) -> Arg<'a> {
    Arg::new(heap, "FILE")
        .required(true)
        .num_args(1..)
        .action(ArgAction::Append)
        .help("Books; - is standard input")
}

fn flag<'a>(heap: Global, name: &'a str, help: &'a str) -> Arg<'a> {
    Arg::new(heap, name)
        .long(name)
        .action(ArgAction::SetTrue)
        .help(help)
}

fn exit_code<'a>(heap: Global) -> Arg<'a> {
    flag(
        heap,
        "exit-code",
        "End with 10 for fit and 20 for no fit; one book",
    )
}

fn ask<'a>(heap: Global) -> Result<Command<'a>, AllocError> {
    Command::new(heap, "ask")
        .about("Answer the calls of books")
        .arg(files(heap))
}

fn replay<'a>(heap: Global) -> Result<Command<'a>, AllocError> {
    Command::new(heap, "replay")
        .about("Check the steps of histories")
        .arg(flag(
            heap,
            "state",
            "Show what each step changes, and why one is refused",
        ))?
        .arg(flag(
            heap,
            "strict",
            "Stop at the first refused step, with exit status 1",
        ))?
        .arg(exit_code(heap))?
        .arg(files(heap))
}

fn solve<'a>(heap: Global) -> Result<Command<'a>, AllocError> {
    let allowance = Arg::new(heap, "allowance")
        .long("allowance")
        .value_name("N")
        .value_parser(value_parser!(u32))
        .help("Allow this many steps, in place of the book's own allowance");
    let log = Arg::new(heap, "log")
        .long("log")
        .value_name("OUT")
        .help("Write the book with every step, for replay; one book");
    Command::new(heap, "solve")
        .about("Search books for a fit")
        .arg(allowance)?
        .arg(flag(
            heap,
            "stats",
            "Say how many steps of each kind there were, and how long they took",
        ))?
        .arg(flag(
            heap,
            "progress",
            "Say on standard error how far the search is, about once a second",
        ))?
        .arg(log)?
        .arg(exit_code(heap))?
        .arg(files(heap))
}

fn inkstep<'a>(heap: Global) -> Result<Command<'a>, AllocError> {
    Command::new(heap, "inkstep")
        .version(VERSION)
        .about(ABOUT)
        .after_help(STATUSES)
        .subcommand_required(true)
        .arg_required_else_help(true)
        .subcommand(solve(heap)?)?
        .subcommand(replay(heap)?)?
        .subcommand(ask(heap)?)
}

/// What is asked of the books, by the words of its command.
fn job_of<'a>(name: &str, matches: &ArgMatches<'a>) -> Job<'a> {
    match name {
        "solve" => Job::Solve(Solving {
            allowance: matches.get_one::<u32>("allowance"),
            stats: matches.get_flag("stats"),
            progress: matches.get_flag("progress"),
            log: matches.get_str("log"),
        }),
        "replay" => Job::Replay(Replaying {
            states: matches.get_flag("state"),
            strict: matches.get_flag("strict"),
        }),
        _ => Job::Ask,
    }
}

fn options_of<'a>(heap: Global, matches: &ArgMatches<'a>) -> Result<Options<'a>, AllocError> {
    let mut options = Options {
        job: Job::Ask,
        exit_code: false,
        files: Vec::new(heap),
    };
    if let Some((name, matches)) = matches.subcommand() {
        options.job = job_of(name, matches);
        options.exit_code = matches.get_flag("exit-code");
        options
            .files
            .extend_from_slice(matches.get_strs("FILE").unwrap_or(&[]))?;
    }
    Ok(options)
}

/// What the options want that several books cannot have.
fn wants_one_book(options: &Options<'_>) -> Option<&'static str> {
    if options.files.len() < 2 {
        return None;
    }
    match options.job {
        Job::Solve(Solving { log: Some(_), .. }) => Some("--log takes one book"),
        _ if options.exit_code => Some("--exit-code takes one book"),
        _ => None,
    }
}

/// A mistake in the words of a command, told with how the command is used.
fn mistake(heap: Global, job: Job<'_>, what: &str) -> Result<Error, AllocError> {
    let mut command = match job {
        Job::Solve(_) => solve(heap)?.bin_name("inkstep solve")?,
        Job::Replay(_) => replay(heap)?.bin_name("inkstep replay")?,
        Job::Ask => ask(heap)?.bin_name("inkstep ask")?,
    };
    command.error(ErrorKind::TooManyValues, what)
}

/// Reads the words of the command line, the program's own name first.
pub fn read<'a>(heap: Global, words: &'a [String]) -> Result<Options<'a>, Error> {
    let matches = inkstep(heap)?.try_get_matches_from(words)?;
    let options = options_of(heap, &matches)?;
    match wants_one_book(&options) {
        Some(wanted) => Err(mistake(heap, options.job, wanted)?),
        None => Ok(options),
    }
}
