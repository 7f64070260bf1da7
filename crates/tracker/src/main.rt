//! The tracker's command line: `tracker STORE WORDS..`, the request lines on standard input, the replies on
//! standard output; `tracker STORE dump` and `tracker STORE restore`, all rows out and in; `tracker STORE amend`, another setup on standard
//! input; or `tracker STORE serve PORT WORKERS`, requests over HTTP. The status is that of the command.
#![tactic(auto)]

use file_ends::Ended;
use file_runs::{end_run, run_over_files};
use keeper_told::open_told;
use request_lines::{Sink, Source};
use setup_places::{Keeping, help_on};
use sqlite::{Error, ErrorCode, FileFrom, Unknown};
use status_texts::SETUP_LIMIT;
use std::alloc::Global;
use std::process::ExitCode;
use std::{env, io, mem};
use store_servers::{FileKeeper, serve_file, serve_memory};
use tracker_amend::{amend_setup, is_amend};
use tracker_backup::{back_up, is_backup};
use tracker_cli::{Reading, Writing, run};
use tracker_keeper::{Keeper, MemoryKeeper};

/// The words are none of the command's.
const NO_COMMAND: u8 = 1;

/// The store could not be opened.
const NO_STORE: u8 = 4;

/// There was not enough memory.
const NO_MEMORY: u8 = 6;

/// The input is no setup.
const NO_SETUP: u8 = 8;

fn main(rt: HostRuntime) -> ExitCode {
    let alloc = rt.alloc();
    let mut words = Vec::new(alloc);
    let Ok(args) = env::args(&rt) else {
        return ExitCode::from(NO_MEMORY);
    };
    let mut args = args.skip(1);
    let store = args.next();
    for word in args {
        if words.push(word).is_err() {
            return ExitCode::from(NO_MEMORY);
        }
    }
    let path = match &store {
        Some(name) if name.as_str() != ":memory:" => Some(name.as_str()),
        _ => None,
    };
    let status = match (path, is_serve(&words)) {
        (Some(path), false) => in_files(&rt, &words, path),
        (None, false) => in_memory(&rt, &words),
        // The kit's runtime waits in `main` alone.
        (Some(path), true) => match open_told(&rt, path, Unknown) {
            Ok(keeper) => {
                let (status, keeper) = serve_file(&rt, &words, FileKeeper { keeper });
                leave(&rt, end_run(&rt, keeper.keeper));
                served(&rt, status)
            }
            Err(error) => not_opened(&rt, error),
        },
        (None, true) => match MemoryKeeper::new(alloc, &[], Vec::new(alloc)) {
            Ok(keeper) => {
                let (status, keeper) = serve_memory(&rt, &words, keeper);
                mem::forget(keeper);
                served(&rt, status)
            }
            Err(_) => NO_MEMORY,
        },
    };
    ExitCode::from(status)
}

// Carries out the words over rows in memory, which go with the process.
fn in_memory(rt: &HostRuntime, words: &[String]) -> u8 {
    let Ok(keeper) = MemoryKeeper::new(rt.alloc(), &[], Vec::new(rt.alloc())) else {
        return NO_MEMORY;
    };
    let mut input = Keeping::new(rt.alloc(), Reading::new(rt.reader()), to_keep(words));
    let mut out = Writing::new(io::writer(rt));
    let (status, keeper) = if is_backup(words) {
        back_up(rt.alloc(), words, &mut input, &mut out, keeper)
    } else if is_amend(words) {
        amended(rt.alloc(), &mut input, &mut out, keeper)
    } else {
        run(rt.alloc(), words, &mut input, &mut out, keeper)
    };
    mem::forget(keeper);
    help(rt, status, &input);
    status
}

// The same over an SQLite file, which is made where there is none.
fn in_files(rt: &HostRuntime, words: &[String], path: &str) -> u8 {
    if is_backup(words) {
        return back_up_files(rt, words, path);
    }
    if is_amend(words) {
        return amend_files(rt, path);
    }
    let mut input = Keeping::new(rt.alloc(), Reading::new(rt.reader()), to_keep(words));
    let mut out = Writing::new(io::writer(rt));
    match run_over_files(rt, words, path, Unknown, &mut input, &mut out) {
        Ok((status, end)) => {
            leave(rt, end);
            help(rt, status, &input);
            status
        }
        Err(error) => not_opened(rt, error),
    }
}

// Writes the rows of a file as lines, or reads them into one.
fn back_up_files(rt: &HostRuntime, words: &[String], path: &str) -> u8 {
    let mut input = Reading::new(rt.reader());
    let mut out = Writing::new(io::writer(rt));
    match open_told(rt, path, Unknown) {
        Ok(keeper) => {
            let (status, keeper) = back_up(rt.alloc(), words, &mut input, &mut out, keeper);
            leave(rt, end_run(rt, keeper));
            status
        }
        Err(error) => not_opened(rt, error),
    }
}

// Gives the setup on standard input to the tracker of a file.
fn amend_files(rt: &HostRuntime, path: &str) -> u8 {
    let mut input = Keeping::new(rt.alloc(), Reading::new(rt.reader()), SETUP_LIMIT as u32);
    let mut out = Writing::new(io::writer(rt));
    match open_told(rt, path, Unknown) {
        Ok(keeper) => {
            let (status, keeper) = amended(rt.alloc(), &mut input, &mut out, keeper);
            leave(rt, end_run(rt, keeper));
            help(rt, status, &input);
            status
        }
        Err(error) => not_opened(rt, error),
    }
}

// Gives the setup that is read to the tracker whose rows the keeper has, and hands the keeper back.
fn amended<S: Source, T: Sink, P: Keeper + Drop>(
    alloc: Global,
    input: &mut S,
    out: &mut T,
    keeper: P,
) -> (u8, P) {
    let mut keeper = keeper;
    let status = amend_setup(alloc, input, out, &mut keeper);
    (status, keeper)
}

// Says where the database file isn't whole by itself: nothing is lost, but only file and log together hold the tracker then.
fn leave(rt: &HostRuntime, end: Ended<FileFrom<Unknown>>) {
    if !end.is_whole() {
        let _ = eprintln!(rt; "log");
    }
}

// How many bytes of the input are kept: all of a setup, so that it can be said where its fault is.
fn to_keep(words: &[String]) -> u32 {
    match words.first() {
        Some(word) if word.as_str() == "init" || word.as_str() == "amend" => SETUP_LIMIT as u32,
        _ => 0,
    }
}

// Says where the fault of the text that was read is to be looked for, where it is no setup and that is told.
fn help<S: Source + Drop>(rt: &HostRuntime, status: u8, input: &Keeping<S>) {
    if status != NO_SETUP {
        return;
    }
    if let Ok(Some(line)) = help_on(rt.alloc(), input.kept()) {
        let _ = eprint!(rt; "{}", line.as_str());
    }
}

// Says that there is no store, but for want of memory.
fn not_opened(rt: &HostRuntime, error: Error) -> u8 {
    if let Error::SqliteFailure(ErrorCode::OutOfMemory) = error {
        return NO_MEMORY;
    }
    let _ = eprintln!(rt; "store");
    NO_STORE
}

fn is_serve(words: &[String]) -> bool {
    match words.first() {
        Some(word) => word.as_str() == "serve",
        None => false,
    }
}

// Says how the words are to be where they are none of a server's.
fn served(rt: &HostRuntime, status: u8) -> u8 {
    if status == NO_COMMAND {
        let _ = eprintln!(rt; "usage: serve PORT WORKERS");
    }
    status
}
