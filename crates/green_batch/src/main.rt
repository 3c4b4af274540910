//! Runs one session of requests, from standard input to standard output, over the files of a folder.
#![tactic(auto)]

use green_io::{FolderDisk, StdSink, StdSource, SystemClock};
use green_top::{Report, run_batch};
use std::process::ExitCode;
use std::rt::Env;
use std::{env, io};

/// The status where words cannot be read, which are wrong words.
const USAGE: u8 = 2;

/// The status where there is no memory for the names of the folder's files.
const NO_MEMORY: u8 = 9;

/// Tells on standard error why a run ended; one that went well says nothing.
fn tell(rt: &impl Eprint, status: u8, place: u64) -> io::Result<()> {
    match status {
        2 => eprintln!(rt;
            "green_batch: usage: green_batch FOLDER [--limits ENTRIES TEXT FLUSH or --generate START]"
        ),
        3 => eprintln!(rt; "green_batch: malformed at {place}"),
        4 => eprintln!(rt; "green_batch: truncated at {place}"),
        5 => eprintln!(rt; "green_batch: read fault"),
        6 => eprintln!(rt; "green_batch: write fault"),
        7 => eprintln!(rt; "green_batch: disk fault"),
        8 => eprintln!(rt; "green_batch: damaged log at {place}"),
        9 => eprintln!(rt; "green_batch: out of memory"),
        10 => eprintln!(rt; "green_batch: input too long"),
        11 => eprintln!(rt; "green_batch: no session number left"),
        _ => Ok(()),
    }
}

/// The words of the command line, from the program's name on. Each word has to be UTF-8.
fn words_of(rt: &(impl Env + AllocGlobal)) -> io::Result<Vec<String>> {
    Ok(env::args(rt)?.collect(rt.alloc())?)
}

/// The folder that the words name. Where they name none they are wrong, and no file is opened.
fn folder_in(words: &[String]) -> &str {
    match words.get(1) {
        Some(folder) => folder.as_str(),
        None => "",
    }
}

/// Runs the session that comes from standard input, at the times of the system's clock.
fn run(rt: HostRuntime, words: &[String], report: &mut Report) -> u8 {
    let Ok(mut disk) = FolderDisk::new(rt, folder_in(words)) else {
        return NO_MEMORY;
    };
    let mut clock = SystemClock::new(rt);
    let mut source = StdSource::new(rt.stdin());
    let mut sink = StdSink::new(rt.stdout());
    run_batch(
        rt.alloc(),
        words,
        &mut clock,
        &mut source,
        &mut sink,
        &mut disk,
        report,
    )
}

fn main(rt: HostRuntime) -> ExitCode {
    let mut report = Report::new(rt.alloc());
    let status = match words_of(&rt) {
        Ok(words) => run(rt, words.as_slice(), &mut report),
        Err(_) => USAGE,
    };
    // There is nowhere left to tell of a line that cannot be written.
    let _ = tell(&rt, status, report.place);
    ExitCode::from(status)
}
