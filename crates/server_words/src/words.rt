//! The words of a command line.
ghost use Rattle.std.specs.Prelude.{◌≡◌, map, codes, string_bytes, IfOk, IfErr, IfSome, IfNone};
ghost use Rattle.server_words.specs.Words.{is_folder, AreWords, AreNoWords, NameServer};
ghost use Rattle.server_words.specs.Read.{IsForm, NameNoServer, meaning_of};
ghost use Rattle.server_words.specs.Command.{server_app, AreMatches};
ghost use Rattle.clap.specs.Simple.{app_of};

use crate::address::is_address;
use crate::number::number_within;
use clap::{Arg, ArgMatches, Command, Error};
use std::alloc::{AllocError, Global};
use tumbler::{Memory, Text};

const USAGE: &str = "Usage: green_server <FOLDER> <ADDRESS> <WORKERS> [SESSIONS]";

/// What the words of a command line ask for.
#[derive(Drop)]
pub struct ServerWords {
    /// The folder that the files lie in.
    pub folder: Text,
    /// Where to listen, as `127.0.0.1:7088`.
    pub address: Text,
    /// How many workers serve, from 1 to 64.
    pub workers: u32,
    /// After how many connections the server ends, where it ends.
    pub sessions: Option<u32>,
}

/// Why words could not be read.
#[derive(Clone, Copy, Debug, Drop, PartialEq, Eq)]
pub enum WordsFault {
    /// They are not the form of the program.
    Usage,
    /// There was no memory left to read them.
    Memory,
}

/// The numbers that words of the form name.
#[derive(Clone, Copy)]
pub(crate) struct Form {
    workers: u32,
    sessions: Option<u32>,
}

fn is_folder(word: &str) -> bool
    ensures { result ≡ is_folder word.now }
{
    match word.as_bytes().first() {
        Some(first) => *first != b'-',
        None => false,
    }
}

/// The workers that the three words name which are always there.
fn workers_in(folder: &str, address: &str, workers: &str) -> Option<u32>
    ensures some { IfSome result (NameServer folder.now address.now workers.now) }
    ensures none { IfNone result (NameNoServer folder.now address.now workers.now) }
{
    if !is_folder(folder) || !is_address(address) {
        return None;
    }
    number_within(workers, 1, 64)
}

/// The form that the words have, where they have one.
fn form_in(words: &[String]) -> Option<Form>
    ensures some { IfSome result (IsForm (map string_bytes words.now)) }
    ensures none { IfNone result (AreNoWords (map string_bytes words.now)) }
{
    match words {
        [_, folder, address, workers] => {
            let workers = workers_in(folder.as_str(), address.as_str(), workers.as_str())?;
            Some(Form {
                workers,
                sessions: None,
            })
        }
        [_, folder, address, workers, sessions] => {
            let workers = workers_in(folder.as_str(), address.as_str(), workers.as_str())?;
            let sessions = number_within(sessions.as_str(), 1, u32::MAX)?;
            Some(Form {
                workers,
                sessions: Some(sessions),
            })
        }
        _ => None,
    }
}

/// The command that reads the words.
pub(crate) fn command<'a>(alloc: Global) -> Result<Command<'a>, AllocError>
    ensures { IfOk result (λ command. app_of command ≡ server_app) }
{
    let folder = Arg::new(alloc, "FOLDER").required(true);
    let address = Arg::new(alloc, "ADDRESS").required(true);
    let workers = Arg::new(alloc, "WORKERS").required(true);
    let sessions = Arg::new(alloc, "SESSIONS");
    Command::new(alloc, "green_server")
        .arg(folder)?
        .arg(address)?
        .arg(workers)?
        .arg(sessions)
}

/// What the command finds in the words.
fn matches_in<'a>(alloc: Global, words: &'a [String]) -> Result<ArgMatches<'a>, Error>
    ensures { IfOk result (AreMatches (map string_bytes words.entry.now)) }
{
    let reader: Command<'a> = command(alloc)?;
    reader.try_get_matches_from(words)
}

/// Reads words that have this form. They are refused only for want of memory.
fn read_form(alloc: Global, words: &[String], form: Form) -> Result<ServerWords, Memory>
    requires { IsForm (map string_bytes words.now) form }
    ensures { IfOk result (λ read. AreWords (map string_bytes words.now) (meaning_of read)) }
{
    let Ok(found) = matches_in(alloc, words) else {
        return Err(Memory);
    };
    let Some(folder) = found.get_str("FOLDER") else {
        return Err(Memory);
    };
    let Some(address) = found.get_str("ADDRESS") else {
        return Err(Memory);
    };
    let folder = Text::from_slice(alloc, folder.as_bytes())?;
    let address = Text::from_slice(alloc, address.as_bytes())?;
    Ok(ServerWords {
        folder,
        address,
        workers: form.workers,
        sessions: form.sessions,
    })
}

/// Reads the words of a command line, of which the first is the program's name.
///
/// # Errors
///
/// `Usage` where the words are not the form, and `Memory` where there was none to read them.
pub fn read_words(alloc: Global, words: &[String]) -> Result<ServerWords, WordsFault>
    ensures meaning { IfOk result (λ read. AreWords (map string_bytes words.now) (meaning_of read)) }
    ensures usage { IfErr result (λ fault. fault ≡ WordsFault.Usage → AreNoWords (map string_bytes words.now)) }
    ensures refused { AreNoWords (map string_bytes words.now) → result ≡ Err WordsFault.Usage }
{
    let Some(form) = form_in(words) else {
        return Err(WordsFault::Usage);
    };
    match read_form(alloc, words, form) {
        Ok(read) => Ok(read),
        Err(Memory) => Err(WordsFault::Memory),
    }
}

/// The usage text of the command. It is spelled here, since `clap` does not promise what its own says.
///
/// # Errors
///
/// `Memory` where there was none to write it.
pub fn usage(alloc: Global) -> Result<String, Memory>
    ensures { IfOk result (λ text. string_bytes text ≡ codes "Usage: green_server <FOLDER> <ADDRESS> <WORKERS> [SESSIONS]") }
{
    Ok(String::from_str(alloc, USAGE)?)
}
