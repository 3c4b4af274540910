//! One run of the program.
ghost use Rattle.std.specs.Prelude.{◌≡◌, ◌+◌, ◌≤◌, ℕ, List, map, string_bytes};
ghost use Rattle.entry_codec.specs.Logged.{PlainLogged};
ghost use Rattle.edit_log.specs.Images.{AsRead};
ghost use Rattle.edit_log.specs.Second.{HoldsWhole};
ghost use Rattle.world_rules.specs.Placed.{AllPlaced};
ghost use Rattle.world_rules.specs.World.{empty_world};
ghost use Rattle.world_rules.specs.Legal.{Exchange};
ghost use Rattle.green_store.specs.Sessions.{greatest_session};
ghost use Rattle.green_top.specs.Outcome.{HasServedAlone};
ghost use Rattle.green_top.specs.Batch.{BeginsWith, fault_status, fault_place};
ghost use Rattle.green_top.specs.Call.{IsCall};
ghost use Rattle.green_top.specs.Times.{RunStep};
ghost use Rattle.green_top.specs.Words.{AreNoWords, AreGenerateWords};
ghost use Rattle.green_top.specs.inside.Conversation.{io_by};
ghost use Rattle.green_top.specs.inside.Enduring.{RunsThrough};
ghost use Rattle.green_top.specs.inside.Forms.{limits_of, own_end, IsFormRun, IsGenerated, IsBehind};

use crate::beside::{Serves, serve_beside};
use crate::generate::serve_generated;
use crate::report::Report;
use crate::session::Served;
use crate::session_end::SessionEnd;
use crate::words::{Form, form_in};
use green_io::{Clock, Disk, Sink, Source};
use green_store::laws::images_are_kept;
use green_store::{OpenFault, Store};
use std::alloc::Global;

/// The status of a run whose words are no form of the program.
const USAGE: u8 = 2;

/// The status of a run whose store was not opened.
fn status_of(fault: OpenFault) -> u8
    ensures { result ≡ fault_status fault }
{
    match fault {
        OpenFault::Disk => 7,
        OpenFault::Damaged { .. } => 8,
        OpenFault::Memory => 9,
    }
}

/// The offset in the logged area that the fault names, or 0.
fn place_of(fault: OpenFault) -> u64
    ensures { result ≡ fault_place fault }
{
    match fault {
        OpenFault::Damaged { at } => at,
        _ => 0,
    }
}

/// Serves the session of this form over a store that has just opened.
fn serve_form<C: Clock, S: Source, K: Sink, D: Disk>(
    alloc: Global,
    form: &Form,
    serves: &mut Serves,
    clock: &mut C,
    source: &mut S,
    sink: &mut K,
    disk: &mut D,
) -> Served
    requires placed { AllPlaced empty_world serves.old.store.history }
    requires unnumbered { serves.old.session ≡ 0 }
    requires limits { serves.old.store.limits ≡ limits_of form.now }
    ensures run { let io = io_by S.left S.fault_count K.taken K.fault_count in
        (exchanges : List Exchange) × IsFormRun form.now serves.new.session (io source.old sink.old (D.fault_count disk.old)) (io source.new sink.new (D.fault_count disk.new))
        serves.new.store.history exchanges result.points.items result.bytes_read result.end
        × HasServedAlone serves.old.store.history serves.new.session serves.new.store.history exchanges (D.fault_count disk.old) (D.fault_count disk.new)
        × (behind : List RunStep) × IsBehind form.now behind
        × RunsThrough (own_end form.now result.end) serves.old.store.limits (greatest_session serves.old.store.history + 1) serves.new.session exchanges behind (C.coming clock.old) (C.coming clock.new) (D.state disk.old) serves.old.store (D.fault_count disk.old) (D.state disk.new) serves.new.store (D.fault_count disk.new) }
    ensures source { IsGenerated form.now → source.new ≡ source.old }
{
    match form {
        Form::Session { .. } => serve_beside(alloc, serves, clock, source, sink, disk),
        Form::Generate { start } => serve_generated(alloc, *start, serves, clock, sink, disk),
    }
}

/// Runs one session over the log of a disk: opens it, answers the session's requests as they come from the source, writes each
/// reply to the sink before it reads on, and reports the history, and when its kept entries were made.
///
/// The words are the program's name and a folder, and perhaps `--limits` with the greatest numbers of kept entries and
/// of content bytes and the number of entries between pages, each in decimal. Or behind the folder stands `--generate` with a
/// number, from which the session's 2,010 requests are made: the source is left alone, and in place of the replies a summary of
/// seven lines is written once the session is over.
///
/// The number is the status that the program ends with: 0 where a quit was answered or the input ended between requests, 2
/// where the words are wrong, 3 where the input is malformed and 4 where it is cut off, both with the place, 5 and 6 where the
/// source or the sink failed, 7 where the disk failed while the log was opened, 8 where the log is damaged, with the place, 9
/// for want of memory, 10 where as many bytes were read as a session may give and another read was needed, and 11 where no
/// session number is left. Replies to whole requests in front of what ends a session are written, and a session that began has
/// its End.
///
/// An edit is in the log before its reply is written. Once opened, a disk that fails ends no run: the edit is refused, and a
/// crash, or the end of the run, may leave it in the log or not.
///
/// Behind each reply the trees and pages are put right by one step, and behind a generated session by as many as are due. They
/// change no reply. Where the disk fails while pages are written, no status tells it.
///
/// The clock is asked once before each step: the session's Begin, each request, each background step, and its End. A change that is
/// kept is logged with the moment of its step. While nothing is opened the clock is not asked.
pub fn run_batch<C: Clock, S: Source, K: Sink, D: Disk>(
    alloc: Global,
    words: &[String],
    clock: &mut C,
    source: &mut S,
    sink: &mut K,
    disk: &mut D,
    report: &mut Report,
) -> u8
    ensures call { let io = io_by S.left S.fault_count K.taken K.fault_count in
        IsCall (map string_bytes words.now) (C.coming clock.old) (C.coming clock.new) (D.state disk.old) (D.state disk.new) (io source.old sink.old (D.fault_count disk.old)) (io source.new sink.new (D.fault_count disk.new)) report.new result }
    ensures source { (start : ℕ) → AreGenerateWords (map string_bytes words.now) start → source.new ≡ source.old }
    ensures untouched { AreNoWords (map string_bytes words.now) → disk.new ≡ disk.old }
    ensures whole { (rows : List PlainLogged) → AsRead (D.state disk.old).reads (HoldsWhole rows) → BeginsWith rows report.new result }
    ensures never_falls { D.fault_count disk.old ≤ D.fault_count disk.new }
{
    *report = Report::new(alloc);
    let Some(form) = form_in(words) else {
        return USAGE;
    };
    let store = match Store::open(alloc, disk, form.limits()) {
        Ok(store) => store,
        Err(fault) => {
            report.place = place_of(fault);
            return status_of(fault);
        }
    };
    let opened = store.history().len() as u64;
    let mut serves = Serves { store, session: 0 };
    let Served {
        end,
        points,
        bytes_read,
    } = serve_form(alloc, &form, &mut serves, clock, source, sink, disk);
    // So each image has what the store has.
    images_are_kept(disk, &serves.store);
    let Serves { store, session: _ } = serves;
    let (history, moments) = store.into_log();
    report.history = history;
    report.moments = moments;
    report.opened = opened;
    report.points = points;
    report.bytes_read = bytes_read;
    report.place = end.place();
    end.status()
}
