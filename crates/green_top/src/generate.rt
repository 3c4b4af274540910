//! A session whose requests the program makes itself.
ghost use Rattle.std.specs.Prelude.{◌≡◌, ◌+◌, [], ℕ, List as ListOf, IfOk};
ghost use Rattle.febe_data.specs.LimitsView.{standard_limits};
ghost use Rattle.febe_wire.specs.Sessions.{IsInputOf};
ghost use Rattle.world_rules.specs.Apply.{world_of};
ghost use Rattle.world_rules.specs.Placed.{AllPlaced};
ghost use Rattle.world_rules.specs.World.{empty_world};
ghost use Rattle.green_store.specs.Sessions.{greatest_session};
ghost use Rattle.session_generator.specs.Generated.{generated_requests};
ghost use Rattle.green_top.specs.IoState.{io_state};
ghost use Rattle.green_top.specs.Outcome.{HasServedAlone};
ghost use Rattle.green_top.specs.GeneratedRun.{IsGeneratedRun, inner_end};
ghost use Rattle.green_top.specs.Times.{RunStep, AreTends};
ghost use Rattle.green_top.specs.inside.Enduring.{RunsThrough, Settles};
ghost use Rattle.green_top.specs.Summary.{summary_of};
ghost use Rattle.green_top.specs.inside.Summing.{IsOutput, Tells, CanEnd, outcome_of, IsInnerRun};

use crate::beside::{Serves, put_right, serve_beside};
use crate::buffers::{KeptSink, ReadySource};
use crate::session::Served;
use crate::session_end::SessionEnd;
use crate::summary::summary_of;
use febe_data::{List, Memory, Text};
use febe_wire::write_request;
use green_io::{Clock, Disk, Sink};
use green_session::{Put, put_bytes};
use green_store::Store;
use session_generator::generated;
use std::alloc::Global;

/// How many background steps are made at most once the session is over.
const MOST_STEPS: u64 = 4_294_967_296;

/// What every session begins with, in its input and in its output.
const GREETING: &[u8] = b"P0~";

/// The input of a session with all requests that the start generates.
fn input_of(alloc: Global, start: u32) -> Result<Text, Memory>
    ensures { IfOk result (λ input. IsInputOf (generated_requests start) input.items) }
{
    let requests = generated(alloc, start)?;
    let mut input = Text::from_slice(alloc, GREETING)?;
    for request in requests.as_slice() {
        let spelled = write_request(alloc, request)?;
        input.extend_from_slice(spelled.as_slice())?;
    }
    Ok(input)
}

/// What comes of a session whose source has a whole input, and whose output comes into memory: a summary, or what ends the run.
fn outcome_of(end: SessionEnd) -> Result<(), SessionEnd>
    requires { CanEnd end }
    ensures { result ≡ outcome_of end }
{
    match end {
        SessionEnd::Quit | SessionEnd::End => Ok(()),
        SessionEnd::NoNumber => Err(SessionEnd::NoNumber),
        SessionEnd::WriteFault | SessionEnd::Memory | SessionEnd::Budget => Err(SessionEnd::Memory),
        _ => unreachable!(),
    }
}

/// What came of a session whose output is in memory: a summary is to be written, or this ends the run; and the points of its replies.
#[derive(Drop)]
struct Summable {
    outcome: Result<(), SessionEnd>,
    points: List<u64>,
}

/// Serves the session that the start generates, whose output comes into memory.
fn serve_input<C: Clock, D: Disk>(
    alloc: Global,
    start: u32,
    serves: &mut Serves,
    clock: &mut C,
    output: &mut KeptSink,
    disk: &mut D,
) -> Summable
    requires placed { AllPlaced empty_world serves.old.store.history }
    requires unnumbered { serves.old.session ≡ 0 }
    requires limits { serves.old.store.limits ≡ standard_limits }
    requires none_yet { output.old.taken ≡ [] }
    ensures run { (exchanges : _) × IsInnerRun start serves.new.session result.outcome serves.new.store.history exchanges result.points.items output.new.taken
        × HasServedAlone serves.old.store.history serves.new.session serves.new.store.history exchanges (D.fault_count disk.old) (D.fault_count disk.new)
        × (end : _) × (result.outcome ≡ outcome_of end)
        × RunsThrough end serves.old.store.limits (greatest_session serves.old.store.history + 1) serves.new.session exchanges [] (C.coming clock.old) (C.coming clock.new) (D.state disk.old) serves.old.store (D.fault_count disk.old) (D.state disk.new) serves.new.store (D.fault_count disk.new) }
{
    let Ok(input) = input_of(alloc, start) else {
        let outcome = Err(SessionEnd::Memory);
        let points = List::new(alloc);
        return Summable { outcome, points };
    };
    let mut source = ReadySource::new(input);
    let Served {
        end,
        points,
        bytes_read: _,
    } = serve_beside(alloc, serves, clock, &mut source, output, disk);
    let outcome = outcome_of(end);
    Summable { outcome, points }
}

/// Puts the store's trees and pages right, one step after another, until there is nothing to be done, or a step could not be
/// made for want of memory or since the disk failed.
fn settle<C: Clock, D: Disk>(alloc: Global, serves: &mut Serves, clock: &mut C, disk: &mut D)
    ensures number { serves.new.session ≡ serves.old.session }
    ensures history { serves.new.store.history ≡ serves.old.store.history }
    ensures settles { Settles (C.coming clock.old) (C.coming clock.new) (D.state disk.old) serves.old.store (D.fault_count disk.old) (D.state disk.new) serves.new.store (D.fault_count disk.new) }
{
    for _ in 0..MOST_STEPS {
        if !put_right(alloc, serves, clock, disk) {
            return;
        }
    }
}

/// Writes the summary of a session that was generated from this start, had this output and left this store.
fn write_summary<K: Sink>(
    alloc: Global,
    start: u32,
    output: &[u8],
    store: &Store,
    sink: &mut K,
) -> SessionEnd
    requires { (replies : _) × IsOutput output.now replies }
    ensures { (replies : _) → IsOutput output.now replies → Tells (summary_of start replies (world_of store.now.history)) (K.taken sink.old) (K.taken sink.new) (K.fault_count sink.old) (K.fault_count sink.new) result }
{
    let (_, replies) = output.split_at(GREETING.len());
    let Ok(summary) = summary_of(alloc, start, replies, store) else {
        return SessionEnd::Memory;
    };
    match put_bytes(sink, summary.as_slice()) {
        Put::Done => SessionEnd::Quit,
        Put::WriteFault => SessionEnd::WriteFault,
        Put::Memory => unreachable!(),
    }
}

/// Serves the session that the start generates, over a store that has just opened, puts the store's trees and pages right, and
/// writes the summary to the sink.
pub(crate) fn serve_generated<C: Clock, K: Sink, D: Disk>(
    alloc: Global,
    start: u32,
    serves: &mut Serves,
    clock: &mut C,
    sink: &mut K,
    disk: &mut D,
) -> Served
    requires placed { AllPlaced empty_world serves.old.store.history }
    requires unnumbered { serves.old.session ≡ 0 }
    requires limits { serves.old.store.limits ≡ standard_limits }
    ensures run { (exchanges : _) × ((left : _) (faults : ℕ) → IsGeneratedRun start serves.new.session
        (io_state left faults (K.taken sink.old) (K.fault_count sink.old) (D.fault_count disk.old))
        (io_state left faults (K.taken sink.new) (K.fault_count sink.new) (D.fault_count disk.new))
        serves.new.store.history exchanges result.points.items result.end)
        × HasServedAlone serves.old.store.history serves.new.session serves.new.store.history exchanges (D.fault_count disk.old) (D.fault_count disk.new)
        × (behind : ListOf RunStep) × AreTends behind
        × RunsThrough (inner_end result.end) serves.old.store.limits (greatest_session serves.old.store.history + 1) serves.new.session exchanges behind (C.coming clock.old) (C.coming clock.new) (D.state disk.old) serves.old.store (D.fault_count disk.old) (D.state disk.new) serves.new.store (D.fault_count disk.new) }
    ensures nothing_read { result.bytes_read ≡ 0 }
{
    let mut output = KeptSink::new(alloc);
    let Summable { outcome, points } = serve_input(alloc, start, serves, clock, &mut output, disk);
    match outcome {
        Ok(()) => {
            settle(alloc, serves, clock, disk);
            let end = write_summary(alloc, start, output.bytes(), &serves.store, sink);
            Served {
                end,
                points,
                bytes_read: 0,
            }
        }
        Err(end) => Served {
            end,
            points,
            bytes_read: 0,
        },
    }
}
