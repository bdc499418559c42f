// How an answer reaches the sinks of a host.
ghost use Rattle.std.specs.Prelude.{◌≡◌, ℕ, ◌≤◌, OnOk, OnErr};
ghost use Rattle.std.specs.Io.KnownBytes.{Appends};
ghost use Rattle.fip_outside.specs.Faults.{Rose};
ghost use Rattle.fip_driver.specs.Delivered.{seen, Tried, Reported, ReportedFailure, Delivered};
ghost use Rattle.command_outcome.specs.Texts.{err_fault_text, no_memory_text};

use command_outcome::{Failure, Object};
use fip_base::plain::Status;
use fip_outside::all::write_all;
use fip_outside::outside::Sink;
use std::alloc::Global;

// Tries once to say that an object failed; what becomes of it changes nothing.
fn try_to_report<E: Sink>(err: &mut E, text: &[u8])
    ensures tried { Tried (seen (E.written err.old) (E.faults err.old)) (seen (E.written err.new) (E.faults err.new))
        text.now }
    ensures later { E.faults err.old ≤ E.faults err.new }
{
    match write_all(err, text) {
        Ok(()) => {}
        Err(_) => {}
    }
}

// Writes the text of a status; where that fails, tries once to say so.
fn report<E: Sink>(err: &mut E, status: Status, text: &[u8]) -> Status
    ensures reported { Reported (seen (E.written err.old) (E.faults err.old)) (seen (E.written err.new) (E.faults err.new))
        status.0 text.now result.0 }
    ensures later { E.faults err.old ≤ E.faults err.new }
{
    match write_all(err, text) {
        Ok(()) => status,
        Err(_) => {
            try_to_report(err, Object::Err.fault_text().as_bytes());
            Status(9)
        }
    }
}

/// Says that memory runs out, for a host that had none for the words. The status is 10; or 9 where `err` failed,
/// whose fault is then tried to be reported once.
pub fn report_no_memory<E: Sink>(err: &mut E) -> Status
    ensures reported { Reported (seen (E.written err.old) (E.faults err.old)) (seen (E.written err.new) (E.faults err.new))
        10 no_memory_text result.0 }
    ensures later { E.faults err.old ≤ E.faults err.new }
{
    report(err, Status(10), b"out of memory\n")
}

// Says what kept a command from its result. After a fault its text is tried once.
fn report_failure<E: Sink>(alloc: Global, err: &mut E, failure: &Failure) -> Status
    ensures reported { ReportedFailure (seen (E.written err.old) (E.faults err.old))
        (seen (E.written err.new) (E.faults err.new)) failure.now result.0 }
    ensures later { E.faults err.old ≤ E.faults err.new }
{
    match failure {
        Failure::Fault(object) => {
            try_to_report(err, object.fault_text().as_bytes());
            Status(9)
        }
        Failure::NoMemory => report_no_memory(err),
        _ => match failure.text(alloc) {
            Ok(text) => report(err, failure.status(), text.as_slice()),
            Err(_) => report_no_memory(err),
        },
    }
}

/// Hands a command's result, or what kept it from one, to the sinks of a host.
pub fn deliver<O: Sink, E: Sink>(
    alloc: Global,
    outcome: Result<Vec<u8>, Failure>,
    out: &mut O,
    err: &mut E,
) -> Status
    ensures delivered { Delivered (seen (O.written out.old) (O.faults out.old))
        (seen (O.written out.new) (O.faults out.new)) (seen (E.written err.old) (E.faults err.old))
        (seen (E.written err.new) (E.faults err.new)) outcome result.0 }
    ensures later_out { O.faults out.old ≤ O.faults out.new }
    ensures later_err { E.faults err.old ≤ E.faults err.new }
{
    match outcome {
        Ok(text) => match write_all(out, text.as_slice()) {
            Ok(()) => Status(0),
            Err(_) => {
                try_to_report(err, Object::Out.fault_text().as_bytes());
                Status(9)
            }
        },
        Err(failure) => report_failure(alloc, err, &failure),
    }
}
