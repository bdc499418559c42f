// Runs.
ghost use Rattle.std.specs.Prelude.{◌≡◌, ◌≢◌, ◌<◌, ◌⊎◌, ℕ, List, Some, None, slice_get};
ghost use Rattle.std.specs.Prelude.{length};
ghost use Rattle.fip_language.specs.Store.{Parts};
ghost use Rattle.fip_host.specs.declared.hosted.runs.TheConstants.{MOST_TEXT_BYTES};
ghost use Rattle.fip_host.specs.Telling.{ReportsSize, byte_count, filled};
ghost use Rattle.fip_host.specs.Hosting.{StepsTo, RunsOn, IsIdle, IsStarted, end_now, loading_of, results_of};
ghost use Rattle.fip_host.specs.Hosting.{count_of};
ghost use Rattle.fip_host.specs.Statuses.{loaded_by, refusal_number};
ghost use Rattle.fip_host.specs.Printing.{ArePrintable, printed_results};
ghost use Rattle.fip_host.specs.Starting.{IsTextStarted, IsBadText, IsTooLarge, IsLost, LacksCredits, TakesOthers};

use super::{fill, status_of};
use crate::answer::{FipEnd, FipGauge, FipLoaded, Refusal};
use crate::handle::Handle;
use crate::hosted::runs::MOST_TEXT_BYTES;
use fip_language::limits::MOST_FIELDS;
use std::alloc::Global;

/// Starts a run of a function on the words of its arguments, and makes a cell for each of its credits; where it isn't
/// `fip` it has so many frames, at most 1,000,000. A run that was there is given up, and its memory serves this one:
/// where that was a run of the same function, no memory is asked for. Status 12: there is no such function, or it takes
/// another number of arguments; 6: the store has no room for the credits; 10: there is no memory. That the words stand
/// for values of the parameters' types, each cell once, is the caller's affair; where they don't, the run still ends.
#[unsafe(no_mangle)]
pub extern "C" fn fip_start(
    alloc: Global,
    machine: &mut Handle,
    number: usize,
    arguments: &[u64],
    frames: u64,
) -> u32
    ensures code { machine.new.held.code ≡ machine.old.held.code }
    ensures kept { machine.new.held.kept ≡ machine.old.held.kept }
    ensures starts { result ≡ 0 → IsStarted number arguments.now frames machine.old.held machine.new.held }
    ensures full { result ≡ 6 → LacksCredits number arguments.now machine.old.held }
    ensures range { result ≡ 12 → TakesOthers number (length arguments.now) machine.old.held }
    ensures same { result ≡ 12 → machine.new.held ≡ machine.old.held }
    ensures status { (result ≡ 0) ⊎ (result ≡ 6) ⊎ (result ≡ 10) ⊎ (result ≡ 12) }
{
    status_of(machine.machine().start(alloc, number, arguments, frames))
}

/// Starts a run of a function on the text of its arguments, a line each, as `fip_start` does. Status 5: the text is
/// none of the parameters' types, and `loaded.at` is the least offset at which it can't go on; 6: its cells and the
/// credits need more words than the store has left, and `loaded` has both numbers; 12: there is no such function, or
/// the text is longer than any memory. So the store stays as it was. 10: there is no memory, and the store is without
/// a word: give the machine another.
#[unsafe(no_mangle)]
pub extern "C" fn fip_start_text(
    alloc: Global,
    machine: &mut Handle,
    number: usize,
    text: &[u8],
    frames: u64,
    loaded: &mut FipLoaded,
) -> u32
    ensures code { machine.new.held.code ≡ machine.old.held.code }
    ensures kept { machine.new.held.kept ≡ machine.old.held.kept }
    ensures starts { result ≡ 0 → IsTextStarted number text.now frames machine.old.held machine.new.held }
    ensures bad { result ≡ 5 → IsBadText number text.now machine.old.held loaded.new.at }
    ensures large { result ≡ 6 →
        IsTooLarge number text.now machine.old.held loaded.new.needed loaded.new.given }
    ensures range { result ≡ 12 → (slice_get machine.old.held.code.code.functions.items number ≡ None)
        ⊎ (MOST_TEXT_BYTES < length text.now) }
    ensures lost { result ≡ 10 → IsLost machine.new.held }
    ensures same { (result ≡ 5) ⊎ (result ≡ 6) ⊎ (result ≡ 12) →
        loading_of machine.new.held ≡ loading_of machine.old.held }
    ensures status { (result ≡ 0) ⊎ (result ≡ 5) ⊎ (result ≡ 6) ⊎ (result ≡ 10) ⊎ (result ≡ 12) }
{
    if text.len() > MOST_TEXT_BYTES {
        return 12;
    }
    match machine.machine().start_text(alloc, number, text, frames) {
        Ok(()) => 0,
        Err(refusal) => told(refusal, loaded),
    }
}

// The status of a text that wasn't loaded, and what is told besides.
fn told(refusal: Refusal, loaded: &mut FipLoaded) -> u32
    ensures is { result ≡ refusal_number refusal }
    ensures told { loaded.new ≡ loaded_by refusal loaded.old }
{
    match refusal {
        Refusal::BadInput { at } => loaded.at = at,
        Refusal::TooSmall { needed, given } => {
            loaded.needed = needed;
            loaded.given = given;
        }
        _ => {}
    }
    refusal.number()
}

/// Does one instruction of the run, and reports where it is then. It takes no memory. Once the run has ended, it
/// reports the same again and changes nothing.
#[unsafe(no_mangle)]
pub extern "C" fn fip_step(machine: &mut Handle, end: &mut FipEnd) -> u32
    ensures code { machine.new.held.code ≡ machine.old.held.code }
    ensures steps { StepsTo machine.old.held machine.new.held end.new }
    ensures idle { IsIdle machine.old.held end.new }
    ensures status { result ≡ end.new.status }
    ensures memory { result ≢ 10 }
{
    *end = machine.machine().step();
    end.status
}

/// Runs to the end, with so many calls: the entry takes one, and each Call and Tail one. It takes no memory. Where the
/// calls are used up (status 4), another `fip_run` goes on from there, with one call fewer than it is given.
#[unsafe(no_mangle)]
pub extern "C" fn fip_run(alloc: Global, machine: &mut Handle, calls: u64, end: &mut FipEnd) -> u32
    ensures code { machine.new.held.code ≡ machine.old.held.code }
    ensures runs { RunsOn machine.old.held calls machine.new.held end.new }
    ensures idle { IsIdle machine.old.held end.new }
    ensures status { result ≡ end.new.status }
    ensures memory { result ≢ 10 }
{
    *end = machine.machine().run(alloc, calls);
    end.status
}

/// Tells where the run is.
#[unsafe(no_mangle)]
pub extern "C" fn fip_end(machine: &mut Handle, end: &mut FipEnd) -> u32
    ensures same { machine.new.held ≡ machine.old.held }
    ensures is { end.new ≡ end_now machine.old.held.task }
    ensures status { result ≡ end.new.status }
{
    *end = machine.machine().end();
    end.status
}

/// The number of results of a run that ended with values; 0 where there are none, or they are kept.
#[unsafe(no_mangle)]
pub extern "C" fn fip_results(machine: &mut Handle) -> usize
    ensures same { machine.new.held ≡ machine.old.held }
    ensures is { result ≡ count_of (results_of machine.old.held) }
{
    match machine.machine().results() {
        Some(words) => words.len(),
        None => 0,
    }
}

/// The word of a result, from 0. Status 13: there are no results; 12: there is none of this number.
#[unsafe(no_mangle)]
pub extern "C" fn fip_result(machine: &mut Handle, i: usize, word: &mut u64) -> u32
    ensures same { machine.new.held ≡ machine.old.held }
    ensures reports { result ≡ 0 → (ws : List ℕ) × (results_of machine.old.held ≡ Some ws)
        × (slice_get ws i ≡ Some word.new) }
    ensures none { result ≢ 0 → word.new ≡ word.old }
    ensures closed { results_of machine.old.held ≡ None → result ≡ 13 }
{
    let Some(words) = machine.machine().results() else {
        return 13;
    };
    match words.get(i) {
        Some(found) => {
            *word = *found;
            0
        }
        None => 12,
    }
}

/// Prints the results, a line each: how many bytes the text has; as much of it as fits is written to `out`. It takes
/// memory for the text. Status 13: there are no results; 10: there is no memory.
#[unsafe(no_mangle)]
pub extern "C" fn fip_print_results(
    alloc: Global,
    machine: &mut Handle,
    out: &mut [u8],
    length: &mut usize,
) -> u32
    ensures same { machine.new.held ≡ machine.old.held }
    ensures lines { result ≡ 0 → (xs : Parts) → ArePrintable machine.old.held xs →
        (out.new ≡ filled out.old (printed_results machine.old.held xs))
        × (length.new ≡ byte_count (printed_results machine.old.held xs)) }
    ensures none { result ≢ 0 → out.new ≡ out.old }
    ensures closed { result ≡ 13 → results_of machine.old.held ≡ None }
{
    match machine.machine().results_text(alloc) {
        Ok(text) => {
            fill(out, length, text.as_slice());
            0
        }
        Err(refusal) => refusal.number(),
    }
}

/// The gauge of the run: the numbers of cells of a size, from 1 to 16, and the most of the stack, where the run began
/// and where calls of `fip_run` ended. Status 12: another size.
#[unsafe(no_mangle)]
pub extern "C" fn fip_gauge(machine: &mut Handle, size: usize, gauge: &mut FipGauge) -> u32
    ensures same { machine.new.held ≡ machine.old.held }
    ensures reports { result ≡ 0 → ReportsSize machine.old.held.gauge size gauge.new }
    ensures none { result ≢ 0 → (result ≡ 12) × (gauge.new ≡ gauge.old) }
{
    if size == 0 || size > MOST_FIELDS {
        return 12;
    }
    let seen = machine.machine().gauge();
    *gauge = FipGauge {
        lowest: seen.lowest(size),
        highest: seen.highest(size),
        frames: seen.frames(),
        words: seen.words(),
    };
    0
}
