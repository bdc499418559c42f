// A machine at the start of a function, with its arguments in a new store.
ghost use Rattle.std.specs.Prelude.{◌≡◌, ◌≤◌, false, length, IfOk, IfErr};
ghost use Rattle.fip_language.specs.declared.limits.TheConstants.{MOST_FILE_BYTES, MOST_FRAMES};
ghost use Rattle.fip_language.specs.SoundTable.{IsSoundTable};
ghost use Rattle.command_words.specs.View.{room_of};
ghost use Rattle.command_outcome.specs.Stages.{IsOfRun};
ghost use Rattle.code_verify.specs.cell_code.Plain.{plain};
ghost use Rattle.command_eval.specs.machine_correctness.code_rules.StackNumbers.{HasStack};
ghost use Rattle.value_text.specs.Loaded.{types_of, IsGiven};
ghost use Rattle.command_run.specs.CodeRun.{is_run_failure};
ghost use Rattle.command_run.specs.Starting.{IsInNewStore, HasFrames, KeepsFromLoading, IsStarted, KeepsFromStart};

use cell_store::Loader;
use command_eval::source::Ready;
use command_outcome::Failure;
use fip_base::plain::{Param, Stack};
use fip_base::table::TypeTable;
use fip_language::limits::MOST_STORE_WORDS;
use fip_machine::Machine;
use fip_room::Room;
use std::alloc::Global;
use value_text::{LoadError, load_values};

// The arguments of a function in a new store of the room's words, and a cell for each of its credits. A bad input where
// the bytes are no text of the parameters' types; else too small where the cells need more words.
fn loaded(
    alloc: Global,
    types: &TypeTable,
    params: &[Param],
    credits: &[u8],
    input: &[u8],
    room: Room,
) -> Result<(Loader, Vec<u64>), Failure>
    ensures loads { IsGiven types.now (types_of params.now) credits.now input.now →
        IfOk result (λ r. IsInNewStore types.now (types_of params.now) credits.now input.now room.words r.0 r.1.items) }
    ensures keeps { IsGiven types.now (types_of params.now) credits.now input.now →
        IfErr result (KeepsFromLoading types.now (types_of params.now) credits.now input.now room.words) }
    ensures before { IfErr result (λ f. is_run_failure f ≡ false) }
    ensures stage { IfErr result IsOfRun }
{
    let loader = Loader::new(alloc, room.words);
    match load_values(alloc, types, params, credits, input, loader) {
        Ok((loader, words)) => {
            prove!(loader.left() <= MOST_STORE_WORDS);
            Ok((loader, words))
        }
        Err(LoadError::BadValue { at, .. }) => Err(Failure::BadInput { at }),
        Err(LoadError::Full { needed, words, .. }) => Err(Failure::TooSmall {
            needed,
            given: words,
        }),
        Err(LoadError::NoMemory) => Err(Failure::NoMemory),
    }
}

/// What a run of the function holds of the stack at the most; none where it isn't fip.
pub(crate) fn bound_of(ready: &Ready) -> Option<Stack>
    ensures exact { HasStack (plain ready.now.checked.code) ready.now.entry result }
{
    ready.verified().code_stack(ready.entry())
}

// The frames of a run: those that a fip function needs, or those of the room.
fn frames_for(ready: &Ready, room: Room) -> usize
    ensures few { result ≤ MOST_FRAMES }
    ensures exact { HasFrames ready.now room.frames result }
{
    prove!(ready.entry() < ready.verified().code().functions.len());
    match bound_of(ready) {
        Some(bound) => bound.frames,
        None => room.frames,
    }
}

/// The machine at the start of the function, with its arguments in a new store. A bad input where the bytes are no text
/// of the parameters' types; else too small where the cells of the input and of the header's credits need more words
/// than the room has.
pub fn started<'a>(
    alloc: Global,
    ready: &'a Ready,
    input: &[u8],
    room: Room,
) -> Result<Machine<'a>, Failure>
    ensures begins { IsSoundTable ready.now.checked.code.types → length input.now ≤ MOST_FILE_BYTES →
        IfOk result (IsStarted ready.now input.now (room_of room)) }
    ensures keeps { IsSoundTable ready.now.checked.code.types → length input.now ≤ MOST_FILE_BYTES →
        IfErr result (KeepsFromStart ready.now input.now (room_of room)) }
    ensures before { IfErr result (λ f. is_run_failure f ≡ false) }
    ensures stage { IfErr result IsOfRun }
{
    let function = ready.function();
    let params = function.params.as_slice();
    let credits = function.credits.as_slice();
    let types = &ready.verified().code().types;
    let frames = frames_for(ready, room);
    let (loader, words) = loaded(alloc, types, params, credits, input, room)?;
    let entry = ready.entry();
    Ok(Machine::start(alloc, ready.verified(), entry, loader, words, frames)?)
}
