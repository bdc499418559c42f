// The command `tasks`, from an input to a text.
ghost use Rattle.std.specs.Prelude.{◌≡◌, ◌<◌, ◌≤◌, ◌^◌, ℕ, List, length, IfOk, IfErr, All};
ghost use Rattle.fip_language.specs.Core.{Core};
ghost use Rattle.fip_language.specs.declared.limits.TheConstants.{MOST_FILE_BYTES};
ghost use Rattle.command_session.specs.command_run.separation.Codes.{HasLiterals};
ghost use Rattle.command_words.specs.View.{room_of};
ghost use Rattle.command_outcome.specs.Stages.{IsOfTasks};
ghost use Rattle.command_session.specs.command_run.command_eval.EvalAnswer.{OrNoMemory};
ghost use Rattle.command_session.specs.command_run.machine_correctness.Starts.{IsCodeOf};
ghost use Rattle.cell_code.specs.Plain.{plain};
ghost use Rattle.task_lines.specs.Called.{Called};
ghost use Rattle.task_lines.specs.session_values.Readable.{IsReadable};
ghost use Rattle.task_lines.specs.Listed.{IsListOf};
ghost use Rattle.task_lines.specs.Reading.{AreLinesOf};
ghost use Rattle.command_tasks.specs.Called.{AreCallLines, AreNamed, KeepsList};
ghost use Rattle.command_tasks.specs.Fronts.{IsFrontOf};
ghost use Rattle.command_tasks.specs.TasksAnswer.{TakesTurns};

use crate::answers::answers;
use crate::turns::take_turns;
use cell_store::Loader;
use code_verify::Verified;
use command_outcome::Failure;
use command_session::runner::source::Front;
use fip_base::plain::NoMemory;
use fip_room::Room;
use fip_tasks::Tasks;
use std::alloc::Global;
use task_lines::{ListError, TaskList};

// The seeds: the sequence that draws the tasks has the same numbers for two that differ by a multiple of this.
const SEEDS: u64 = 2_147_483_648;

// The tasks of an input, or the line that is none.
fn listed<'l>(alloc: Global, verified: &Verified, input: &'l [u8]) -> Result<TaskList<'l>, Failure>
    ensures there { IfOk result (λ t. All (λ l. l.entry < length verified.now.code.functions.items) t.lines.items) }
    ensures tasks { IsReadable verified.now.code → length input.now ≤ 2 ^ 63 → IfOk result (λ t. (cs : List Called)
        × IsListOf verified.now.code input.now t cs) }
    ensures bad { IsReadable verified.now.code → length input.now ≤ 2 ^ 63 → IfErr result
        (KeepsList verified.now.code input.now) }
    ensures stage { IfErr result IsOfTasks }
{
    match TaskList::of(alloc, verified, input) {
        Ok(list) => Ok(list),
        Err(ListError::BadTask { task }) => Err(Failure::BadTask { line: task }),
        Err(ListError::NoMemory) => Err(Failure::NoMemory),
    }
}

// So many turns of the tasks of a list, whose cells fit into the store of the room, and then each to its end.
fn run(
    alloc: Global,
    verified: &Verified,
    list: &TaskList,
    room: Room,
    seed: u64,
    turns: u64,
) -> Result<Vec<u8>, NoMemory>
    requires there { All (λ l. l.entry < length verified.now.code.functions.items) list.now.lines.items }
    requires seed { seed < 2147483648 }
    ensures lines { (source : List ℕ) (core : Core) (cs : List Called) →
        (HasLiterals (plain verified.now.code) → IsCodeOf source core verified.now.code) →
        IsReadable verified.now.code → AreNamed cs → AreLinesOf verified.now.code list.now.lines.items cs →
        IfOk result (λ t. AreCallLines core verified.now.code room 0 cs t.items) }
{
    let loader = Loader::new(alloc, room.words);
    let (loader, starts) = list.starts(alloc, verified, room, loader)?;
    let mut tasks = Tasks::uncounted(alloc, verified, loader, starts.as_slice())?;
    take_turns(&mut tasks, seed, turns);
    answers(alloc, verified.code(), &mut tasks, starts.as_slice())
}

/// Runs the tasks of the lines of an input over one store: so many turns of tasks that are drawn from a seed, and then
/// each to its end. A line for each task: its number, and its results or the text of its end. A bad task where a line
/// is none, or is one more than 1,000; else too small where the cells of all values and credits need more words than
/// the room has.
pub fn tasks(
    alloc: Global,
    front: &Front,
    input: &[u8],
    seed: u64,
    turns: u64,
    room: Room,
) -> Result<Vec<u8>, Failure>
    // It is what the source means by its functions on the values of the lines, whatever the seed and the turns are.
    ensures means { (source : List ℕ) → IsFrontOf source front.now →
        length input.now ≤ MOST_FILE_BYTES → OrNoMemory (TakesTurns source input.now (room_of room)) result }
    ensures stage { IfErr result IsOfTasks }
{
    let verified = &front.verified;
    let list = match listed(alloc, verified, input) {
        Ok(list) => list,
        Err(failure) => return Err(failure),
    };
    let words = room.words;
    let needed = list.words();
    if needed > words {
        return Err(Failure::TooSmall {
            needed,
            given: words,
        });
    }
    match run(alloc, verified, &list, room, seed % SEEDS, turns) {
        Ok(text) => Ok(text),
        Err(NoMemory) => Err(Failure::NoMemory),
    }
}
