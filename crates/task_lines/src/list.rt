// Whole lists of tasks.
ghost use Rattle.std.specs.Prelude.{◌≡◌, ◌<◌, ◌≤◌, ◌^◌, ℕ, List, [], length, IfOk, All, Err};
ghost use Rattle.fip_language.specs.declared.limits.TheConstants.{MOST_FIELDS};
ghost use Rattle.fip_language.specs.Store.{Parts};
ghost use Rattle.session_lines.specs.session_semantics.Lines.{lines_of};
ghost use Rattle.value_text.specs.Counting.{count_at};
ghost use Rattle.value_text.specs.Loaded.{words_up_to};
ghost use Rattle.session_lines.specs.Named.{AreEntries};
ghost use Rattle.fip_tasks.specs.Turns.{CanStart};
ghost use Rattle.task_lines.specs.Called.{Called, IsFirstBad};
ghost use Rattle.session_values.specs.Readable.{IsReadable};
ghost use Rattle.task_lines.specs.Listed.{IsListOf};
ghost use Rattle.task_lines.specs.Making.{IsStartMade};
ghost use Rattle.task_lines.specs.Reading.{AreLinesOf, IsLineOf};
ghost use Rattle.task_lines.specs.Started.{AreReady};

use crate::task_line::{TaskLine, task_of};
use cell_code::Code;
use cell_store::Loader;
use code_verify::Verified;
use fip_base::plain::NoMemory;
use fip_language::limits::MOST_FIELDS;
use fip_room::Room;
use fip_tasks::Start;
use session_lines::{Entries, frames_of, line_at};
use std::alloc::{AllocFailed, Global};
use thiserror::Error;
use value_text::Counts;

/// Why an input is no list of tasks.
#[derive(Clone, Copy, Debug, PartialEq, Eq, Error)]
pub enum ListError {
    /// The line of this number, from 1, is the first that is no task, or is one more than 1,000.
    #[error("bad task {task}")]
    BadTask { task: usize },
    /// No memory was left.
    #[error("no memory is left")]
    NoMemory,
}

impl From<NoMemory> for ListError {
    ghost use Rattle.task_lines.specs.declared.list.ListError.TheVariants as E;

    ghost from_gives = { λ _ e. e ≡ E.NoMemory };

    fn from(_: NoMemory) -> ListError {
        ListError::NoMemory
    }
}

impl<T: Drop> From<AllocFailed<T>> for ListError {
    ghost use Rattle.task_lines.specs.declared.list.ListError.TheVariants as E;

    ghost from_gives = { λ _ e. e ≡ E.NoMemory };

    fn from(_: AllocFailed<T>) -> ListError {
        ListError::NoMemory
    }
}

// The most tasks of an input.
const MOST_TASKS: usize = 1000;

/// The tasks of an input, and the cells of their values and credits by size.
#[derive(Drop)]
pub struct TaskList<'l> {
    lines: Vec<TaskLine<'l>>,
    counts: Counts,
}

// The tasks of the lines of an input, by the entries of a code.
fn tasks_of<'l>(
    alloc: Global,
    code: &Code,
    entries: &Entries,
    input: &'l [u8],
) -> Result<TaskList<'l>, ListError>
    ensures there { IfOk result (λ t. All (λ l. l.entry < length code.now.functions.items) t.lines.items) }
    ensures tasks { IsReadable code.now → AreEntries code.now.functions.items entries.now.numbers →
        length input.now ≤ 2 ^ 63 → IfOk result (λ t. (cs : List Called) × IsListOf code.now input.now t cs) }
    ensures bad { IsReadable code.now → AreEntries code.now.functions.items entries.now.numbers →
        length input.now ≤ 2 ^ 63 → (k : ℕ) → result ≡ Err (ListError.BadTask k) →
        IsFirstBad code.now 0 (lines_of input.now) k }
{
    let mut counts = Counts::none();
    let mut lines = Vec::new(alloc);
    let mut at = 0;
    while at < input.len() {
        let number = lines.len().saturating_add(1);
        if number > MOST_TASKS {
            return Err(ListError::BadTask { task: number });
        }
        let (line, next) = line_at(input, at);
        match task_of(alloc, code, entries, line, &mut counts)? {
            Some(task) => lines.push(task)?,
            None => return Err(ListError::BadTask { task: number }),
        }
        at = next;
    }
    Ok(TaskList { lines, counts })
}

// The start of a task, whose cells the loader, which has room for them, gets.
fn start_of(
    alloc: Global,
    verified: &Verified,
    line: &TaskLine,
    room: Room,
    loader: Loader,
) -> Result<(Loader, Start), NoMemory>
    requires there { line.now.entry < length verified.now.code.functions.items }
    ensures can { IfOk result (λ r. CanStart verified.now r.1) }
    ensures made { IsReadable verified.now.code → (c : Called) → IsLineOf verified.now.code line.now c →
        IfOk result (λ r. (trees : Parts) × (spares : List ℕ)
        × IsStartMade verified.now.code room c loader r.0 trees spares r.1) }
{
    let (loader, words) = line.make(alloc, verified.code(), loader)?;
    let start = Start {
        entry: line.entry,
        words,
        frames: frames_of(verified, line.entry, room.frames),
        calls: room.calls,
    };
    Ok((loader, start))
}

impl<'l> TaskList<'l> {
    /// The tasks of the lines of an input; or the number of the first line that is none, or is one more than 1,000.
    ///
    /// The clauses speak of a code that is readable, and of an input that memory can hold.
    pub fn of(
        alloc: Global,
        verified: &Verified,
        input: &'l [u8],
    ) -> Result<TaskList<'l>, ListError>
        ensures there { IfOk result (λ t. All (λ l. l.entry < length verified.now.code.functions.items) t.lines.items) }
        ensures tasks { IsReadable verified.now.code → length input.now ≤ 2 ^ 63 → IfOk result (λ t. (cs : List Called)
            × IsListOf verified.now.code input.now t cs) }
        ensures bad { IsReadable verified.now.code → length input.now ≤ 2 ^ 63 → (k : ℕ) →
            result ≡ Err (ListError.BadTask k) → IsFirstBad verified.now.code 0 (lines_of input.now) k }
    {
        let entries = Entries::of(alloc, verified)?;
        tasks_of(alloc, verified.code(), &entries, input)
    }

    /// The words of a store that the cells of all tasks need: k + 1 for each of size k.
    pub fn words(&self) -> usize
        ensures exact { words_up_to MOST_FIELDS (count_at self.now.counts) (λ _. 0) < 2 ^ 64 →
            result ≡ words_up_to MOST_FIELDS (count_at self.now.counts) (λ _. 0) }
    {
        let mut words = 0usize;
        for k in 1..MOST_FIELDS + 1 {
            words = words.saturating_add((k + 1).saturating_mul(self.counts.of(k)));
        }
        words
    }

    /// The starts of all tasks, whose cells are made in the loader, which has room for them.
    ///
    /// The clause `ready` speaks of a code that is readable, and of a new loader.
    pub fn starts(
        &self,
        alloc: Global,
        verified: &Verified,
        room: Room,
        loader: Loader,
    ) -> Result<(Loader, Vec<Start>), NoMemory>
        requires there { All (λ l. l.entry < length verified.now.code.functions.items) self.now.lines.items }
        ensures can { IfOk result (λ r. All (CanStart verified.now) r.1.items) }
        // The cells of the tasks are apart, and each is started with the words that name its own.
        ensures ready { IsReadable verified.now.code → loader.cells ≡ [] → (cs : List Called) →
            AreLinesOf verified.now.code self.now.lines.items cs → IfOk result (λ r.
            AreReady verified.now.code room cs r.0 r.1.items) }
    {
        let mut loader = loader;
        let mut starts = Vec::new(alloc);
        for line in self.lines.as_slice() {
            let (next, start) = start_of(alloc, verified, line, room, loader)?;
            loader = next;
            starts.push(start)?;
        }
        let _left = loader.left();
        Ok((loader, starts))
    }
}
