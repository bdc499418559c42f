// A task: frames, and what is known of its run.
ghost use Rattle.std.specs.Prelude.{◌≡◌, ℕ, ◌+◌, ◌<◌, ◌≤◌, ◌^◌, ◌++◌, List, IfOk, OnOk, None, Some, true};
ghost use Rattle.std.specs.Prelude.{length, map, slice_index_or};
ghost use Rattle.fip_language.specs.declared.limits.TheConstants.{MOST_FIELDS};
ghost use Rattle.fip_tasks.specs.Turns.{CanStart};
ghost use Rattle.fip_tasks.specs.Shown.{turned_by};
ghost use Rattle.fip_language.specs.Store.{Placed, Parts, value_of, values_of, word_of, words_of, places, places_of_all};
ghost use Rattle.fip_language.specs.Store.{count};
ghost use Rattle.fip_language.specs.Values as V;
ghost use Rattle.value_text.specs.Standing.{Stands, StandAll};
ghost use Rattle.store_trees.specs.Added.{places_of};
ghost use Rattle.store_trees.specs.declared.trees.TheConstants.{MOST_CELLS};
ghost use Rattle.fip_machine.specs.Along.{end_after};
ghost use Rattle.fip_machine.specs.machine_cells.Counting.{CountsOne};
ghost use Rattle.fip_tasks.specs.Gauged.{IsGaugeOf, left_of, AddsCells, HoldsAtStart, sized};
ghost use Rattle.fip_tasks.specs.Landing.{standing, end_by, Lands, Goes, IsNew, Begins};

use cell_store::{Cells, Sealed};
use code_verify::Verified;
use fip_base::plain::{NoMemory, Param, TrapKind, Words};
use fip_base::table::TypeTable;
use fip_language::limits::MOST_FIELDS;
use fip_machine::{Ended, Gauge, Stepped, TaskStack};
use std::alloc::Global;
use store_trees::{MOST_CELLS, Tree, Trees};

// The sizes of cells.
const SIZES: usize = MOST_FIELDS;

/// How a task is started: the number of its function, the words of its arguments and then of its credits, the frames
/// beside its first one, and the calls that it may take, its own included.
#[derive(Drop)]
pub struct Start {
    pub entry: usize,
    pub words: Words,
    pub frames: usize,
    pub calls: u64,
}

/// What a turn came to.
#[derive(Clone, Copy, PartialEq, Eq)]
pub enum Turned {
    /// An instruction was done, and the task goes on.
    Went,
    /// The task ended with a value; its words are the task's results.
    Value,
    /// An operator has no value; its line and column count from 1, the column in bytes.
    Trap {
        kind: TrapKind,
        line: usize,
        col: usize,
    },
    /// A call found no call left, the entry's among them.
    Out,
    /// A call found no free frame.
    Deep,
}

impl Turned {
    // The turn with which a task ends, or after it has ended so.
    fn of(ended: Ended) -> Turned
        ensures is { result ≡ turned_by (Some ended) }
    {
        match ended {
            Ended::Value => Turned::Value,
            Ended::Trap { kind, line, col } => Turned::Trap { kind, line, col },
            Ended::Out => Turned::Out,
            Ended::Deep => Turned::Deep,
        }
    }
}

// One more cell of a size.
fn add_one(held: &mut [u64; SIZES], size: usize)
    ensures one { CountsOne held.old size held.new }
{
    if 1 <= size && size <= SIZES {
        held[size - 1] = held[size - 1].saturating_add(1);
    }
}

// As many more of each size as the credits have.
fn add_credits(credits: &[u8], held: &mut [u64; SIZES])
    ensures added { AddsCells held.old (λ k. count k credits.now) held.new }
{
    for i in 0..credits.len() {
        add_one(held, credits[i] as usize);
    }
}

// As many more of each size as the trees' roots have.
fn add_roots(cells: &Sealed, trees: &[Tree], held: &mut [u64; SIZES])
    ensures added { AddsCells held.old (λ k. sized k cells.now.cells (places_of trees.now)) held.new }
{
    for i in 0..trees.len() {
        let place = trees[i].place;
        if cells.begins(place) {
            add_one(held, cells.cell_size(place));
        }
    }
}

// As many more of each size as the value of a word has.
fn add_cells(
    alloc: Global,
    table: &TypeTable,
    cells: &Sealed,
    ty: u32,
    word: u64,
    held: &mut [u64; SIZES],
) -> Result<(), NoMemory>
    ensures added { length cells.now.cells ≤ 2 ^ 32 → (x : Placed) → Stands table.now cells.now.cells ty x →
        word_of x ≡ word → length (places x) ≤ MOST_CELLS →
        OnOk result (AddsCells held.old (λ k. V.cells k (value_of x)) held.new) }
{
    let mut trees = Trees::none(alloc);
    trees.add(table, cells, ty, word, MOST_CELLS)?;
    add_roots(cells, trees.as_slice(), held);
    Ok(())
}

// As many more of each size as the values of words of these parameters have.
fn add_arguments(
    alloc: Global,
    table: &TypeTable,
    cells: &Sealed,
    params: &[Param],
    words: &[u64],
    held: &mut [u64; SIZES],
) -> Result<(), NoMemory>
    ensures added { length cells.now.cells ≤ 2 ^ 32 → (xs : Parts) (more : List ℕ) → StandAll table.now
        cells.now.cells (map (λ p. p.ty) params.now) xs → words.now ≡ words_of xs ++ more →
        length (places_of_all xs) ≤ MOST_CELLS →
        OnOk result (AddsCells held.old (λ k. V.cells_of_all k (values_of xs)) held.new) }
{
    for i in 0..params.len() {
        if i < words.len() {
            add_cells(alloc, table, cells, params[i].ty, words[i], held)?;
        }
    }
    Ok(())
}

// The number of cells of each size from 1 to 16 of a task's arguments and credits.
fn held_at_start(
    alloc: Global,
    verified: &Verified,
    cells: &Sealed,
    start: &Start,
) -> Result<[u64; SIZES], NoMemory>
    ensures held { IfOk result (HoldsAtStart verified.now cells.now.cells start.now) }
{
    let mut held = [0; SIZES];
    let code = verified.code();
    if start.entry < code.functions.len() {
        let function = &code.functions[start.entry];
        add_arguments(
            alloc,
            &code.types,
            cells,
            function.params.as_slice(),
            start.words.as_slice(),
            &mut held,
        )?;
        add_credits(function.credits.as_slice(), &mut held);
    }
    Ok(held)
}

// The same where they are to be counted, else none.
fn held_if(
    counts: bool,
    alloc: Global,
    verified: &Verified,
    cells: &Sealed,
    start: &Start,
) -> Result<[u64; SIZES], NoMemory>
    ensures held { IfOk result (λ h. counts ≡ true → HoldsAtStart verified.now cells.now.cells start.now h) }
{
    if !counts {
        return Ok([0; SIZES]);
    }
    let held = held_at_start(alloc, verified, cells, start)?;
    Ok(held)
}

// How a run ended that was run to its end; out of calls where none was left for a call that would come.
fn ended_of(over: Option<Stepped>) -> Ended
    ensures is { result ≡ end_after over }
{
    match over {
        Some(Stepped::Value) => Ended::Value,
        Some(Stepped::Trap { kind, line, col }) => Ended::Trap { kind, line, col },
        Some(Stepped::Deep) => Ended::Deep,
        _ => Ended::Out,
    }
}

// What a step of a task came to.
#[derive(Clone, Copy, PartialEq, Eq)]
pub enum Advanced {
    // An instruction that isn't a call was done.
    Went,
    // A call was done.
    Called,
    // The task is at its end.
    Over(Ended),
}

/// A task that takes turns with others over one store.
#[derive(Drop)]
pub struct Task<'a> {
    entry: usize,
    stack: TaskStack<'a>,
    calls_left: u64,
    ended: Option<Ended>,
    // The cells of each size from 1 to 16 that it held at the start.
    started: [u64; SIZES],
}

impl<'a> Task<'a> {
    /// The task at its start, whose cells are counted if so wanted. All its memory is taken.
    pub fn new(
        alloc: Global,
        verified: &'a Verified,
        cells: &Sealed,
        start: &Start,
        counts: bool,
    ) -> Result<Task<'a>, NoMemory>
        requires can { CanStart verified.now start.now }
        ensures new { IfOk result (λ t. IsNew verified.now start.now (standing t)) }
        ensures held { IfOk result (λ t. counts ≡ true →
            HoldsAtStart verified.now cells.now.cells start.now t.started) }
        ensures begins { IfOk result (λ t. Begins verified.now start.now (standing t)) }
    {
        let held = held_if(counts, alloc, verified, cells, start)?;
        let words = start.words.copy(alloc)?.into_vec();
        let stack = TaskStack::start(alloc, verified, start.entry, words, start.frames)?;
        let _frames = stack.frames();
        let ended = if start.calls == 0 {
            Some(Ended::Out)
        } else {
            None
        };
        Ok(Task {
            entry: start.entry,
            stack,
            calls_left: start.calls.saturating_sub(1),
            ended,
            started: held,
        })
    }

    /// The number of its function.
    pub fn entry(&self) -> usize {
        self.entry
    }

    /// How it ended; none while it goes on.
    pub fn ended(&self) -> Option<Ended>
        ensures is { result ≡ self.now.ended }
    {
        self.ended
    }

    /// The words of its results, after Value.
    pub fn results(&self) -> &[u64]
        ensures given { result.now ≡ self.now.stack.given }
    {
        self.stack.results()
    }

    // How many cells of each size from 1 to 16 its turns have left of those that it held at the start.
    fn held(&self) -> [u64; SIZES]
        ensures left { (k : ℕ) → k < MOST_FIELDS → slice_index_or result k 0 ≡ left_of (standing self.now) (k + 1) }
    {
        let mut held = [0; SIZES];
        for k in 0..SIZES {
            held[k] = self.started[k].saturating_sub(self.stack.freed(k + 1) as u64);
        }
        held
    }

    /// The gauge of the states that it was in.
    pub fn gauge(&self) -> Gauge
        ensures reports { IsGaugeOf (standing self.now) result }
    {
        let highest = self.stack.highest();
        let mut gauge = Gauge::new();
        gauge.see(&self.started, highest.frames, highest.words);
        gauge.see(&self.held(), highest.frames, highest.words);
        gauge
    }

    // Does one instruction.
    fn advance(&mut self, cells: &mut Sealed) -> Advanced
        ensures lands { Lands (standing self.old) cells.old (standing self.new) cells.new }
        ensures ended { self.new.ended ≡ end_by result }
        ensures less { result ≡ Advanced.Went → self.new.stack.weight < self.old.stack.weight }
        ensures kept { result ≡ Advanced.Went → self.new.calls_left ≡ self.old.calls_left }
        ensures fewer { result ≡ Advanced.Called → self.new.calls_left < self.old.calls_left }
    {
        if let Some(ended) = self.ended {
            return Advanced::Over(ended);
        }
        if self.calls_left == 0 && self.stack.at_call() {
            self.ended = Some(Ended::Out);
            return Advanced::Over(Ended::Out);
        }
        let stepped = self.stack.step(cells);
        let ended = match stepped {
            Stepped::Went => return Advanced::Went,
            Stepped::Entered if self.calls_left > 0 => {
                self.calls_left -= 1;
                return Advanced::Called;
            }
            // Only a call enters a function, and none is done where no call is left.
            Stepped::Entered => Ended::Out,
            Stepped::Value => Ended::Value,
            Stepped::Trap { kind, line, col } => Ended::Trap { kind, line, col },
            Stepped::Deep => Ended::Deep,
        };
        self.ended = Some(ended);
        Advanced::Over(ended)
    }

    /// Does one instruction on the cells. A task that would call and has no call left ends. Once it has ended, it
    /// answers its end again and changes nothing.
    pub fn turn(&mut self, cells: &mut Sealed) -> Turned
        ensures lands { Lands (standing self.old) cells.old (standing self.new) cells.new }
        ensures reported { result ≡ turned_by self.new.ended }
    {
        match self.advance(cells) {
            Advanced::Went | Advanced::Called => Turned::Went,
            Advanced::Over(ended) => Turned::of(ended),
        }
    }

    /// Takes turns to the end.
    pub fn finish(&mut self, cells: &mut Sealed) -> Ended
        ensures goes { Goes (standing self.old) cells.old (standing self.new) cells.new }
        ensures ended { self.new.ended ≡ Some result }
    {
        if let Some(ended) = self.ended {
            return ended;
        }
        let _frames = self.stack.frames();
        let over = self
            .stack
            .run::<Sealed, false, false>(cells, self.calls_left);
        let ended = ended_of(over);
        self.ended = Some(ended);
        ended
    }
}
