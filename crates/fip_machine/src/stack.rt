// The frames of a task.
ghost use Rattle.std.specs.Prelude.{◌≡◌, ◌≢◌, ℕ, ◌+◌, ◌*◌, ◌<◌, ◌≤◌, List, [], ◌++◌, length, vec_len, IfOk, None, Some};
ghost use Rattle.std.specs.Prelude.{slice_get, false, true};
ghost use Rattle.cell_code.specs.Plain.{plain};
ghost use Rattle.machine_cells.specs.machine_semantics.Cells.{Store};
ghost use Rattle.machine_cells.specs.machine_semantics.States.{Typed, State};
ghost use Rattle.machine_cells.specs.machine_semantics.Steps.{Kinds, first_words, next};
ghost use Rattle.machine_cells.specs.machine_semantics.Runs.{loaded};
ghost use Rattle.machine_step.specs.machine_frames.View.{frame_at};
ghost use Rattle.machine_cells.specs.Small.{IsSmall, store_of};
ghost use Rattle.machine_cells.specs.Counting.{CountsReleased, freed_of};
ghost use Rattle.cell_store.specs.Reported.{Reported};
ghost use Rattle.machine_step.specs.Coming.{Comes, KnowsAt};
ghost use Rattle.machine_step.specs.Telling.{IsKnown, next_reports};
ghost use Rattle.fip_machine.specs.Tasks.{state_with, ended_by, IsMeasured, IsRaised, IsFresh};
ghost use Rattle.fip_machine.specs.Along.{Origin, IsAlong, HasRun, HasPaused, is_call, calls_next, end_after};
ghost use Rattle.fip_machine.specs.Along.{task_of, stored, IsSafe};
ghost use Rattle.std.specs.Vec.{vec_capacity};
ghost use Rattle.fip_language.specs.declared.limits.TheConstants.{MOST_FIELDS, MOST_FRAMES, MOST_REGISTERS};
ghost use Rattle.machine_step.specs.Bounding.{AreAtMost, Fits};
ghost use Rattle.machine_step.specs.machine_frames.Keeping.{Keeps};
ghost use Rattle.machine_step.specs.Placed.{IsPlaced, IsRoomy, Waiting};
ghost use Rattle.machine_step.specs.Highest.{IsHigh};

mod paused;

use cell_code::Instr;
use cell_store::Cells;
use fip_base::plain::NoMemory;
use fip_language::limits::MOST_RESULTS;
use machine_cells::SIZES;
use machine_step::verifier::Verified;
use machine_step::{Beside, Bounds, Cursor, Highest, Stepped, advance, function_at};
pub use paused::Paused;
use std::alloc::Global;
use std::marker::Model;

/// The frames of a task, which is stepped over any store of cells. All its memory is taken when it starts.
#[derive(Drop)]
pub struct TaskStack<'a> {
    verified: &'a Verified,
    bounds: Bounds,
    words: Vec<u64>,
    beside: Beside,
    cursor: Cursor<'a>,
    ended: Option<Stepped>,
}

impl<'a> Model for TaskStack<'a> {
    ghost use Rattle.std.specs.Prelude.{ℕ, ◌+◌, ◌-◌, take, vec_len};
    ghost use Rattle.std.specs.Vec.{vec_capacity};
    ghost use Rattle.machine_step.specs.machine_frames.View.{waiting_in};
    ghost use Rattle.machine_step.specs.Placed.{weight};
    ghost use Rattle.machine_step.specs.View.{words_of};
    ghost use Rattle.fip_machine.specs.Tasks.{Stand, IsTask};

    ghost Value = { Stand };

    ghost view = { λ t. record {
      code = t.verified.now;
      running = record { function = t.cursor.function; at = t.cursor.at; words = words_of t.words.items t.cursor };
      waiting = waiting_in t.verified.now.code.functions.items t.cursor.frames (take t.cursor.base t.words.items);
      free = t.bounds.frames - t.cursor.frames;
      given = take t.beside.given t.beside.results;
      freed = t.beside.freed;
      ended = t.ended;
      frames = t.cursor.frames;
      words = t.cursor.base + t.cursor.registers + 2;
      most_frames = t.cursor.highest.frames;
      most_words = t.cursor.highest.words;
      weight = weight t.cursor;
    } };

    ghost invariant = { λ t. IsTask t.verified.now t.bounds t.words.items (vec_capacity t.words)
        (vec_len t.beside.spare) t.cursor t.ended };
}

// The words of the greatest frame of any function.
fn largest_frame(verified: &Verified) -> usize
    ensures most { AreAtMost verified.now result }
    ensures few { result < 100000 }
{
    let mut largest = 2;
    for function in &verified.code().functions {
        largest = largest.max(function.registers as usize + 2);
    }
    largest
}

// The words that the frames of a run may have: what a fip entry needs, or room for as many of the greatest frames as
// may be held.
fn bounds_of(verified: &Verified, entry: usize, frames: usize) -> Bounds
    requires frames { frames ≤ MOST_FRAMES }
    ensures most { AreAtMost verified.now result.largest }
    ensures frames { result.frames ≡ frames }
    ensures fits { Fits verified.now result entry 0 0 }
    ensures few { result.largest < 100000 }
{
    let largest = largest_frame(verified);
    let words = match verified.code_stack(entry) {
        Some(stack) => stack.words,
        None => (frames + 1) * largest,
    };
    Bounds {
        frames,
        words,
        largest,
    }
}

// The words of a first frame, whose first registers get the words that are given. The memory of all frames is taken.
fn taken(words: Vec<u64>, bounds: Bounds, registers: usize) -> Result<Vec<u64>, NoMemory>
    requires own { registers + 2 ≤ bounds.words }
    requires largest { registers + 2 ≤ bounds.largest }
    requires few { bounds.largest < 100000 }
    ensures room { IfOk result (λ v. registers ≤ length v.items) }
    ensures first { IfOk result (λ v. length words.items ≤ registers →
        frame_at 0 registers v.items ≡ first_words registers words.items) }
    ensures taken { IfOk result (λ v. bounds.words ≤ vec_capacity v) }
{
    let mut stack = words;
    stack.truncate(registers);
    stack.reserve_exact(bounds.words)?;
    stack.resize(bounds.words.min(4 * bounds.largest), 0)?;
    Ok(stack)
}

// Lets the words reach as far as a call may need, within the memory that was taken.
#[inline(always)]
fn make_room(words: &mut Vec<u64>, bounds: Bounds, cursor: &Cursor)
    requires taken { bounds.words ≤ vec_capacity words.old }
    requires room { cursor.now.base + cursor.now.registers ≤ vec_len words.old }
    requires few { bounds.largest < 100000 }
    requires small { cursor.now.registers ≤ MOST_REGISTERS }
    ensures roomy { IsRoomy bounds (length words.new.items) cursor.now }
    ensures keeps { Keeps (length words.old.items) words.old.items words.new.items }
    ensures more { length words.old.items ≤ length words.new.items }
    ensures taken { vec_capacity words.old ≤ vec_capacity words.new }
{
    let least = cursor.base + cursor.registers + 2 + bounds.largest;
    let len = words.len();
    if len < bounds.words && len < least {
        let wanted = least.max(len.saturating_add(len));
        words.resize(bounds.words.min(wanted), 0).unwrap();
    }
}

fn is_call(instr: &Instr) -> bool
    ensures is { result ≡ is_call instr.now }
{
    matches!(instr, Instr::Call { .. } | Instr::Tail { .. })
}

// How the run ended with a step; none where it goes on.
fn over(stepped: Stepped) -> Option<Stepped>
    ensures is { result ≡ ended_by stepped }
    ensures ended { result ≢ Some Stepped.Went }
{
    match stepped {
        Stepped::Went | Stepped::Entered => None,
        _ => Some(stepped),
    }
}

// Why a run paused.
#[derive(Clone, Copy)]
enum Pause {
    // The words must reach further.
    Short,
    // No call is left.
    Spent,
    // The run is over.
    Over(Stepped),
}

// Runs until the words must reach further, no call is left, or the run is over. The parts of a task are in variables
// here, so that the cursor and the calls that are left are registers of the processor.
#[inline(always)]
fn burst<'a, C: Cells, const IN_LOOP: bool, const SURE: bool>(
    verified: &'a Verified,
    bounds: Bounds,
    cells: &mut C,
    words: &mut [u64],
    beside: &mut Beside,
    cursor: &mut Cursor<'a>,
    left: &mut u64,
) -> Pause
    requires placed { IsPlaced verified.now bounds (length words.old) cursor.old }
    requires roomy { IsRoomy bounds (length words.old) cursor.old }
    requires waiting { Waiting verified.now bounds words.old cursor.old.frames cursor.old.base }
    requires most { AreAtMost verified.now bounds.largest }
    requires few { bounds.largest < 100000 }
    requires spare { bounds.largest ≤ vec_len beside.old.spare }
    requires some { 0 < left.old }
    requires high { IsHigh cursor.old }
    requires sure { SURE ≡ true → IsSafe (task_of verified.now bounds words.old cursor.old beside.old)
        (stored (C.cells cells.old) (C.released cells.old) (C.pushed cells.old)) left.old }
    ensures placed { IsPlaced verified.now bounds (length words.new) cursor.new }
    ensures waiting { Waiting verified.now bounds words.new cursor.new.frames cursor.new.base }
    ensures spare { vec_len beside.new.spare ≡ vec_len beside.old.spare }
    ensures high { IsHigh cursor.new }
    ensures short { result ≡ Pause.Short → left.new < left.old }
    ensures spent { result ≡ Pause.Spent → left.new ≡ 0 }
    ensures over { (s : _) → result ≡ Pause.Over s → s ≢ Stepped.Went }
    ensures small { IsSmall (C.cells cells.old) → IsSmall (C.cells cells.new) }
    ensures pushed { C.pushed cells.old ≡ [] → C.pushed cells.new ≡ [] }
    ensures counted { IN_LOOP ≡ false → CountsReleased (C.cells cells.old) (C.released cells.old) beside.old.freed
        (C.cells cells.new) (C.released cells.new) beside.new.freed }
    ensures along { (o : Origin) → IsAlong o (task_of verified.now bounds words.old cursor.old beside.old)
        (stored (C.cells cells.old) (C.released cells.old) (C.pushed cells.old)) left.old → HasPaused o result
        (task_of verified.now bounds words.new cursor.new beside.new)
        (stored (C.cells cells.new) (C.released cells.new) (C.pushed cells.new)) left.new }
{
    let mut here = *cursor;
    let mut calls = *left;
    // Where a frame begins here or further on, a call may need more words than there are.
    let stop = if words.len() < bounds.words {
        (words.len() + 1).saturating_sub(2 * bounds.largest)
    } else {
        usize::MAX
    };
    let pause = 'steps: loop {
        match advance::<C, IN_LOOP, SURE>(verified, bounds, cells, words, beside, &mut here) {
            Stepped::Went => {}
            Stepped::Entered => {
                calls -= 1;
                if calls == 0 {
                    break 'steps Pause::Spent;
                }
                if here.base >= stop {
                    break 'steps Pause::Short;
                }
            }
            over => break 'steps Pause::Over(over),
        }
    };
    *cursor = here;
    *left = calls;
    pause
}

impl<'a> TaskStack<'a> {
    /// The frames at the start of a function of the code, with the words of its arguments and then of its credits, and
    /// so many free frames, at most 1,000,000; the caller gives a fip function as many as it needs. The memory of the
    /// whole run is taken. An error where it is not there.
    pub fn start(
        alloc: Global,
        verified: &'a Verified,
        entry: usize,
        words: Vec<u64>,
        frames: usize,
    ) -> Result<TaskStack<'a>, NoMemory>
        requires entry { entry < length verified.now.code.functions.items }
        requires frames { frames ≤ MOST_FRAMES }
        ensures frames { IfOk result (λ t. t.frames ≡ 0) }
        ensures code { IfOk result (λ t. t.code ≡ verified.now) }
        ensures going { IfOk result (λ t. t.ended ≡ None) }
        ensures fresh { IfOk result IsFresh }
        ensures freed { IfOk result (λ t. (k : ℕ) → freed_of t.freed k ≡ 0) }
        ensures loaded { IfOk result (λ t. (g : _) → slice_get verified.now.code.functions.items entry ≡ Some g →
            length words.items ≤ g.registers → (store : Store) (s : State) → loaded (plain verified.now.code) entry
            store words.items frames ≡ Some s → state_with t s.lent store ≡ s) }
    {
        TaskStack::start_in(verified, entry, words, Vec::new(alloc), frames)
    }

    /// The frames at the start of a function, as `start` has them, in memory that is there: that of the words of the
    /// arguments and credits, and that of `spare`, whatever words it has. Memory is asked for only where these don't
    /// suffice; what an earlier run of the same function had suffices.
    pub fn start_in(
        verified: &'a Verified,
        entry: usize,
        words: Vec<u64>,
        spare: Vec<u64>,
        frames: usize,
    ) -> Result<TaskStack<'a>, NoMemory>
        requires entry { entry < length verified.now.code.functions.items }
        requires frames { frames ≤ MOST_FRAMES }
        ensures frames { IfOk result (λ t. t.frames ≡ 0) }
        ensures code { IfOk result (λ t. t.code ≡ verified.now) }
        ensures going { IfOk result (λ t. t.ended ≡ None) }
        ensures fresh { IfOk result IsFresh }
        ensures freed { IfOk result (λ t. (k : ℕ) → freed_of t.freed k ≡ 0) }
        ensures loaded { IfOk result (λ t. (g : _) → slice_get verified.now.code.functions.items entry ≡ Some g →
            length words.items ≤ g.registers → (store : Store) (s : State) → loaded (plain verified.now.code) entry
            store words.items frames ≡ Some s → state_with t s.lent store ≡ s) }
    {
        let bounds = bounds_of(verified, entry, frames);
        let function = function_at(verified, entry);
        let cursor = Cursor {
            instrs: function.instrs.as_slice(),
            registers: function.registers as usize,
            function: entry,
            at: 0,
            base: 0,
            frames: 0,
            highest: Highest {
                frames: 0,
                words: function.registers as usize + 2,
            },
        };
        let stack = taken(words, bounds, cursor.registers)?;
        let mut spare = spare;
        spare.resize(bounds.largest, 0)?;
        let beside = Beside {
            spare,
            results: [0; MOST_RESULTS],
            given: 0,
            freed: [0; SIZES],
        };
        Ok(TaskStack {
            verified,
            bounds,
            words: stack,
            beside,
            cursor,
            ended: None,
        })
    }

    /// Does one instruction on the cells. Once the run is over, it answers the same again and changes nothing.
    pub fn step<C: Cells>(&mut self, cells: &mut C) -> Stepped
        ensures less { result ≡ Stepped.Went → self.new.weight < self.old.weight }
        ensures code { self.new.code ≡ self.old.code }
        ensures small { IsSmall (C.cells cells.old) → IsSmall (C.cells cells.new) }
        ensures pushed { C.pushed cells.old ≡ [] → C.pushed cells.new ≡ [] }
        ensures next { (kinds : Kinds) → KnowsAt self.old.code kinds self.old.running.function
            self.old.running.at → self.old.ended ≡ None →
            IsSmall (C.cells cells.old) → C.pushed cells.old ≡ [] → (lent : List Typed) → Comes
            (state_with self.old lent (store_of (C.cells cells.old) (C.released cells.old)))
            (next kinds (plain self.old.code.code) (state_with self.old lent (store_of (C.cells cells.old)
            (C.released cells.old)))) result (state_with self.new lent (store_of (C.cells cells.new)
            (C.released cells.new))) self.new.given }
        ensures ends { self.old.ended ≡ None → self.new.ended ≡ ended_by result }
        ensures measured { IsMeasured self.new }
        ensures raised { self.old.ended ≡ None → IsRaised self.old self.new }
        ensures ended { (e : _) → self.old.ended ≡ Some e → (result ≡ e) × (self.new ≡ self.old)
            × (store_of (C.cells cells.new) (C.released cells.new)
            ≡ store_of (C.cells cells.old) (C.released cells.old)) }
        ensures counted { CountsReleased (C.cells cells.old) (C.released cells.old) self.old.freed (C.cells cells.new)
            (C.released cells.new) self.new.freed }
        ensures reported { (kinds : Kinds) (lent : List Typed) → KnowsAt self.old.code kinds self.old.running.function
            self.old.running.at → self.old.ended ≡ None → IsSmall (C.cells cells.old) → C.pushed cells.old ≡ [] →
            IsKnown (next kinds (plain self.old.code.code) (state_with self.old lent (store_of (C.cells cells.old)
            (C.released cells.old)))) → (first : C) (ts : List Reported) → C.was_reported first ts cells.old →
            C.was_reported first (ts ++ next_reports kinds (plain self.old.code.code) (state_with self.old lent (store_of
            (C.cells cells.old) (C.released cells.old)))) cells.new }
    {
        if let Some(ended) = self.ended {
            return ended;
        }
        make_room(&mut self.words, self.bounds, &self.cursor);
        let stepped = advance::<C, false, false>(
            self.verified,
            self.bounds,
            cells,
            self.words.as_mut_slice(),
            &mut self.beside,
            &mut self.cursor,
        );
        self.ended = over(stepped);
        stepped
    }

    /// Runs to the end, or until a call would come and none of so many is left; none there, and the run isn't over. It
    /// does two instructions at once where they come often, unless what is released is counted. Where it is sure, no
    /// cell is looked for: that asks a run that never comes to an instruction that can't be done.
    pub fn run<C: Cells, const IN_LOOP: bool, const SURE: bool>(
        &mut self,
        cells: &mut C,
        calls: u64,
    ) -> Option<Stepped>
        requires sure { SURE ≡ true → IsSafe self.old (stored (C.cells cells.old) (C.released cells.old)
            (C.pushed cells.old)) calls }
        ensures code { self.new.code ≡ self.old.code }
        ensures small { IsSmall (C.cells cells.old) → IsSmall (C.cells cells.new) }
        ensures pushed { C.pushed cells.old ≡ [] → C.pushed cells.new ≡ [] }
        ensures counted { IN_LOOP ≡ false → CountsReleased (C.cells cells.old) (C.released cells.old) self.old.freed
            (C.cells cells.new) (C.released cells.new) self.new.freed }
        ensures run { (o : Origin) → IsAlong o self.old (stored (C.cells cells.old) (C.released cells.old)
            (C.pushed cells.old)) calls → HasRun o (end_after result) self.new (stored (C.cells cells.new)
            (C.released cells.new) (C.pushed cells.new)) }
    {
        if self.ended.is_some() {
            return self.ended;
        }
        let mut left = calls;
        while left > 0 {
            make_room(&mut self.words, self.bounds, &self.cursor);
            let pause = burst::<C, IN_LOOP, SURE>(
                self.verified,
                self.bounds,
                cells,
                self.words.as_mut_slice(),
                &mut self.beside,
                &mut self.cursor,
                &mut left,
            );
            if let Pause::Over(stepped) = pause {
                self.ended = Some(stepped);
                return self.ended;
            }
        }
        self.run_to_call(cells)
    }

    // Runs to the end, or to where a call would come.
    fn run_to_call<C: Cells>(&mut self, cells: &mut C) -> Option<Stepped>
        ensures code { self.new.code ≡ self.old.code }
        ensures small { IsSmall (C.cells cells.old) → IsSmall (C.cells cells.new) }
        ensures pushed { C.pushed cells.old ≡ [] → C.pushed cells.new ≡ [] }
        ensures counted { CountsReleased (C.cells cells.old) (C.released cells.old) self.old.freed (C.cells cells.new)
            (C.released cells.new) self.new.freed }
        ensures run { (o : Origin) → IsAlong o self.old (stored (C.cells cells.old) (C.released cells.old)
            (C.pushed cells.old)) 0 → HasRun o (end_after result) self.new (stored (C.cells cells.new)
            (C.released cells.new) (C.pushed cells.new)) }
    {
        while !self.at_call() {
            match self.step(cells) {
                Stepped::Went => {}
                Stepped::Entered => return None,
                over => return Some(over),
            }
        }
        None
    }

    /// Whether the next instruction is a Call or Tail; false once the run is over.
    pub fn at_call(&self) -> bool
        ensures over { (e : _) → self.now.ended ≡ Some e → result ≡ false }
        ensures going { self.now.ended ≡ None → result ≡ calls_next self.now.code self.now }
    {
        if self.ended.is_some() {
            return false;
        }
        let instrs = self.cursor.instrs;
        is_call(&instrs[self.cursor.at])
    }

    /// The words of the results, after Value.
    pub fn results(&self) -> &[u64]
        ensures given { result.now ≡ self.now.given }
    {
        &self.beside.results[..self.beside.given]
    }

    /// How many cells of size `k`, from 1 to 16, the steps released: each step that releases cells adds as many of each
    /// size as are held no more (`step`'s clause `counted`).
    pub fn freed(&self, k: usize) -> usize
        requires some { 1 ≤ k }
        requires few { k ≤ MOST_FIELDS }
        ensures counted { result ≡ freed_of self.now.freed k }
    {
        self.beside.freed[k - 1]
    }

    /// The frames beside the running one.
    pub fn frames(&self) -> usize
        ensures frames { result ≡ self.now.frames }
        ensures measured { IsMeasured self.now }
    {
        self.cursor.frames
    }

    /// The most frames beside the running one, and the most words of all frames, since the start.
    pub fn highest(&self) -> Highest
        ensures frames { result.frames ≡ self.now.most_frames }
        ensures words { result.words ≡ self.now.most_words }
    {
        self.cursor.highest
    }

    /// The words of all frames.
    pub fn words(&self) -> usize
        ensures words { result ≡ self.now.words }
    {
        self.cursor.base + self.cursor.registers + 2
    }
}
