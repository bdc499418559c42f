// Runs over a machine's store: starting, stepping, running to the end, and what came of them.
ghost use Rattle.std.specs.Prelude.{◌≡◌, ◌≢◌, ◌≤◌, ◌<◌, ◌+◌, ◌*◌, ℕ, [], Option, Some, None, Err, length, true};
ghost use Rattle.std.specs.Prelude.{option_map, slice_get, IfSome, IfNone, IfOk, IfErr, OnOk};
ghost use Rattle.fip_base.specs.declared.plain.Stack.{Stack as a_stack};
ghost use Rattle.fip_language.specs.declared.limits.TheConstants.{MOST_FRAMES};
ghost use Rattle.fip_language.specs.Prefix.{IsPlace};
ghost use Rattle.fip_language.specs.SoundTable.{IsSoundTable};
ghost use Rattle.fip_language.specs.Values.{Values};
ghost use Rattle.fip_language.specs.ValueText.{SpellsValues};
ghost use Rattle.cell_code.specs.declared.code.Function.{Function as a_function};
ghost use Rattle.cell_store.specs.Made.{Loading};
ghost use Rattle.code_verify.specs.Checked.{Checked, HasMachineInts};
ghost use Rattle.code_verify.specs.code_rules.Breaks.{IsSound};
ghost use Rattle.code_verify.specs.code_rules.StackNumbers.{HasStack};
ghost use Rattle.value_text.specs.declared.load.LoadError.TheVariants.{BadValue, Full};
ghost use Rattle.value_text.specs.FirstStore.{IsInOrder};
ghost use Rattle.value_text.specs.Loaded.{types_of, needed, HasNoFree, IsLoaded};
ghost use Rattle.fip_machine.specs.Pausing.{CanResume, stand_of};
ghost use Rattle.fip_machine.specs.Tasks.{ended_by};
ghost use Rattle.fip_machine.specs.Ending.{IsSafeRun};
ghost use Rattle.fip_machine.specs.machine_cells.Small.{store_of};
ghost use Rattle.fip_machine.specs.machine_cells.machine_semantics.Cells.{IsStore, Store};
ghost use Rattle.cell_code.specs.Plain.{plain};
ghost use Rattle.fip_host.specs.declared.hosted.runs.TheConstants.{MOST_TEXT_BYTES};
ghost use Rattle.fip_host.specs.Driving.{IsDriven, IsGauged};
ghost use Rattle.fip_host.specs.Hosting.{StepsTo, RunsOn, IsAtStart, IsStarted, IsIdle, end_now, frames_of, results_of};
ghost use Rattle.fip_host.specs.Hosting.{StandsAtStart, words_given};
ghost use Rattle.fip_host.specs.Starting.{IsTextStarted, IsUnstarted, KeepsFromText};
ghost use Rattle.fip_host.specs.declared.answer.Refusal.{Refusal};
ghost use Rattle.fip_host.specs.declared.answer.Refusal.TheVariants as R;
ghost use Rattle.fip_host.specs.Needing.{IsNeed, capped, largest_frame, places_bytes, store_bytes, words_held};
ghost use Rattle.fip_host.specs.Statuses.{end_at, end_by, end_by_run};

use super::cells::add_credits;
use super::{Hosted, function_in, no_cells, sealed};
use crate::answer::{FipEnd, FipNeed, Refusal, trap_number};
use cell_code::Function;
use cell_store::Loader;
use code_verify::Verified;
use fip_base::plain::{NoMemory, Stack};
use fip_language::limits::{MOST_FIELDS, MOST_FRAMES};
use fip_machine::{Ended, Gauge, Machine, Paused, Stepped, TaskStack};
use std::alloc::Global;
use value_text::{LoadError, load_values};

/// The most bytes of a text: no block of memory has more.
pub const MOST_TEXT_BYTES: usize = 9223372036854775808;

// The frames of a run: those that a fip function needs, or so many, at most 1,000,000.
fn frames_for(verified: &Verified, number: usize, frames: u64) -> usize
    ensures few { result ≤ MOST_FRAMES }
    ensures are { (held : Option a_stack) × HasStack (plain verified.now.code) number held
        × (result ≡ frames_of frames held) }
{
    match verified.code_stack(number) {
        Some(stack) => stack.frames.min(MOST_FRAMES),
        None => frames.min(MOST_FRAMES as u64) as usize,
    }
}

/// The memory of a run that is given up: that of its words, and that beside them.
pub fn memory_of(alloc: Global, task: Option<Paused>) -> (Vec<u64>, Vec<u64>)
    ensures none { result.0.items ≡ [] }
{
    match task {
        Some(paused) => paused.into_memory(),
        None => (Vec::new(alloc), Vec::new(alloc)),
    }
}

// A run that is so, and not in a trap.
fn end_at(status: u32) -> FipEnd
    ensures is { result ≡ end_at status }
{
    FipEnd {
        status,
        trap: 0,
        line: 0,
        col: 0,
    }
}

// The state of a run that ended so, or goes on.
fn end_of(stepped: Option<Stepped>) -> FipEnd
    ensures is { result ≡ end_by stepped }
    ensures memory { result.status ≢ 10 }
{
    match stepped {
        Some(Stepped::Trap { kind, line, col }) => FipEnd {
            status: 3,
            trap: trap_number(kind),
            line,
            col,
        },
        Some(Stepped::Value) => end_at(0),
        Some(Stepped::Deep) => end_at(7),
        _ => end_at(15),
    }
}

// How a run ended with a step; none where it goes on.
fn ended_by(stepped: Stepped) -> Option<Stepped>
    ensures is { result ≡ ended_by stepped }
{
    match stepped {
        Stepped::Went | Stepped::Entered => None,
        _ => Some(stepped),
    }
}

// The state of a run that was run to an end.
fn end_of_run(ended: Ended) -> FipEnd
    ensures is { result ≡ end_by_run ended }
    ensures memory { result.status ≢ 10 }
{
    match ended {
        Ended::Value => end_of(Some(Stepped::Value)),
        Ended::Trap { kind, line, col } => end_of(Some(Stepped::Trap { kind, line, col })),
        Ended::Deep => end_of(Some(Stepped::Deep)),
        Ended::Out => end_at(4),
    }
}

// Whether a run that is safe goes on; and what is known of a verified code.
fn is_sure(verified: &Verified, is_safe: bool, paused: &Paused) -> bool
    ensures safe { result ≡ true → is_safe ≡ true }
    ensures going { result ≡ true → paused.now.ended ≡ None }
    ensures sound { IsSound (plain verified.now.code) }
    ensures literals { HasMachineInts (plain verified.now.code) }
{
    let _code = verified.code();
    is_safe && paused.ended().is_none()
}

// Runs a machine whose run is safe to the end. It is no part of its caller's code, so that the registers of the
// processor are the loop's.
#[inline(never)]
fn drive_sure<'a>(machine: &mut Machine<'a>, calls: u64, gauge: &mut Gauge) -> Ended
    requires safe { IsSafeRun machine.old calls }
    ensures code { machine.new.stack.code ≡ machine.old.stack.code }
    ensures run { IsDriven machine.old calls machine.new result }
    ensures gauge { IsGauged machine.old calls gauge.old gauge.new }
{
    machine.run_sure(true, calls, gauge)
}

// Runs a machine to the end.
#[inline(never)]
fn drive<'a>(machine: &mut Machine<'a>, is_safe: bool, calls: u64, gauge: &mut Gauge) -> Ended
    requires safe { is_safe ≡ true → IsSafeRun machine.old calls }
    ensures code { machine.new.stack.code ≡ machine.old.stack.code }
    ensures run { IsDriven machine.old calls machine.new result }
    ensures gauge { IsGauged machine.old calls gauge.old gauge.new }
{
    if is_safe {
        drive_sure(machine, calls, gauge)
    } else {
        machine.run(calls, gauge)
    }
}

/// The words of the results of a run that ended with values, where they are open to be read.
pub fn results_in(task: &Option<Paused>, is_open: bool) -> Option<&[u64]>
    ensures some { (v : Checked) →
        IfSome result (λ r. words_given (option_map (stand_of v) task.now) is_open ≡ Some r.now) }
    ensures none { (v : Checked) → IfNone result (words_given (option_map (stand_of v) task.now) is_open ≡ None) }
{
    match task {
        Some(paused) => {
            if !is_open {
                return None;
            }
            match paused.ended() {
                Some(Stepped::Value) => Some(paused.results()),
                _ => None,
            }
        }
        None => None,
    }
}

// Loads the arguments of a function from a text, and makes a cell for each of its credits.
fn loaded(
    alloc: Global,
    verified: &Verified,
    function: &Function,
    text: &[u8],
    loader: Loader,
) -> Result<(Loader, Vec<u64>), LoadError>
    requires table { IsSoundTable verified.now.code.types }
    requires function { (n : ℕ) × (slice_get verified.now.code.functions.items n ≡ Some function.now) }
    requires short { length text.now ≤ MOST_TEXT_BYTES }
    ensures few { IfOk result (λ r. length r.1.items ≤ function.now.registers) }
    ensures loads { IfOk result (λ r. IsLoaded verified.now.code.types (types_of function.now.params)
        function.now.credits.items text.now loader r.0 r.1.items) }
    ensures order { HasNoFree loader → IfOk result (λ r. IsInOrder verified.now.code.types
        (types_of function.now.params) function.now.credits.items text.now loader r.0 r.1.items) }
    ensures place { (at : ℕ) (l : Loading) → result ≡ Err (BadValue at l) → (l ≡ loader)
        × IsPlace (SpellsValues verified.now.code.types (types_of function.now.params)) text.now at }
    ensures full { (n given : ℕ) (l : Loading) → result ≡ Err (Full n given l) → (l ≡ loader) × (given ≡ loader.left)
        × (given < n) × (vs : Values) × SpellsValues verified.now.code.types (types_of function.now.params) text.now vs
        × (n ≡ needed loader function.now.credits.items vs) }
    ensures store { IfOk result (λ r. IsStore (store_of r.0.cells r.0.released)) }
{
    let params = function.params.as_slice();
    let credits = function.credits.as_slice();
    let types = &verified.code().types;
    match load_values(alloc, types, params, credits, text, loader) {
        Ok((loader, words)) => {
            let _left = loader.left();
            Ok((loader, words))
        }
        Err(error) => Err(error),
    }
}

/// A run of a function at its start, on words that are there, in memory that is there.
pub fn begun(
    verified: &Verified,
    number: usize,
    words: Vec<u64>,
    spare: Vec<u64>,
    frames: u64,
) -> Result<Paused, NoMemory>
    requires there { number < length verified.now.code.functions.items }
    requires few { (g : a_function) → slice_get verified.now.code.functions.items number ≡ Some g →
        length words.items ≤ g.registers }
    ensures can { IfOk result (CanResume verified.now) }
    ensures starts { IfOk result (λ p. (s : Store) → StandsAtStart verified.now number words.items frames s
        (stand_of verified.now p)) }
{
    let frames = frames_for(verified, number, frames);
    let stack = TaskStack::start_in(verified, number, words, spare, frames)?;
    Ok(stack.pause())
}

impl Hosted {
    /// Starts a run of a function on the words of its arguments, with a cell for each of its credits, and so many
    /// frames where it isn't `fip`. A run that was there is given up, and its memory serves the new one. OutOfRange
    /// where no function has the number, or takes another number of arguments; TooSmall where the store has no room for
    /// the credits; NoMemory.
    pub fn start(
        &mut self,
        alloc: Global,
        number: usize,
        arguments: &[u64],
        frames: u64,
    ) -> Result<(), Refusal>
        ensures code { self.new.code ≡ self.old.code }
        ensures kept { self.new.kept ≡ self.old.kept }
        ensures starts { OnOk result (IsStarted number arguments.now frames self.old self.new) }
        ensures refused { IfErr result (IsUnstarted number arguments.now self.old self.new) }
    {
        let Some(function) = function_in(&self.verified, number) else {
            return Err(Refusal::OutOfRange);
        };
        let params = function.params.as_slice();
        if arguments.len() != params.len() {
            return Err(Refusal::OutOfRange);
        }
        self.is_safe = false;
        let (mut words, spare) = memory_of(alloc, self.task.take());
        words.extend_from_slice(arguments)?;
        let credits = function.credits.as_slice();
        add_credits(alloc, &mut self.cells, credits, &mut words)?;
        self.begin(number, words, spare, frames)
    }

    /// Starts a run on words that are there.
    pub fn begin(
        &mut self,
        number: usize,
        words: Vec<u64>,
        spare: Vec<u64>,
        frames: u64,
    ) -> Result<(), Refusal>
        requires there { number < length self.old.code.code.functions.items }
        requires few { (g : a_function) → slice_get self.old.code.code.functions.items number ≡ Some g →
            length words.items ≤ g.registers }
        ensures code { self.new.code ≡ self.old.code }
        ensures store { self.new.store ≡ self.old.store }
        ensures left { self.new.left ≡ self.old.left }
        ensures kept { self.new.kept ≡ self.old.kept }
        ensures starts { OnOk result (IsAtStart number words.items frames self.new) }
        ensures memory { (e : Refusal) → result ≡ Err e → e ≡ R.NoMemory }
    {
        let task = begun(&self.verified, number, words, spare, frames)?;
        self.task = Some(task);
        self.is_safe = false;
        self.entry = number;
        self.is_open = true;
        self.gauge = Gauge::new();
        Ok(())
    }

    /// Starts a run of a function on the text of its arguments, a line each, as `start` does. BadInput where the text
    /// is none of the parameters' types; TooSmall where its cells and the credits need more words than the store has
    /// left; OutOfRange where no function has the number; these leave the store as it was. NoMemory, after which the
    /// store has no word.
    pub fn start_text(
        &mut self,
        alloc: Global,
        number: usize,
        text: &[u8],
        frames: u64,
    ) -> Result<(), Refusal>
        requires short { length text.now ≤ MOST_TEXT_BYTES }
        ensures code { self.new.code ≡ self.old.code }
        ensures kept { self.new.kept ≡ self.old.kept }
        ensures starts { OnOk result (IsTextStarted number text.now frames self.old self.new) }
        ensures keeps { IfErr result (KeepsFromText number text.now self.old self.new) }
    {
        let Some(function) = function_in(&self.verified, number) else {
            return Err(Refusal::OutOfRange);
        };
        self.is_safe = false;
        let (_, spare) = memory_of(alloc, self.task.take());
        let loader = std::mem::replace(&mut self.cells, no_cells(alloc)).reopen();
        match loaded(alloc, &self.verified, function, text, loader) {
            Ok((loader, words)) => {
                let Ok(task) = begun(&self.verified, number, words, spare, frames) else {
                    return Err(Refusal::NoMemory);
                };
                self.cells = sealed(loader);
                self.task = Some(task);
                self.is_safe = true;
                self.entry = number;
                self.is_open = true;
                self.gauge = Gauge::new();
                Ok(())
            }
            Err(LoadError::BadValue { at, loader }) => {
                self.cells = sealed(loader);
                Err(Refusal::BadInput { at })
            }
            Err(
                LoadError::Full {
                    needed,
                    words: given,
                    loader,
                },
            ) => {
                self.cells = sealed(loader);
                Err(Refusal::TooSmall { needed, given })
            }
            Err(LoadError::NoMemory) => Err(Refusal::NoMemory),
        }
    }

    /// Does one instruction of the run. It takes no memory.
    pub fn step(&mut self) -> FipEnd
        ensures code { self.new.code ≡ self.old.code }
        ensures steps { StepsTo self.old self.new result }
        ensures idle { IsIdle self.old result }
        ensures memory { result.status ≢ 10 }
    {
        match self.task.take() {
            Some(paused) => {
                let mut stack = paused.resume(&self.verified);
                self.is_safe = false;
                let stepped = stack.step(&mut self.cells);
                self.task = Some(stack.pause());
                end_of(ended_by(stepped))
            }
            None => end_at(13),
        }
    }

    /// Runs to the end, with so many calls: the entry takes one, and each Call and Tail one. It takes no memory. After
    /// status 4 another call goes on with one call fewer than it is given.
    pub fn run(&mut self, alloc: Global, calls: u64) -> FipEnd
        ensures code { self.new.code ≡ self.old.code }
        ensures runs { RunsOn self.old calls self.new result }
        ensures idle { IsIdle self.old result }
        ensures memory { result.status ≢ 10 }
    {
        match self.task.take() {
            Some(paused) => {
                let is_safe = is_sure(&self.verified, self.is_safe, &paused);
                let cells = std::mem::replace(&mut self.cells, no_cells(alloc));
                let mut machine = Machine::of(paused.resume(&self.verified), cells);
                let ended = drive(&mut machine, is_safe, calls, &mut self.gauge);
                self.is_safe = is_safe;
                let (stack, cells) = machine.into_parts();
                self.cells = sealed(cells.reopen());
                self.task = Some(stack.pause());
                end_of_run(ended)
            }
            None => end_at(13),
        }
    }

    /// Where the run is.
    pub fn end(&self) -> FipEnd
        ensures is { result ≡ end_now self.now.task }
    {
        match &self.task {
            Some(paused) => end_of(paused.ended()),
            None => end_at(13),
        }
    }

    /// The words of the results, where the run ended with values that aren't kept yet.
    pub fn results(&self) -> Option<&[u64]>
        ensures some { IfSome result (λ r. results_of self.now ≡ Some r.now) }
        ensures none { IfNone result (results_of self.now ≡ None) }
    {
        results_in(&self.task, self.is_open)
    }

    /// What the calls of `run` saw.
    pub fn gauge(&self) -> &Gauge
        ensures is { result.now ≡ self.now.gauge }
    {
        &self.gauge
    }

    /// The bytes of memory that a store of so many words, with room for so many kept values, and a run of a function
    /// with so many frames take.
    pub fn need(&self, number: usize, words: usize, kept: usize, frames: u64) -> Option<FipNeed>
        ensures some { IfSome result (IsNeed self.now.code number words kept frames) }
        ensures none { result ≡ None → slice_get self.now.code.code.functions.items number ≡ None }
    {
        let Some(function) = self.function(number) else {
            return None;
        };
        let largest = largest_frame(self.verified.code().functions.as_slice());
        let held = words_held(self.verified.code_stack(number), frames, largest);
        Some(FipNeed {
            store: store_bytes(words, kept),
            run: run_bytes(held, function.registers as usize, largest),
        })
    }
}

// The lists of places of a store: for each size of cells 4 bytes for each that it may have, and a block.
fn places_bytes(words: usize) -> usize
    ensures is { result ≡ capped (places_bytes 16 words) }
{
    let mut bytes = 0usize;
    for size in 0..MOST_FIELDS {
        bytes = bytes.saturating_add((words / (size + 2)).saturating_mul(4));
        bytes = bytes.saturating_add(32);
    }
    bytes
}

// The bytes of a store.
fn store_bytes(words: usize, kept: usize) -> usize
    ensures is { result ≡ capped (store_bytes words kept) }
{
    places_bytes(words)
        .saturating_add(4096)
        .saturating_add(words.saturating_mul(8))
        .saturating_add((words / 64).saturating_mul(8))
        .saturating_add((words / 2).saturating_mul(8))
        .saturating_add(kept.saturating_mul(24))
}

// The words of the greatest frame.
fn largest_frame(functions: &[Function]) -> usize
    ensures is { result ≡ largest_frame functions.now }
{
    let mut largest = 2usize;
    for function in functions {
        largest = largest.max(function.registers as usize + 2);
    }
    largest
}

// The words of all frames of a run.
fn words_held(stack: Option<Stack>, frames: u64, largest: usize) -> usize
    ensures is { result ≡ capped (words_held stack frames largest) }
{
    match stack {
        Some(stack) => stack.words,
        None => largest.saturating_mul(frames.min(MOST_FRAMES as u64) as usize + 1),
    }
}

// The bytes of a run: the words of its frames, the arguments' beside them, and the greatest frame once more.
fn run_bytes(held: usize, registers: usize, largest: usize) -> usize
    ensures is { result ≡ capped ((held + registers + largest) * 8 + 128) }
{
    held.saturating_add(registers)
        .saturating_add(largest)
        .saturating_mul(8)
        .saturating_add(128)
}
