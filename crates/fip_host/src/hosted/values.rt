// Values that a machine keeps between runs, by number, and printing.
ghost use Rattle.std.specs.Prelude.{◌≡◌, ◌≢◌, ◌≤◌, ◌++◌, None, Some, IfErr, IfOk, IfSome, IfNone, OnOk, OnErr, Err};
ghost use Rattle.std.specs.Prelude.{false, [], length, map, take, drop};
ghost use Rattle.std.specs.Prelude.{slice_get, slice_set};
ghost use Rattle.fip_language.specs.Store.{Parts, Placed, value_of, values_of, word_of, words_of};
ghost use Rattle.fip_language.specs.PrintedText.{printed, printed_lines};
ghost use Rattle.value_text.specs.Standing.{Stands, StandAll};
ghost use Rattle.fip_machine.specs.machine_cells.Small.{IsSmall};
ghost use Rattle.fip_host.specs.Hosting.{IsStarted, results_of};
ghost use Rattle.fip_host.specs.Keeping.{ArePut, HasKept, IsUsedUp, count_free, typed_words, used_by, used_up};
ghost use Rattle.fip_host.specs.Unkept.{AreNoWords, IsNoWord, IsUnkept, IsUnstartedOn};
ghost use Rattle.fip_host.specs.Printing.{ArePrintable, printed_results};
ghost use Rattle.fip_host.specs.Telling.{kept_at, argument_word};
ghost use Rattle.fip_host.specs.declared.answer.FipArgument.{FipArgument as an_argument};
ghost use Rattle.fip_host.specs.declared.answer.Refusal.{Refusal};
ghost use Rattle.fip_host.specs.declared.answer.Refusal.TheVariants.{NotReady, OutOfRange, WrongValue};

use super::cells::add_credits;
use super::runs::{begun, memory_of, results_in};
use super::{Hosted, Kept, function_in};
use crate::answer::{FipArgument, Refusal};
use cell_store::Sealed;
use fip_base::plain::{NoMemory, Param};
use fip_base::table::TypeTable;
use fip_machine::Gauge;
use machine_cells::{SIZES, release_tree};
use std::alloc::Global;
use value_text::{print_after, print_value};

// Whether a word is that of a constructor of a type that has no fields.
fn is_bare(types: &TypeTable, ty: u32, word: u64) -> bool {
    if ty as usize > types.len() || word % 2 == 1 || word / 2 > u32::MAX as u64 {
        return false;
    }
    match types.constructors_of(ty).get((word / 2) as usize) {
        Some(constructor) => constructor.fields().is_empty(),
        None => false,
    }
}

// The word of an argument that isn't kept: an int, or a constructor without fields.
fn bare_word(types: &TypeTable, ty: u32, word: u64) -> Result<u64, Refusal>
    ensures same { IfOk result (λ w. w ≡ word) }
    ensures wrong { (e : Refusal) → result ≡ Err e → e ≡ WrongValue }
{
    if ty == 0 || is_bare(types, ty, word) {
        Ok(word)
    } else {
        Err(Refusal::WrongValue)
    }
}

// The kept value of a number.
fn kept_at(kept: &[Option<Kept>], number: u64) -> Option<Kept>
    ensures is { result ≡ kept_at kept.now number }
{
    match kept.get(number as usize) {
        Some(slot) => *slot,
        None => None,
    }
}

// Nothing is kept under the number from now on.
fn forget_number(kept: &mut [Option<Kept>], number: u64)
    ensures is { kept.new ≡ slice_set kept.old number None }
{
    if number < kept.len() as u64 {
        kept[number as usize] = None;
    }
}

// Whether an argument before this one names the same kept value, and one of them is used up.
fn is_named_twice(params: &[Param], arguments: &[FipArgument], i: usize) -> bool {
    let Some(argument) = arguments.get(i) else {
        return false;
    };
    for (param, other) in params.iter().zip(arguments.iter().take(i)) {
        if other.kept && other.value == argument.value {
            return !(param.lent && params.get(i).is_some_and(|here| here.lent));
        }
    }
    false
}

// The word of argument i.
fn word_of(
    types: &TypeTable,
    kept: &[Option<Kept>],
    params: &[Param],
    arguments: &[FipArgument],
    i: usize,
) -> Result<u64, Refusal>
    ensures is { IfOk result (λ w. (a : an_argument) × (slice_get arguments.now i ≡ Some a)
        × (w ≡ argument_word kept.now a)) }
    ensures refused { IfErr result (IsNoWord kept.now params.now arguments.now i) }
{
    let (Some(param), Some(argument)) = (params.get(i), arguments.get(i)) else {
        return Err(Refusal::OutOfRange);
    };
    if !argument.kept {
        return bare_word(types, param.ty, argument.value);
    }
    let Some(value) = kept_at(kept, argument.value) else {
        return Err(Refusal::OutOfRange);
    };
    if value.ty != param.ty || is_named_twice(params, arguments, i) {
        return Err(Refusal::WrongValue);
    }
    Ok(value.word)
}

// Puts the words of the arguments after the others, for which there is room.
fn add_words(
    types: &TypeTable,
    kept: &[Option<Kept>],
    params: &[Param],
    arguments: &[FipArgument],
    words: &mut Vec<u64>,
) -> Result<(), Refusal>
    requires many { length arguments.now ≡ length params.now }
    ensures words { OnOk result (words.new.items ≡ words.old.items ++ map (argument_word kept.now) arguments.now) }
    ensures refused { IfErr result (AreNoWords kept.now arguments.now) }
{
    for i in 0..arguments.len() {
        words.push(word_of(types, kept, params, arguments, i)?)?;
    }
    Ok(())
}

// How many numbers are free.
fn free_numbers(kept: &[Option<Kept>]) -> usize
    ensures is { result ≡ count_free kept.now }
{
    let mut free = 0usize;
    for slot in kept {
        if slot.is_none() {
            free += 1;
        }
    }
    free
}

// Keeps a value under the first free number.
fn put(kept: &mut [Option<Kept>], value: Kept) -> Option<usize>
    ensures free { IfSome result (λ n. slice_get kept.old n ≡ Some None) }
    ensures put { IfSome result (λ n. kept.new ≡ slice_set kept.old n (Some value)) }
    ensures none { IfNone result (count_free kept.old ≡ 0) }
    ensures same { IfNone result (kept.new ≡ kept.old) }
{
    for number in 0..kept.len() {
        if kept[number].is_none() {
            kept[number] = Some(value);
            return Some(number);
        }
    }
    None
}

// Whether each argument can be taken.
fn can_take(
    types: &TypeTable,
    kept: &[Option<Kept>],
    params: &[Param],
    arguments: &[FipArgument],
) -> Result<(), Refusal>
    requires many { length arguments.now ≡ length params.now }
    ensures refused { IfErr result (AreNoWords kept.now arguments.now) }
{
    for i in 0..arguments.len() {
        word_of(types, kept, params, arguments, i)?;
    }
    Ok(())
}

// Nothing is kept from now on under the number of an argument that is used up.
fn use_one(kept: &mut [Option<Kept>], param: &Param, argument: &FipArgument)
    ensures is { kept.new ≡ used_by param.now argument.now kept.old }
{
    if argument.kept && !param.lent {
        forget_number(kept, argument.value);
    }
}

// Nothing is kept from now on under the numbers of the arguments that are used up.
fn use_up(kept: &mut [Option<Kept>], params: &[Param], arguments: &[FipArgument])
    ensures is { kept.new ≡ used_up params.now arguments.now kept.old }
{
    for (param, argument) in params.iter().zip(arguments.iter()) {
        use_one(kept, param, argument);
    }
}

// Keeps so many values under the first free numbers.
fn put_all(
    kept: &mut [Option<Kept>],
    types: &[u32],
    words: &[u64],
    numbers: &mut [usize],
    count: usize,
)
    requires types { count ≤ length types.now }
    requires words { count ≤ length words.now }
    requires numbers { count ≤ length numbers.old }
    requires free { count ≤ count_free kept.old }
    ensures put { ArePut (take count (typed_words types.now words.now)) (take count numbers.new) kept.old kept.new }
    ensures rest { drop count numbers.new ≡ drop count numbers.old }
{
    for i in 0..count {
        let value = Kept {
            ty: types[i],
            word: words[i],
        };
        match put(kept, value) {
            Some(free) => numbers[i] = free,
            None => {}
        }
    }
}

// The lines of the values of these types that words stand for.
fn lines_text(
    alloc: Global,
    table: &TypeTable,
    cells: &Sealed,
    types: &[u32],
    words: &[u64],
) -> Result<Vec<u8>, NoMemory>
    ensures lines { (xs : Parts) → IsSmall cells.now.cells → StandAll table.now cells.now.cells types.now xs →
        words.now ≡ words_of xs → IfOk result (λ text. text.items ≡ printed_lines table.now types.now (values_of xs)) }
{
    let mut text = Vec::new(alloc);
    for (ty, word) in types.iter().zip(words.iter()) {
        text = print_after(alloc, table, cells, *ty, *word, text)?;
        text.push(b'\n')?;
    }
    Ok(text)
}

impl Hosted {
    /// Starts a run of a function, as `start` does, on values that were kept, on ints and on constructors without
    /// fields. A kept value is used up, unless the parameter is borrowed; where no run starts, all stay. WrongValue
    /// where an argument is no value of its parameter's type, or a kept value that is used up is given twice;
    /// OutOfRange where nothing is kept under a number.
    pub fn start_kept(
        &mut self,
        alloc: Global,
        number: usize,
        arguments: &[FipArgument],
        frames: u64,
    ) -> Result<(), Refusal>
        ensures code { self.new.code ≡ self.old.code }
        ensures starts { OnOk result (IsStarted number (map (argument_word self.old.kept) arguments.now) frames self.old
            self.new) }
        ensures uses { OnOk result (IsUsedUp number arguments.now self.old self.new) }
        ensures kept { OnErr result (self.new.kept ≡ self.old.kept) }
        ensures refused { IfErr result (IsUnstartedOn number arguments.now self.old) }
    {
        let Some(function) = function_in(&self.verified, number) else {
            return Err(Refusal::OutOfRange);
        };
        let params = function.params.as_slice();
        if arguments.len() != params.len() {
            return Err(Refusal::OutOfRange);
        }
        let types = &self.verified.code().types;
        let kept = self.kept.as_slice();
        can_take(types, kept, params, arguments)?;
        self.is_safe = false;
        let (mut words, spare) = memory_of(alloc, self.task.take());
        words.reserve(arguments.len())?;
        add_words(types, kept, params, arguments, &mut words)?;
        let credits = function.credits.as_slice();
        add_credits(alloc, &mut self.cells, credits, &mut words)?;
        let task = begun(&self.verified, number, words, spare, frames)?;
        use_up(self.kept.as_mut_slice(), params, arguments);
        self.task = Some(task);
        self.entry = number;
        self.is_open = true;
        self.gauge = Gauge::new();
        Ok(())
    }

    /// Keeps the results of a run that ended with values, and answers how many they are; their numbers are put into
    /// `numbers`. The results can't be read or kept again. NotReady where there are none; OutOfRange where `numbers` is
    /// shorter than they are, or fewer numbers are free.
    pub fn keep(&mut self, numbers: &mut [usize]) -> Result<usize, Refusal>
        ensures code { self.new.code ≡ self.old.code }
        ensures task { self.new.task ≡ self.old.task }
        ensures store { self.new.store ≡ self.old.store }
        ensures taken { OnOk result (self.new.is_open ≡ false) }
        ensures keeps { IfOk result (λ n. HasKept self.old self.new (take n numbers.new)) }
        ensures rest { IfOk result (λ n. drop n numbers.new ≡ drop n numbers.old) }
        ensures ready { result ≡ Err NotReady → results_of self.old ≡ None }
        ensures refused { IfErr result (IsUnkept numbers.old self.old) }
        ensures same { OnErr result (self.new ≡ self.old) }
    {
        let Some(words) = results_in(&self.task, self.is_open) else {
            return Err(Refusal::NotReady);
        };
        let Some(function) = function_in(&self.verified, self.entry) else {
            return Err(Refusal::OutOfRange);
        };
        let types = function.results.as_slice();
        let count = words.len().min(types.len());
        let free = free_numbers(self.kept.as_slice());
        if numbers.len() < count || free < count {
            return Err(Refusal::OutOfRange);
        }
        put_all(self.kept.as_mut_slice(), types, words, numbers, count);
        self.is_open = false;
        Ok(count)
    }

    /// What is kept under a number.
    pub fn kept(&self, number: usize) -> Option<Kept>
        ensures is { result ≡ kept_at self.now.kept number }
    {
        kept_at(self.kept.as_slice(), number as u64)
    }

    /// Releases the cells of the value that is kept under a number, which is free from then on. It takes no memory.
    pub fn forget(&mut self, number: usize) -> Result<(), Refusal>
        ensures code { self.new.code ≡ self.old.code }
        ensures task { self.new.task ≡ self.old.task }
        ensures cells { self.new.store.cells ≡ self.old.store.cells }
        ensures free { OnOk result (self.new.kept ≡ slice_set self.old.kept number None) }
        ensures some { OnOk result (kept_at self.old.kept number ≢ None) }
        ensures none { (e : Refusal) → result ≡ Err e → (e ≡ OutOfRange) × (kept_at self.old.kept number ≡ None) }
        ensures same { OnErr result (self.new ≡ self.old) }
    {
        let Some(value) = kept_at(self.kept.as_slice(), number as u64) else {
            return Err(Refusal::OutOfRange);
        };
        let mut freed = [0; SIZES];
        let types = &self.verified.code().types;
        self.is_safe = false;
        release_tree(types, &mut self.cells, &mut freed, value.ty, value.word);
        forget_number(self.kept.as_mut_slice(), number as u64);
        Ok(())
    }

    /// The text of the value of a type that a word stands for.
    pub fn text_of(&self, alloc: Global, ty: u32, word: u64) -> Result<Vec<u8>, NoMemory>
        ensures canonical { (x : Placed) → Stands self.now.code.code.types self.now.store.cells ty x →
            word_of x ≡ word →
            IfOk result (λ text. text.items ≡ printed self.now.code.code.types ty (value_of x) []) }
    {
        print_value(alloc, &self.verified.code().types, &self.cells, ty, word)
    }

    /// The lines of the results; NotReady where there are none.
    pub fn results_text(&self, alloc: Global) -> Result<Vec<u8>, Refusal>
        ensures lines { (xs : Parts) → ArePrintable self.now xs →
            IfOk result (λ text. text.items ≡ printed_results self.now xs) }
        ensures ready { result ≡ Err NotReady → results_of self.now ≡ None }
    {
        let Some(words) = results_in(&self.task, self.is_open) else {
            return Err(Refusal::NotReady);
        };
        let Some(function) = function_in(&self.verified, self.entry) else {
            return Err(Refusal::OutOfRange);
        };
        let types = &self.verified.code().types;
        let results = function.results.as_slice();
        Ok(lines_text(alloc, types, &self.cells, results, words)?)
    }
}
