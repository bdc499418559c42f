// A list of variables, with the last place of each at hand.
ghost use Rattle.std.specs.Prelude.{◌≡◌, ◌<◌, ℕ, suc, ◌-◌, List, [], ◌∷◌, ◌++◌, map, take, drop, length, filter};
ghost use Rattle.std.specs.Prelude.{get_or, set, OnOk, OnErr, IfOk, None};
ghost use Rattle.fip_rules.specs.Logs.{last, step_number, IsTable, IsTrail};
ghost use Rattle.fip_rules.specs.Notes.{has, distinct};

use fip_base::plain::NoMemory;
use std::alloc::Global;
use std::marker::Model;

// A variable's number, and the place before this one where it is too.
#[derive(Clone, Copy)]
struct Step {
    number: usize,
    before: Option<usize>,
}

/// A list of variables by numbers. Whether a variable is in it, or in its end, is known at once.
#[derive(Drop)]
pub struct Log {
    steps: Vec<Step>,
    // For each number the last place where it is.
    last: Vec<Option<usize>>,
}

impl Model for Log {
    ghost Value = { List ℕ };

    ghost view = { λ s. map step_number s.steps.items };

    ghost invariant = { λ s. IsTable s.last.items (map step_number s.steps.items) × IsTrail [] s.steps.items };
}

impl Log {
    /// The empty list.
    pub fn new(alloc: Global) -> Log
        ensures none { result ≡ [] }
    {
        Log {
            steps: Vec::new(alloc),
            last: Vec::new(alloc),
        }
    }

    /// Its length.
    pub fn len(&self) -> usize
        ensures count { result ≡ length self.now }
    {
        self.steps.len()
    }

    /// The last place where a variable is.
    pub fn last_place(&self, number: usize) -> Option<usize>
        ensures place { result ≡ last self.now number }
    {
        place_at(&self.last, number)
    }

    /// Whether a variable is in it.
    #[tactic(auto, using(crate::proofs::LogTables::has_is))]
    pub fn has(&self, number: usize) -> bool
        ensures held { result ≡ has self.now number }
    {
        self.last_place(number).is_some()
    }

    /// Whether a variable is after the first `kept` ones.
    pub fn has_since(&self, kept: usize, number: usize) -> bool
        ensures held { result ≡ has (drop kept self.now) number }
    {
        match self.last_place(number) {
            Some(place) => kept <= place,
            None => false,
        }
    }

    /// One more. Where no memory is left, nothing changes.
    pub fn push(&mut self, number: usize) -> Result<(), NoMemory>
        ensures added { OnOk result (self.new ≡ self.old ++ number ∷ []) }
        ensures same { OnErr result (self.new ≡ self.old) }
    {
        make_room(&mut self.last, number)?;
        let before = place_at(&self.last, number);
        let place = self.steps.len();
        self.steps.push(Step { number, before })?;
        put_place(&mut self.last, number, Some(place));
        Ok(())
    }

    /// Some more.
    pub fn extend(&mut self, numbers: &[usize]) -> Result<(), NoMemory>
        ensures added { OnOk result (self.new ≡ self.old ++ numbers.now) }
    {
        for number in numbers {
            self.push(*number)?;
        }
        Ok(())
    }

    /// The first `kept` ones stay.
    pub fn leave(&mut self, kept: usize)
        ensures left { self.new ≡ take kept self.old }
    {
        while kept < self.len() {
            self.leave_one();
        }
    }

    /// All but the last one stay.
    pub fn leave_one(&mut self)
        ensures left { self.new ≡ take (length self.old - 1) self.old }
    {
        if let Some(step) = self.steps.pop() {
            put_place(&mut self.last, step.number, step.before);
        }
    }

    // The variable at a place.
    fn number_at(&self, place: usize) -> usize
        requires { place < length self.now }
        ensures { drop place self.now ≡ result ∷ drop (suc place) self.now }
    {
        self.steps[place].number
    }

    /// Puts those after the first `kept` ones after a list.
    pub fn append_since(&self, kept: usize, out: &mut Vec<usize>) -> Result<(), NoMemory>
        ensures added { OnOk result (out.new.items ≡ out.old.items ++ drop kept self.now) }
    {
        for place in kept..self.len() {
            out.push(self.number_at(place))?;
        }
        Ok(())
    }

    /// Those after the first `kept` ones, each once.
    pub fn distinct_since(&self, alloc: Global, kept: usize) -> Result<Vec<usize>, NoMemory>
        ensures once { IfOk result (λ v. v.items ≡ distinct (drop kept self.now)) }
    {
        let mut out = Vec::new(alloc);
        for place in kept..self.len() {
            let number = self.number_at(place);
            if !self.has_since(place + 1, number) {
                out.push(number)?;
            }
        }
        Ok(out)
    }

    /// Those of a list that are after the first `kept` ones.
    pub fn common_since(
        &self,
        alloc: Global,
        kept: usize,
        numbers: &[usize],
    ) -> Result<Vec<usize>, NoMemory>
        ensures common { IfOk result (λ v. v.items ≡ filter (λ x. has (drop kept self.now) x) numbers.now) }
    {
        let mut out = Vec::new(alloc);
        for number in numbers {
            if self.has_since(kept, *number) {
                out.push(*number)?;
            }
        }
        Ok(out)
    }
}

// The place that a table has for a number.
fn place_at(table: &[Option<usize>], number: usize) -> Option<usize>
    ensures { result ≡ get_or table.now number None }
{
    if number < table.len() {
        table[number]
    } else {
        None
    }
}

// Makes a table long enough to have a place for a number.
fn make_room(table: &mut Vec<Option<usize>>, number: usize) -> Result<(), NoMemory>
    ensures same { (y : ℕ) → get_or table.new.items y None ≡ get_or table.old.items y None }
    ensures long { OnOk result (number < length table.new.items) }
{
    while table.len() <= number {
        table.push(None)?;
    }
    Ok(())
}

// Writes the place of a number that the table has room for.
fn put_place(table: &mut Vec<Option<usize>>, number: usize, place: Option<usize>)
    ensures { table.new.items ≡ set table.old.items number place }
{
    if number < table.len() {
        table[number] = place;
    }
}
