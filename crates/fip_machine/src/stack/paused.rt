// A task that is put aside without the code that it runs over.
ghost use Rattle.std.specs.Prelude.{◌≡◌, ◌<◌, [], length, take};
ghost use Rattle.fip_machine.specs.Pausing.{CanResume, instrs_at, stand_of};

use super::TaskStack;
use cell_code::Instr;
use machine_step::verifier::Verified;
use machine_step::{Beside, Bounds, Cursor, Highest, Stepped, function_at};

/// Where the running function of a task is: its registers, its number, its next instruction, where its frame begins,
/// how many frames wait below it, and the most of frames and words so far.
#[derive(Clone, Copy)]
pub struct Place {
    registers: usize,
    function: usize,
    at: usize,
    base: usize,
    frames: usize,
    highest: Highest,
}

/// A task between two turns, which borrows nothing. It is taken up again over the code that it was started at.
#[derive(Drop)]
pub struct Paused {
    bounds: Bounds,
    words: Vec<u64>,
    beside: Beside,
    place: Place,
    ended: Option<Stepped>,
}

impl<'a> TaskStack<'a> {
    /// Puts the task aside. It takes no memory.
    pub fn pause(self) -> Paused
        ensures can { CanResume self.entry.code result }
        ensures same { stand_of self.entry.code result ≡ self.entry }
    {
        let cursor = self.cursor;
        Paused {
            bounds: self.bounds,
            words: self.words,
            beside: self.beside,
            place: Place {
                registers: cursor.registers,
                function: cursor.function,
                at: cursor.at,
                base: cursor.base,
                frames: cursor.frames,
                highest: cursor.highest,
            },
            ended: self.ended,
        }
    }
}

// The instructions of a function.
fn instrs_of<'a>(verified: &'a Verified, place: &Place) -> &'a [Instr]
    requires there { place.now.function < length verified.now.code.functions.items }
    ensures is { result.now ≡ instrs_at verified.now.code.functions.items place.now.function }
{
    function_at(verified, place.function).instrs.as_slice()
}

impl Paused {
    /// Takes the task up again, over the code that it was started at. It takes no memory.
    pub fn resume<'a>(self, verified: &'a Verified) -> TaskStack<'a>
        requires can { CanResume verified.now self }
        ensures same { result ≡ stand_of verified.now self }
    {
        let place = self.place;
        TaskStack {
            verified,
            bounds: self.bounds,
            words: self.words,
            beside: self.beside,
            cursor: Cursor {
                instrs: instrs_of(verified, &place),
                registers: place.registers,
                function: place.function,
                at: place.at,
                base: place.base,
                frames: place.frames,
                highest: place.highest,
            },
            ended: self.ended,
        }
    }

    /// How the run ended; none while it goes on.
    pub fn ended(&self) -> Option<Stepped>
        ensures is { result ≡ self.now.ended }
    {
        self.ended
    }

    /// The words of the results, after Value.
    pub fn results(&self) -> &[u64]
        ensures given { result.now ≡ take self.now.beside.given self.now.beside.results }
    {
        &self.beside.results[..self.beside.given]
    }

    /// The number of the running function: the entry's, where the run hasn't left it.
    pub fn function(&self) -> usize
        ensures is { result ≡ self.now.place.function }
    {
        self.place.function
    }

    /// Gives the task up, and hands out its memory for another one (`TaskStack::start_in`): that of the frames' words,
    /// without a word, and that beside them.
    pub fn into_memory(self) -> (Vec<u64>, Vec<u64>)
        ensures none { result.0.items ≡ [] }
    {
        let mut words = self.words;
        words.clear();
        (words, self.beside.spare)
    }
}
