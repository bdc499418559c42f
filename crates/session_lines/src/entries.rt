// The entries of a code, by name.
ghost use Rattle.std.specs.Prelude.{◌≡◌, ◌<◌, ◌≤◌, ℕ, List, None, length, IfOk, IfSome, OnOk};
ghost use Rattle.code_verify.specs.cell_code.declared.code.Function.{Function as a_function};
ghost use Rattle.fip_language.specs.declared.limits.TheConstants.{MOST_FRAMES};
ghost use Rattle.fip_trees.specs.Names.{with_meaning};
ghost use Rattle.code_verify.specs.cell_code.Plain.{plain};
ghost use Rattle.session_lines.specs.Named.{HasName, HasFrames, AreEntries};

use code_verify::Verified;
use fip_base::plain::NoMemory;
use fip_language::limits::MOST_FRAMES;
use fip_trees::meanings::Meanings;
use std::alloc::Global;

/// The functions of a code that have a name: fip and fbip functions without static parameters.
#[derive(Drop)]
pub struct Entries<'a> {
    numbers: Meanings<'a, usize>,
}

// The names with that of one function more, where it has one.
fn put<'a>(numbers: &mut Meanings<'a, usize>, name: &'a [u8], number: usize) -> Result<(), NoMemory>
    ensures named { OnOk result (0 < length name.now → numbers.new ≡ with_meaning numbers.old name.now number) }
    ensures nameless { OnOk result (length name.now ≡ 0 → numbers.new ≡ numbers.old) }
{
    if name.is_empty() {
        return Ok(());
    }
    numbers.add(name, number)?;
    Ok(())
}

impl<'a> Entries<'a> {
    /// The entries of a code. Of two functions with one name, which no program gives, the first one counts.
    pub fn of(alloc: Global, verified: &'a Verified) -> Result<Entries<'a>, NoMemory>
        ensures all { IfOk result (λ e. AreEntries verified.now.code.functions.items e.numbers) }
    {
        let mut numbers = Meanings::new(alloc);
        for (number, function) in verified.code().functions.iter().enumerate() {
            put(&mut numbers, function.name.as_slice(), number)?;
        }
        Ok(Entries { numbers })
    }

    /// The number of the function with a name.
    pub fn find(&self, name: &[u8]) -> Option<usize>
        ensures there { (fs : List a_function) → AreEntries fs self.now.numbers → IfSome result (HasName fs name.now) }
        ensures none { (fs : List a_function) → AreEntries fs self.now.numbers → result ≡ None → (n : ℕ) →
            HasName fs name.now n → ⊥ }
    {
        self.numbers.find(name)
    }
}

/// The frames that a run of a function gets beside the entry's: as many as it needs where it is fip, else as many as
/// are given.
pub fn frames_of(verified: &Verified, entry: usize, given: usize) -> usize
    ensures few { result ≤ MOST_FRAMES }
    ensures exact { HasFrames (plain verified.now.code) entry given result }
{
    match verified.code_stack(entry) {
        Some(stack) => stack.frames.min(MOST_FRAMES),
        None => given.min(MOST_FRAMES),
    }
}
