// A code that was verified.
ghost use Rattle.std.specs.Prelude.{◌≡◌, ◌↔◌, ◌<◌, ◌≤◌, ℕ, Some, length, slice_get};
ghost use Rattle.call_groups.specs.CallGraph.{In};
ghost use Rattle.cell_code.specs.Runnable.{IsRunnable};
ghost use Rattle.code_rules.specs.Breaks.{IsSound};
ghost use Rattle.cell_code.specs.Plain.{plain};
ghost use Rattle.code_rules.specs.StackNumbers.{HasStack};
ghost use Rattle.code_rules.specs.Tables.{AreSoundTables};
ghost use Rattle.code_verify.specs.Checked.{HasMachineInts, ReleasesAt, stack_at};
ghost use Rattle.code_verify.specs.Surveying.{row_at};
ghost use Rattle.code_verify.specs.Finding.{AreInOrder};
ghost use Rattle.code_verify.specs.Steps.{drops_at};
ghost use Rattle.code_verify.specs.declared.walk.DropType.{DropType};
ghost use Rattle.code_verify.specs.Releasing.{IsVerified};

use crate::walk::DropType;
use cell_code::Code;
use fip_base::plain::Stack;
use std::marker::Model;

/// A sound code, and what is known of its runs before they begin.
#[derive(Drop)]
pub struct Verified {
    code: Code,
    stacks: Vec<Option<Stack>>,
    drops: Vec<Vec<DropType>>,
}

impl Model for Verified {
    ghost use Rattle.code_verify.specs.Checked.{Checked};
    ghost use Rattle.code_verify.specs.Releasing.{IsVerified};

    ghost Value = { Checked };

    ghost view = { λ v. record { code = v.code; stacks = v.stacks.items } };

    ghost invariant = { λ v. IsVerified v.code v.stacks.items v.drops.items };
}

impl Verified {
    /// A sound code with what was found of its functions: for each what it needs of the stack, where it is fip, and the
    /// types at its Drops in rising order of their instructions.
    pub(crate) fn new(code: Code, stacks: Vec<Option<Stack>>, drops: Vec<Vec<DropType>>) -> Verified
        requires verified { IsVerified code stacks.items drops.items }
        ensures same { result.code ≡ code }
    {
        Verified {
            code,
            stacks,
            drops,
        }
    }

    /// The code that was verified.
    #[inline(always)]
    pub fn code(&self) -> &Code
        ensures same { result.now ≡ self.now.code }
        ensures tables { AreSoundTables (plain self.now.code) }
        ensures sound { IsSound (plain self.now.code) }
        ensures literals { HasMachineInts (plain self.now.code) }
        ensures runnable { IsRunnable self.now.code.functions.items self.now.stacks }
    {
        &self.code
    }

    /// What a run of a function holds of the stack at the most: frames beside its own, and words in all frames, a frame
    /// being the function's registers and two words more. None for a function that isn't fip, and where there is none
    /// of this number.
    pub fn code_stack(&self, function: usize) -> Option<Stack>
        ensures known { (s : _) → result ≡ Some s → slice_get self.now.stacks function ≡ Some (Some s) }
        ensures exact { HasStack (plain self.now.code) function result }
    {
        stack_in(self.stacks.as_slice(), function)
    }

    /// The type of the tree that an instruction of a function releases. None where it is no Drop, or one that no run
    /// reaches, or there is no such instruction.
    pub fn drop_type(&self, function: usize, at: usize) -> Option<u32>
        ensures exact { (t : ℕ) → (result ≡ Some t ↔ ReleasesAt (plain self.now.code) function at t) }
    {
        type_at(drops_in(self.drops.as_slice(), function), at)
    }
}

// The stack number of a function; none where there is none.
fn stack_in(stacks: &[Option<Stack>], function: usize) -> Option<Stack>
    ensures { result ≡ stack_at stacks.now function }
{
    match stacks.get(function) {
        Some(stack) => *stack,
        None => None,
    }
}

// The types at the Drops of a function.
fn drops_in(drops: &[Vec<DropType>], function: usize) -> &[DropType]
    ensures { result.now ≡ row_at drops.now function }
{
    match drops.get(function) {
        Some(found) => found.as_slice(),
        None => &[],
    }
}

// The type at an instruction, of those at the Drops of a function, which are in order.
fn type_at(drops: &[DropType], at: usize) -> Option<u32>
    requires in_order { AreInOrder drops.now }
    ensures exact { (t : ℕ) → (result ≡ Some t ↔ In (drops_at at t) drops.now) }
{
    let place = place_of(drops, at);
    match drops.get(place) {
        Some(found) => { if found.at == at { Some(found.ty) } else { None } }
        None => None,
    }
}

// How many are before an instruction.
fn place_of(drops: &[DropType], at: usize) -> usize
    requires in_order { AreInOrder drops.now }
    ensures before { (j : ℕ) (d : DropType) → j < result → slice_get drops.now j ≡ Some d → d.at < at }
    ensures following { (j : ℕ) (d : DropType) → result ≤ j → slice_get drops.now j ≡ Some d → at ≤ d.at }
    ensures within { result ≤ length drops.now }
{
    let mut low = 0usize;
    let mut high = drops.len();
    while low < high {
        let middle = low + (high - low) / 2;
        if at_of(drops, middle) < at {
            low = middle + 1;
        } else {
            high = middle;
        }
    }
    low
}

fn at_of(drops: &[DropType], place: usize) -> usize
    requires within { place < length drops.now }
    ensures is { (d : DropType) → slice_get drops.now place ≡ Some d → d.at ≡ result }
{
    drops[place].at
}
