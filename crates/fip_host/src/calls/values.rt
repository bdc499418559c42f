// Values that are kept from run to run, and their text.
ghost use Rattle.std.specs.Prelude.{◌≡◌, ◌≢◌, ◌⊎◌, Some, None, [], false, drop, length, map, slice_set, take};
ghost use Rattle.fip_language.specs.Store.{Placed, value_of, word_of};
ghost use Rattle.fip_language.specs.PrintedText.{printed};
ghost use Rattle.value_text.specs.Standing.{Stands};
ghost use Rattle.fip_host.specs.Hosting.{IsStarted, results_of};
ghost use Rattle.fip_host.specs.Keeping.{HasKept, IsUsedUp};
ghost use Rattle.fip_host.specs.Starting.{LacksCredits, TakesOthers};
ghost use Rattle.fip_host.specs.Unkept.{HasTooFew, NamesNothing};
ghost use Rattle.fip_host.specs.Telling.{argument_word, byte_count, filled, kept_at};

use super::{fill, status_of};
use crate::answer::{FipArgument, FipKept};
use crate::handle::Handle;
use std::alloc::Global;

/// Keeps the results of a run that ended with values, each under the first number that is free: how many they are, and
/// their numbers in `numbers`. They can't be read or kept again. It takes no memory. Status 13: there are none; 12:
/// `numbers` is too short, or too few numbers are free.
#[unsafe(no_mangle)]
pub extern "C" fn fip_keep(machine: &mut Handle, numbers: &mut [usize], count: &mut usize) -> u32
    ensures code { machine.new.held.code ≡ machine.old.held.code }
    ensures task { machine.new.held.task ≡ machine.old.held.task }
    ensures store { machine.new.held.store ≡ machine.old.held.store }
    ensures taken { result ≡ 0 → machine.new.held.is_open ≡ false }
    ensures keeps { result ≡ 0 → HasKept machine.old.held machine.new.held (take count.new numbers.new) }
    ensures rest { result ≡ 0 → drop count.new numbers.new ≡ drop count.new numbers.old }
    ensures closed { result ≡ 13 → results_of machine.old.held ≡ None }
    ensures range { result ≡ 12 → HasTooFew numbers.old machine.old.held }
    ensures status { (result ≡ 0) ⊎ (result ≡ 12) ⊎ (result ≡ 13) }
    ensures same { result ≢ 0 → machine.new.held ≡ machine.old.held }
{
    match machine.machine().keep(numbers) {
        Ok(kept) => {
            *count = kept;
            0
        }
        Err(refusal) => refusal.number(),
    }
}

/// What is kept under a number. Status 12: nothing is.
#[unsafe(no_mangle)]
pub extern "C" fn fip_kept(machine: &mut Handle, number: usize, kept: &mut FipKept) -> u32
    ensures same { machine.new.held ≡ machine.old.held }
    ensures reports { result ≡ 0 → kept_at machine.old.held.kept number
        ≡ Some (record { ty = kept.new.type_number; word = kept.new.word }) }
    ensures none { result ≢ 0 → (result ≡ 12) × (kept.new ≡ kept.old) × (kept_at machine.old.held.kept number ≡ None) }
{
    match machine.machine().kept(number) {
        Some(value) => {
            *kept = FipKept {
                type_number: value.ty,
                word: value.word,
            };
            0
        }
        None => 12,
    }
}

/// Releases the cells of a kept value, whose number is free from then on. It takes no memory. Status 12: nothing is
/// kept under the number.
#[unsafe(no_mangle)]
pub extern "C" fn fip_forget(machine: &mut Handle, number: usize) -> u32
    ensures code { machine.new.held.code ≡ machine.old.held.code }
    ensures task { machine.new.held.task ≡ machine.old.held.task }
    ensures cells { machine.new.held.store.cells ≡ machine.old.held.store.cells }
    ensures free { result ≡ 0 → machine.new.held.kept ≡ slice_set machine.old.held.kept number None }
    ensures some { result ≡ 0 → kept_at machine.old.held.kept number ≢ None }
    ensures none { result ≢ 0 → (result ≡ 12) × (machine.new.held ≡ machine.old.held)
        × (kept_at machine.old.held.kept number ≡ None) }
{
    status_of(machine.machine().forget(number))
}

/// Starts a run of a function, as `fip_start` does, on kept values, on ints and on constructors without fields. A kept
/// value is used up, unless its parameter is borrowed; where no run starts, all stay. Status 12: there is no such
/// function, it takes another number of arguments, or nothing is kept under a number; 14: an argument is no value of
/// its parameter's type, or one that is used up is given twice; 6: the store has no room for the credits; 10: there is
/// no memory.
#[unsafe(no_mangle)]
pub extern "C" fn fip_start_kept(
    alloc: Global,
    machine: &mut Handle,
    number: usize,
    arguments: &[FipArgument],
    frames: u64,
) -> u32
    ensures code { machine.new.held.code ≡ machine.old.held.code }
    ensures starts { result ≡ 0 → IsStarted number (map (argument_word machine.old.held.kept) arguments.now) frames
        machine.old.held machine.new.held }
    ensures uses { result ≡ 0 → IsUsedUp number arguments.now machine.old.held machine.new.held }
    ensures kept { result ≢ 0 → machine.new.held.kept ≡ machine.old.held.kept }
    ensures full { result ≡ 6 →
        LacksCredits number (map (argument_word machine.old.held.kept) arguments.now) machine.old.held }
    ensures range { result ≡ 12 → TakesOthers number (length arguments.now) machine.old.held
        ⊎ NamesNothing machine.old.held.kept arguments.now }
    ensures status { (result ≡ 0) ⊎ (result ≡ 6) ⊎ (result ≡ 10) ⊎ (result ≡ 12) ⊎ (result ≡ 14) }
{
    status_of(
        machine
            .machine()
            .start_kept(alloc, number, arguments, frames),
    )
}

/// Prints the value of a type that a word stands for: how many bytes the text has; as much of it as fits is written to
/// `out`. It takes memory for the text. Status 10: there is no memory.
#[unsafe(no_mangle)]
pub extern "C" fn fip_print(
    alloc: Global,
    machine: &mut Handle,
    type_number: u32,
    word: u64,
    out: &mut [u8],
    length: &mut usize,
) -> u32
    ensures same { machine.new.held ≡ machine.old.held }
    ensures text { result ≡ 0 → (x : Placed) →
        Stands machine.old.held.code.code.types machine.old.held.store.cells type_number x → word_of x ≡ word →
        let text = printed machine.old.held.code.code.types type_number (value_of x) [] in
        (out.new ≡ filled out.old text) × (length.new ≡ byte_count text) }
    ensures none { result ≢ 0 → (result ≡ 10) × (out.new ≡ out.old) }
{
    match machine.machine().text_of(alloc, type_number, word) {
        Ok(text) => {
            fill(out, length, text.as_slice());
            0
        }
        Err(_) => 10,
    }
}
