// The store and its cells.
ghost use Rattle.std.specs.Prelude.{◌≡◌, ◌≢◌, ◌+◌, ◌<◌, ◌⊎◌, [], None, length, replicate};
ghost use Rattle.fip_language.specs.declared.limits.TheConstants.{MOST_STORE_WORDS, MOST_FIELDS};
ghost use Rattle.cell_store.specs.Cells.{count_live};
ghost use Rattle.fip_host.specs.Hosting.{loading_of};
ghost use Rattle.fip_host.specs.Making.{IsMade};
ghost use Rattle.fip_host.specs.Telling.{IsCell, IsField, IsLast, IsNamedBy, IsNext, IsReleased};

use super::status_of;
use crate::answer::FipCell;
use crate::handle::Handle;
use std::alloc::Global;

/// Gives the machine a new store of so many words, at most 16,777,216, and room for so many kept values; what was in
/// the store before, a run and what was kept are gone, and their memory is given back once the new store's is taken.
/// That is taken here, and no call that makes, reads or releases a cell takes any. Status 12: too many words; 10:
/// there is no memory, and all is as it was.
#[unsafe(no_mangle)]
pub extern "C" fn fip_store(alloc: Global, machine: &mut Handle, words: usize, kept: usize) -> u32
    ensures code { machine.new.held.code ≡ machine.old.held.code }
    ensures empty { result ≡ 0 → machine.new.held.store.cells ≡ [] }
    ensures left { result ≡ 0 → machine.new.held.left ≡ words }
    ensures idle { result ≡ 0 → machine.new.held.task ≡ None }
    ensures none { result ≡ 0 → machine.new.held.kept ≡ replicate kept None }
    ensures same { result ≢ 0 → machine.new.held ≡ machine.old.held }
    ensures refused { result ≢ 0 → (result ≡ 10) ⊎ ((result ≡ 12) × (MOST_STORE_WORDS < words)) }
{
    status_of(machine.machine().furnish(alloc, words, kept))
}

/// Makes a cell of 1 to 16 fields with the constructor of this number, and writes its word. Status 6: the store is
/// full; 12: another number of fields. That the fields are words of the constructor's types is the caller's affair.
#[unsafe(no_mangle)]
pub extern "C" fn fip_cell(
    alloc: Global,
    machine: &mut Handle,
    tag: u32,
    fields: &[u64],
    word: &mut u64,
) -> u32
    ensures code { machine.new.held.code ≡ machine.old.held.code }
    ensures task { machine.new.held.task ≡ machine.old.held.task }
    ensures kept { machine.new.held.kept ≡ machine.old.held.kept }
    ensures made { result ≡ 0 →
        IsMade (loading_of machine.old.held) (loading_of machine.new.held) tag fields.now word.new }
    ensures full { result ≡ 6 → machine.old.held.left < length fields.now + 1 }
    ensures range { result ≡ 12 → (length fields.now ≡ 0) ⊎ (MOST_FIELDS < length fields.now) }
    ensures same { result ≢ 0 → (word.new ≡ word.old)
        × (loading_of machine.new.held ≡ loading_of machine.old.held) }
{
    match machine.machine().cell(alloc, tag, fields) {
        Ok(made) => {
            *word = made;
            0
        }
        Err(refusal) => refusal.number(),
    }
}

/// The cell that a word names. Status 12: it names none.
#[unsafe(no_mangle)]
pub extern "C" fn fip_cell_at(machine: &mut Handle, word: u64, cell: &mut FipCell) -> u32
    ensures same { machine.new.held ≡ machine.old.held }
    ensures reports { result ≡ 0 → IsCell machine.old.held.store word cell.new }
    ensures none { result ≢ 0 → (result ≡ 12) × (cell.new ≡ cell.old)
        × IsNamedBy machine.old.held.store.cells word None }
{
    match machine.machine().cell_at(word) {
        Some(found) => {
            *cell = found;
            0
        }
        None => 12,
    }
}

/// The word of a field, from 0, of the cell that a word names. Status 12: there is no such cell or field.
#[unsafe(no_mangle)]
pub extern "C" fn fip_field(machine: &mut Handle, word: u64, i: usize, field: &mut u64) -> u32
    ensures same { machine.new.held ≡ machine.old.held }
    ensures reports { result ≡ 0 → IsField machine.old.held.store word i field.new }
    ensures none { result ≢ 0 → (result ≡ 12) × (field.new ≡ field.old) }
{
    match machine.machine().field(word, i) {
        Some(found) => {
            *field = found;
            0
        }
        None => 12,
    }
}

/// The word of the cell after the one that a word names; of the first cell where the word names none, as 0 does.
/// Status 12: no further cell is there.
#[unsafe(no_mangle)]
pub extern "C" fn fip_next(machine: &mut Handle, word: u64, next: &mut u64) -> u32
    ensures same { machine.new.held ≡ machine.old.held }
    ensures reports { result ≡ 0 → IsNext machine.old.held.store.cells word next.new }
    ensures none { result ≢ 0 → (result ≡ 12) × (next.new ≡ next.old) × IsLast machine.old.held.store.cells word }
{
    match machine.machine().next(word) {
        Some(found) => {
            *next = found;
            0
        }
        None => 12,
    }
}

/// The number of cells of a size that aren't released.
#[unsafe(no_mangle)]
pub extern "C" fn fip_count(machine: &mut Handle, size: usize) -> usize
    ensures same { machine.new.held ≡ machine.old.held }
    ensures is { result ≡ count_live size machine.old.held.store.cells machine.old.held.store.released }
{
    machine.machine().count(size)
}

/// Releases the cell that a word names: the next cell of its size takes its place. Status 12: the word names no cell,
/// or one that is released. That nothing else names it is the caller's affair.
#[unsafe(no_mangle)]
pub extern "C" fn fip_release(machine: &mut Handle, word: u64) -> u32
    ensures code { machine.new.held.code ≡ machine.old.held.code }
    ensures task { machine.new.held.task ≡ machine.old.held.task }
    ensures kept { machine.new.held.kept ≡ machine.old.held.kept }
    ensures released { result ≡ 0 → IsReleased machine.old.held.store machine.new.held.store word }
    ensures same { result ≢ 0 → (result ≡ 12) × (machine.new.held ≡ machine.old.held) }
{
    status_of(machine.machine().release(word))
}
