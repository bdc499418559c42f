// What instructions do to the words of frames. Lists of at most four registers are asked for their length, the commonest
// first, where a `match` would ask for the shortest first; so each length is straight code. A list is read first and then
// written, since the store and the frames may not be known to lie apart.
ghost use Rattle.std.specs.Prelude.{◌≡◌, ◌≢◌, ℕ, ◌+◌, ◌<◌, ◌≤◌, List, [], ◌∷◌, ◌++◌, None, Some, length, vec_len};
ghost use Rattle.std.specs.Prelude.{slice_set};
ghost use Rattle.fip_language.specs.declared.limits.TheConstants.{MOST_FIELDS, MOST_RESULTS};
ghost use Rattle.fip_language.specs.Store.{Cell};
ghost use Rattle.machine_semantics.specs.cell_code.Runnable.{AreBelow};
ghost use Rattle.cell_store.specs.Cells.{cell_at, size_in};
ghost use Rattle.cell_store.specs.Reported.{Reported, Overwritten};
ghost use Rattle.machine_frames.specs.Keeping.{Keeps, Clears};
ghost use Rattle.machine_frames.specs.Words.{words_from, put_words, laid_at};

use cell_store::Cells;
use fip_language::limits::{MOST_FIELDS, MOST_RESULTS};

#[inline(never)]
fn take_all<C: Cells>(
    cells: &C,
    words: &mut [u64],
    base: usize,
    own: usize,
    place: u32,
    registers: &[u16],
)
    requires size { size_in (cell_at (C.cells cells.now) place) ≡ length registers.now }
    requires below { AreBelow own registers.now }
    requires room { base + own ≤ length words.old }
    ensures keeps { Keeps base words.old words.new }
    ensures fields { (c : Cell) → cell_at (C.cells cells.now) place ≡ Some c →
        words.new ≡ put_words base words.old registers.now c.fields }
{
    for (i, register) in registers.iter().enumerate() {
        words[base + *register as usize] = cells.field(place, i);
    }
}

/// Registers of the frame at `base`, which has `own`, get the fields of the cell, one each.
#[inline(always)]
pub fn take<C: Cells>(
    cells: &C,
    words: &mut [u64],
    base: usize,
    own: usize,
    place: u32,
    registers: &[u16],
)
    requires size { size_in (cell_at (C.cells cells.now) place) ≡ length registers.now }
    requires below { AreBelow own registers.now }
    requires room { base + own ≤ length words.old }
    ensures keeps { Keeps base words.old words.new }
    ensures fields { (c : Cell) → cell_at (C.cells cells.now) place ≡ Some c →
        words.new ≡ put_words base words.old registers.now c.fields }
{
    if let [a, b] = registers {
        let x = cells.field(place, 0);
        let y = cells.field(place, 1);
        words[base + *a as usize] = x;
        words[base + *b as usize] = y;
    } else if let [a, b, c] = registers {
        let x = cells.field(place, 0);
        let y = cells.field(place, 1);
        let z = cells.field(place, 2);
        words[base + *a as usize] = x;
        words[base + *b as usize] = y;
        words[base + *c as usize] = z;
    } else if let [a, b, c, d] = registers {
        let x = cells.field(place, 0);
        let y = cells.field(place, 1);
        let z = cells.field(place, 2);
        let w = cells.field(place, 3);
        words[base + *a as usize] = x;
        words[base + *b as usize] = y;
        words[base + *c as usize] = z;
        words[base + *d as usize] = w;
    } else {
        match registers {
            [a] => words[base + *a as usize] = cells.field(place, 0),
            [] => {}
            _ => take_all(cells, words, base, own, place, registers),
        }
    }
}

#[inline(never)]
fn put_all<C: Cells>(
    cells: &mut C,
    words: &[u64],
    base: usize,
    own: usize,
    place: u32,
    tag: u32,
    registers: &[u16],
)
    requires there { cell_at (C.cells cells.old) place ≢ None }
    requires size { size_in (cell_at (C.cells cells.old) place) ≡ length registers.now }
    requires few { length registers.now ≤ MOST_FIELDS }
    requires below { AreBelow own registers.now }
    requires room { base + own ≤ length words.now }
    ensures cells { C.cells cells.new ≡ slice_set (C.cells cells.old) place (Some (record {
      tag = tag;
      fields = words_from base words.now registers.now;
    })) }
    ensures released { C.released cells.new ≡ C.released cells.old }
    ensures pushed { C.pushed cells.new ≡ C.pushed cells.old }
    ensures reported { (first : C) (ts : List Reported) → C.was_reported first ts cells.old → C.was_reported first
        (ts ++ Overwritten place tag (words_from base words.now registers.now) ∷ []) cells.new }
{
    let mut fields = [0; MOST_FIELDS];
    for (i, register) in registers.iter().enumerate() {
        fields[i] = words[base + *register as usize];
    }
    cells.overwrite(place, tag, &fields[..registers.len()]);
}

/// The cell gets the constructor and the words of registers of the frame at `base`, which has `own`.
#[inline(always)]
pub fn put<C: Cells>(
    cells: &mut C,
    words: &[u64],
    base: usize,
    own: usize,
    place: u32,
    tag: u32,
    registers: &[u16],
)
    requires there { cell_at (C.cells cells.old) place ≢ None }
    requires size { size_in (cell_at (C.cells cells.old) place) ≡ length registers.now }
    requires few { length registers.now ≤ MOST_FIELDS }
    requires below { AreBelow own registers.now }
    requires room { base + own ≤ length words.now }
    ensures cells { C.cells cells.new ≡ slice_set (C.cells cells.old) place (Some (record {
      tag = tag;
      fields = words_from base words.now registers.now;
    })) }
    ensures released { C.released cells.new ≡ C.released cells.old }
    ensures pushed { C.pushed cells.new ≡ C.pushed cells.old }
    ensures reported { (first : C) (ts : List Reported) → C.was_reported first ts cells.old → C.was_reported first
        (ts ++ Overwritten place tag (words_from base words.now registers.now) ∷ []) cells.new }
{
    if let [a, b] = registers {
        cells.overwrite(
            place,
            tag,
            &[words[base + *a as usize], words[base + *b as usize]],
        );
    } else if let [a, b, c] = registers {
        cells.overwrite(
            place,
            tag,
            &[
                words[base + *a as usize],
                words[base + *b as usize],
                words[base + *c as usize],
            ],
        );
    } else if let [a, b, c, d] = registers {
        cells.overwrite(
            place,
            tag,
            &[
                words[base + *a as usize],
                words[base + *b as usize],
                words[base + *c as usize],
                words[base + *d as usize],
            ],
        );
    } else if let [a] = registers {
        cells.overwrite(place, tag, &[words[base + *a as usize]]);
    } else {
        put_all(cells, words, base, own, place, tag, registers);
    }
}

#[inline(never)]
fn clear_all(words: &mut [u64], from: usize, to: usize)
    requires { to ≤ length words.old }
    ensures { Clears from to words.old words.new }
{
    for i in from..to {
        words[i] = 0;
    }
}

// Four words become 0.
#[inline(always)]
fn clear_four(words: &mut [u64], at: usize)
    requires { at + 4 ≤ length words.old }
    ensures { Clears at (at + 4) words.old words.new }
{
    words[at] = 0;
    words[at + 1] = 0;
    words[at + 2] = 0;
    words[at + 3] = 0;
}

// From four to eight words become 0: the first four and the last four.
#[inline(always)]
fn clear_fours(words: &mut [u64], from: usize, to: usize)
    requires some { from + 4 ≤ to }
    requires few { to ≤ from + 8 }
    requires room { to ≤ length words.old }
    ensures { Clears from to words.old words.new }
{
    clear_four(words, from);
    clear_four(words, to - 4);
}

// From eight to sixteen words become 0.
#[inline(always)]
fn clear_eights(words: &mut [u64], from: usize, to: usize)
    requires some { from + 8 ≤ to }
    requires few { to ≤ from + 16 }
    requires room { to ≤ length words.old }
    ensures { Clears from to words.old words.new }
{
    clear_fours(words, from, from + 8);
    clear_fours(words, to - 8, to);
}

// From sixteen to thirty-two words become 0.
#[inline(always)]
fn clear_sixteens(words: &mut [u64], from: usize, to: usize)
    requires some { from + 16 ≤ to }
    requires few { to ≤ from + 32 }
    requires room { to ≤ length words.old }
    ensures { Clears from to words.old words.new }
{
    clear_eights(words, from, from + 16);
    clear_eights(words, to - 16, to);
}

// At most three words become 0.
#[inline(always)]
fn clear_few(words: &mut [u64], from: usize, to: usize)
    requires few { to ≤ from + 3 }
    requires room { to ≤ length words.old }
    ensures { Clears from to words.old words.new }
{
    if from < to {
        words[from] = 0;
        words[from + (to - from) / 2] = 0;
        words[to - 1] = 0;
    }
}

/// The registers of the frame at `base`, which has `own`, become 0 from number `given` on: the first ones and the last
/// ones, which may be the same.
#[inline(always)]
pub fn clear_rest(words: &mut [u64], base: usize, given: usize, own: usize)
    requires given { given ≤ own }
    requires room { base + own ≤ length words.old }
    ensures { Clears (base + given) (base + own) words.old words.new }
{
    let from = base + given;
    let to = base + own;
    let count = own - given;
    if count <= 8 {
        if count >= 4 {
            clear_fours(words, from, to);
        } else {
            clear_few(words, from, to);
        }
    } else if count <= 16 {
        clear_eights(words, from, to);
    } else if count <= 32 {
        clear_sixteens(words, from, to);
    } else {
        clear_all(words, from, to);
    }
}

#[inline(never)]
fn pass_all(words: &mut [u64], base: usize, own: usize, above: usize, arguments: &[u16])
    requires arguments { AreBelow own arguments.now }
    requires own { base + own ≤ above }
    requires room { above + length arguments.now ≤ length words.old }
    ensures keeps { Keeps above words.old words.new }
    ensures given { words.new ≡ laid_at above words.old (words_from base words.old arguments.now) }
{
    for (i, register) in arguments.iter().enumerate() {
        words[above + i] = words[base + *register as usize];
    }
}

/// The first words of the frame that begins at `above` get those of registers of the one at `base`, which has `own`.
#[inline(always)]
pub fn pass(words: &mut [u64], base: usize, own: usize, above: usize, arguments: &[u16])
    requires arguments { AreBelow own arguments.now }
    requires own { base + own ≤ above }
    requires room { above + length arguments.now ≤ length words.old }
    ensures keeps { Keeps above words.old words.new }
    ensures given { words.new ≡ laid_at above words.old (words_from base words.old arguments.now) }
{
    if let [a, b] = arguments {
        let x = words[base + *a as usize];
        let y = words[base + *b as usize];
        words[above] = x;
        words[above + 1] = y;
    } else if let [a, b, c] = arguments {
        let x = words[base + *a as usize];
        let y = words[base + *b as usize];
        let z = words[base + *c as usize];
        words[above] = x;
        words[above + 1] = y;
        words[above + 2] = z;
    } else {
        match arguments {
            [a] => words[above] = words[base + *a as usize],
            [] => {}
            _ => pass_all(words, base, own, above, arguments),
        }
    }
}

#[inline(never)]
fn replace_all(words: &mut [u64], spare: &mut [u64], base: usize, own: usize, arguments: &[u16])
    requires arguments { AreBelow own arguments.now }
    requires own { base + own ≤ length words.old }
    requires room { base + length arguments.now ≤ length words.old }
    requires spare { length arguments.now ≤ length spare.old }
    ensures keeps { Keeps base words.old words.new }
    ensures long { length spare.new ≡ length spare.old }
    ensures given { words.new ≡ laid_at base words.old (words_from base words.old arguments.now) }
{
    for (i, register) in arguments.iter().enumerate() {
        spare[i] = words[base + *register as usize];
    }
    for i in 0..arguments.len() {
        words[base + i] = spare[i];
    }
}

/// The first words of the frame at `base`, which has `own` registers, get those of some of its registers.
#[inline(always)]
pub fn replace(words: &mut [u64], spare: &mut Vec<u64>, base: usize, own: usize, arguments: &[u16])
    requires arguments { AreBelow own arguments.now }
    requires own { base + own ≤ length words.old }
    requires room { base + length arguments.now ≤ length words.old }
    requires spare { length arguments.now ≤ vec_len spare.old }
    ensures keeps { Keeps base words.old words.new }
    ensures long { vec_len spare.new ≡ vec_len spare.old }
    ensures given { words.new ≡ laid_at base words.old (words_from base words.old arguments.now) }
{
    if let [a, b] = arguments {
        let x = words[base + *a as usize];
        let y = words[base + *b as usize];
        words[base] = x;
        words[base + 1] = y;
    } else if let [a, b, c] = arguments {
        let x = words[base + *a as usize];
        let y = words[base + *b as usize];
        let z = words[base + *c as usize];
        words[base] = x;
        words[base + 1] = y;
        words[base + 2] = z;
    } else if let [a, b, c, d] = arguments {
        let x = words[base + *a as usize];
        let y = words[base + *b as usize];
        let z = words[base + *c as usize];
        let w = words[base + *d as usize];
        words[base] = x;
        words[base + 1] = y;
        words[base + 2] = z;
        words[base + 3] = w;
    } else {
        match arguments {
            [a] => words[base] = words[base + *a as usize],
            [] => {}
            _ => replace_all(words, spare.as_mut_slice(), base, own, arguments),
        }
    }
}

#[inline(never)]
fn give_all(
    words: &mut [u64],
    from: usize,
    own: usize,
    results: &[u16],
    to: usize,
    n: usize,
    destinations: &[u16],
)
    requires results { AreBelow own results.now }
    requires few { length results.now ≤ MOST_RESULTS }
    requires from { from + own ≤ length words.old }
    requires destinations { AreBelow n destinations.now }
    requires to { to + n ≤ length words.old }
    ensures keeps { Keeps to words.old words.new }
    ensures given { length destinations.now ≡ length results.now → words.new
        ≡ put_words to words.old destinations.now (words_from from words.old results.now) }
{
    let mut given = [0; MOST_RESULTS];
    for (i, register) in results.iter().enumerate() {
        given[i] = words[from + *register as usize];
    }
    for (i, register) in destinations.iter().enumerate() {
        if i < MOST_RESULTS {
            words[to + *register as usize] = given[i];
        }
    }
}

/// The destinations, of the frame at `to`, which has `n` registers, get the words of the results, of the frame at
/// `from`, which has `own`.
#[inline(always)]
pub fn give(
    words: &mut [u64],
    from: usize,
    own: usize,
    results: &[u16],
    to: usize,
    n: usize,
    destinations: &[u16],
)
    requires results { AreBelow own results.now }
    requires few { length results.now ≤ MOST_RESULTS }
    requires from { from + own ≤ length words.old }
    requires destinations { AreBelow n destinations.now }
    requires to { to + n ≤ length words.old }
    ensures keeps { Keeps to words.old words.new }
    ensures given { length destinations.now ≡ length results.now → words.new
        ≡ put_words to words.old destinations.now (words_from from words.old results.now) }
{
    if let [result] = results
        && let [destination] = destinations
    {
        words[to + *destination as usize] = words[from + *result as usize];
    } else {
        give_all(words, from, own, results, to, n, destinations);
    }
}
