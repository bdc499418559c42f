// One function for each instruction, each inlined into `act`, and `act` into the loop of a run. What an instruction
// requires of registers, targets, functions and room holds of a verified code, and isn't tested; what it requires of
// cells is tested in `machine_cells`, but for callers that know that the run never reaches an instruction that can't be
// done (`SURE`).
ghost use Rattle.std.specs.Prelude.{◌≡◌, ◌≢◌, ℕ, ◌+◌, ◌-◌, ◌*◌, ◌/◌, ◌<◌, ◌≤◌, ◌^◌, Bool, false, List, [], ◌++◌};
ghost use Rattle.std.specs.Prelude.{length, vec_len, Some, IfSome, None, slice_get, slice_set, slice_index_or, take};
ghost use Rattle.std.specs.Prelude.{map, if◌then◌else◌, true};
ghost use Rattle.fip_language.specs.declared.limits.TheConstants.{MOST_FIELDS, MOST_RESULTS};
ghost use Rattle.fip_language.specs.Matching.{same_int};
ghost use Rattle.fip_language.specs.Store.{Cell, Placed, places};
ghost use Rattle.cell_store.specs.Cells.{cell_at, size_in};
ghost use Rattle.cell_store.specs.Reported.{Reported, Released};
ghost use Rattle.cell_code.specs.Runnable.{AreBelow, CanCall, Covers, Row, IsSafe, IsRunnable, body_of};
ghost use Rattle.cell_code.specs.declared.kind.Kind.{Kind};
ghost use Rattle.cell_code.specs.Plain.{plain};
ghost use Rattle.code_verify.specs.Checked.{ReleasesAt};
ghost use Rattle.machine_frames.specs.machine_semantics.Cells.{Store, Release, changed_by};
ghost use Rattle.machine_frames.specs.machine_semantics.Trees.{tree_of};
ghost use Rattle.machine_frames.specs.machine_semantics.Words.{int_of};
ghost use Rattle.machine_frames.specs.machine_semantics.States.{Typed};
ghost use Rattle.machine_frames.specs.machine_semantics.Steps.{Kinds, act, next};
ghost use Rattle.machine_frames.specs.Keeping.{Keeps};
ghost use Rattle.machine_frames.specs.Words.{words_from, put_words};
ghost use Rattle.machine_cells.specs.Outcomes.{truth_word};
ghost use Rattle.machine_cells.specs.Small.{IsSmall, store_of};
ghost use Rattle.machine_cells.specs.Counting.{CountsReleased};
ghost use Rattle.machine_step.specs.Bounding.{AreAtMost, Fits};
ghost use Rattle.machine_step.specs.Coming.{IsNext, IsReported, KnowsDrop, KnowsAt, moved};
ghost use Rattle.machine_step.specs.Going.{IsDone, IsGone, IsReportedWithMore, Names};
ghost use Rattle.machine_step.specs.Placed.{IsPlaced, IsRoomy, Waiting, body_at, weight};
ghost use Rattle.machine_step.specs.Telling.{IsKnown, act_reports, next_reports};
ghost use Rattle.machine_step.specs.Sure.{IsSure, IsSureOf};
ghost use Rattle.machine_step.specs.Highest.{IsHigh, IsRaised, IsSame};
ghost use Rattle.machine_step.specs.View.{words_of, state_of};

use crate::cursor::{Bounds, Cursor};
use cell_code::{Function, Instr};
use cell_store::Cells;
use code_verify::Verified;
use fip_base::plain::{Operator, TrapKind};
use fip_language::limits::MOST_RESULTS;
use machine_cells::{
    Outcome, SIZES, bool_word, cell_of, field_cell_of, has_size, outcome_of, release_cell,
    release_tree, sized_cell_of,
};
use machine_frames::{clear_rest, give, pass, put, replace, take};

/// What a step ended in.
#[derive(Clone, Copy, PartialEq, Eq)]
pub enum Stepped {
    /// An instruction that isn't a call was done.
    Went,
    /// A Call or Tail was done.
    Entered,
    /// The entry gave its results.
    Value,
    /// An operator has no value; its line and column count from 1, the column in bytes.
    Trap {
        kind: TrapKind,
        line: usize,
        col: usize,
    },
    /// A Call found no free frame.
    Deep,
}

/// What a task has beside the words of its frames: room for the arguments of a tail call, the entry's results and how
/// many they are, and how many cells of each size it released.
#[derive(Drop)]
pub struct Beside {
    pub spare: Vec<u64>,
    pub results: [u64; MOST_RESULTS],
    pub given: usize,
    pub freed: [usize; SIZES],
    ghost few: { given ≤ MOST_RESULTS },
}

/// The function with this number.
#[inline(always)]
pub fn function_at<'a>(verified: &'a Verified, f: usize) -> &'a Function
    requires there { f < length verified.now.code.functions.items }
    ensures is { slice_get verified.now.code.functions.items f ≡ Some result.now }
    ensures runnable { IsRunnable verified.now.code.functions.items verified.now.stacks }
{
    &verified.code().functions[f]
}

// The instruction that is next.
#[inline(always)]
fn next_of<'a>(verified: &Verified, bounds: Bounds, words: &[u64], cursor: &Cursor<'a>) -> &'a Instr
    requires placed { IsPlaced verified.now bounds (length words.now) cursor.now }
    ensures row { Row (body_at verified.now cursor.now) cursor.now.at (IsSafe (body_at verified.now cursor.now))
        result.now }
    ensures is { slice_get cursor.now.instrs.now cursor.now.at ≡ Some result.now }
{
    let instrs = cursor.instrs;
    &instrs[cursor.at]
}

// On to an instruction of the same function.
#[inline(always)]
fn go_to(verified: &Verified, bounds: Bounds, words: &[u64], cursor: &mut Cursor, target: usize)
    requires placed { IsPlaced verified.now bounds (length words.now) cursor.old }
    requires roomy { IsRoomy bounds (length words.now) cursor.old }
    requires waiting { Waiting verified.now bounds words.now cursor.old.frames cursor.old.base }
    requires forward { cursor.old.at < target }
    requires safe { IsSafe (body_at verified.now cursor.old) target }
    ensures placed { IsPlaced verified.now bounds (length words.now) cursor.new }
    ensures roomy { IsRoomy bounds (length words.now) cursor.new }
    ensures waiting { Waiting verified.now bounds words.now cursor.new.frames cursor.new.base }
    ensures less { weight cursor.new < weight cursor.old }
    ensures state { (lent : List Typed) (s : Store) → state_of verified.now bounds lent s words.now cursor.new ≡ moved
        target (words_of words.now cursor.old) (state_of verified.now bounds lent s words.now cursor.old) }
    ensures same { IsSame cursor.old cursor.new }
{
    cursor.at = target;
}

// A register gets a word.
#[inline(always)]
fn write(
    verified: &Verified,
    bounds: Bounds,
    words: &mut [u64],
    cursor: &mut Cursor,
    register: u16,
    word: u64,
) -> Stepped
    requires placed { IsPlaced verified.now bounds (length words.old) cursor.old }
    requires roomy { IsRoomy bounds (length words.old) cursor.old }
    requires waiting { Waiting verified.now bounds words.old cursor.old.frames cursor.old.base }
    requires below { register < cursor.old.registers }
    requires next { IsSafe (body_at verified.now cursor.old) (cursor.old.at + 1) }
    ensures placed { IsPlaced verified.now bounds (length words.new) cursor.new }
    ensures roomy { IsRoomy bounds (length words.new) cursor.new }
    ensures waiting { Waiting verified.now bounds words.new cursor.new.frames cursor.new.base }
    ensures less { weight cursor.new < weight cursor.old }
    ensures went { result ≡ Stepped.Went }
    ensures state { (lent : List Typed) (s : Store) → state_of verified.now bounds lent s words.new cursor.new ≡ moved
        (cursor.old.at + 1) (slice_set (words_of words.old cursor.old) register word) (state_of verified.now bounds
        lent s words.old cursor.old) }
    ensures same { IsSame cursor.old cursor.new }
{
    words[cursor.base + register as usize] = word;
    let next = cursor.at + 1;
    go_to(verified, bounds, words, cursor, next);
    Stepped::Went
}

// Goes on to the next instruction, or to the target.
#[inline(always)]
fn branch(
    verified: &Verified,
    bounds: Bounds,
    words: &[u64],
    cursor: &mut Cursor,
    on: bool,
    target: u32,
) -> Stepped
    requires placed { IsPlaced verified.now bounds (length words.now) cursor.old }
    requires roomy { IsRoomy bounds (length words.now) cursor.old }
    requires waiting { Waiting verified.now bounds words.now cursor.old.frames cursor.old.base }
    requires next { IsSafe (body_at verified.now cursor.old) (cursor.old.at + 1) }
    requires forward { cursor.old.at < target }
    requires ahead { IsSafe (body_at verified.now cursor.old) target }
    ensures placed { IsPlaced verified.now bounds (length words.now) cursor.new }
    ensures roomy { IsRoomy bounds (length words.now) cursor.new }
    ensures waiting { Waiting verified.now bounds words.now cursor.new.frames cursor.new.base }
    ensures less { weight cursor.new < weight cursor.old }
    ensures went { result ≡ Stepped.Went }
    ensures state { (lent : List Typed) (s : Store) → state_of verified.now bounds lent s words.now cursor.new ≡ moved
        (if on then cursor.old.at + 1 else target) (words_of words.now cursor.old) (state_of verified.now bounds lent
        s words.now cursor.old) }
    ensures same { IsSame cursor.old cursor.new }
{
    if on {
        let next = cursor.at + 1;
        go_to(verified, bounds, words, cursor, next);
    } else {
        go_to(verified, bounds, words, cursor, target as usize);
    }
    Stepped::Went
}

// On to the next instruction.
#[inline(always)]
fn go_on(verified: &Verified, bounds: Bounds, words: &[u64], cursor: &mut Cursor) -> Stepped
    requires placed { IsPlaced verified.now bounds (length words.now) cursor.old }
    requires roomy { IsRoomy bounds (length words.now) cursor.old }
    requires waiting { Waiting verified.now bounds words.now cursor.old.frames cursor.old.base }
    requires next { IsSafe (body_at verified.now cursor.old) (cursor.old.at + 1) }
    ensures placed { IsPlaced verified.now bounds (length words.now) cursor.new }
    ensures roomy { IsRoomy bounds (length words.now) cursor.new }
    ensures waiting { Waiting verified.now bounds words.now cursor.new.frames cursor.new.base }
    ensures less { weight cursor.new < weight cursor.old }
    ensures went { result ≡ Stepped.Went }
    ensures state { (lent : List Typed) (s : Store) → state_of verified.now bounds lent s words.now cursor.new ≡ moved
        (cursor.old.at + 1) (words_of words.now cursor.old) (state_of verified.now bounds lent s words.now cursor.old) }
    ensures same { IsSame cursor.old cursor.new }
{
    let next = cursor.at + 1;
    go_to(verified, bounds, words, cursor, next);
    Stepped::Went
}

// The operands of an operator.
#[derive(Clone, Copy)]
struct Operation {
    operator: Operator,
    left: u16,
    right: u16,
    line: u32,
    col: u32,
}

// Where the instruction that is next tests the register, which just got a bool, does it.
#[inline(always)]
fn test_flag<'a>(
    verified: &'a Verified,
    bounds: Bounds,
    words: &[u64],
    cursor: &mut Cursor<'a>,
    register: u16,
    holds: bool,
)
    requires placed { IsPlaced verified.now bounds (length words.now) cursor.old }
    requires roomy { IsRoomy bounds (length words.now) cursor.old }
    requires waiting { Waiting verified.now bounds words.now cursor.old.frames cursor.old.base }
    requires word { slice_get (words_of words.now cursor.old) register ≡ Some (truth_word holds) }
    ensures placed { IsPlaced verified.now bounds (length words.now) cursor.new }
    ensures roomy { IsRoomy bounds (length words.now) cursor.new }
    ensures waiting { Waiting verified.now bounds words.now cursor.new.frames cursor.new.base }
    ensures least { weight cursor.new ≤ weight cursor.old }
    ensures gone { (kinds : Kinds) (s : Store) → IsGone verified.now bounds kinds s words.now cursor.old s words.now
        cursor.new }
    ensures same { IsSame cursor.old cursor.new }
{
    if let Instr::Test {
        register: tested,
        constructor,
        target,
    } = next_of(verified, bounds, words, cursor)
        && *tested == register
    {
        let on = *constructor == holds as u32;
        branch(verified, bounds, words, cursor, on, *target);
    }
}

// A register gets an operator's result, or the run traps. In the loop of a run a test of a comparison is done at once.
#[inline(always)]
fn calculate<'a, const IN_LOOP: bool>(
    verified: &'a Verified,
    bounds: Bounds,
    words: &mut [u64],
    cursor: &mut Cursor<'a>,
    register: u16,
    operation: Operation,
) -> Stepped
    requires placed { IsPlaced verified.now bounds (length words.old) cursor.old }
    requires roomy { IsRoomy bounds (length words.old) cursor.old }
    requires waiting { Waiting verified.now bounds words.old cursor.old.frames cursor.old.base }
    requires register { register < cursor.old.registers }
    requires left { operation.left < cursor.old.registers }
    requires right { operation.right < cursor.old.registers }
    requires next { IsSafe (body_at verified.now cursor.old) (cursor.old.at + 1) }
    ensures placed { IsPlaced verified.now bounds (length words.new) cursor.new }
    ensures roomy { IsRoomy bounds (length words.new) cursor.new }
    ensures waiting { Waiting verified.now bounds words.new cursor.new.frames cursor.new.base }
    ensures less { result ≡ Stepped.Went → weight cursor.new < weight cursor.old }
    ensures entered { result ≢ Stepped.Entered }
    ensures next { (kinds : Kinds) (ks : List Kind) (s : Store) (given : List ℕ) → IsDone IN_LOOP verified.now bounds
        kinds (Instr.Arith register operation.operator operation.left operation.right operation.line operation.col) ks
        s words.old cursor.old result s words.new cursor.new given }
    ensures same { IsSame cursor.old cursor.new }
{
    let left = words[cursor.base + operation.left as usize].cast_signed();
    let right = words[cursor.base + operation.right as usize].cast_signed();
    match outcome_of(operation.operator, left, right) {
        Outcome::Int(word) => write(verified, bounds, words, cursor, register, word),
        Outcome::Flag(holds) => {
            write(verified, bounds, words, cursor, register, bool_word(holds));
            if IN_LOOP {
                test_flag(verified, bounds, words, cursor, register, holds);
            }
            Stepped::Went
        }
        Outcome::Trap(kind) => Stepped::Trap {
            kind,
            line: operation.line as usize,
            col: operation.col as usize,
        },
    }
}

// Registers of the frame at `base`, which has `own`, get the fields of the cell.
#[inline(always)]
fn take_at<C: Cells>(
    cells: &C,
    words: &mut [u64],
    base: usize,
    own: usize,
    place: u32,
    fields: &[u16],
)
    requires room { base + own ≤ length words.old }
    requires size { size_in (cell_at (C.cells cells.now) place) ≡ length fields.now }
    requires fields { AreBelow own fields.now }
    ensures keeps { Keeps base words.old words.new }
    ensures fields { (c : Cell) → cell_at (C.cells cells.now) place ≡ Some c →
        words.new ≡ put_words base words.old fields.now c.fields }
{
    take(cells, words, base, own, place, fields);
}

// Where the instruction that is next tests the register too, whose cell is at this place, does it.
#[inline(always)]
fn test_again<'a, C: Cells>(
    verified: &'a Verified,
    bounds: Bounds,
    cells: &C,
    words: &[u64],
    cursor: &mut Cursor<'a>,
    register: u16,
    place: u32,
)
    requires placed { IsPlaced verified.now bounds (length words.now) cursor.old }
    requires roomy { IsRoomy bounds (length words.now) cursor.old }
    requires waiting { Waiting verified.now bounds words.now cursor.old.frames cursor.old.base }
    requires there { cell_at (C.cells cells.now) place ≢ None }
    requires names { Names (C.cells cells.now) (words_of words.now cursor.old) register place }
    ensures placed { IsPlaced verified.now bounds (length words.now) cursor.new }
    ensures roomy { IsRoomy bounds (length words.now) cursor.new }
    ensures waiting { Waiting verified.now bounds words.now cursor.new.frames cursor.new.base }
    ensures least { weight cursor.new ≤ weight cursor.old }
    ensures frame { words_of words.now cursor.new ≡ words_of words.now cursor.old }
    ensures gone { (kinds : Kinds) → IsSmall (C.cells cells.now) → IsGone verified.now bounds kinds (store_of
        (C.cells cells.now) (C.released cells.now)) words.now cursor.old (store_of (C.cells cells.now) (C.released
        cells.now)) words.now cursor.new }
    ensures same { IsSame cursor.old cursor.new }
{
    if let Instr::Test {
        register: tested,
        constructor,
        target,
    } = next_of(verified, bounds, words, cursor)
        && *tested == register
    {
        let on = cells.cell_tag(place) == *constructor;
        branch(verified, bounds, words, cursor, on, *target);
    }
}

// Where the instruction that is next puts fields into the register's cell, which is at this place, does it.
#[inline(always)]
fn put_next<'a, C: Cells>(
    verified: &'a Verified,
    bounds: Bounds,
    cells: &mut C,
    words: &[u64],
    cursor: &mut Cursor<'a>,
    register: u16,
    place: u32,
    size: usize,
)
    requires placed { IsPlaced verified.now bounds (length words.now) cursor.old }
    requires roomy { IsRoomy bounds (length words.now) cursor.old }
    requires waiting { Waiting verified.now bounds words.now cursor.old.frames cursor.old.base }
    requires there { cell_at (C.cells cells.old) place ≢ None }
    requires size { size_in (cell_at (C.cells cells.old) place) ≡ size }
    requires names { Names (C.cells cells.old) (words_of words.now cursor.old) register place }
    ensures placed { IsPlaced verified.now bounds (length words.now) cursor.new }
    ensures roomy { IsRoomy bounds (length words.now) cursor.new }
    ensures waiting { Waiting verified.now bounds words.now cursor.new.frames cursor.new.base }
    ensures least { weight cursor.new ≤ weight cursor.old }
    ensures small { IsSmall (C.cells cells.old) → IsSmall (C.cells cells.new) }
    ensures pushed { C.pushed cells.new ≡ C.pushed cells.old }
    ensures gone { (kinds : Kinds) → IsSmall (C.cells cells.old) → IsGone verified.now bounds kinds (store_of
        (C.cells cells.old) (C.released cells.old)) words.now cursor.old (store_of (C.cells cells.new) (C.released
        cells.new)) words.now cursor.new }
    ensures same { IsSame cursor.old cursor.new }
{
    if let Instr::Put {
        register: credit,
        constructor,
        fields,
        ..
    } = next_of(verified, bounds, words, cursor)
        && *credit == register
    {
        let fields = fields.as_slice();
        if fields.len() == size {
            put(
                cells,
                words,
                cursor.base,
                cursor.registers,
                place,
                *constructor,
                fields,
            );
            go_on(verified, bounds, words, cursor);
        }
    }
}

// The same as `put_next`, in a copy of its own for each of the usual sizes: there the number of fields is known.
#[inline(always)]
fn put_sized<'a, C: Cells>(
    verified: &'a Verified,
    bounds: Bounds,
    cells: &mut C,
    words: &[u64],
    cursor: &mut Cursor<'a>,
    register: u16,
    place: u32,
    size: usize,
)
    requires placed { IsPlaced verified.now bounds (length words.now) cursor.old }
    requires roomy { IsRoomy bounds (length words.now) cursor.old }
    requires waiting { Waiting verified.now bounds words.now cursor.old.frames cursor.old.base }
    requires there { cell_at (C.cells cells.old) place ≢ None }
    requires size { size_in (cell_at (C.cells cells.old) place) ≡ size }
    requires names { Names (C.cells cells.old) (words_of words.now cursor.old) register place }
    ensures placed { IsPlaced verified.now bounds (length words.now) cursor.new }
    ensures roomy { IsRoomy bounds (length words.now) cursor.new }
    ensures waiting { Waiting verified.now bounds words.now cursor.new.frames cursor.new.base }
    ensures least { weight cursor.new ≤ weight cursor.old }
    ensures small { IsSmall (C.cells cells.old) → IsSmall (C.cells cells.new) }
    ensures pushed { C.pushed cells.new ≡ C.pushed cells.old }
    ensures gone { (kinds : Kinds) → IsSmall (C.cells cells.old) → IsGone verified.now bounds kinds (store_of
        (C.cells cells.old) (C.released cells.old)) words.now cursor.old (store_of (C.cells cells.new) (C.released
        cells.new)) words.now cursor.new }
    ensures same { IsSame cursor.old cursor.new }
{
    match size {
        2 => put_next(verified, bounds, cells, words, cursor, register, place, 2),
        3 => put_next(verified, bounds, cells, words, cursor, register, place, 3),
        4 => put_next(verified, bounds, cells, words, cursor, register, place, 4),
        _ => put_next(
            verified, bounds, cells, words, cursor, register, place, size,
        ),
    }
}

// Where the instruction that is next takes the fields of the register's cell, which is at this place, does it, and goes
// on with that cell.
#[inline(always)]
fn take_next<'a, C: Cells, const SURE: bool>(
    verified: &'a Verified,
    bounds: Bounds,
    cells: &mut C,
    words: &mut [u64],
    cursor: &mut Cursor<'a>,
    register: u16,
    place: u32,
)
    requires placed { IsPlaced verified.now bounds (length words.old) cursor.old }
    requires roomy { IsRoomy bounds (length words.old) cursor.old }
    requires waiting { Waiting verified.now bounds words.old cursor.old.frames cursor.old.base }
    requires there { cell_at (C.cells cells.old) place ≢ None }
    requires names { Names (C.cells cells.old) (words_of words.old cursor.old) register place }
    requires sure { SURE ≡ true → IsSure verified.now bounds (C.cells cells.old) (C.released cells.old) words.old
        cursor.old }
    ensures placed { IsPlaced verified.now bounds (length words.new) cursor.new }
    ensures roomy { IsRoomy bounds (length words.new) cursor.new }
    ensures waiting { Waiting verified.now bounds words.new cursor.new.frames cursor.new.base }
    ensures least { weight cursor.new ≤ weight cursor.old }
    ensures small { IsSmall (C.cells cells.old) → IsSmall (C.cells cells.new) }
    ensures pushed { C.pushed cells.new ≡ C.pushed cells.old }
    ensures gone { (kinds : Kinds) → IsSmall (C.cells cells.old) → IsGone verified.now bounds kinds (store_of
        (C.cells cells.old) (C.released cells.old)) words.old cursor.old (store_of (C.cells cells.new) (C.released
        cells.new)) words.new cursor.new }
    ensures same { IsSame cursor.old cursor.new }
{
    if let Instr::Take {
        register: taken,
        fields,
    } = next_of(verified, bounds, words, cursor)
        && *taken == register
    {
        let fields = fields.as_slice();
        let size = fields.len();
        if has_size::<C, SURE>(cells, place, size) {
            take_at(cells, words, cursor.base, cursor.registers, place, fields);
            go_on(verified, bounds, words, cursor);
            put_sized(
                verified, bounds, cells, words, cursor, register, place, size,
            );
        }
    }
}

// Goes on where the register has the constructor, else to the target. Instructions after it that work on the same cell
// are done at once in the loop of a run, so that the cell is looked up once.
#[inline(always)]
fn test<'a, C: Cells, const IN_LOOP: bool, const SURE: bool>(
    verified: &'a Verified,
    bounds: Bounds,
    cells: &mut C,
    words: &mut [u64],
    cursor: &mut Cursor<'a>,
    register: u16,
    constructor: u32,
    target: u32,
) -> Stepped
    requires placed { IsPlaced verified.now bounds (length words.old) cursor.old }
    requires roomy { IsRoomy bounds (length words.old) cursor.old }
    requires waiting { Waiting verified.now bounds words.old cursor.old.frames cursor.old.base }
    requires register { register < cursor.old.registers }
    requires next { IsSafe (body_at verified.now cursor.old) (cursor.old.at + 1) }
    requires forward { cursor.old.at < target }
    requires ahead { IsSafe (body_at verified.now cursor.old) target }
    requires sure { SURE ≡ true → IsSureOf verified.now bounds (Instr.Test register constructor target) (C.cells
        cells.old) (C.released cells.old) words.old cursor.old }
    ensures placed { IsPlaced verified.now bounds (length words.new) cursor.new }
    ensures roomy { IsRoomy bounds (length words.new) cursor.new }
    ensures waiting { Waiting verified.now bounds words.new cursor.new.frames cursor.new.base }
    ensures less { weight cursor.new < weight cursor.old }
    ensures went { result ≡ Stepped.Went }
    ensures next { (kinds : Kinds) (ks : List Kind) (given : List ℕ) → IsSmall (C.cells cells.old) → IsDone IN_LOOP
        verified.now bounds kinds (Instr.Test register constructor target) ks (store_of (C.cells cells.old)
        (C.released cells.old)) words.old cursor.old result (store_of (C.cells cells.new) (C.released cells.new))
        words.new cursor.new given }
    ensures small { IsSmall (C.cells cells.old) → IsSmall (C.cells cells.new) }
    ensures pushed { C.pushed cells.new ≡ C.pushed cells.old }
    ensures once { IN_LOOP ≡ false → cells.new ≡ cells.old }
    ensures same { IsSame cursor.old cursor.new }
{
    let word = words[cursor.base + register as usize];
    if word % 2 == 0 {
        return branch(
            verified,
            bounds,
            words,
            cursor,
            word / 2 == u64::from(constructor),
            target,
        );
    }
    let Some(place) = cell_of::<C, SURE>(cells, word) else {
        return branch(verified, bounds, words, cursor, false, target);
    };
    branch(
        verified,
        bounds,
        words,
        cursor,
        cells.cell_tag(place) == constructor,
        target,
    );
    if IN_LOOP {
        test_again(verified, bounds, cells, words, cursor, register, place);
        take_next::<C, SURE>(verified, bounds, cells, words, cursor, register, place);
    }
    Stepped::Went
}

// A register gets a field of the cell of another.
#[inline(always)]
fn peek<C: Cells, const SURE: bool>(
    verified: &Verified,
    bounds: Bounds,
    cells: &C,
    words: &mut [u64],
    cursor: &mut Cursor,
    destination: u16,
    register: u16,
    field: u8,
) -> Stepped
    requires placed { IsPlaced verified.now bounds (length words.old) cursor.old }
    requires roomy { IsRoomy bounds (length words.old) cursor.old }
    requires waiting { Waiting verified.now bounds words.old cursor.old.frames cursor.old.base }
    requires destination { destination < cursor.old.registers }
    requires register { register < cursor.old.registers }
    requires next { IsSafe (body_at verified.now cursor.old) (cursor.old.at + 1) }
    requires sure { SURE ≡ true → IsSureOf verified.now bounds (Instr.Peek destination register field) (C.cells
        cells.now) (C.released cells.now) words.old cursor.old }
    ensures placed { IsPlaced verified.now bounds (length words.new) cursor.new }
    ensures roomy { IsRoomy bounds (length words.new) cursor.new }
    ensures waiting { Waiting verified.now bounds words.new cursor.new.frames cursor.new.base }
    ensures less { weight cursor.new < weight cursor.old }
    ensures went { result ≡ Stepped.Went }
    ensures next { (ks : List Kind) (given : List ℕ) → IsSmall (C.cells cells.now) → IsNext verified.now bounds
        (Instr.Peek destination register field) ks (store_of (C.cells cells.now) (C.released cells.now)) words.old
        cursor.old result (store_of (C.cells cells.now) (C.released cells.now)) words.new cursor.new given }
    ensures same { IsSame cursor.old cursor.new }
{
    let field = field as usize;
    match field_cell_of::<C, SURE>(cells, words[cursor.base + register as usize], field) {
        Some(place) => {
            let word = cells.field(place, field);
            write(verified, bounds, words, cursor, destination, word)
        }
        None => go_on(verified, bounds, words, cursor),
    }
}

// Registers of the frame at `base`, which has `own`, get the fields of the register's cell. A constructor without
// fields has none.
#[inline(always)]
fn take_fields<C: Cells, const SURE: bool>(
    cells: &C,
    words: &mut [u64],
    base: usize,
    own: usize,
    register: u16,
    fields: &[u16],
)
    requires room { base + own ≤ length words.old }
    requires register { register < own }
    requires fields { AreBelow own fields.now }
    requires sure { SURE ≡ true → fields.now ≢ [] → IsSmall (C.cells cells.now) × (cell_at (C.cells cells.now)
        (slice_index_or words.old (base + register) 0 / 2) ≢ None) × (size_in (cell_at (C.cells cells.now)
        (slice_index_or words.old (base + register) 0 / 2)) ≡ length fields.now) }
    ensures keeps { Keeps base words.old words.new }
    ensures none { fields.now ≡ [] → words.new ≡ words.old }
    ensures fields { IsSmall (C.cells cells.now) → fields.now ≢ [] → (c : Cell) → cell_at (C.cells cells.now)
        (slice_index_or words.old (base + register) 0 / 2) ≡ Some c → length c.fields ≡ length fields.now →
        words.new ≡ put_words base words.old fields.now c.fields }
{
    if fields.is_empty() {
        return;
    }
    match sized_cell_of::<C, SURE>(cells, words[base + register as usize], fields.len()) {
        Some(place) => take_at(cells, words, base, own, place, fields),
        None => {}
    }
}

// Registers get the fields of the register's cell.
#[inline(always)]
fn take_cell<C: Cells, const SURE: bool>(
    verified: &Verified,
    bounds: Bounds,
    cells: &C,
    words: &mut [u64],
    cursor: &mut Cursor,
    register: u16,
    fields: &[u16],
) -> Stepped
    requires placed { IsPlaced verified.now bounds (length words.old) cursor.old }
    requires roomy { IsRoomy bounds (length words.old) cursor.old }
    requires waiting { Waiting verified.now bounds words.old cursor.old.frames cursor.old.base }
    requires register { register < cursor.old.registers }
    requires fields { AreBelow cursor.old.registers fields.now }
    requires next { IsSafe (body_at verified.now cursor.old) (cursor.old.at + 1) }
    requires sure { SURE ≡ true → IsSureOf verified.now bounds (Instr.Take register fields.now) (C.cells cells.now)
        (C.released cells.now) words.old cursor.old }
    ensures placed { IsPlaced verified.now bounds (length words.new) cursor.new }
    ensures roomy { IsRoomy bounds (length words.new) cursor.new }
    ensures waiting { Waiting verified.now bounds words.new cursor.new.frames cursor.new.base }
    ensures less { weight cursor.new < weight cursor.old }
    ensures went { result ≡ Stepped.Went }
    ensures next { (ks : List Kind) (given : List ℕ) → IsSmall (C.cells cells.now) → IsNext verified.now bounds
        (Instr.Take register fields.now) ks (store_of (C.cells cells.now) (C.released cells.now)) words.old cursor.old
        result (store_of (C.cells cells.now) (C.released cells.now)) words.new cursor.new given }
    ensures same { IsSame cursor.old cursor.new }
{
    take_fields::<C, SURE>(
        cells,
        words,
        cursor.base,
        cursor.registers,
        register,
        fields,
    );
    go_on(verified, bounds, words, cursor)
}

// The cell of the register gets the constructor and the words of registers.
#[inline(always)]
fn put_cell<C: Cells, const SURE: bool>(
    verified: &Verified,
    bounds: Bounds,
    cells: &mut C,
    words: &[u64],
    cursor: &mut Cursor,
    register: u16,
    constructor: u32,
    fields: &[u16],
) -> Stepped
    requires placed { IsPlaced verified.now bounds (length words.now) cursor.old }
    requires roomy { IsRoomy bounds (length words.now) cursor.old }
    requires waiting { Waiting verified.now bounds words.now cursor.old.frames cursor.old.base }
    requires register { register < cursor.old.registers }
    requires fields { AreBelow cursor.old.registers fields.now }
    requires few { length fields.now ≤ MOST_FIELDS }
    requires next { IsSafe (body_at verified.now cursor.old) (cursor.old.at + 1) }
    requires sure { SURE ≡ true → (ty : ℕ) × IsSureOf verified.now bounds (Instr.Put register ty constructor fields.now)
        (C.cells cells.old) (C.released cells.old) words.now cursor.old }
    ensures placed { IsPlaced verified.now bounds (length words.now) cursor.new }
    ensures roomy { IsRoomy bounds (length words.now) cursor.new }
    ensures waiting { Waiting verified.now bounds words.now cursor.new.frames cursor.new.base }
    ensures less { weight cursor.new < weight cursor.old }
    ensures went { result ≡ Stepped.Went }
    ensures small { IsSmall (C.cells cells.old) → IsSmall (C.cells cells.new) }
    ensures pushed { C.pushed cells.new ≡ C.pushed cells.old }
    ensures next { (ks : List Kind) (given : List ℕ) (ty : ℕ) → IsSmall (C.cells cells.old) → IsNext verified.now
        bounds (Instr.Put register ty constructor fields.now) ks (store_of (C.cells cells.old) (C.released cells.old))
        words.now cursor.old result (store_of (C.cells cells.new) (C.released cells.new)) words.now cursor.new given }
    ensures reported { (ks : List Kind) (lent : List Typed) (ty : ℕ) → IsSmall (C.cells cells.old) → IsKnown (act (plain
        verified.now.code) ks (state_of verified.now bounds lent (store_of (C.cells cells.old) (C.released cells.old))
        words.now cursor.old) (Instr.Put register ty constructor fields.now)) → (first : C) (ts : List Reported) →
        C.was_reported first ts cells.old → C.was_reported first (ts ++ act_reports (plain verified.now.code) ks (state_of
        verified.now bounds lent (store_of (C.cells cells.old) (C.released cells.old)) words.now cursor.old)
        (Instr.Put register ty constructor fields.now)) cells.new }
    ensures counted { (freed : List ℕ) → CountsReleased (C.cells cells.old) (C.released cells.old) freed (C.cells
        cells.new) (C.released cells.new) freed }
    ensures same { IsSame cursor.old cursor.new }
{
    let word = words[cursor.base + register as usize];
    if let Some(place) = sized_cell_of::<C, SURE>(cells, word, fields.len()) {
        put(
            cells,
            words,
            cursor.base,
            cursor.registers,
            place,
            constructor,
            fields,
        );
    }
    go_on(verified, bounds, words, cursor)
}

// At the start of a function, whose frame begins at `base`, with so many frames below it.
#[inline(always)]
fn enter<'a>(
    verified: &'a Verified,
    bounds: Bounds,
    words: &[u64],
    cursor: &mut Cursor<'a>,
    function: usize,
    base: usize,
    frames: usize,
)
    requires there { function < length verified.now.code.functions.items }
    requires most { AreAtMost verified.now bounds.largest }
    requires frames { frames ≤ bounds.frames }
    requires fits { Fits verified.now bounds function frames base }
    requires room { (g : _) → slice_get verified.now.code.functions.items function ≡ Some g →
        base + g.registers ≤ length words.now }
    ensures placed { IsPlaced verified.now bounds (length words.now) cursor.new }
    ensures base { cursor.new.base ≡ base }
    ensures frames { cursor.new.frames ≡ frames }
    ensures function { cursor.new.function ≡ function }
    ensures at { cursor.new.at ≡ 0 }
    ensures raised { IsRaised cursor.old cursor.new }
{
    let callee = function_at(verified, function);
    cursor.instrs = callee.instrs.as_slice();
    cursor.registers = callee.registers as usize;
    cursor.function = function;
    cursor.at = 0;
    cursor.base = base;
    cursor.frames = frames;
    cursor.highest.frames = cursor.highest.frames.max(frames);
    cursor.highest.words = cursor.highest.words.max(base + cursor.registers + 2);
}

// Enters the running function again, whose frame stays where it is.
#[inline(always)]
fn enter_again(
    verified: &Verified,
    bounds: Bounds,
    words: &mut [u64],
    spare: &mut Vec<u64>,
    cursor: &mut Cursor,
    arguments: &[u16],
) -> Stepped
    requires runnable { IsRunnable verified.now.code.functions.items verified.now.stacks }
    requires placed { IsPlaced verified.now bounds (length words.old) cursor.old }
    requires waiting { Waiting verified.now bounds words.old cursor.old.frames cursor.old.base }
    requires arguments { AreBelow cursor.old.registers arguments.now }
    requires few { length arguments.now ≤ cursor.old.registers }
    requires spare { bounds.largest ≤ vec_len spare.old }
    ensures placed { IsPlaced verified.now bounds (length words.new) cursor.new }
    ensures waiting { Waiting verified.now bounds words.new cursor.new.frames cursor.new.base }
    ensures entered { result ≡ Stepped.Entered }
    ensures frames { cursor.new.frames ≡ cursor.old.frames }
    ensures long { vec_len spare.new ≡ vec_len spare.old }
    ensures next { (ks : List Kind) (s : Store) (given : List ℕ) → IsNext verified.now bounds (Instr.Tail
        cursor.old.function arguments.now) ks s words.old cursor.old result s words.new cursor.new given }
    ensures same { IsSame cursor.old cursor.new }
{
    let base = cursor.base;
    replace(words, spare, base, cursor.registers, arguments);
    clear_rest(words, base, arguments.len(), cursor.registers);
    cursor.at = 0;
    Stepped::Entered
}

// Calls a function: its frame lies after the running one, which waits, and the two words between them say where.
#[inline(always)]
fn call<'a>(
    verified: &'a Verified,
    bounds: Bounds,
    words: &mut [u64],
    cursor: &mut Cursor<'a>,
    function: u32,
    arguments: &[u16],
) -> Stepped
    requires placed { IsPlaced verified.now bounds (length words.old) cursor.old }
    requires roomy { IsRoomy bounds (length words.old) cursor.old }
    requires waiting { Waiting verified.now bounds words.old cursor.old.frames cursor.old.base }
    requires most { AreAtMost verified.now bounds.largest }
    requires arguments { AreBelow cursor.old.registers arguments.now }
    requires callee { CanCall verified.now.code.functions.items function (length arguments.now) }
    requires covers { Covers verified.now.stacks cursor.old.function function (cursor.old.registers + 2) }
    requires next { IsSafe (body_at verified.now cursor.old) (cursor.old.at + 1) }
    ensures placed { IsPlaced verified.now bounds (length words.new) cursor.new }
    ensures waiting { Waiting verified.now bounds words.new cursor.new.frames cursor.new.base }
    ensures roomy { result ≢ Stepped.Entered → IsRoomy bounds (length words.new) cursor.new }
    ensures went { result ≢ Stepped.Went }
    ensures frames { cursor.new.frames ≤ cursor.old.frames + 1 }
    ensures next { (ks : List Kind) (s : Store) (given : List ℕ) (ds : List ℕ) → IsNext verified.now bounds
        (Instr.Call function arguments.now ds) ks s words.old cursor.old result s words.new cursor.new given }
    ensures raised { IsHigh cursor.old → IsRaised cursor.old cursor.new }
{
    if cursor.frames >= bounds.frames {
        return Stepped::Deep;
    }
    let registers = function_at(verified, function as usize).registers as usize;
    let end = cursor.base + cursor.registers;
    let above = end + 2;
    words[end] = cursor.function as u64;
    words[end + 1] = cursor.at as u64;
    pass(words, cursor.base, cursor.registers, above, arguments);
    clear_rest(words, above, arguments.len(), registers);
    let frames = cursor.frames + 1;
    enter(
        verified,
        bounds,
        words,
        cursor,
        function as usize,
        above,
        frames,
    );
    Stepped::Entered
}

// Enters a function whose frame takes the place of the running one.
#[inline(always)]
fn enter_instead<'a>(
    verified: &'a Verified,
    bounds: Bounds,
    words: &mut [u64],
    spare: &mut Vec<u64>,
    cursor: &mut Cursor<'a>,
    function: u32,
    arguments: &[u16],
) -> Stepped
    requires placed { IsPlaced verified.now bounds (length words.old) cursor.old }
    requires roomy { IsRoomy bounds (length words.old) cursor.old }
    requires waiting { Waiting verified.now bounds words.old cursor.old.frames cursor.old.base }
    requires most { AreAtMost verified.now bounds.largest }
    requires arguments { AreBelow cursor.old.registers arguments.now }
    requires callee { CanCall verified.now.code.functions.items function (length arguments.now) }
    requires covers { Covers verified.now.stacks cursor.old.function function 0 }
    requires spare { bounds.largest ≤ vec_len spare.old }
    ensures placed { IsPlaced verified.now bounds (length words.new) cursor.new }
    ensures waiting { Waiting verified.now bounds words.new cursor.new.frames cursor.new.base }
    ensures entered { result ≡ Stepped.Entered }
    ensures frames { cursor.new.frames ≡ cursor.old.frames }
    ensures long { vec_len spare.new ≡ vec_len spare.old }
    ensures next { (ks : List Kind) (s : Store) (given : List ℕ) → IsNext verified.now bounds (Instr.Tail function
        arguments.now) ks s words.old cursor.old result s words.new cursor.new given }
    ensures raised { IsHigh cursor.old → IsRaised cursor.old cursor.new }
{
    let callee = function_at(verified, function as usize);
    let registers = callee.registers as usize;
    let base = cursor.base;
    replace(words, spare, base, cursor.registers, arguments);
    clear_rest(words, base, arguments.len(), registers);
    cursor.instrs = callee.instrs.as_slice();
    cursor.registers = registers;
    cursor.function = function as usize;
    cursor.at = 0;
    cursor.highest.words = cursor.highest.words.max(base + registers + 2);
    Stepped::Entered
}

// Calls a function whose frame takes the place of the running one. A function that calls itself stays where it is.
#[inline(always)]
fn tail<'a>(
    verified: &'a Verified,
    bounds: Bounds,
    words: &mut [u64],
    spare: &mut Vec<u64>,
    cursor: &mut Cursor<'a>,
    function: u32,
    arguments: &[u16],
) -> Stepped
    requires placed { IsPlaced verified.now bounds (length words.old) cursor.old }
    requires roomy { IsRoomy bounds (length words.old) cursor.old }
    requires waiting { Waiting verified.now bounds words.old cursor.old.frames cursor.old.base }
    requires most { AreAtMost verified.now bounds.largest }
    requires arguments { AreBelow cursor.old.registers arguments.now }
    requires callee { CanCall verified.now.code.functions.items function (length arguments.now) }
    requires covers { Covers verified.now.stacks cursor.old.function function 0 }
    requires spare { bounds.largest ≤ vec_len spare.old }
    ensures placed { IsPlaced verified.now bounds (length words.new) cursor.new }
    ensures waiting { Waiting verified.now bounds words.new cursor.new.frames cursor.new.base }
    ensures entered { result ≡ Stepped.Entered }
    ensures frames { cursor.new.frames ≡ cursor.old.frames }
    ensures long { vec_len spare.new ≡ vec_len spare.old }
    ensures next { (ks : List Kind) (s : Store) (given : List ℕ) → IsNext verified.now bounds (Instr.Tail function
        arguments.now) ks s words.old cursor.old result s words.new cursor.new given }
    ensures raised { IsHigh cursor.old → IsRaised cursor.old cursor.new }
{
    let number = function as usize;
    let _ = function_at(verified, number);
    if number == cursor.function {
        enter_again(verified, bounds, words, spare, cursor, arguments)
    } else {
        enter_instead(verified, bounds, words, spare, cursor, function, arguments)
    }
}

// A frame that waits: its function, the number of its call, and where it begins.
#[derive(Clone, Copy)]
struct Caller<'a> {
    function: usize,
    body: &'a Function,
    at: usize,
    base: usize,
}

// The frame that waits directly below the running one.
#[inline(always)]
fn caller_of<'a>(
    verified: &'a Verified,
    bounds: Bounds,
    words: &[u64],
    cursor: &Cursor,
) -> Caller<'a>
    requires waiting { Waiting verified.now bounds words.now cursor.now.frames cursor.now.base }
    requires some { 0 < cursor.now.frames }
    requires room { cursor.now.base ≤ length words.now }
    ensures is { slice_get verified.now.code.functions.items result.function ≡ Some result.body.now }
    ensures runnable { IsRunnable verified.now.code.functions.items verified.now.stacks }
    ensures within { result.at < length result.body.now.instrs.items }
    ensures below { (f : _) (ss : _) (ds : _) → slice_get result.body.now.instrs.items result.at
        ≡ Some (Instr.Call f ss ds) → AreBelow result.body.now.registers ds }
    ensures next { IsSafe (body_of verified.now.code.functions.items verified.now.stacks result.function
        result.body.now) (result.at + 1) }
    ensures base { result.base + (result.body.now.registers + 2) ≡ cursor.now.base }
    ensures fits { Fits verified.now bounds result.function (cursor.now.frames - 1) result.base }
    ensures waiting { Waiting verified.now bounds words.now (cursor.now.frames - 1) result.base }
    ensures function { result.function ≡ slice_index_or words.now (cursor.now.base - 2) 0 }
    ensures at { result.at ≡ slice_index_or words.now (cursor.now.base - 1) 0 }
{
    let function = words[cursor.base - 2] as usize;
    let at = words[cursor.base - 1] as usize;
    let body = function_at(verified, function);
    Caller {
        function,
        body,
        at,
        base: cursor.base - 2 - body.registers as usize,
    }
}

// The registers that get the results of the call at which a frame waits.
#[inline(always)]
fn destinations_of<'a>(caller: Caller<'a>) -> &'a [u16]
    requires within { caller.at < length caller.body.now.instrs.items }
    requires below { (f : _) (ss : _) (ds : _) → slice_get caller.body.now.instrs.items caller.at
        ≡ Some (Instr.Call f ss ds) → AreBelow caller.body.now.registers ds }
    ensures below { AreBelow caller.entry.body.now.registers result.now }
    ensures are { (f : _) (ss : _) (ds : _) → slice_get caller.entry.body.now.instrs.items caller.entry.at
        ≡ Some (Instr.Call f ss ds) → result.now ≡ ds }
{
    match &caller.body.instrs[caller.at] {
        Instr::Call { destinations, .. } => destinations.as_slice(),
        _ => &[],
    }
}

// Keeps the results of the entry.
fn keep_results(beside: &mut Beside, words: &[u64], base: usize, own: usize, results: &[u16])
    requires own { base + own ≤ length words.now }
    requires results { AreBelow own results.now }
    requires few { length results.now ≤ MOST_RESULTS }
    ensures spare { vec_len beside.new.spare ≡ vec_len beside.old.spare }
    ensures freed { beside.new.freed ≡ beside.old.freed }
    ensures kept { take beside.new.given beside.new.results ≡ words_from base words.now results.now }
{
    for (i, register) in results.iter().enumerate() {
        beside.results[i] = words[base + *register as usize];
    }
    beside.given = results.len();
}

// Back to the frame below, which gets the results. The entry's are kept.
#[inline(always)]
fn give_back<'a>(
    verified: &'a Verified,
    bounds: Bounds,
    words: &mut [u64],
    beside: &mut Beside,
    cursor: &mut Cursor<'a>,
    results: &[u16],
) -> Stepped
    requires placed { IsPlaced verified.now bounds (length words.old) cursor.old }
    requires roomy { IsRoomy bounds (length words.old) cursor.old }
    requires waiting { Waiting verified.now bounds words.old cursor.old.frames cursor.old.base }
    requires most { AreAtMost verified.now bounds.largest }
    requires results { AreBelow cursor.old.registers results.now }
    requires few { length results.now ≤ MOST_RESULTS }
    ensures placed { IsPlaced verified.now bounds (length words.new) cursor.new }
    ensures roomy { IsRoomy bounds (length words.new) cursor.new }
    ensures waiting { Waiting verified.now bounds words.new cursor.new.frames cursor.new.base }
    ensures less { result ≡ Stepped.Went → weight cursor.new < weight cursor.old }
    ensures entered { result ≢ Stepped.Entered }
    ensures spare { vec_len beside.new.spare ≡ vec_len beside.old.spare }
    ensures freed { beside.new.freed ≡ beside.old.freed }
    ensures next { (ks : List Kind) (s : Store) → IsNext verified.now bounds (Instr.Ret results.now) ks s words.old
        cursor.old result s words.new cursor.new (take beside.new.given beside.new.results) }
    ensures raised { IsHigh cursor.old → IsRaised cursor.old cursor.new }
{
    if cursor.frames == 0 {
        keep_results(beside, words, cursor.base, cursor.registers, results);
        return Stepped::Value;
    }
    let caller = caller_of(verified, bounds, words, cursor);
    let registers = caller.body.registers as usize;
    give(
        words,
        cursor.base,
        cursor.registers,
        results,
        caller.base,
        registers,
        destinations_of(caller),
    );
    cursor.instrs = caller.body.instrs.as_slice();
    cursor.registers = registers;
    cursor.function = caller.function;
    cursor.at = caller.at + 1;
    cursor.base = caller.base;
    cursor.frames -= 1;
    Stepped::Went
}

// Releases the tree in a register. Which type it has is known of each Drop that a run reaches.
#[inline(never)]
fn drop_tree<C: Cells>(
    verified: &Verified,
    cells: &mut C,
    beside: &mut Beside,
    cursor: &Cursor,
    word: u64,
)
    ensures spare { vec_len beside.new.spare ≡ vec_len beside.old.spare }
    ensures cells { C.cells cells.new ≡ C.cells cells.old }
    ensures pushed { C.pushed cells.old ≡ [] → C.pushed cells.new ≡ [] }
    ensures released { (t : ℕ) → ReleasesAt (plain verified.now.code) cursor.now.function cursor.now.at t →
        IsSmall (C.cells cells.old) → C.pushed cells.old ≡ [] → (x : Placed) (s : Store) →
        tree_of verified.now.code.types (store_of (C.cells cells.old) (C.released cells.old)) t word ≡ Some x →
        changed_by (map (λ p. Release p) (places x)) (store_of (C.cells cells.old) (C.released cells.old)) ≡ Some s →
        store_of (C.cells cells.new) (C.released cells.new) ≡ s }
    ensures counted { CountsReleased (C.cells cells.old) (C.released cells.old) beside.old.freed (C.cells cells.new)
        (C.released cells.new) beside.new.freed }
    ensures reported { (t : ℕ) → ReleasesAt (plain verified.now.code) cursor.now.function cursor.now.at t →
        IsSmall (C.cells cells.old) → C.pushed cells.old ≡ [] → (x : Placed) (s : Store) →
        tree_of verified.now.code.types (store_of (C.cells cells.old) (C.released cells.old)) t word ≡ Some x →
        changed_by (map (λ p. Release p) (places x)) (store_of (C.cells cells.old) (C.released cells.old)) ≡ Some s →
        (first : C) (ts : List Reported) → C.was_reported first ts cells.old → C.was_reported first
        (ts ++ map (λ p. Released p) (places x)) cells.new }
{
    if let Some(ty) = verified.drop_type(cursor.function, cursor.at) {
        release_tree(&verified.code().types, cells, &mut beside.freed, ty, word);
    }
}

// Whether the word is that of the int.
#[inline(always)]
fn is_int(word: u64, value: i64) -> bool
    ensures { result ≡ same_int (int_of word) value }
{
    word.cast_signed() == value
}

// Does an instruction.
#[inline(always)]
fn act<'a, C: Cells, const IN_LOOP: bool, const SURE: bool>(
    verified: &'a Verified,
    bounds: Bounds,
    cells: &mut C,
    words: &mut [u64],
    beside: &mut Beside,
    cursor: &mut Cursor<'a>,
    instr: &'a Instr,
) -> Stepped
    requires placed { IsPlaced verified.now bounds (length words.old) cursor.old }
    requires roomy { IsRoomy bounds (length words.old) cursor.old }
    requires waiting { Waiting verified.now bounds words.old cursor.old.frames cursor.old.base }
    requires most { AreAtMost verified.now bounds.largest }
    requires spare { bounds.largest ≤ vec_len beside.old.spare }
    requires row { Row (body_at verified.now cursor.old) cursor.old.at (IsSafe (body_at verified.now cursor.old))
        instr.now }
    requires sure { SURE ≡ true → IsSureOf verified.now bounds instr.now (C.cells cells.old) (C.released cells.old)
        words.old cursor.old }
    ensures placed { IsPlaced verified.now bounds (length words.new) cursor.new }
    ensures roomy { result ≢ Stepped.Entered → IsRoomy bounds (length words.new) cursor.new }
    ensures waiting { Waiting verified.now bounds words.new cursor.new.frames cursor.new.base }
    ensures less { result ≡ Stepped.Went → weight cursor.new < weight cursor.old }
    ensures frames { result ≡ Stepped.Entered → cursor.new.frames ≤ cursor.old.frames + 1 }
    ensures spare { vec_len beside.new.spare ≡ vec_len beside.old.spare }
    ensures small { IsSmall (C.cells cells.old) → IsSmall (C.cells cells.new) }
    ensures pushed { C.pushed cells.old ≡ [] → C.pushed cells.new ≡ [] }
    ensures next { (kinds : Kinds) (ks : List Kind) → KnowsDrop verified.now cursor.old instr.now ks → IsSmall
        (C.cells cells.old) → C.pushed cells.old ≡ [] → IsDone IN_LOOP verified.now bounds kinds instr.now ks
        (store_of (C.cells cells.old) (C.released cells.old)) words.old cursor.old result (store_of (C.cells
        cells.new) (C.released cells.new)) words.new cursor.new (take beside.new.given beside.new.results) }
    ensures reported { (ks : List Kind) (lent : List Typed) → KnowsDrop verified.now cursor.old instr.now ks → IN_LOOP ≡
        false → IsSmall (C.cells cells.old) → C.pushed cells.old ≡ [] → IsKnown (act (plain verified.now.code) ks
        (state_of verified.now bounds lent (store_of (C.cells cells.old) (C.released cells.old)) words.old cursor.old)
        instr.now) → (first : C) (ts : List Reported) → C.was_reported first ts cells.old → C.was_reported first
        (ts ++ act_reports (plain verified.now.code) ks (state_of verified.now bounds lent (store_of (C.cells
        cells.old) (C.released cells.old)) words.old cursor.old) instr.now) cells.new }
    ensures counted { IN_LOOP ≡ false → CountsReleased (C.cells cells.old) (C.released cells.old) beside.old.freed
        (C.cells cells.new) (C.released cells.new) beside.new.freed }
    ensures raised { IsHigh cursor.old → IsRaised cursor.old cursor.new }
{
    match instr {
        Instr::Const { destination, value } => {
            let word = value.cast_unsigned();
            write(verified, bounds, words, cursor, *destination, word)
        }
        Instr::Atom {
            destination,
            constructor,
            ..
        } => {
            let word = 2 * u64::from(*constructor);
            write(verified, bounds, words, cursor, *destination, word)
        }
        Instr::Move {
            destination,
            source,
        } => {
            let word = words[cursor.base + *source as usize];
            write(verified, bounds, words, cursor, *destination, word)
        }
        Instr::Arith {
            destination,
            operator,
            left,
            right,
            line,
            col,
        } => {
            let operation = Operation {
                operator: *operator,
                left: *left,
                right: *right,
                line: *line,
                col: *col,
            };
            calculate::<IN_LOOP>(verified, bounds, words, cursor, *destination, operation)
        }
        Instr::Test {
            register,
            constructor,
            target,
        } => test::<C, IN_LOOP, SURE>(
            verified,
            bounds,
            cells,
            words,
            cursor,
            *register,
            *constructor,
            *target,
        ),
        Instr::TestInt {
            register,
            value,
            target,
        } => {
            let on = is_int(words[cursor.base + *register as usize], *value);
            branch(verified, bounds, words, cursor, on, *target)
        }
        Instr::Peek {
            destination,
            register,
            field,
        } => peek::<C, SURE>(
            verified,
            bounds,
            cells,
            words,
            cursor,
            *destination,
            *register,
            *field,
        ),
        Instr::Take { register, fields } => take_cell::<C, SURE>(
            verified,
            bounds,
            cells,
            words,
            cursor,
            *register,
            fields.as_slice(),
        ),
        Instr::Put {
            register,
            constructor,
            fields,
            ..
        } => put_cell::<C, SURE>(
            verified,
            bounds,
            cells,
            words,
            cursor,
            *register,
            *constructor,
            fields.as_slice(),
        ),
        Instr::Drop { register } => {
            let word = words[cursor.base + *register as usize];
            drop_tree(verified, cells, beside, cursor, word);
            go_on(verified, bounds, words, cursor)
        }
        Instr::Free { register } => {
            let word = words[cursor.base + *register as usize];
            release_cell(cells, &mut beside.freed, word);
            go_on(verified, bounds, words, cursor)
        }
        Instr::Call {
            function,
            arguments,
            ..
        } => call(
            verified,
            bounds,
            words,
            cursor,
            *function,
            arguments.as_slice(),
        ),
        Instr::Tail {
            function,
            arguments,
        } => tail(
            verified,
            bounds,
            words,
            &mut beside.spare,
            cursor,
            *function,
            arguments.as_slice(),
        ),
        Instr::Ret { results } => give_back(
            verified,
            bounds,
            words,
            beside,
            cursor,
            results.as_slice(),
        ),
        Instr::Jump { target } => {
            go_to(verified, bounds, words, cursor, *target as usize);
            Stepped::Went
        }
    }
}

/// Does the instruction that is next; in the loop of a run also some that work on the same register or cell after it,
/// each of which goes on. The loop and a single step have each a copy of it, so that each copy has one caller and is
/// inlined there: in the loop the cursor is then registers of the processor.
#[inline(always)]
pub fn advance<'a, C: Cells, const IN_LOOP: bool, const SURE: bool>(
    verified: &'a Verified,
    bounds: Bounds,
    cells: &mut C,
    words: &mut [u64],
    beside: &mut Beside,
    cursor: &mut Cursor<'a>,
) -> Stepped
    requires placed { IsPlaced verified.now bounds (length words.old) cursor.old }
    requires roomy { IsRoomy bounds (length words.old) cursor.old }
    requires waiting { Waiting verified.now bounds words.old cursor.old.frames cursor.old.base }
    requires most { AreAtMost verified.now bounds.largest }
    requires spare { bounds.largest ≤ vec_len beside.old.spare }
    requires sure { SURE ≡ true → IsSure verified.now bounds (C.cells cells.old) (C.released cells.old) words.old
        cursor.old }
    ensures placed { IsPlaced verified.now bounds (length words.new) cursor.new }
    ensures roomy { result ≢ Stepped.Entered → IsRoomy bounds (length words.new) cursor.new }
    ensures waiting { Waiting verified.now bounds words.new cursor.new.frames cursor.new.base }
    ensures less { result ≡ Stepped.Went → weight cursor.new < weight cursor.old }
    ensures frames { result ≡ Stepped.Entered → cursor.new.frames ≤ cursor.old.frames + 1 }
    ensures spare { vec_len beside.new.spare ≡ vec_len beside.old.spare }
    ensures small { IsSmall (C.cells cells.old) → IsSmall (C.cells cells.new) }
    ensures pushed { C.pushed cells.old ≡ [] → C.pushed cells.new ≡ [] }
    ensures next { (kinds : Kinds) → KnowsAt verified.now kinds cursor.old.function cursor.old.at → IN_LOOP ≡ false →
        IsSmall (C.cells cells.old) → C.pushed cells.old ≡ [] → IsReported verified.now bounds kinds (store_of (C.cells
        cells.old) (C.released cells.old)) words.old cursor.old result (store_of (C.cells cells.new) (C.released
        cells.new)) words.new cursor.new (take beside.new.given beside.new.results) }
    ensures more { (kinds : Kinds) → KnowsAt verified.now kinds cursor.old.function cursor.old.at →
        IsSmall (C.cells cells.old) → C.pushed cells.old ≡ [] → IsReportedWithMore verified.now bounds kinds (store_of
        (C.cells cells.old) (C.released cells.old)) words.old cursor.old result (store_of (C.cells cells.new)
        (C.released cells.new)) words.new cursor.new (take beside.new.given beside.new.results) }
    ensures reported { (kinds : Kinds) (lent : List Typed) → KnowsAt verified.now kinds cursor.old.function cursor.old.at →
        IN_LOOP ≡ false → IsSmall (C.cells cells.old) → C.pushed cells.old ≡ [] → IsKnown (next kinds (plain
        verified.now.code) (state_of verified.now bounds lent (store_of (C.cells cells.old) (C.released cells.old))
        words.old cursor.old)) → (first : C) (ts : List Reported) → C.was_reported first ts cells.old → C.was_reported first
        (ts ++ next_reports kinds (plain verified.now.code) (state_of verified.now bounds lent (store_of (C.cells
        cells.old) (C.released cells.old)) words.old cursor.old)) cells.new }
    ensures counted { IN_LOOP ≡ false → CountsReleased (C.cells cells.old) (C.released cells.old) beside.old.freed
        (C.cells cells.new) (C.released cells.new) beside.new.freed }
    ensures raised { IsHigh cursor.old → IsRaised cursor.old cursor.new }
{
    let instr = next_of(verified, bounds, words, cursor);
    act::<C, IN_LOOP, SURE>(verified, bounds, cells, words, beside, cursor, instr)
}
