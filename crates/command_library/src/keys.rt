// The keys of a tree in a store.
ghost use Rattle.std.specs.Prelude.{◌≡◌, ◌≢◌, ◌≤◌, ◌+◌, ◌*◌, ℕ, ℤ, List, [], ◌∷◌, ◌++◌, slice_get, vec_len, None, Some};
ghost use Rattle.std.specs.Prelude.{IfOk, OnOk};
ghost use Rattle.fip_language.specs.Store.{At, Parts, values_of};
ghost use Rattle.fip_language.specs.Table.{Shape, constructors};
ghost use Rattle.fip_language.specs.Values.{Value, Values, Node as a_node};
ghost use Rattle.cell_store.specs.Cells.{cell_at};
ghost use Rattle.fip_machine.specs.machine_cells.Small.{IsSmall};
ghost use Rattle.command_tasks.specs.command_run.machine_correctness.Meant.{ArePrintable};
ghost use Rattle.command_tasks.specs.command_run.value_text.Standing.{Stands};
ghost use Rattle.command_library.specs.MadeTree.{keys_of, keys_of_first, with_key, ends_of};
ghost use Rattle.command_library.specs.Reading.{sides, ints, IsAt, HasNode, AreKeys};

use cell_store::{Cells, Sealed};
use command_outcome::Ends;
use fip_base::plain::NoMemory;
use fip_base::table::TypeTable;
use std::alloc::Global;

/// A part of a tree, by its type and its word.
#[derive(Clone, Copy)]
pub struct Part {
    ty: u32,
    word: u64,
}

/// A node of a tree: the word of its key, and the parts on both sides of it.
#[derive(Clone, Copy)]
pub struct Node {
    left: Part,
    key: u64,
    right: Part,
}

// The types of a constructor's fields; none where there is no such constructor.
fn fields_of(table: &TypeTable, ty: u32, tag: u32) -> &[u32]
    ensures fields { (s : Shape) → slice_get (constructors table.now ty) tag ≡ Some s → result.now ≡ s.fields }
{
    if ty as usize > table.len() {
        return &[];
    }
    let constructors = table.constructors_of(ty);
    if (tag as usize) < constructors.len() {
        constructors[tag as usize].fields()
    } else {
        &[]
    }
}

// The types of the trees on both sides of the key, where cells with fields of these types are nodes.
fn sides_of(types: &[u32]) -> Option<(u32, u32)>
    ensures sides { result ≡ sides types.now }
{
    if types.len() == 4 && types[2] == 0 {
        Some((types[1], types[3]))
    } else {
        None
    }
}

// The node of the cell at a place.
fn node_at(table: &TypeTable, cells: &Sealed, ty: u32, place: u32) -> Option<Node>
    requires { cell_at cells.now.cells place ≢ None }
    ensures node { (c : ℕ) (xs : Parts) → Stands table.now cells.now.cells ty (At place c xs) →
        HasNode table.now cells.now.cells result (a_node c (values_of xs)) }
{
    let Some(sides) = sides_of(fields_of(table, ty, cells.cell_tag(place))) else {
        return None;
    };
    if cells.cell_size(place) != 4 {
        return None;
    }
    Some(Node {
        left: Part {
            ty: sides.0,
            word: cells.field(place, 1),
        },
        key: cells.field(place, 2),
        right: Part {
            ty: sides.1,
            word: cells.field(place, 3),
        },
    })
}

// The node of a part, where it is one.
fn node_of(table: &TypeTable, cells: &Sealed, part: Part) -> Option<Node>
    ensures node { IsSmall cells.now.cells → (v : Value) → IsAt table.now cells.now.cells part v →
        HasNode table.now cells.now.cells result v }
{
    if part.ty == 0 {
        return None;
    }
    if part.word % 2 == 0 {
        return None;
    }
    if part.word / 2 > u32::MAX as u64 {
        return None;
    }
    let place = (part.word / 2) as u32;
    if cells.begins(place) {
        node_at(table, cells, part.ty, place)
    } else {
        None
    }
}

// Reads a part: where it is a node, its key is there, and the parts on both sides wait.
fn read(
    table: &TypeTable,
    cells: &Sealed,
    part: Part,
    waiting: &mut Vec<Part>,
    keys: &mut Vec<u64>,
) -> Result<(), NoMemory>
    ensures reads { OnOk result (IsSmall cells.now.cells → (whole : List ℤ) →
        AreKeys table.now cells.now.cells (waiting.old.items ++ part ∷ []) keys.old.items whole →
        AreKeys table.now cells.now.cells waiting.new.items keys.new.items whole) }
    ensures steps { OnOk result (vec_len waiting.new + 2 * vec_len keys.old
        ≤ vec_len waiting.old + 2 * vec_len keys.new) }
{
    if let Some(node) = node_of(table, cells, part) {
        keys.push(node.key)?;
        waiting.push(node.right)?;
        waiting.push(node.left)?;
    }
    Ok(())
}

// The words of the keys of a tree. Each node has a key, so there is an end to them.
fn keys_in(
    alloc: Global,
    table: &TypeTable,
    cells: &Sealed,
    part: Part,
) -> Result<Vec<u64>, NoMemory>
    ensures keys { IsSmall cells.now.cells → (v : Value) → IsAt table.now cells.now.cells part v →
        IfOk result (λ ks. ints ks.items ≡ keys_of v) }
{
    let mut keys = Vec::new(alloc);
    let mut waiting = Vec::new(alloc);
    waiting.push(part)?;
    'reading: loop {
        match waiting.pop() {
            Some(part) => read(table, cells, part, &mut waiting, &mut keys)?,
            None => return Ok(keys),
        }
    }
}

/// The words of the keys of the first tree that words of these types stand for.
pub(crate) fn first_keys(
    alloc: Global,
    table: &TypeTable,
    cells: &Sealed,
    types: &[u32],
    words: &[u64],
) -> Result<Vec<u64>, NoMemory>
    ensures keys { (vs : Values) → IsSmall cells.now.cells →
        ArePrintable table.now cells.now.cells types.now words.now vs →
        IfOk result (λ ks. ints ks.items ≡ keys_of_first vs) }
{
    if types.len() == 0 {
        return Ok(Vec::new(alloc));
    }
    if words.len() == 0 {
        return Ok(Vec::new(alloc));
    }
    let ty = types[0];
    let word = words[0];
    keys_in(alloc, table, cells, Part { ty, word })
}

// The ends of keys, with one key more.
fn with_key(key: i64, ends: Option<Ends>) -> Ends
    ensures ends { result ≡ with_key key ends }
{
    match ends {
        None => Ends {
            least: key,
            greatest: key,
        },
        Some(ends) => Ends {
            least: if key <= ends.least { key } else { ends.least },
            greatest: if ends.greatest <= key {
                key
            } else {
                ends.greatest
            },
        },
    }
}

/// The least and the greatest of the keys of these words; none where there is no word.
pub(crate) fn ends_of(keys: &[u64]) -> Option<Ends>
    ensures ends { result ≡ ends_of (ints keys.now) }
{
    let mut ends = None;
    let mut left = keys.len();
    'keys: loop {
        if left == 0 {
            return ends;
        }
        left -= 1;
        ends = Some(with_key(keys[left].cast_signed(), ends));
    }
}
