// Values, and the rows that they name.
ghost use Rattle.std.specs.Prelude.{◌≡◌, ℕ, ◌+◌, ◌≤◌, List, [], ◌∷◌, ◌++◌, length, take, drop, Some};
ghost use Rattle.std.specs.Prelude.{IfOk, OnOk, vec_len};
ghost use Rattle.fip_base.specs.fip_language.Values.{Values, Node};
ghost use Rattle.plain_rows.specs.Rows.{count_rows, count_fields, IsRow, More, StandAll, Stands};

use fip_base::plain::NoMemory;
use std::alloc::Global;

/// A value of an int or of a data type.
#[derive(Clone, Copy, PartialEq, Eq)]
pub enum Value {
    Int(i64),
    /// A constructor without fields, by its number in its type.
    Bare(u64),
    /// A constructor with fields, by the number of its row.
    Row(usize),
    /// Of a variable that has none.
    Unbound,
}

/// The constructor of a row, and where its fields lie in the list of all fields.
#[derive(Clone, Copy)]
pub struct Head {
    tag: u32,
    first: usize,
    size: usize,
}

/// Rows.
#[derive(Drop)]
pub struct Store {
    heads: Vec<Head>,
    fields: Vec<Value>,
}

impl Store {
    /// A store without rows. It takes no memory.
    pub fn new(alloc: Global) -> Store
        ensures empty { count_rows result ≡ 0 }
    {
        Store {
            heads: Vec::new(alloc),
            fields: Vec::new(alloc),
        }
    }

    /// Puts a row after the others; its value. An error where no memory is left.
    pub fn push(&mut self, tag: u32, fields: &[Value]) -> Result<Value, NoMemory>
        ensures named { IfOk result (λ w. w ≡ Value.Row (count_rows self.old)) }
        ensures row { OnOk result (IsRow self.new (count_rows self.old) tag fields.now) }
        ensures kept { OnOk result (More self.old self.new) }
        ensures rows { OnOk result (count_rows self.new ≡ count_rows self.old + 1) }
        ensures fields { OnOk result (count_fields self.new ≡ count_fields self.old + length fields.now) }
    {
        let row = self.heads.len();
        let first = self.fields.len();
        self.fields.extend_from_slice(fields)?;
        self.heads.push(Head {
            tag,
            first,
            size: fields.len(),
        })?;
        Ok(Value::Row(row))
    }

    /// The value of a constructor with these fields; a new row where it has some. An error where no memory is left.
    pub fn make(&mut self, tag: u32, fields: &[Value]) -> Result<Value, NoMemory>
        ensures stands { IfOk result (λ w. (vs : Values) → StandAll self.old fields.now vs →
            Stands self.new w (Node tag vs)) }
        ensures kept { OnOk result (More self.old self.new) }
        ensures rows { OnOk result (count_rows self.old ≤ count_rows self.new) }
        ensures fields { OnOk result (count_fields self.new ≡ count_fields self.old + length fields.now) }
    {
        if fields.is_empty() {
            Ok(Value::Bare(tag as u64))
        } else {
            self.push(tag, fields)
        }
    }

    /// Puts in place of the last values, so many, the value of a constructor that has them as fields. An error where no
    /// memory is left.
    pub fn fold(&mut self, tag: u32, size: usize, values: &mut Vec<Value>) -> Result<(), NoMemory>
        ensures folds { OnOk result ((before fields : List Value) (vs : Values) →
            values.old.items ≡ before ++ fields → length fields ≡ size → StandAll self.old fields vs →
            (w : Value) × (values.new.items ≡ before ++ w ∷ []) × Stands self.new w (Node tag vs)) }
        ensures kept { OnOk result (More self.old self.new) }
        ensures steps { OnOk result (vec_len values.old + count_fields self.old + 1
            ≤ vec_len values.new + count_fields self.new) }
    {
        if size > values.len() {
            values.push(Value::Unbound)?;
            return Ok(());
        }
        let start = values.len() - size;
        let value = self.make(tag, from(values.as_slice(), start))?;
        values.truncate(start);
        values.push(value)?;
        Ok(())
    }

    /// The number of rows.
    pub fn len(&self) -> usize
        ensures count { result ≡ count_rows self.now }
    {
        self.heads.len()
    }

    /// The number of rows and fields together.
    pub fn weight(&self) -> usize {
        self.heads.len().saturating_add(self.fields.len())
    }

    /// The constructor of a row; none where there is no such row.
    pub fn tag(&self, row: usize) -> Option<u32>
        ensures tag { (c : ℕ) (xs : List Value) → IsRow self.now row c xs → result ≡ Some c }
    {
        match self.heads.get(row) {
            Some(head) => Some(head.tag),
            None => None,
        }
    }

    /// The fields of a row; none where there is no such row.
    pub fn fields(&self, row: usize) -> &[Value]
        ensures fields { (c : ℕ) (xs : List Value) → IsRow self.now row c xs → result.now ≡ xs }
    {
        match self.heads.get(row) {
            Some(head) => slice_of(self.fields.as_slice(), head.first, head.size),
            None => &[],
        }
    }
}

// The values from a place on.
fn from(values: &[Value], start: usize) -> &[Value]
    ensures part { start ≤ length values.now → result.now ≡ drop start values.now }
{
    if start <= values.len() {
        &values[start..]
    } else {
        &[]
    }
}

// So many values from a place on; none where there are fewer.
fn slice_of(values: &[Value], first: usize, size: usize) -> &[Value]
    ensures part { first + size ≤ length values.now → result.now ≡ take size (drop first values.now) }
{
    if size <= values.len() && first <= values.len() - size {
        &values[first..first + size]
    } else {
        &[]
    }
}
