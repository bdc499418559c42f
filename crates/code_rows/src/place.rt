// Where an instruction is.
use crate::labels::Labels;
use cell_code::Function;
use register_kinds::Table;

/// An instruction's place: the types and functions of its code, its function with that one's label maps by instruction,
/// and the numbers of function and instruction.
#[derive(Clone, Copy)]
pub struct Place<'a> {
    pub table: &'a Table<'a>,
    pub functions: &'a [Function],
    pub function: &'a Function,
    pub labels: &'a Labels<'a>,
    pub number: usize,
    pub at: usize,
}
