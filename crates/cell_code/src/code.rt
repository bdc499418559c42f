// Instructions, functions and codes.
ghost use Rattle.std.specs.Prelude.{◌≡◌, ℕ, ◌<◌, length, bytes_eq, Some, IfSome, IfNone, slice_get};
ghost use Rattle.cell_code.specs.CodeKinds as K;
ghost use Rattle.cell_code.specs.Naming.{IsNamed};
ghost use Rattle.cell_code.specs.declared.code.Function.{Function as a_function};

use crate::kind::Label;
use crate::registers::Registers;
use fip_base::plain::{FunKind, Name, Operator, Params, Types};
use fip_base::table::TypeTable;

/// An instruction. Registers, functions, instructions, constructors and fields are numbered from 0, types from 1 (0 is
/// int). A frame has a word for each register. A target is the number of an instruction of the same function, greater
/// than that of the instruction itself. A word of a data type is `2c` for constructor `c` without fields, and `2p + 1`
/// for the cell at place `p`.
#[derive(Drop)]
pub enum Instr {
    /// The destination gets an int.
    Const {
        destination: u16,
        value: i64,
    },
    /// The destination gets a constructor without fields.
    Atom {
        destination: u16,
        ty: u32,
        constructor: u32,
    },
    /// The destination gets the word of the source.
    Move {
        destination: u16,
        source: u16,
    },
    /// The destination gets the operator's result, or the run traps at the line and column (both from 1, in bytes).
    Arith {
        destination: u16,
        operator: Operator,
        left: u16,
        right: u16,
        line: u32,
        col: u32,
    },
    /// Goes to the target where the register's constructor isn't this one.
    Test {
        register: u16,
        constructor: u32,
        target: u32,
    },
    /// Goes to the target where the register isn't this int.
    TestInt {
        register: u16,
        value: i64,
        target: u32,
    },
    /// The destination gets a field of the register's cell.
    Peek {
        destination: u16,
        register: u16,
        field: u8,
    },
    /// The field registers get the fields of the register's cell; the register keeps the cell as a credit.
    Take {
        register: u16,
        fields: Registers,
    },
    /// The cell of the register, a credit, gets the constructor and the words of the field registers.
    Put {
        register: u16,
        ty: u32,
        constructor: u32,
        fields: Registers,
    },
    /// All cells of the register's tree are released.
    Drop {
        register: u16,
    },
    /// The register's cell, a credit, is released.
    Free {
        register: u16,
    },
    /// A new frame, for the function, with these arguments and credits; on its return the destinations get the results.
    Call {
        function: u32,
        arguments: Registers,
        destinations: Registers,
    },
    /// The frame is replaced by one of the function, with these arguments and credits.
    Tail {
        function: u32,
        arguments: Registers,
    },
    /// The function gives the words of these registers.
    Ret {
        results: Registers,
    },
    /// Goes to the target.
    Jump {
        target: u32,
    },
}

/// The kind of a function that has code.
#[derive(Clone, Copy, PartialEq, Eq)]
pub enum CodeKind {
    Fip,
    Fbip,
}

impl CodeKind {
    /// The kind of the code of a function of the language, where it has code: fip for a fip one, else fbip.
    pub fn of(kind: FunKind) -> CodeKind
        ensures is { result ≡ K.code_kind kind }
    {
        if kind.is_fip() {
            CodeKind::Fip
        } else {
            CodeKind::Fbip
        }
    }

    /// The kind of the language that this kind of code is.
    pub fn fun_kind(self) -> FunKind
        ensures is { result ≡ K.fun_kind self }
    {
        match self {
            CodeKind::Fip => FunKind::Fip,
            CodeKind::Fbip => FunKind::Fbip,
        }
    }

    /// Whether functions of this kind make no cell and free none.
    pub fn is_fip(self) -> bool
        ensures fip { result ≡ K.is_fip self }
    {
        match self {
            CodeKind::Fip => true,
            CodeKind::Fbip => false,
        }
    }
}

/// A function: its kind, its name (empty where it is no entry), parameters, the sizes of the credits that
/// a caller hands over, results' types, the number of its registers (the parameters' and the credits' first), its
/// instructions, and labels in rising order.
#[derive(Drop)]
pub struct Function {
    pub kind: CodeKind,
    pub name: Name,
    pub params: Params,
    pub credits: Vec<u8>,
    pub results: Types,
    pub registers: u16,
    pub instrs: Vec<Instr>,
    pub labels: Vec<Label>,
}

/// A code: types, and functions that call one another by number.
#[derive(Drop)]
pub struct Code {
    pub types: TypeTable,
    pub functions: Vec<Function>,
}

/// The number of registers of function `f`.
pub fn code_registers(code: &Code, f: usize) -> usize
    requires there { f < length code.now.functions.items }
    ensures is { (g : a_function) × (slice_get code.now.functions.items f ≡ Some g) × (result ≡ g.registers) }
{
    code.functions[f].registers as usize
}

// Whether a function has this name.
fn is_named(function: &Function, name: &[u8]) -> bool
    ensures is { result ≡ bytes_eq function.now.name name.now }
{
    function.name.as_slice() == name
}

// The number of the first function with this name.
fn first_named(functions: &[Function], name: &[u8]) -> Option<usize>
    ensures within { IfSome result (λ f. f < length functions.now) }
    ensures found { IfSome result (IsNamed functions.now name.now) }
    ensures first { IfSome result (λ f. (g : ℕ) → g < f → IsNamed functions.now name.now g → ⊥) }
    ensures none { IfNone result ((f : ℕ) → IsNamed functions.now name.now f → ⊥) }
{
    for (number, function) in functions.iter().enumerate() {
        if is_named(function, name) {
            return Some(number);
        }
    }
    None
}

/// The number of the first function with this name; none exactly where no function has it. The empty name names none.
pub fn named(code: &Code, name: &[u8]) -> Option<usize>
    ensures within { IfSome result (λ f. f < length code.now.functions.items) }
    ensures found { IfSome result (IsNamed code.now.functions.items name.now) }
    ensures first { IfSome result (λ f. (g : ℕ) → g < f → IsNamed code.now.functions.items name.now g → ⊥) }
    ensures named { IfSome result (λ _. 0 < length name.now) }
    ensures none { IfNone result ((f : ℕ) → 0 < length name.now → IsNamed code.now.functions.items name.now f → ⊥) }
{
    if name.is_empty() {
        return None;
    }
    first_named(code.functions.as_slice(), name)
}
