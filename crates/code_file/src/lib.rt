// Code files: bytes that encode a code. All numbers are big-endian. A file is
//
//     file     = "FP2C" version types:u16 type* functions:u16 function* end
//     version  = 0001 | 0002
//     type     = constructors:u32 constructor*
//     constructor = name fields:u8 type:u16*
//     name     = length:u32 byte*
//     function = kind:u8 name params:u16 param* credits results:u8 type:u16*
//                registers:u16 instrs:u32 instr* labels:u32 label*
//     param    = mark:u8 type:u16
//     credits  =                                         in version 1, where no function states one
//              | count:u8 size:u8*                       in version 2
//     instr    = op:u8 operands
//     label    = at:u32 kind*                            one for each register
//     kind     = 00 | 01 type set | 02 type set root:u16 from:u16 field:u8 | 03 type | 04 size:u8
//     set      = count:u16 constructor:u32*
//
// The module `tags` has what a kind of function, a mark, an operator and an op stand for; the operands of each op are
// in the order in which `Reader::instr` reads them. A constructor's name is an upper-case name, a function's a
// lower-case name that is no keyword, or empty. A root or a from of ffff is none, and then the field is 0. A code has
// one encoding in each version at most.
#![tactic(auto)]

mod error;
mod instructions;
mod kinds;
mod names;
mod read;
mod reader;
mod tags;
pub mod theorems;
mod write;
mod write_instructions;
mod write_kinds;
mod writer;

pub use error::{ReadCodeError, WriteError};
pub use read::read_code;
pub use tags::Version;
pub use write::write_code;
