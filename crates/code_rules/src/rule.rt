// The rules of sound code, and their names.
use std::fmt;

/// The rules that a code can break, in the order of their numbers.
#[derive(Clone, Copy, Debug, PartialEq, Eq, PartialOrd, Ord)]
pub enum SoundRule {
    /// Of function 0, instruction 0: type 1 isn't bool with False and True; more than 4,096 types or functions; a type
    /// without constructors or without a finite value; a type's number that isn't there in the table; more than 16
    /// fields; two constructors of one name in a type; two functions of one name that isn't empty.
    S0,
    /// A register, a type, a constructor or a function that isn't there; a target that isn't after the instruction,
    /// isn't in the function, or has no label.
    S1,
    /// A source, a field's number, the arguments or a tail call's results aren't as the instruction requires.
    S2,
    /// A destination isn't as the instruction requires.
    S3,
    /// The last instruction is none of Tail, Ret and Jump.
    S4,
    /// What is known on arrival at a label doesn't fit the label. It is named at the instruction that it comes from.
    S5,
    /// A tree or a credit is left at Tail or Ret.
    S6,
    /// A fip function drops, frees, or calls a function that isn't fip.
    S7,
    /// A fip function calls one of its own group outside tail position.
    S8,
    /// Of instruction 0: no instruction; registers fewer than parameters and credits together, or more than 4,096; a
    /// number of results other than 1 to 8; a header with a type that isn't there, with more than 16 credits, or with
    /// one of a size other than 1 to 16; labels whose numbers don't rise, are 0 or past the end, that don't speak of
    /// exactly each register, or that have a number that isn't there, an empty set, a set that doesn't rise, a borrowed
    /// register whose root isn't owned there, or a from that names the register itself, or a register that isn't owned
    /// or borrowed with the same root and one constructor, which has that field.
    S9,
}

impl SoundRule {
    /// The rule's name, a capital S and a digit.
    pub fn as_str(self) -> &'static str {
        match self {
            SoundRule::S0 => "S0",
            SoundRule::S1 => "S1",
            SoundRule::S2 => "S2",
            SoundRule::S3 => "S3",
            SoundRule::S4 => "S4",
            SoundRule::S5 => "S5",
            SoundRule::S6 => "S6",
            SoundRule::S7 => "S7",
            SoundRule::S8 => "S8",
            SoundRule::S9 => "S9",
        }
    }

    /// The digit of the rule's name.
    pub fn number(self) -> u8 {
        match self {
            SoundRule::S0 => 0,
            SoundRule::S1 => 1,
            SoundRule::S2 => 2,
            SoundRule::S3 => 3,
            SoundRule::S4 => 4,
            SoundRule::S5 => 5,
            SoundRule::S6 => 6,
            SoundRule::S7 => 7,
            SoundRule::S8 => 8,
            SoundRule::S9 => 9,
        }
    }
}

impl fmt::Display for SoundRule {
    fn fmt<W: fmt::Write>(&self, f: &mut fmt::Formatter<W>) -> fmt::Result {
        write!(f, "{}", self.as_str())
    }
}
