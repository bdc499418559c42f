// What is known of a register.

/// What a register holds.
#[derive(Clone, Copy, PartialEq, Eq)]
pub enum Held {
    /// Nothing that is used any more.
    Nothing,
    /// A value of a scalar type.
    Scalar { ty: u32 },
    /// An owned tree of a type; its root's constructor, where it was just built.
    Owned { ty: u32, built: Option<u32> },
    /// A tree of a type that is only read; it lies in that of the register `root`, or where there is none in one that a
    /// frame below owns.
    Lent { ty: u32, root: Option<u16> },
    /// A cell of this size whose fields are no longer owned.
    Credit { size: u8 },
    /// An owned tree of one constructor without fields, which was matched and is not used yet.
    Bare { ty: u32, constructor: u32 },
}

/// A credit: the size of its cell, and the register that names it.
#[derive(Clone, Copy, PartialEq, Eq)]
pub struct Credit {
    pub size: usize,
    pub register: u16,
}
