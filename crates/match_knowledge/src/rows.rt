// Patterns without names.
use crate::heads::Head;

/// A pattern without names.
#[derive(Drop)]
pub enum Row {
    /// It matches every value.
    Any,
    /// It matches the values of a type that have a head, and whose children match the parts, one for one. A literal is
    /// a test of type 0 without parts.
    Test {
        ty: u32,
        head: Head,
        parts: Vec<Row>,
    },
}
