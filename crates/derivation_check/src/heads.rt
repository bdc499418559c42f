// Nodes of matches.
use crate::walk::Found;

/// The node of a match, the scrutinee's number where it is used up, and a bound below which all its variables are.
#[derive(Clone, Copy)]
pub struct Head<'a> {
    pub found: Found<'a>,
    pub taken: Option<usize>,
    pub below: usize,
}
