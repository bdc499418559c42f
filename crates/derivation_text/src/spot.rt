// Where in a text the reader is.

/// What is before the next byte of a text.
#[derive(Clone, Copy, PartialEq, Eq)]
pub enum Spot {
    /// Whole lines.
    Line,
    /// A digit of a line's number.
    LineNumber,
    /// What a rule's name is after.
    Rule,
    /// A letter of a rule's name.
    Name,
    /// The bracket before the variables.
    Variables,
    /// The space before a variable.
    Variable,
    /// A digit of a variable.
    VariableNumber,
    /// The bar before the credits.
    Credits,
    /// The space before a size.
    Size,
    /// A digit of a size.
    SizeNumber,
    /// The colon before a count.
    Count,
    /// A digit of a count.
    CountNumber,
    /// The bracket after the credits.
    Head,
    /// The end of a node that isn't the last one.
    Node,
}
