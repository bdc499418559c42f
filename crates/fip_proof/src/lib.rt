// Derivations of the ownership calculus: made, checked (`proof_check`), written and read. A derivation says for each
// fip and fbip instance, rule by rule, which owned variables and credits each of its expressions uses up. Whoever has a
// program and a derivation needs no rule of the checkers to see that the program keeps the discipline.
//
// `Derives(B, O, e)` holds of variables B that are borrowed or scalar, of owned variables and credits O, and of an
// expression e. O splits where each of its variables and credits goes to exactly one part.
//
// - VAR: e is a variable, and O is it alone.
// - SCALAR: e is a literal, a scalar variable or an operator on such, and O is empty.
// - TUPLE: O splits, one part for each component.
// - ATOM: e is a constructor without fields, and O is empty.
// - REUSE: e is a constructor with k fields; O is one credit of size k and parts for the fields.
// - LET: O splits in O1 and O2. What is bound is derived by O1, with the variables of O2 borrowed; the rest by O2 and
//   the binders.
// - CALL: the callee's kind is no weaker. Each argument in a borrowed position is a variable of B; O is the credits of
//   the callee's header and parts for the owned arguments that aren't scalar.
// - MATCH: the scrutinee is in B; each clause is derived by O, with the pattern's variables borrowed.
// - MATCH!: O is the scrutinee and O'; each clause is derived by O', the pattern's variables and its credits.
// - WEAKEN, in fbip alone: O without some variables or credits derives e.
#![tactic(auto)]

mod error;
mod files;
mod make;

pub use derivation_check::check;
pub use derivation_text::{ProofError, TextError, read_derivation, write_derivation};
pub use derivation_trees::{Credit, Derivation, Line, Node, RuleName};
pub use error::AuditError;
pub use files::{audit, derivation_text};
pub use make::derive;
