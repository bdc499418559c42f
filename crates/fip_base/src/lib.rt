// What all parts share: the plain types, the trees of the core form, the table of types, and the text of a refusal.
#![tactic(auto)]

pub mod core_form;
pub mod plain;
pub mod refusal;
pub mod surface;
pub mod table;
