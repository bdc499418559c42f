// From the bytes of a source to its tokens, to the tree of its program, and from that to its core form.
#![tactic(auto)]

pub use fip_core::core_of::core_of;
pub use fip_grammar::lexer::lex;
pub use fip_parser::parser::parse;
