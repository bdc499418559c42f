// The library: four programs as texts, and the table of their names.
#![tactic(auto)]

ghost use Rattle.std.specs.Prelude.{◌↔◌, IsSome, IfSome};
ghost use Rattle.library_sources.specs.Names.{IsTextName};
ghost use Rattle.library_sources.specs.Texts.{IsText};

mod finger;
mod list;
mod rbtree;
mod tree;

/// The text of a library program; None exactly for a name other than `list`, `tree`, `rbtree` and `finger`.
pub fn text(name: &str) -> Option<&'static str>
    ensures named { IsSome result ↔ IsTextName name.now }
    ensures text { IfSome result (λ t. IsText name.now t.now) }
{
    match name {
        "list" => Some(list::TEXT),
        "tree" => Some(tree::TEXT),
        "rbtree" => Some(rbtree::TEXT),
        "finger" => Some(finger::TEXT),
        _ => None,
    }
}
