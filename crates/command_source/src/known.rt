// What the phases find out about a source.
use code_verify::Verified;
use fip_trees::groups::Groups;
use fip_trees::program::Typed;

/// A source that breaks no rule: its program, its call groups, and its code.
#[derive(Drop)]
pub struct Front {
    pub typed: Typed,
    pub groups: Groups,
    pub verified: Verified,
}
