// Binders and their numbers.
ghost use Rattle.std.specs.Prelude.{◌≤◌, IsTrue};
ghost use Rattle.derivation_check.specs.Scopes.{AreNumbered};

use fip_trees::program::Binder;

/// The greatest number of variables of a function: that many have numbers below 2 to the 32nd.
pub const MOST_VARIABLES: usize = 4_294_967_296;

/// Whether binders have the program's numbers from one on, and the derivation's from another.
pub fn are_numbered(binders: &[Binder], core: usize, next: usize) -> bool
    requires core { core ≤ 4294967296 }
    requires next { next ≤ 4294967296 }
    ensures sound { IsTrue result → AreNumbered core next binders.now }
    ensures complete { AreNumbered core next binders.now → IsTrue result }
{
    let mut core = core;
    let mut next = next;
    for binder in binders {
        if binder.number != core || next >= 4_294_967_296 {
            return false;
        }
        core += 1;
        next += 1;
    }
    true
}
