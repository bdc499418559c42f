// Derivations of programs that keep the rules.
ghost use Rattle.std.specs.Prelude.{◌≡◌, IfOk};
ghost use Rattle.fip_trees.specs.TreeView as V;
ghost use Rattle.derivation_trees.specs.Trees.{entries};
ghost use Rattle.derivation_trees.specs.WholeTrees.{AreTrees};
ghost use Rattle.derivation_check.specs.Accepted.{IsDerivation};
ghost use Rattle.derivation_agreement.specs.derivation_making.Made.{made_entries};
ghost use Rattle.derivation_agreement.specs.derivation_making.Weakening.{AllLean};
ghost use Rattle.fip_proof.specs.Ready.{IsReady};

use derivation_trees::Derivation;
use fip_base::plain::NoMemory;
use fip_trees::needs::Needs;
use fip_trees::program::Typed;
use std::alloc::Global;

/// The derivation of a typed program, which must break no rule on ownership and credits, and whose needs these
/// are. NoMemory: no memory is left.
pub fn derive(alloc: Global, typed: &Typed, needs: &Needs) -> Result<Derivation, NoMemory>
    // The nodes of each line are those of a tree.
    ensures trees { IfOk result (λ d. AreTrees d.lines.items) }
    // Of a program that is as required it is what is made.
    ensures made { IfOk result (λ d. IsReady (V.program typed.now.program) needs.now →
        entries d ≡ made_entries (V.program typed.now.program) 0 (V.program typed.now.program).instances) }
    // So it is a derivation of the program.
    ensures derived { IfOk result (λ d. IsReady (V.program typed.now.program) needs.now →
        IsDerivation (V.program typed.now.program) (entries d)) }
    // Each node that weakens leaves something out, and none is the part of another.
    ensures lean { IfOk result (λ d. IsReady (V.program typed.now.program) needs.now → AllLean (entries d)) }
{
    derivation_walk::derive(alloc, typed, needs)
}
