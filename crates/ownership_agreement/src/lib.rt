// The rules on ownership and on credits, and the calculus: they agree.
#![tactic(auto)]

ghost use Rattle.std.specs.Prelude.{◌≡◌, ◌↔◌, ℕ, true};
ghost use Rattle.credit_check.specs.fip_trees.Tree.{Instance, Program};
ghost use Rattle.fip_rules.specs.World.{is_ruled};
ghost use Rattle.ownership_agreement.specs.Sized.{IsSized};
ghost use Rattle.ownership_agreement.specs.Agreement.{BreaksNone, IsDerived, AreDerived, AreSized, IsAccepted};

/// A fip or fbip instance breaks none of the rules on ownership (E50 to E55) and on credits (E56 to E58, E62) exactly
/// where the calculus derives its body from its parameters and the credits of its header. So `check_owned` and
/// `check_credits` accept a program exactly where each of its fip and fbip instances is derived.
pub fn agreement()
    ensures theorem { (p : Program) (i : ℕ) (d : Instance) → is_ruled d.kind ≡ true → IsSized p d →
        (BreaksNone p i d ↔ IsDerived p d) }
    ensures programs { (p : Program) → AreSized p p.instances → (IsAccepted p ↔ AreDerived p p.instances) }
{}
