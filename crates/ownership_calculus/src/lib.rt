// The calculus of ownership, and when a term is derived.
#![tactic(auto)]

ghost use Rattle.std.specs.Prelude.{ℕ, List, Bool, ◌↔◌};
ghost use Rattle.ownership_calculus.specs.Terms.{Term};
ghost use Rattle.ownership_calculus.specs.Functions.{Accepted, Derived};

/// A function is derived exactly where it breaks none of the rules that are said without environments.
pub fn derived()
    ensures theorem { (fip : Bool) (lent own header : List ℕ) (e : Term) →
        (Accepted fip lent own header e ↔ Derived fip lent own header e) }
{}
