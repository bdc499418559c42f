// What is around an expression.
//
// A binder's number in a program is that of the core form, where the binders inside what a let binds come before the
// let's own. In a derivation the let's own come first.
ghost use Rattle.std.specs.Prelude.{◌≡◌, ◌<◌, ◌≤◌, ◌-◌, ◌∷◌, ◌&&◌, not, [], take};
ghost use Rattle.std.specs.Prelude.{ℕ, Some, None, true, IfSome, IfNone, map, length};
ghost use Rattle.std.specs.Prelude.{get_or, slice_get};
ghost use Rattle.fip_trees.specs.declared.program.Binder.{Binder};
ghost use Rattle.fip_trees.specs.TreeView.{BoundPart};
ghost use Rattle.fip_trees.specs.TreeView as V;
ghost use Rattle.fip_rules.specs.Shapes.{binders, binders_all};
ghost use Rattle.ownership_calculus.specs.Terms.{has};
ghost use Rattle.derivation_check.specs.Places.{IsRising};
ghost use Rattle.derivation_check.specs.Scopes as S;
ghost use Rattle.derivation_check.specs.Scopes.{known, named, parameters, AreNumbered};
ghost use Rattle.derivation_check.specs.ScopeView.{frames, scope_of, bindings as following, Fits};
ghost use Rattle.derivation_check.specs.ScopeView.{AreBindings, first, known_as, start};

use crate::parts::place_of;
use fip_base::plain::Param;
use fip_trees::program::{Binder, Binding, Pattern};

/// A variable where it occurs.
#[derive(Clone, Copy)]
pub struct Variable {
    /// Its number in a derivation.
    pub number: usize,
    pub ty: u32,
    /// Whether it is bound as an owned one, where its type isn't scalar.
    pub is_owned: bool,
}

/// What is around an expression, from the inside out: where its variables are bound, and which of them are borrowed by
/// it. `core` and `next` are numbers of the next binder, in the program and in the derivation.
#[derive(Clone, Copy)]
pub enum Scope<'a> {
    /// The function's parameters.
    Header {
        params: &'a [Param],
    },
    /// A clause's pattern.
    Clause {
        outer: &'a Scope<'a>,
        pattern: &'a Pattern,
        is_taken: bool,
        core: usize,
        next: usize,
    },
    /// Bindings of a block that are before.
    Bindings {
        outer: &'a Scope<'a>,
        bindings: &'a [Binding],
        core: usize,
        next: usize,
    },
    /// A let, inside what it binds. Of what it has that is borrowed which the bound expression doesn't have.
    Bound {
        outer: &'a Scope<'a>,
        whole: &'a [usize],
        used: &'a [usize],
    },
}

/// Whether a let around borrows an owned variable of this number.
#[tactic(auto, using(crate::proofs::Frames::lent_in))]
pub fn lends(scope: &Scope<'_>, number: usize) -> bool
    requires { Fits (frames scope.now) }
    ensures lent { result ≡ (scope_of (frames scope.now)).lent number }
{
    match scope {
        Scope::Header { .. } => false,
        Scope::Clause { outer, .. } => lends(outer, number),
        Scope::Bindings { outer, .. } => lends(outer, number),
        Scope::Bound { outer, whole, used } => {
            if is_left(whole, used, number) {
                return true;
            }
            lends(outer, number)
        }
    }
}

// Whether a number is in the first list and not in the second.
fn is_left(whole: &[usize], used: &[usize], number: usize) -> bool
    requires whole { IsRising whole.now }
    requires used { IsRising used.now }
    ensures left { result ≡ (has whole.now number && not (has used.now number)) }
{
    has(whole, number) && !has(used, number)
}

// Whether a number is in a list that rises.
#[tactic(auto, using(crate::proofs::Frames::has_in))]
fn has(list: &[usize], number: usize) -> bool
    requires { IsRising list.now }
    ensures has { result ≡ has list.now number }
{
    match place_of(list, number) {
        Some(_) => true,
        None => false,
    }
}

/// The variable of a binder; none where it isn't in scope.
#[tactic(auto, using(crate::proofs::Frames::known_in))]
pub fn find(scope: &Scope<'_>, binder: usize) -> Option<Variable>
    requires { Fits (frames scope.now) }
    ensures some { IfSome result (λ v. known (scope_of (frames scope.now)).variables binder
        ≡ Some (known_as binder v)) }
    ensures none { IfNone result (known (scope_of (frames scope.now)).variables binder ≡ None) }
{
    match scope {
        Scope::Header { params } => parameter(params, binder),
        Scope::Clause {
            outer,
            pattern,
            is_taken,
            core,
            next,
        } => match in_clause(pattern, binder, *is_taken, *core, *next) {
            Some(found) => Some(found),
            None => find(outer, binder),
        },
        Scope::Bindings {
            outer,
            bindings,
            core,
            next,
        } => match in_bindings(bindings, binder, *core, *next) {
            Some(found) => Some(found),
            None => find(outer, binder),
        },
        Scope::Bound { outer, .. } => find(outer, binder),
    }
}

#[tactic(auto, using(crate::proofs::Frames::parameters_in))]
fn parameter(params: &[Param], binder: usize) -> Option<Variable>
    ensures some { IfSome result (λ v. known (parameters 0 params.now) binder ≡ Some (known_as binder v)) }
    ensures none { IfNone result (known (parameters 0 params.now) binder ≡ None) }
{
    match get_param(params, binder) {
        None => None,
        Some(param) => Some(Variable {
            number: binder,
            ty: param.ty,
            is_owned: !param.lent,
        }),
    }
}

/// The parameter at a place.
pub fn get_param(params: &[Param], place: usize) -> Option<Param>
    ensures some { IfSome result (λ p. slice_get params.now place ≡ Some p) }
    ensures none { IfNone result (slice_get params.now place ≡ None) }
    ensures inside { IfSome result (λ _. place < length params.now) }
{
    params.get(place).copied()
}

// The variable of a binder of a clause's pattern.
#[tactic(auto, using(crate::proofs::Frames::first_in))]
fn in_clause(
    pattern: &Pattern,
    binder: usize,
    is_taken: bool,
    core: usize,
    next: usize,
) -> Option<Variable>
    requires numbered { AreNumbered core next (binders (V.pattern pattern.now)) }
    requires order { core ≤ next }
    ensures some { IfSome result (λ v. known (named next is_taken (binders (V.pattern pattern.now))) binder
        ≡ Some (known_as binder v)) }
    ensures none { IfNone result (known (named next is_taken (binders (V.pattern pattern.now))) binder ≡ None) }
{
    match in_pattern(pattern, binder) {
        None => None,
        Some(found) => Some(Variable {
            number: next + (binder - core),
            ty: found.ty,
            is_owned: is_taken,
        }),
    }
}

// The first binder of this number in a pattern.
#[cycle(pattern)]
fn in_pattern<'a>(pattern: &'a Pattern, number: usize) -> Option<&'a Binder>
    ensures some { IfSome result (λ b. first (binders (V.pattern pattern.now)) number ≡ Some b.now) }
    ensures none { IfNone result (first (binders (V.pattern pattern.now)) number ≡ None) }
{
    match pattern {
        Pattern::Binder(binder) => if_numbered(binder, number),
        Pattern::Literal { .. } => None,
        Pattern::Constructor { patterns, .. } => in_patterns(patterns, number),
    }
}

#[cycle(pattern)]
fn in_patterns<'a>(patterns: &'a [Pattern], number: usize) -> Option<&'a Binder>
    ensures some { IfSome result (λ b. first (binders_all (V.patterns patterns.now)) number ≡ Some b.now) }
    ensures none { IfNone result (first (binders_all (V.patterns patterns.now)) number ≡ None) }
{
    for pattern in patterns {
        match in_pattern(pattern, number) {
            None => {}
            Some(found) => {
                return Some(found);
            }
        }
    }
    None
}

// A binder where it has this number.
fn if_numbered<'a>(binder: &'a Binder, number: usize) -> Option<&'a Binder>
    ensures some { IfSome result (λ b. first (binder.now ∷ []) number ≡ Some b.now) }
    ensures none { IfNone result (first (binder.now ∷ []) number ≡ None) }
{
    if binder.number == number {
        Some(binder)
    } else {
        None
    }
}

// The variable of a binder of some bindings.
#[tactic(auto, using(crate::proofs::Frames::searching))]
fn in_bindings(bindings: &[Binding], binder: usize, core: usize, next: usize) -> Option<Variable>
    requires numbered { AreBindings core next (map V.binding bindings.now) }
    requires order { core ≤ next }
    ensures some { IfSome result (λ v. (s : S.Scope) → known (following next (map V.binding bindings.now) s).variables
        binder
        ≡ Some (known_as binder v)) }
    ensures none { IfNone result ((s : S.Scope) → known (following next (map V.binding bindings.now) s).variables binder
        ≡ known s.variables binder) }
{
    let count = begun(bindings, binder, core, next);
    if count == 0 {
        return None;
    }
    match in_binding(bindings, count - 1, binder, core, next) {
        None => None,
        Some(found) => Some(found),
    }
}

// How many bindings begin with a binder of this number or a lower one: only the last of them can have it.
fn begun(bindings: &[Binding], binder: usize, core: usize, next: usize) -> usize
    requires numbered { AreBindings core next (map V.binding bindings.now) }
    requires order { core ≤ next }
    ensures within { result ≤ length bindings.now }
    ensures following { (s : S.Scope) → known (following next (map V.binding bindings.now) s).variables binder
        ≡ known (following next (take result (map V.binding bindings.now)) s).variables binder }
    ensures before { 0 < result → (s : S.Scope) →
        known (following next (take (result - 1) (map V.binding bindings.now)) s).variables binder
        ≡ known s.variables binder }
{
    let mut low: usize = 0;
    let mut high = bindings.len();
    while low < high {
        let middle = low + (high - low) / 2;
        if first_of(binders_of(bindings, middle)) <= binder {
            low = middle + 1;
        } else {
            high = middle;
        }
    }
    low
}

// The variable of a binder of the binding at a place.
fn in_binding(
    bindings: &[Binding],
    place: usize,
    binder: usize,
    core: usize,
    next: usize,
) -> Option<Variable>
    requires numbered { AreBindings core next (map V.binding bindings.now) }
    requires order { core ≤ next }
    requires inside { place < length bindings.now }
    ensures some { IfSome result (λ v. (b : BoundPart) → slice_get (map V.binding bindings.now) place ≡ Some b →
        known (named (start next (map V.binding bindings.now) place) true b.binders) binder
        ≡ Some (known_as binder v)) }
    ensures none { IfNone result ((b : BoundPart) → slice_get (map V.binding bindings.now) place ≡ Some b →
        known (named (start next (map V.binding bindings.now) place) true b.binders) binder ≡ None) }
{
    let own = binders_of(bindings, place);
    match in_binders(own, binder) {
        None => None,
        Some(found) => Some(Variable {
            number: start_of(bindings, place, core, next) + (binder - first_of(own)),
            ty: found.ty,
            is_owned: true,
        }),
    }
}

// The binders of the binding at a place.
#[tactic(auto, using(crate::proofs::Frames::binders_there))]
fn binders_of<'a>(bindings: &'a [Binding], place: usize) -> &'a [Binder]
    requires { place < length bindings.now }
    ensures binders { (b : BoundPart) → slice_get (map V.binding bindings.now) place ≡ Some b → b.binders ≡ result.now }
{
    bindings[place].binders.as_slice()
}

// The number of the first of some binders.
fn first_of(binders: &[Binder]) -> usize
    requires { 0 < length binders.now }
    ensures first { (b : Binder) → (get_or binders.now 0 b).number ≡ result }
{
    binders[0].number
}

// The first of some binders with this number.
fn in_binders<'a>(binders: &'a [Binder], number: usize) -> Option<&'a Binder>
    ensures some { IfSome result (λ b. (first binders.now number ≡ Some b.now) × (0 < length binders.now)) }
    ensures none { IfNone result (first binders.now number ≡ None) }
{
    for binder in binders {
        if binder.number == number {
            return Some(binder);
        }
    }
    None
}

// The derivation's number at the start of the binding at a place.
fn start_of(bindings: &[Binding], place: usize, core: usize, next: usize) -> usize
    requires numbered { AreBindings core next (map V.binding bindings.now) }
    requires order { core ≤ next }
    requires inside { place < length bindings.now }
    ensures start { result ≡ start next (map V.binding bindings.now) place }
{
    if place == 0 {
        return next;
    }
    let before = binders_of(bindings, place - 1);
    next + (first_of(before) + before.len() - core)
}
