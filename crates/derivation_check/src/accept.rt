// Derivations of a program: a line for each instance that is fip or fbip.
ghost use Rattle.std.specs.Prelude.{◌≡◌, ◌<◌, ◌≤◌, ◌+◌, ◌∷◌, ℕ, List};
ghost use Rattle.std.specs.Prelude.{Some, None, false, IsTrue, IfSome, IfNone, drop, slice_get};
ghost use Rattle.std.specs.Prelude.{length, map};
ghost use Rattle.fip_base.specs.declared.plain.Param as B;
ghost use Rattle.fip_trees.specs.Tree as T;
ghost use Rattle.fip_trees.specs.TreeView as V;
ghost use Rattle.fip_rules.specs.World.{world, is_ruled};
ghost use Rattle.ownership_calculus.specs.Terms.{given};
ghost use Rattle.derivation_trees.specs.Trees.{entry, entries};
ghost use Rattle.derivation_check.specs.Owned.{amount, RisingSizes};
ghost use Rattle.derivation_check.specs.Places.{at};
ghost use Rattle.derivation_check.specs.Scopes.{parameters};
ghost use Rattle.derivation_check.specs.ScopeView.{frames, scope_of, Fits};
ghost use Rattle.derivation_check.specs.Accepted.{owned_parameters, header_scope, DerivesInstance, AreDerived, IsDerivation};

use crate::counts::Counts;
use crate::lists::stands_at;
use crate::nodes::{credits_at, is_owned, variables_at};
use crate::numbering::are_numbered;
use crate::scalar_types::ScalarTypes;
use crate::scope::{Scope, get_param};
use crate::values::Walk;
use derivation_trees::{Credit, Derivation, Line};
use fip_base::plain::{FunKind, Param};
use fip_trees::program::{Instance, Program, Typed};

/// Whether a derivation has a line for just the fip and fbip instances of a program, and each is a derivation of its
/// function. It takes no memory.
pub fn check(typed: &Typed, derivation: &Derivation) -> bool
    ensures derived { IsTrue result → IsDerivation (V.program typed.now.program) (entries derivation.now) }
    ensures complete { IsDerivation (V.program typed.now.program) (entries derivation.now) → IsTrue result }
{
    let program = &typed.program;
    let scalars = ScalarTypes::of(program);
    let lines = derivation.lines();
    let mut place: usize = 0;
    let mut number: usize = 0;
    for instance in &program.instances {
        match after_line(program, &scalars, number, instance, lines, place) {
            None => {
                return false;
            }
            Some(following) => {
                place = following;
            }
        }
        number += 1;
    }
    place == lines.len()
}

// The place after the line of an instance, which is to be at this place and derive it; a plain instance has none.
// None where there is no such line.
#[tactic(auto, using(crate::proofs::Lines::lines))]
fn after_line(
    program: &Program,
    scalars: &ScalarTypes<'_>,
    number: usize,
    instance: &Instance,
    lines: &[Line],
    place: usize,
) -> Option<usize>
    requires { scalars.now.program.now ≡ program.now }
    ensures derived { IfSome result (λ r. (ds : List T.Instance) →
        AreDerived (V.program program.now) (number + 1) ds (drop r (map entry lines.now)) →
        AreDerived (V.program program.now) number (V.instance_of instance.now ∷ ds)
        (drop place (map entry lines.now))) }
    ensures down { IfSome result (λ r. (ds : List T.Instance) →
        AreDerived (V.program program.now) number (V.instance_of instance.now ∷ ds)
        (drop place (map entry lines.now)) →
        AreDerived (V.program program.now) (number + 1) ds (drop r (map entry lines.now))) }
    ensures within { IfSome result (λ r. place ≤ length lines.now → r ≤ length lines.now) }
    ensures other { IfNone result ((ds : List T.Instance) →
        AreDerived (V.program program.now) number (V.instance_of instance.now ∷ ds)
        (drop place (map entry lines.now)) → ⊥) }
{
    if !instance.kind.is_ruled() {
        return Some(place);
    }
    match line_at(lines, place) {
        None => None,
        Some(line) => {
            if !is_derived(program, scalars, number, instance, line) {
                return None;
            }
            Some(place + 1)
        }
    }
}

fn line_at<'a>(lines: &'a [Line], place: usize) -> Option<&'a Line>
    ensures some { IfSome result (λ l. slice_get lines.now place ≡ Some l.now) }
    ensures none { IfNone result (slice_get lines.now place ≡ None) }
    ensures inside { IfSome result (λ _. place < length lines.now) }
{
    lines.get(place)
}

// Whether a line is that of an instance, and derives it.
fn is_derived(
    program: &Program,
    scalars: &ScalarTypes<'_>,
    number: usize,
    instance: &Instance,
    line: &Line,
) -> bool
    requires { scalars.now.program.now ≡ program.now }
    ensures number { IsTrue result → line.now.instance ≡ number }
    ensures derived { IsTrue result → DerivesInstance (world (V.program program.now) instance.now.kind)
        (V.instance_of instance.now) (entry line.now).tree }
    ensures complete { line.now.instance ≡ number → DerivesInstance (world (V.program program.now) instance.now.kind)
        (V.instance_of instance.now) (entry line.now).tree → IsTrue result }
{
    if line.instance() != number {
        return false;
    }
    let walk = Walk {
        program,
        scalars,
        kind: instance.kind,
        nodes: line.nodes(),
    };
    walk.function(instance)
}

// The scope of a function's parameters.
#[tactic(auto, using(crate::proofs::Lines::in_header))]
fn header<'a>(params: &'a [Param]) -> Scope<'a>
    ensures fits { Fits (frames result) }
    ensures scope { scope_of (frames result) ≡ record { variables = parameters 0 params.now; lent = λ x. false } }
{
    Scope::Header { params }
}

// Whether credits are those that a header marks.
fn are_marked(credits: &[Credit], sizes: &[u8]) -> bool
    requires { RisingSizes 1 credits.now }
    ensures sound { IsTrue result → (k : ℕ) → amount k credits.now ≡ given k sizes.now }
    ensures complete { ((k : ℕ) → amount k credits.now ≡ given k sizes.now) → IsTrue result }
{
    let mut counts = Counts::of(credits);
    if !counts.take_marked(sizes) {
        return false;
    }
    counts.is_empty()
}

impl<'a> Walk<'a> {
    // Whether the tree at the first place derives an instance of the walk's kind.
    fn function(&self, instance: &Instance) -> bool
        ensures derived { IsTrue result → DerivesInstance (world (V.program self.now.program.now) self.now.kind)
            (V.instance_of instance.now) (at self.now.nodes.now 0) }
        ensures complete { DerivesInstance (world (V.program self.now.program.now) self.now.kind)
            (V.instance_of instance.now) (at self.now.nodes.now 0) → IsTrue result }
    {
        let params = instance.params.as_slice();
        let count = params.len();
        if instance.binders.len() != count || count > 4_294_967_296 {
            return false;
        }
        if !are_numbered(&instance.binders, 0, 0) {
            return false;
        }
        if !is_owned(self.nodes, 0, count) {
            return false;
        }
        if !self.owns_parameters(params, variables_at(self.nodes, 0)) {
            return false;
        }
        if !are_marked(credits_at(self.nodes, 0), &instance.credits) {
            return false;
        }
        let scope = header(params);
        match self.block(&scope, count, count, 0, &instance.body) {
            None => false,
            Some(_) => true,
        }
    }

    // Whether the owned variables are the owned parameters that aren't scalar.
    fn owns_parameters(&self, params: &[Param], owned: &[usize]) -> bool
        requires { length params.now ≤ 4294967296 }
        ensures sound { IsTrue result → owned.now
            ≡ owned_parameters (world (V.program self.now.program.now) self.now.kind) 0 params.now }
        ensures complete { owned.now
            ≡ owned_parameters (world (V.program self.now.program.now) self.now.kind) 0 params.now → IsTrue result }
    {
        let mut place: usize = 0;
        let mut number: usize = 0;
        while number < params.len() {
            match get_param(params, number) {
                None => {
                    return false;
                }
                Some(param) => match self.owns_parameter(param, owned, number, place) {
                    None => {
                        return false;
                    }
                    Some(following) => {
                        place = following;
                    }
                },
            }
            number += 1;
        }
        place == owned.len()
    }

    // An owned parameter that isn't scalar is the next of the owned variables: the place after.
    #[tactic(auto, using(crate::proofs::Lines::owning_parameters))]
    fn owns_parameter(
        &self,
        param: Param,
        owned: &[usize],
        number: usize,
        place: usize,
    ) -> Option<usize>
        requires { number < 4294967296 }
        ensures sound { IfSome result (λ r. (ps : List B.Param) → drop r owned.now
            ≡ owned_parameters (world (V.program self.now.program.now) self.now.kind) (number + 1) ps →
            drop place owned.now
            ≡ owned_parameters (world (V.program self.now.program.now) self.now.kind) number (param ∷ ps)) }
        ensures down { IfSome result (λ r. (ps : List B.Param) → drop place owned.now
            ≡ owned_parameters (world (V.program self.now.program.now) self.now.kind) number (param ∷ ps) →
            drop r owned.now
            ≡ owned_parameters (world (V.program self.now.program.now) self.now.kind) (number + 1) ps) }
        ensures within { IfSome result (λ r. place ≤ length owned.now → r ≤ length owned.now) }
        ensures other { IfNone result ((ps : List B.Param) → drop place owned.now
            ≡ owned_parameters (world (V.program self.now.program.now) self.now.kind) number (param ∷ ps) → ⊥) }
    {
        if self.is_scalar(param.ty) {
            return Some(place);
        }
        if param.lent {
            return Some(place);
        }
        if !stands_at(owned, place, number) {
            return None;
        }
        Some(place + 1)
    }
}
