// The theorems on soundness of lowered code. Each is the contract of a function that does nothing.
ghost use Rattle.std.specs.Prelude.{◌≡◌, ℕ, Bool, Some, slice_get};
ghost use Rattle.separation.specs.cell_code.declared.code.Instr.{Instr};
ghost use Rattle.derivation_making.specs.fip_rules.World as R;
ghost use Rattle.lowering_relation.specs.fip_trees.declared.least.Violation.{Violation};
ghost use Rattle.lowering_relation.specs.fip_trees.Tree.{Instance, Program};
ghost use Rattle.lowering_relation.specs.instance_semantics.Example.{lists, rev};
ghost use Rattle.lowering_relation.specs.LoweredExample.{lists_setting};
ghost use Rattle.lowering_relation.specs.LoweredBodies.{has_function};
ghost use Rattle.lowering_relation.specs.Values.{Setting};
ghost use Rattle.lowering_soundness.specs.Accepted.{IsDerived, IsInRange, IsWithinLimits};
ghost use Rattle.lowering_soundness.specs.Built.{BuildsBlock};
ghost use Rattle.lowering_relation.specs.LaidExample.{lists_code, reversing};
ghost use Rattle.lowering_relation.specs.LaidFunctions.{FunctionLaid, AreLaid, IsLaid};
ghost use Rattle.lowering_soundness.specs.Functions.{IsNumbered};
ghost use Rattle.lowering_soundness.specs.Laid.{Shares};
ghost use Rattle.lowering_soundness.specs.Origins.{HasOrigin};
ghost use Rattle.lowering_soundness.specs.Parts.{IsKept};
ghost use Rattle.lowering_soundness.specs.Placed.{Callees, ParamsTyped};
ghost use Rattle.lowering_relation.specs.Standing.{MapsStand};
ghost use Rattle.lowering_soundness.specs.Whole.{KeepsRules};
ghost use Rattle.derivation_making.specs.ownership_agreement.Bodies.{body_term, borrowed_parameters, owned_parameters};
ghost use Rattle.derivation_making.specs.ownership_calculus.Functions.{Derived};
ghost use Rattle.separation.specs.code_rules.Breaks.{IsSound};
ghost use Rattle.separation.specs.code_rules.Calls.{CallsAt, SameGroup};
ghost use Rattle.separation.specs.cell_code.Plain.{PlainFunction, PlainCode, function_at};
ghost use Rattle.separation.specs.code_rules.Codes.{is_fip};
ghost use Rattle.separation.specs.code_rules.Endings.{releases};
ghost use Rattle.separation.specs.code_rules.Flow.{IsInstr};
ghost use Rattle.separation.specs.code_rules.Headers.{are_good_maps, are_sizes};
ghost use Rattle.separation.specs.code_rules.Tables.{AreSoundTables};
ghost use Rattle.tail_groups.specs.Members.{FipCallsFip};
ghost use Rattle.tail_groups.specs.Rules.{Violates};
ghost use Rattle.tail_groups.specs.Sites.{instance_sites};
ghost use Rattle.derivation_making.specs.type_check.Typing.{Typed};
ghost use Rattle.derivation_making.specs.type_check.World as W;

/// A code with sound tables is sound where each of its functions has the form that is required, has its numbers in
/// range, breaks no rule at an instruction, and, where it is fip, waits for none of its own group.
pub fn functions_make_a_code_sound()
    ensures theorem { (c : PlainCode) → AreSoundTables c →
        ((n : ℕ) (f : PlainFunction) → function_at c n ≡ Some f → KeepsRules c n f) → IsSound c }
{}

/// A typed instance of which ownership and credits have a derivation: each instruction of its function, reached with
/// whatever kinds, has its registers as required, goes on to kinds that labels take, and where it ends the function
/// nothing that is owned and no credit is left.
pub fn functions_break_no_rule()
    ensures theorem { (c : PlainCode) (f : PlainFunction) (st : Setting) (wd : W.World) (w : R.World) (fip : Bool)
        (d : Instance) → Shares c st wd → Callees c st wd w → FunctionLaid c st fip f d → IsNumbered w d →
        Typed Bool.true wd d → ParamsTyped c d.params → Derived fip
        (borrowed_parameters w 0 d.params d.binders) (owned_parameters w 0 d.params d.binders) d.credits
        (body_term w d) → (i : ℕ) → IsKept c f i }
{}

/// Each call in the function of an instance is one of the instance's own, and waits just where that one isn't
/// in tail position; in fip nothing is dropped or freed. For who goes from a code's calls to its program's.
pub fn calls_come_from_the_body()
    ensures theorem { (c : PlainCode) (st : Setting) (fip : Bool) (f : PlainFunction) (d : Instance) →
        FunctionLaid c st fip f d → (i : ℕ) (x : Instr) → IsInstr f i x → HasOrigin st fip (instance_sites d) x }
{}

/// Where fip instances call fip ones alone, an instruction of a fip function releases no cell.
pub fn fip_functions_release_nothing()
    ensures theorem { (c : PlainCode) (st : Setting) (p : Program) → AreLaid c st p → FipCallsFip p.instances →
        (n : ℕ) (f : PlainFunction) → function_at c n ≡ Some f → is_fip f.kind ≡ Bool.true →
        (i : ℕ) (x : Instr) → IsInstr f i x → releases c x ≡ Bool.false }
{}

/// Where no fip instance calls one of its own group outside tail position, no fip function of the code waits for one of
/// its own group.
pub fn fip_functions_wait_for_no_group_member()
    ensures theorem { (c : PlainCode) (st : Setting) (p : Program) → AreLaid c st p →
        ((v : Violation) → Violates p v → ⊥) → (n : ℕ) (f : PlainFunction) → function_at c n ≡ Some f →
        is_fip f.kind ≡ Bool.true → (i callee : ℕ) → CallsAt c n i callee Bool.true → SameGroup c n callee → ⊥ }
{}

/// The label maps of the function of a typed instance of which ownership and credits have a derivation are formed: each
/// reports of types, constructors and registers that are there, of roots that are owned, and of credits of the sizes of
/// cells. Beside a sound table of types this requires that the instance's body builds constructors of their types, that
/// its header's credits have such sizes, and that the maps are in order and report some constructor of each tree, as
/// maps that are formed do.
pub fn label_maps_are_formed()
    ensures theorem { (c : PlainCode) (f : PlainFunction) (st : Setting) (wd : W.World) (w : R.World) (fip : Bool)
        (d : Instance) → Shares c st wd → Callees c st wd w → AreSoundTables c → FunctionLaid c st fip f d →
        IsNumbered w d → Typed Bool.true wd d → ParamsTyped c d.params → Derived fip
        (borrowed_parameters w 0 d.params d.binders) (owned_parameters w 0 d.params d.binders) d.credits
        (body_term w d) → BuildsBlock c.types d.body → are_sizes d.credits ≡ Bool.true →
        MapsStand f → are_good_maps c.types f 0 f.labels ≡ Bool.true }
    ensures stand { (c : PlainCode) (f : PlainFunction) → are_good_maps c.types f 0 f.labels ≡ Bool.true → MapsStand f }
{}

/// All numbers of the instructions of an instance's function are in range, where its label maps are formed and the
/// constructors of the instance's body are of their types.
pub fn numbers_are_in_range()
    ensures theorem { (c : PlainCode) (st : Setting) (wd : W.World) (fip : Bool) (f : PlainFunction) (d : Instance) →
        Shares c st wd → FunctionLaid c st fip f d → BuildsBlock c.types d.body →
        are_good_maps c.types f 0 f.labels ≡ Bool.true → IsInRange c f }
{}

/// A code with sound tables is sound where each of its functions is that of an instance of a program: typed, derived
/// and within the limits, with label maps that are in order; no fip instance calls one that isn't fip, or one of its
/// own group outside tail position.
pub fn laid_functions_make_a_code_sound()
    ensures theorem { (c : PlainCode) (st : Setting) (p : Program) (wd : W.World) (w : R.World) → AreLaid c st p →
        Shares c st wd → Callees c st wd w → AreSoundTables c → FipCallsFip p.instances →
        ((v : Violation) → Violates p v → ⊥) → ((i : ℕ) (d : Instance) → slice_get p.instances i ≡ Some d →
        has_function d.kind ≡ Bool.true → IsDerived c wd w d) → ((n : ℕ) (f : PlainFunction) (l : IsLaid c st p n f) →
        function_at c n ≡ Some f → IsWithinLimits c f l.instance) → IsSound c }
{}

/// The code of `rev` is laid out as its program requires, and within the limits, and its label maps are formed. For who
/// asks whether the premises are met.
pub fn an_example_code_is_laid()
    ensures laid { AreLaid lists_code lists_setting lists }
    ensures limits { IsWithinLimits lists_code reversing rev }
    ensures formed { are_good_maps lists_code.types reversing 0 reversing.labels ≡ Bool.true }
    ensures builds { BuildsBlock lists.types rev.body }
{}
