// The code of a program.
ghost use Rattle.std.specs.Prelude.{◌≡◌, ◌≤◌, ℕ, true, [], ◌∷◌, ◌++◌, length, map, IfOk, IfErr, OnOk, Ok, slice_get};
ghost use Rattle.fip_base.specs.declared.refusal.PhaseError.TheVariants as PhaseError;
ghost use Rattle.fip_language.specs.declared.limits.TheConstants.{MOST_INSTANCES, MOST_REGISTERS};
ghost use Rattle.fip_trees.specs.NeedsView.{needs_of};
ghost use Rattle.fip_trees.specs.SoundProgram.{IsSoundProgram};
ghost use Rattle.fip_trees.specs.TreeView as V;
ghost use Rattle.fip_trees.specs.declared.least.Violation.{Violation};
ghost use Rattle.cell_lower.specs.Instances.{HaveEach, AddsEach};
ghost use Rattle.cell_lower.specs.LaidProgram.{IsAsked, IsLaidOf, IsLaidOut, laid_at};
ghost use Rattle.cell_lower.specs.LimitNotes.{HaveFewRegisters};
ghost use Rattle.cell_lower.specs.Limits.{Breaks, Says, is_ruled, registers};
ghost use Rattle.cell_lower.specs.Shape.{header, header_of, headers, headers_from, entry_name};
ghost use Rattle.lower_parts.specs.lowering_relation.LoweredBodies.{function_of};
ghost use Rattle.lower_parts.specs.lowering_relation.LoweredFunctions.{AreLowered};
ghost use Rattle.lower_parts.specs.lowering_relation.Known.{joined};
ghost use Rattle.lower_parts.specs.lowering_relation.WellMatched.{IsWellMatched};
ghost use Rattle.cell_lower.specs.Lowered.{AddsCode, HaveCodes, IsCodeOf, function_instrs};
ghost use Rattle.cell_lower.specs.Sizes.{AreSmall};
ghost use Rattle.cell_lower.specs.Small.{AddsSmall, HaveSmall, IsSmallOf};
ghost use Rattle.lower_parts.specs.Writing.{setting};
ghost use Rattle.cell_code.specs.Plain.{plain, all_instrs};
ghost use Rattle.lower_parts.specs.lower_frame.Spelled.{AreSpelt, IsFunctionSpelt};

use crate::copies::table_of;
use crate::limits::note_limits;
use crate::lowerer::Lowerer;
use cell_code::{Code, CodeKind, Function};
use fip_base::plain::{Name, NoMemory};
use fip_base::refusal::PhaseError;
use fip_trees::groups::Groups;
use fip_trees::needs::Needs;
use fip_trees::program::{Instance, Program, Typed};
use fip_trees::scalars::Scalars;
use lower_parts::context::{Context, Target};
use std::alloc::Global;

/// The code of a program: its types, and a function for each instance that isn't plain, in the order of their numbers,
/// with the instance's kind, parameters, credits and results, and as many registers as the groups tell. The program is
/// asked to have kept all rules up to E59, and `needs` and `groups` to be its own. Each function is as small as the
/// places and registers of its instance tell, and its instructions and label maps have a text in a code file. They are
/// laid out as the instance asks, where the program is as the proof of soundness asks.
///
/// Refused exactly where E60 is broken, for the least violation by place and instance: an instance that isn't plain has
/// more than 4,096 registers, or has a match and a parameter, a binder or a pattern node of a type with cells that has
/// more than 65,535 constructors. NoMemory: no memory is left.
pub fn lower(
    alloc: Global,
    typed: &Typed,
    needs: &Needs,
    groups: &Groups,
) -> Result<Code, PhaseError>
    ensures within { IfOk result (λ _. (v : Violation) → Breaks (V.program typed.now.program) groups.now v → ⊥) }
    ensures least { IfErr result (λ e. Says (V.program typed.now.program) groups.now e) }
    ensures types { IfOk result (λ c. c.types ≡ (V.program typed.now.program).types) }
    ensures functions { IfOk result (λ c.
        map header c.functions.items ≡ headers groups.now (V.program typed.now.program).instances) }
    ensures lowered { IfOk result (λ c. IsWellMatched (V.program typed.now.program) →
        AreLowered (V.program typed.now.program) (all_instrs (plain c))) }
    ensures bounded { IfOk result (λ c. IsWellMatched (V.program typed.now.program) →
        AreSmall (V.program typed.now.program) groups.now c.functions.items) }
    ensures spelt { IfOk result (λ c. AreSpelt c.functions.items) }
    ensures laid { IfOk result (λ c. IsWellMatched (V.program typed.now.program) →
        IsAsked (V.program typed.now.program) needs.now → IsLaidOut (V.program typed.now.program) (plain c)) }
{
    match note_limits(alloc, &typed.program, groups) {
        Err(NoMemory) => Err(PhaseError::NoMemory),
        Ok(least) => match least.into_refusal() {
            None => in_phase(code_of(alloc, &typed.program, needs, groups)),
            Some(refusal) => Err(PhaseError::Refused(refusal)),
        },
    }
}

// What was made, or want of memory as the phase's error.
fn in_phase(made: Result<Code, NoMemory>) -> Result<Code, PhaseError>
    ensures memory { IfErr result (λ e. e ≡ PhaseError.NoMemory) }
    ensures made { IfOk result (λ c. made ≡ Ok c) }
{
    match made {
        Err(NoMemory) => Err(PhaseError::NoMemory),
        Ok(code) => Ok(code),
    }
}

// The code of a sound program that keeps E60.
fn code_of(
    alloc: Global,
    program: &Program,
    needs: &Needs,
    groups: &Groups,
) -> Result<Code, NoMemory>
    requires few { length program.now.instances.items ≤ MOST_INSTANCES }
    requires few_types { length program.now.types ≤ MOST_INSTANCES }
    requires sound { ∥ IsSoundProgram (V.program program.now) ∥₁ }
    requires within { (v : Violation) → Breaks (V.program program.now) groups.now v → ⊥ }
    ensures types { IfOk result (λ c. c.types ≡ (V.program program.now).types) }
    ensures functions { IfOk result (λ c.
        map header c.functions.items ≡ headers groups.now (V.program program.now).instances) }
    ensures lowered { IfOk result (λ c. IsWellMatched (V.program program.now) →
        AreLowered (V.program program.now) (all_instrs (plain c))) }
    ensures bounded { IfOk result (λ c. IsWellMatched (V.program program.now) →
        AreSmall (V.program program.now) groups.now c.functions.items) }
    ensures spelt { IfOk result (λ c. AreSpelt c.functions.items) }
    ensures laid { IfOk result (λ c. IsWellMatched (V.program program.now) →
        IsAsked (V.program program.now) needs.now → IsLaidOut (V.program program.now) (plain c)) }
{
    let context = Context {
        alloc,
        program,
        scalars: Scalars::of(alloc, &program.types)?,
        functions: numbers_of(alloc, program)?,
    };
    let functions = functions_of(&context, program.instances.as_slice(), needs, groups)?;
    Ok(Code {
        types: table_of(alloc, &program.types)?,
        functions,
    })
}

// The functions of a program's instances.
#[tactic(auto, using(crate::proofs::Headers::heading, crate::proofs::Headers::functions))]
fn functions_of(
    context: &Context<'_>,
    instances: &[Instance],
    needs: &Needs,
    groups: &Groups,
) -> Result<Vec<Function>, NoMemory>
    requires few { HaveFewRegisters groups.now (V.instances instances.now) }
    ensures all { IfOk result (λ fs. map header fs.items ≡ headers groups.now (V.instances instances.now)) }
    ensures codes { IfOk result (λ fs. HaveCodes (setting context.now) (V.instances instances.now) 0
        (map function_instrs fs.items)) }
    ensures small { IfOk result (λ fs. HaveSmall (setting context.now) groups.now (V.instances instances.now) 0 0
        fs.items) }
    ensures laid { IfOk result (λ fs. HaveEach (laid_at (setting context.now) needs.now) (V.instances instances.now)
        0 0 fs.items) }
    ensures spelt { IfOk result (λ fs. AreSpelt fs.items) }
{
    let mut functions = Vec::new(context.alloc);
    let mut number = 0;
    for instance in instances {
        add_function(context, &mut functions, instance, needs, groups, number)?;
        number += 1;
    }
    Ok(functions)
}

// Puts the function of an instance after the others, where it isn't plain.
#[tactic(auto, using(crate::proofs::Headers::heading))]
fn add_function(
    context: &Context<'_>,
    functions: &mut Vec<Function>,
    instance: &Instance,
    needs: &Needs,
    groups: &Groups,
    number: usize,
) -> Result<(), NoMemory>
    requires few { is_ruled instance.now.kind ≡ true → registers groups.now number ≤ MOST_REGISTERS }
    ensures added { OnOk result (map header functions.new.items ≡ map header functions.old.items
        ++ headers_from groups.now number (V.instance_of instance.now ∷ [])) }
    ensures code { OnOk result (AddsCode (setting context.now) (is_ruled instance.now.kind)
        (V.instance_of instance.now) (map function_instrs functions.old.items)
        (map function_instrs functions.new.items)) }
    ensures small { OnOk result (AddsSmall (setting context.now) groups.now number (is_ruled instance.now.kind)
        (V.instance_of instance.now) functions.old.items functions.new.items) }
    ensures laid { OnOk result (AddsEach (laid_at (setting context.now) needs.now) number
        (is_ruled instance.now.kind) (V.instance_of instance.now) functions.old.items functions.new.items) }
    ensures spelt { OnOk result (AreSpelt functions.old.items → AreSpelt functions.new.items) }
{
    if instance.kind.is_ruled() {
        let registers = groups.registers_of(number).ok_or(NoMemory)?;
        let function = function_of(context, instance, needs, number, registers)?;
        functions.push(function)?;
    }
    Ok(())
}

// The number of each instance's function; a plain one has none.
fn numbers_of(alloc: Global, program: &Program) -> Result<Vec<Option<u32>>, NoMemory>
    requires few { length program.now.instances.items ≤ MOST_INSTANCES }
    ensures numbered { IfOk result (λ ns. (g : ℕ) →
        joined (slice_get ns.items g) ≡ function_of (V.program program.now).instances g) }
{
    let mut numbers = Vec::new(alloc);
    let mut next: u32 = 0;
    for instance in &program.instances {
        if instance.kind.is_ruled() {
            numbers.push(Some(next))?;
            next += 1;
        } else {
            numbers.push(None)?;
        }
    }
    Ok(numbers)
}

fn function_of(
    context: &Context<'_>,
    instance: &Instance,
    needs: &Needs,
    number: usize,
    registers: usize,
) -> Result<Function, NoMemory>
    requires few { registers ≤ MOST_REGISTERS }
    ensures header { IfOk result (λ f. header f ≡ header_of registers (V.instance_of instance.now)) }
    ensures code { IfOk result (λ f. IsCodeOf (setting context.now) (V.instance_of instance.now) f.instrs.items) }
    ensures small { IfOk result (λ f. IsSmallOf (setting context.now) registers (V.instance_of instance.now) f) }
    ensures laid { IfOk result (λ f. IsLaidOf (setting context.now) (needs_of needs.now number)
        (V.instance_of instance.now) f) }
    ensures spelt { IfOk result (λ f. IsFunctionSpelt f) }
{
    let alloc = context.alloc;
    let mut lowerer = Lowerer::new(context, needs.of(number), instance, registers)?;
    lowerer.block(&instance.body, Target::Return)?;
    let (instrs, labels) = lowerer.buffer.into_parts()?;
    let mut credits = Vec::new(alloc);
    credits.extend_from_slice(instance.credits.as_slice())?;
    Ok(Function {
        kind: CodeKind::of(instance.kind),
        name: name_of(alloc, instance)?,
        params: instance.params.copy(alloc)?,
        credits,
        results: instance.results.copy(alloc)?,
        registers: registers as u16,
        instrs,
        labels,
    })
}

// The name by which an instance is an entry.
fn name_of(alloc: Global, instance: &Instance) -> Result<Name, NoMemory>
    ensures name { IfOk result (λ n. n ≡ entry_name (V.instance_of instance.now)) }
{
    if instance.root {
        Ok(instance.name.copy(alloc)?)
    } else {
        Ok(Name::new(Vec::new(alloc)))
    }
}
