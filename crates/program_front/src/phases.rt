// The phases, one after another.
ghost use Rattle.std.specs.Prelude.{◌≡◌, ℕ, List, map, IfOk, IfErr};
ghost use Rattle.fip_language.specs.declared.rule.Rule.TheVariants.{E05};
ghost use Rattle.fip_base.specs.CoreView as core_view;
ghost use Rattle.fip_trees.specs.SoundProgram.{IsSoundProgram};
ghost use Rattle.fip_trees.specs.TreeView as V;
ghost use Rattle.cell_lower.specs.Shape.{header, headers};
ghost use Rattle.cell_lower.specs.LaidProgram.{IsAsked, IsLaidOut};
ghost use Rattle.cell_lower.specs.Sizes.{AreSmall};
ghost use Rattle.credit_check.specs.Tallies.{all_needs};
ghost use Rattle.cell_lower.specs.lowering_relation.LoweredFunctions.{AreLowered};
ghost use Rattle.cell_lower.specs.lower_frame.Spelled.{AreSpelt};
ghost use Rattle.cell_code.specs.Plain.{plain, all_instrs};
ghost use Rattle.tail_groups.specs.Members.{AreMembers};
ghost use Rattle.source_report.specs.Report.{bare, IsParsed, IsFlat, IsMatched, IsAccepted, Says};
ghost use Rattle.program_front.specs.Unmatched.{IsUnmatched};

use cell_code::Code;
use cell_lower::lower;
use credit_check::check_credits;
use data_types::declare;
use fip_base::core_form::Core;
use fip_base::plain::{Detail, NoMemory};
use fip_base::refusal::{PhaseError, Refusal, Rule};
use fip_core::core_of::core_of;
use fip_language::limits::MOST_SOURCE_BYTES;
use fip_parser::parser::{ParseError, parse};
use fip_rules::check_owned;
use fip_trees::groups::Groups;
use fip_trees::needs::Needs;
use fip_trees::program::{Flat, Typed};
use match_cover::cover;
use static_params::specialise;
use std::alloc::Global;
use tail_groups::groups;
use type_check::check_types;

/// A source that breaks no rule: its program, what its expressions need, its call groups, and its code.
#[derive(Drop)]
pub struct Lowered {
    pub typed: Typed,
    pub needs: Needs,
    pub groups: Groups,
    pub code: Code,
}

/// What is known of a source that breaks no rule; else its report. Beyond what `typed_of` refuses: E50 to E55 on
/// ownership, E56 to E58 and E62 on credits, E59 on tail calls, E60 on the limits of code. NoMemory: no memory is left.
pub fn front(alloc: Global, source: &[u8]) -> Result<Lowered, PhaseError>
    ensures accepted { IfOk result (λ l. IsAccepted source.now (V.program l.typed.program)) }
    ensures needs { IfOk result (λ l. l.needs ≡
        all_needs (V.program l.typed.program) (V.program l.typed.program).instances) }
    ensures groups { IfOk result (λ l. AreMembers (V.program l.typed.program).instances l.groups) }
    ensures types { IfOk result (λ l. l.code.types ≡ (V.program l.typed.program).types) }
    ensures functions { IfOk result (λ l.
        map header l.code.functions.items ≡ headers l.groups (V.program l.typed.program).instances) }
    ensures lowered { IfOk result (λ l. AreLowered (V.program l.typed.program) (all_instrs (plain l.code))) }
    ensures bounded { IfOk result (λ l. AreSmall (V.program l.typed.program) l.groups l.code.functions.items) }
    ensures spelt { IfOk result (λ l. AreSpelt l.code.functions.items) }
    ensures laid { IfOk result (λ l. IsAsked (V.program l.typed.program) l.needs →
        IsLaidOut (V.program l.typed.program) (plain l.code)) }
    ensures reported { IfErr result (λ e. Says source.now e) }
{
    match typed_of(alloc, source) {
        Err(error) => Err(error),
        Ok(typed) => lowered_of(alloc, typed),
    }
}

/// The program of a source whose types and matches are right; else the source's report. E05 where the source is too
/// long, E01 to E04 where it is no program, E10 to E15 and E63 on declarations, E20 to E23 with E11 and E12 on static
/// arguments, E30 to E34 on types, E40 to E43 on matches. NoMemory: no memory is left.
pub fn typed_of(alloc: Global, source: &[u8]) -> Result<Typed, PhaseError>
    ensures typed { IfOk result (λ t. IsMatched source.now (V.program t.program)) }
    ensures sound { IfOk result (λ t. IsSoundProgram (V.program t.program)) }
    ensures reported { IfErr result (λ e. Says source.now e) }
    ensures unmatched { IfErr result (λ e. IsUnmatched source.now e) }
{
    match flat_program_of(alloc, source) {
        Err(error) => Err(error),
        Ok(flat) => matched_of(alloc, flat),
    }
}

// The program without static parameters of a source. The core form is given back here, before types are checked.
fn flat_program_of(alloc: Global, source: &[u8]) -> Result<Flat, PhaseError>
    ensures flat { IfOk result (λ f. IsFlat source.now (V.program f)) }
    ensures reported { IfErr result (λ e. Says source.now e) }
    ensures unmatched { IfErr result (λ e. IsUnmatched source.now e) }
{
    match core_form_of(alloc, source) {
        Err(error) => Err(error),
        Ok(core) => flat_of(alloc, &core),
    }
}

// The core form of a source.
fn core_form_of(alloc: Global, source: &[u8]) -> Result<Core, PhaseError>
    ensures parsed { IfOk result (λ c. IsParsed source.now (core_view.core c)) }
    ensures reported { IfErr result (λ e. Says source.now e) }
    ensures unmatched { IfErr result (λ e. IsUnmatched source.now e) }
{
    if source.len() > MOST_SOURCE_BYTES {
        return Err(PhaseError::Refused(too_long(alloc)));
    }
    match parse(alloc, source) {
        Ok(program) => match core_of(alloc, program) {
            Ok(core) => Ok(core),
            Err(NoMemory) => Err(PhaseError::NoMemory),
        },
        Err(ParseError::Refused(refusal)) => Err(PhaseError::Refused(refusal)),
        Err(ParseError::NoMemory) => Err(PhaseError::NoMemory),
    }
}

// E05.
fn too_long(alloc: Global) -> Refusal
    ensures bare { result ≡ bare E05 }
{
    Refusal {
        rule: Rule::E05,
        place: None,
        size: 0,
        detail: Detail::new(Vec::new(alloc)),
    }
}

// The program without static parameters of a source with this core form.
fn flat_of(alloc: Global, core: &Core) -> Result<Flat, PhaseError>
    ensures flat { (source : List ℕ) → IsParsed source (core_view.core core.now) →
        IfOk result (λ f. IsFlat source (V.program f)) }
    ensures reported { (source : List ℕ) → IsParsed source (core_view.core core.now) →
        IfErr result (λ e. Says source e) }
    ensures unmatched { (source : List ℕ) → IsParsed source (core_view.core core.now) →
        IfErr result (λ e. IsUnmatched source e) }
{
    match declare(alloc, core) {
        Err(error) => Err(error),
        Ok(declared) => specialise(alloc, &declared),
    }
}

// The typed program of a source with this program without static parameters.
fn matched_of(alloc: Global, flat: Flat) -> Result<Typed, PhaseError>
    ensures typed { (source : List ℕ) → IsFlat source (V.program flat) →
        IfOk result (λ t. IsMatched source (V.program t.program)) }
    ensures sound { IfOk result (λ t. IsSoundProgram (V.program t.program)) }
    ensures reported { (source : List ℕ) → IsFlat source (V.program flat) →
        IfErr result (λ e. Says source e) }
    ensures unmatched { (source : List ℕ) → IsFlat source (V.program flat) →
        IfErr result (λ e. IsUnmatched source e) }
{
    match check_types(alloc, flat) {
        Err(error) => Err(error),
        Ok(typed) => match cover(alloc, &typed) {
            Err(error) => Err(error),
            Ok(()) => Ok(typed),
        },
    }
}

// The groups and the code of a source with this typed program.
fn lowered_of(alloc: Global, typed: Typed) -> Result<Lowered, PhaseError>
    ensures accepted { (source : List ℕ) → IsMatched source (V.program typed.program) →
        IfOk result (λ l. IsAccepted source (V.program l.typed.program)) }
    ensures needs { IfOk result (λ l. l.needs ≡
        all_needs (V.program l.typed.program) (V.program l.typed.program).instances) }
    ensures groups { IfOk result (λ l. AreMembers (V.program l.typed.program).instances l.groups) }
    ensures types { IfOk result (λ l. l.code.types ≡ (V.program l.typed.program).types) }
    ensures functions { IfOk result (λ l.
        map header l.code.functions.items ≡ headers l.groups (V.program l.typed.program).instances) }
    ensures lowered { (source : List ℕ) → IsMatched source (V.program typed.program) →
        IfOk result (λ l. AreLowered (V.program l.typed.program) (all_instrs (plain l.code))) }
    ensures bounded { (source : List ℕ) → IsMatched source (V.program typed.program) →
        IfOk result (λ l. AreSmall (V.program l.typed.program) l.groups l.code.functions.items) }
    ensures spelt { IfOk result (λ l. AreSpelt l.code.functions.items) }
    ensures laid { (source : List ℕ) → IsMatched source (V.program typed.program) →
        IfOk result (λ l. IsAsked (V.program l.typed.program) l.needs →
        IsLaidOut (V.program l.typed.program) (plain l.code)) }
    ensures reported { (source : List ℕ) → IsMatched source (V.program typed.program) →
        IfErr result (λ e. Says source e) }
{
    match check_owned(alloc, &typed) {
        Err(error) => Err(error),
        Ok(()) => match check_credits(alloc, &typed) {
            Err(error) => Err(error),
            Ok(needs) => match groups(alloc, &typed) {
                Err(error) => Err(error),
                Ok(groups) => match lower(alloc, &typed, &needs, &groups) {
                    Err(error) => Err(error),
                    Ok(code) => Ok(Lowered {
                        typed,
                        needs,
                        groups,
                        code,
                    }),
                },
            },
        },
    }
}
