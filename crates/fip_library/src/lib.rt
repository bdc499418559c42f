// The library: its four programs as texts, found by name; the typed programs, which are what the phases up to typing make
// of these texts; and the theorems on what their functions give.
#![tactic(auto)]

#[cfg(test)]
mod tests;

ghost use Rattle.std.specs.Prelude.{◌↔◌, ◌≡◌, ℕ, List, IsSome, IfOk, IfSome, MatchResult};
ghost use Rattle.fip_base.specs.CoreView as core_view;
ghost use Rattle.fip_base.specs.declared.refusal.PhaseError.TheVariants.{NoMemory as no_memory};
ghost use Rattle.fip_language.specs.Core.{Core as a_core};
ghost use Rattle.library_sources.specs.Names.{IsTextName};
ghost use Rattle.fip_trees.specs.Tree.{Program as a_program};
ghost use Rattle.fip_trees.specs.TreeView as V;
ghost use Rattle.source_report.specs.Report.{IsParsed, IsFlat, IsTyped};
ghost use Rattle.fip_library.specs.Programs.{IsProgram};

use data_types::declare;
use fip_base::core_form::Core;
use fip_base::plain::NoMemory;
use fip_base::refusal::PhaseError;
use fip_core::core_of::core_of;
use fip_parser::parser::{ParseError, parse};
use fip_trees::program::{Flat, Typed};
pub use library_correctness as theorems;
pub use library_sources::text;
use static_params::specialise;
use std::alloc::Global;
use type_check::check_types;

/// The typed program of a library program; None exactly for a name other than `list`, `tree`, `rbtree` and `finger`.
pub fn typed(alloc: Global, name: &str) -> Result<Option<Typed>, NoMemory>
    ensures named { IfOk result (λ o. IsSome o ↔ IsTextName name.now) }
    ensures program { IfOk result (λ o. IfSome o (λ t. IsProgram name.now (V.program t.program))) }
{
    match text(name) {
        None => Ok(None),
        Some(source) => match typed_of(alloc, source.as_bytes()) {
            Ok(typed) => Ok(Some(typed)),
            Err(PhaseError::NoMemory) => Err(NoMemory),
            // No text of the library is refused.
            Err(PhaseError::Refused(_)) => unreachable!(),
        },
    }
}

// The typed program of a source that has one.
fn typed_of(alloc: Global, source: &[u8]) -> Result<Typed, PhaseError>
    ensures typed { (p : a_program) → IsTyped source.now p →
        MatchResult result (λ t. V.program t.program ≡ p) (λ e. e ≡ no_memory) }
{
    match core_form_of(alloc, source) {
        Ok(core) => match flat_of(alloc, &core) {
            Ok(flat) => check_types(alloc, flat),
            Err(error) => Err(error),
        },
        Err(error) => Err(error),
    }
}

// The core form of a source that is spelled.
fn core_form_of(alloc: Global, source: &[u8]) -> Result<Core, PhaseError>
    ensures core { (c : a_core) → IsParsed source.now c →
        MatchResult result (λ d. core_view.core d ≡ c) (λ e. e ≡ no_memory) }
{
    match parse(alloc, source) {
        Ok(program) => match core_of(alloc, program) {
            Ok(core) => Ok(core),
            Err(NoMemory) => Err(PhaseError::NoMemory),
        },
        Err(ParseError::Refused(refusal)) => Err(PhaseError::Refused(refusal)),
        Err(ParseError::NoMemory) => Err(PhaseError::NoMemory),
    }
}

// The program without static parameters of a source with this core form that has one.
fn flat_of(alloc: Global, core: &Core) -> Result<Flat, PhaseError>
    ensures flat { (source : List ℕ) (p : a_program) → IsFlat source p → IsParsed source (core_view.core core.now) →
        MatchResult result (λ f. V.program f ≡ p) (λ e. e ≡ no_memory) }
{
    match declare(alloc, core) {
        Err(error) => Err(error),
        Ok(declared) => specialise(alloc, &declared),
    }
}
