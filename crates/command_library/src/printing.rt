// The texts of the library.
ghost use Rattle.std.specs.Prelude.{◌≡◌, ◌⊎◌, IfOk, IfErr};
ghost use Rattle.library_sources.specs.Names.{IsTextName};
ghost use Rattle.library_sources.specs.Texts.{IsText};
ghost use Rattle.command_outcome.specs.declared.failure.Failure.TheVariants.{NotUnderstood, NoMemory as no_memory};

use command_outcome::Failure;
use library_sources::text;
use std::alloc::Global;

/// The text of a library program; not understood where the library has none of that name.
pub fn library(alloc: Global, name: &str) -> Result<Vec<u8>, Failure>
    ensures text { IfOk result (λ v. IsText name.now v.items) }
    ensures none { IfErr result (λ f. (f ≡ no_memory) ⊎ ((f ≡ NotUnderstood) × (IsTextName name.now → ⊥))) }
{
    match text(name) {
        Some(text) => Ok(Vec::from_slice(alloc, text.as_bytes())?),
        None => Err(Failure::NotUnderstood),
    }
}
