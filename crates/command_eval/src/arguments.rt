// The arguments of an evaluation, as rows.
ghost use Rattle.std.specs.Prelude.{◌≡◌, ◌≤◌, length, IfOk, IfErr};
ghost use Rattle.fip_language.specs.declared.limits.TheConstants.{MOST_FILE_BYTES};
ghost use Rattle.fip_language.specs.SoundTable.{AreTypes, IsSoundTable};
ghost use Rattle.fip_language.specs.Store.{Parts, values_of, words_of};
ghost use Rattle.fip_language.specs.Values.{Values};
ghost use Rattle.fip_language.specs.ValueText.{SpellsValues};
ghost use Rattle.value_text.specs.Loaded.{types_of};
ghost use Rattle.value_text.specs.Standing.{StandAll};
ghost use Rattle.plain_rows.specs.Rows.{AreRows};
ghost use Rattle.command_outcome.specs.Stages.{IsOfRun};
ghost use Rattle.command_eval.specs.Arguments.{IsNoText};

use cell_store::{Loader, seal};
use command_outcome::Failure;
use fip_base::plain::{NoMemory, Param};
use fip_base::table::TypeTable;
use fip_language::limits::MOST_STORE_WORDS;
use plain_rows::Rows;
use std::alloc::Global;
use value_text::{LoadError, load_values};

// The rows of the values that these words stand for.
fn rows_of(
    alloc: Global,
    types: &TypeTable,
    params: &[Param],
    loader: Loader,
    words: &[u64],
) -> Result<Rows, NoMemory>
    ensures stand { (trees : Parts) → StandAll types.now loader.cells (types_of params.now) trees →
        words.now ≡ words_of trees → IfOk result (λ rows. AreRows rows (values_of trees)) }
{
    prove!(loader.left() <= MOST_STORE_WORDS);
    Rows::of(alloc, types, &seal(loader), params, words)
}

/// The values that the bytes encode, a line for each parameter. A bad input where the bytes are no text of the
/// parameters' types. The store has 16,777,216 words; only bytes that are more may be too many for it.
pub fn arguments(
    alloc: Global,
    types: &TypeTable,
    params: &[Param],
    input: &[u8],
) -> Result<Rows, Failure>
    ensures rows { IsSoundTable types.now → AreTypes types.now (types_of params.now) →
        length input.now ≤ MOST_FILE_BYTES → IfOk result (λ rows. (vs : Values)
        × SpellsValues types.now (types_of params.now) input.now vs × AreRows rows vs) }
    ensures none { IsSoundTable types.now → AreTypes types.now (types_of params.now) →
        length input.now ≤ MOST_FILE_BYTES → IfErr result (IsNoText types.now (types_of params.now) input.now) }
    ensures stage { IfErr result IsOfRun }
{
    let loader = Loader::new(alloc, MOST_STORE_WORDS);
    match load_values(alloc, types, params, &[], input, loader) {
        Ok((loader, words)) => match rows_of(alloc, types, params, loader, words.as_slice()) {
            Ok(rows) => Ok(rows),
            Err(NoMemory) => Err(Failure::NoMemory),
        },
        Err(LoadError::BadValue { at, .. }) => Err(Failure::BadInput { at }),
        Err(LoadError::Full { needed, words, .. }) => Err(Failure::TooSmall {
            needed,
            given: words,
        }),
        Err(LoadError::NoMemory) => Err(Failure::NoMemory),
    }
}
