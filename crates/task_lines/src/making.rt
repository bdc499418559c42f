// The cells of a task's values and of its function's credits are made.
ghost use Rattle.std.specs.Prelude.{◌≡◌, ◌<◌, ◌≤◌, ◌^◌, ◌++◌, ◌∷◌, ◌*◌, ◌+◌, ℕ, List, [], length};
ghost use Rattle.std.specs.Prelude.{IfOk, OnOk, replicate};
ghost use Rattle.fip_language.specs.declared.limits.TheConstants.{MOST_FIELDS};
ghost use Rattle.fip_language.specs.Store.{Parts};
ghost use Rattle.fip_language.specs.Values.{Values};
ghost use Rattle.value_text.specs.Building.{IsMade};
ghost use Rattle.value_text.specs.Loaded.{AreCredits, types_of};
ghost use Rattle.task_lines.specs.Called.{Called};
ghost use Rattle.session_values.specs.Readable.{IsReadable};
ghost use Rattle.task_lines.specs.Making.{AreCredited, AreValued, IsMadeOf};
ghost use Rattle.task_lines.specs.Reading.{AreAt, IsLineOf};
ghost use Rattle.session_values.specs.Readable.{AreParams};

use crate::task_line::{TaskLine, function_at};
use cell_code::Code;
use cell_store::{CellError, Loader};
use fip_base::plain::{NoMemory, Param, Words};
use fip_base::table::TypeTable;
use fip_language::limits::MOST_FIELDS;
use std::alloc::Global;
use value_text::make_value;

// Makes a cell, and gives its word: twice its place, and 1.
fn push_cell(fields: &[u64], loader: &mut Loader) -> Result<u64, CellError>
    requires some { 0 < length fields.now }
    requires few { length fields.now ≤ MOST_FIELDS }
    ensures made { IfOk result (λ w. (p : ℕ) × (w ≡ 2 * p + 1)
        × IsMade loader.old loader.new p (record { tag = 0; fields = fields.now })) }
{
    match loader.cell(0, fields) {
        Ok(place) => Ok(2 * place as u64 + 1),
        Err(e) => Err(e),
    }
}

// The cell of a credit; its fields are 0.
fn credit(size: u8, loader: &mut Loader) -> Result<u64, NoMemory>
    ensures made { 0 < size → size ≤ MOST_FIELDS → IfOk result (λ w. (p : ℕ) × (w ≡ 2 * p + 1)
        × IsMade loader.old loader.new p (record { tag = 0; fields = replicate size 0 })) }
{
    let zeros = [0; MOST_FIELDS];
    let k = size as usize;
    // Verified code has no credit of another size.
    if k == 0 || k > MOST_FIELDS {
        return Err(NoMemory);
    }
    // The room for it was counted before, so that nothing but memory can be wanting.
    match push_cell(&zeros[..k], loader) {
        Ok(word) => Ok(word),
        Err(_) => Err(NoMemory),
    }
}

// The cells of credits, whose words are put after the others.
fn add_credits(loader: &mut Loader, credits: &[u8], words: &mut Vec<u64>) -> Result<(), NoMemory>
    ensures made { AreCredits credits.now → length loader.old.released ≡ length loader.old.cells → OnOk result
        (AreCredited credits.now loader.old loader.new words.old.items words.new.items) }
{
    for size in credits {
        words.push(credit(*size, loader)?)?;
    }
    Ok(())
}

// The cells of the values that stand at these places, and the values' words.
fn make_values(
    alloc: Global,
    table: &TypeTable,
    params: &[Param],
    bytes: &[u8],
    places: &[usize],
    loader: Loader,
) -> Result<(Loader, Vec<u64>), NoMemory>
    ensures made { AreParams table.now (types_of params.now) → length bytes.now ≤ 2 ^ 63 → (vs : Values) →
        AreAt table.now bytes.now (types_of params.now) places.now vs → IfOk result (λ r. (trees : Parts)
        × AreValued table.now (types_of params.now) loader r.0 vs trees r.1.items) }
{
    let mut loader = loader;
    let mut words = Vec::new(alloc);
    for (param, at) in params.iter().zip(places.iter()) {
        // The value was read before, so that nothing but memory can be wanting.
        let Ok((next, word)) = make_value(alloc, table, param.ty, bytes, *at, loader) else {
            return Err(NoMemory);
        };
        loader = next;
        words.push(word)?;
    }
    Ok((loader, words))
}

impl<'l> TaskLine<'l> {
    /// Makes the cells of its values and of its function's credits, for which the loader has room: the loader, and the
    /// words of the arguments and credits.
    pub fn make(
        &self,
        alloc: Global,
        code: &Code,
        loader: Loader,
    ) -> Result<(Loader, Words), NoMemory>
        requires there { self.now.entry < length code.now.functions.items }
        ensures made { IsReadable code.now → (c : Called) → IsLineOf code.now self.now c → IfOk result (λ r.
            (trees : Parts) × (spares : List ℕ) × IsMadeOf code.now.types c loader r.0 trees spares r.1) }
    {
        let Some(function) = function_at(code, self.entry) else {
            unreachable!()
        };
        let params = function.params.as_slice();
        let places = self.values.as_slice();
        let (loader, words) = make_values(alloc, &code.types, params, self.bytes, places, loader)?;
        let mut loader = loader;
        let mut words = words;
        let _left = loader.left();
        add_credits(&mut loader, function.credits.as_slice(), &mut words)?;
        Ok((loader, Words::new(words)))
    }
}
