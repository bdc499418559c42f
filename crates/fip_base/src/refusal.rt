// Refusals, and their text.
ghost use Rattle.std.specs.Prelude.{◌≡◌, ◌++◌, IfOk, OnOk};
ghost use Rattle.fip_base.specs.Refusal.{refusal_text, place_text, size_text, detail_text};

use crate::plain::{Detail, NoMemory, Place};
pub use fip_language::Rule;
use std::alloc::Global;
use thiserror::Error;

/// A rule that is broken: where it has a place the place, the size of the cells that it speaks of (0 where it speaks of
/// none), and what it names.
#[derive(Debug, Drop)]
pub struct Refusal {
    pub rule: Rule,
    pub place: Option<Place>,
    pub size: u8,
    pub detail: Detail,
}

/// Why a phase of the compiler gives nothing: the source is refused, or no memory is left.
#[derive(Debug, Drop, Error)]
pub enum PhaseError {
    #[error("the source is refused")]
    Refused(Refusal),
    #[error("no memory is left")]
    NoMemory,
}

/// The text of a refusal, such as `E57 at 3:25 size 2` or `E20 at 1:5: name`, with its line's end. An error where no
/// memory is left.
pub fn refusal_text(alloc: Global, refusal: &Refusal) -> Result<Vec<u8>, NoMemory>
    ensures text { IfOk result (λ v. v.items ≡ refusal_text refusal.now) }
{
    let mut text = Vec::new(alloc);
    text.extend_from_slice(refusal.rule.as_str().as_bytes())?;
    put_place(alloc, &mut text, refusal.place)?;
    put_size(alloc, &mut text, refusal.size)?;
    put_detail(&mut text, refusal.detail.as_slice())?;
    text.push(b'\n')?;
    Ok(text)
}

// Where it is.
fn put_place(alloc: Global, text: &mut Vec<u8>, place: Option<Place>) -> Result<(), NoMemory>
    ensures { OnOk result (text.new.items ≡ text.old.items ++ place_text place) }
{
    if let Some(p) = place {
        let line = p.line;
        let col = p.col;
        let part = format!(in alloc; " at {line}:{col}")?;
        text.extend_from_slice(part.as_bytes())?;
    }
    Ok(())
}

// Which cells it speaks of.
fn put_size(alloc: Global, text: &mut Vec<u8>, size: u8) -> Result<(), NoMemory>
    ensures { OnOk result (text.new.items ≡ text.old.items ++ size_text size) }
{
    if size != 0 {
        let part = format!(in alloc; " size {size}")?;
        text.extend_from_slice(part.as_bytes())?;
    }
    Ok(())
}

// What it names.
fn put_detail(text: &mut Vec<u8>, detail: &[u8]) -> Result<(), NoMemory>
    ensures { OnOk result (text.new.items ≡ text.old.items ++ detail_text detail.now) }
{
    if !detail.is_empty() {
        text.extend_from_slice(b": ")?;
        text.extend_from_slice(detail)?;
    }
    Ok(())
}
