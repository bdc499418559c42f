// The texts of commands that succeed.
ghost use Rattle.std.specs.Prelude.{◌≡◌, ◌++◌, IfOk, OnOk, string_bytes};
ghost use Rattle.command_outcome.specs.Successes.{kind_name, credit_text, credits_text, held_text, function_text};
ghost use Rattle.command_outcome.specs.Successes.{derived_text, end_text, tree_text};

use fip_base::plain::{FunKind, NoMemory, Stack};
use std::alloc::{AllocError, Global};

// The word of a kind.
fn kind_name(kind: FunKind) -> &'static str
    ensures name { result.now ≡ kind_name kind }
{
    match kind {
        FunKind::Fip => "fip",
        FunKind::Fbip => "fbip",
        FunKind::Fun => "fun",
    }
}

// The mark of a credit.
fn put_credit(alloc: Global, text: &mut Vec<u8>, size: u8) -> Result<(), NoMemory>
    ensures mark { OnOk result (text.new.items ≡ text.old.items ++ credit_text size) }
{
    let mark = format!(in alloc; " +{size}")?;
    text.extend_from_slice(mark.as_bytes())?;
    Ok(())
}

// The marks of a header's credits.
fn put_credits(alloc: Global, text: &mut Vec<u8>, credits: &[u8]) -> Result<(), NoMemory>
    ensures marks { OnOk result (text.new.items ≡ text.old.items ++ credits_text credits.now) }
{
    for size in credits {
        put_credit(alloc, text, *size)?;
    }
    Ok(())
}

// What a run holds of the stack at the most, where that is known.
fn put_stack(alloc: Global, text: &mut Vec<u8>, stack: Option<Stack>) -> Result<(), NoMemory>
    ensures held { OnOk result (text.new.items ≡ text.old.items ++ held_text stack) }
{
    if let Some(stack) = stack {
        let frames = stack.frames;
        let words = stack.words;
        let held = format!(in alloc; " stack {frames} frames {words} words")?;
        text.extend_from_slice(held.as_bytes())?;
    }
    Ok(())
}

/// Puts the line of a function after a text: its name, its kind, the sizes of its header's credits, and what a run
/// of it holds of the stack at the most, where that is known.
pub fn put_function(
    alloc: Global,
    text: &mut Vec<u8>,
    name: &[u8],
    kind: FunKind,
    credits: &[u8],
    stack: Option<Stack>,
) -> Result<(), NoMemory>
    ensures line { OnOk result (text.new.items ≡ text.old.items ++ function_text name.now kind credits.now stack) }
{
    text.extend_from_slice(name)?;
    text.push(b' ')?;
    text.extend_from_slice(kind_name(kind).as_bytes())?;
    put_credits(alloc, text, credits)?;
    put_stack(alloc, text, stack)?;
    text.push(b'\n')?;
    Ok(())
}

/// The line that a derivation of a program was made, or accepted.
pub fn derived_line() -> &'static str
    ensures text { result.now ≡ derived_text }
{
    "derived\n"
}

/// The least and the greatest key of a tree.
#[derive(Clone, Copy, PartialEq, Eq)]
pub struct Ends {
    pub least: i64,
    pub greatest: i64,
}

/// The four lines of a tree that was made of so many keys: how many nodes it has, its least and its greatest key,
/// none where it has no node.
pub fn tree_lines(
    alloc: Global,
    keys: u64,
    nodes: u64,
    ends: Option<Ends>,
) -> Result<String, AllocError>
    ensures text { IfOk result (λ s. string_bytes s ≡ tree_text keys nodes ends) }
{
    match ends {
        None => format!(in alloc; "keys {keys}\nnodes {nodes}\nleast none\ngreatest none\n"),
        Some(ends) => {
            let least = ends.least;
            let greatest = ends.greatest;
            format!(in alloc; "keys {keys}\nnodes {nodes}\nleast {least}\ngreatest {greatest}\n")
        }
    }
}
