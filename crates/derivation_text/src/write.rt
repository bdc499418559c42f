// Derivations written as text. The nodes of a line are in a list; for each open node the number of its parts that are
// still to come is kept, so that no call nests for nodes that do.
ghost use Rattle.std.specs.Prelude.{◌≡◌, List, [], ◌∷◌, ◌++◌, IfOk, OnOk};
ghost use Rattle.std.specs.Fmt.{decimal};
ghost use Rattle.derivation_trees.specs.Trees.{Head, head, heads, entry, entries};
ghost use Rattle.derivation_text.specs.ProofText.{more_variables, variables_text, credit_text, more_credits, credits_text};
ghost use Rattle.derivation_trees.specs.WholeTrees.{IsTree, AreTrees};
ghost use Rattle.derivation_text.specs.ProofText.{line_text, lines_text};
ghost use Rattle.derivation_text.specs.Writing.{head_text, ends_text, after_ends, nodes_text, turned};

use crate::rules::rule_text;
use derivation_trees::{Credit, Derivation, Line, Node};
use fip_base::plain::NoMemory;
use itoa::Buffer;
use std::alloc::Global;

/// The text of a derivation; an error where no memory is left.
#[tactic(auto, using(crate::proofs::Writers::line_next, crate::proofs::Writers::lines_done))]
pub fn write_derivation(alloc: Global, derivation: &Derivation) -> Result<Vec<u8>, NoMemory>
    // It is the text of the derivation, where each line's nodes are those of a tree.
    ensures text { AreTrees derivation.now.lines.items →
        IfOk result (λ bytes. bytes.items ≡ lines_text (entries derivation.now)) }
{
    let mut text = Vec::new(alloc);
    for line in derivation.lines() {
        write_line(alloc, &mut text, line)?;
    }
    Ok(text)
}

/// The text of a line is put after a text.
#[tactic(auto, using(crate::proofs::Writers::line_written))]
pub fn write_line(alloc: Global, text: &mut Vec<u8>, line: &Line) -> Result<(), NoMemory>
    ensures text { IsTree line.now →
        OnOk result (text.new.items ≡ text.old.items ++ line_text (entry line.now) []) }
{
    write_number(text, line.instance() as u64)?;
    text.push(b' ')?;
    write_nodes(alloc, text, line.nodes())?;
    text.push(b'\n')?;
    Ok(())
}

fn write_number(text: &mut Vec<u8>, number: u64) -> Result<(), NoMemory>
    ensures { OnOk result (text.new.items ≡ text.old.items ++ decimal number) }
{
    let mut buffer = Buffer::new();
    text.extend_from_slice(buffer.format(number).as_bytes())?;
    Ok(())
}

// The nodes of a tree.
#[tactic(auto, using(crate::proofs::Writers::node_next, crate::proofs::Writers::nodes_begun))]
fn write_nodes(alloc: Global, text: &mut Vec<u8>, nodes: &[Node]) -> Result<(), NoMemory>
    ensures { OnOk result (text.new.items ≡ text.old.items ++ nodes_text [] (heads nodes.now)) }
{
    let mut open = Vec::new(alloc);
    for node in nodes {
        write_node(text, node, &mut open)?;
    }
    Ok(())
}

// A node, and what is after it.
#[tactic(auto, using(crate::proofs::Writers::node_open, crate::proofs::Writers::node_leaf))]
fn write_node(text: &mut Vec<u8>, node: &Node, open: &mut Vec<usize>) -> Result<(), NoMemory>
    ensures { OnOk result ((hs : List Head) → text.new.items ++ nodes_text (turned open.new.items) hs ≡
        text.old.items ++ nodes_text (turned open.old.items) (head node.now ∷ hs)) }
{
    write_head(text, node)?;
    if node.parts > 0 {
        text.push(b'(')?;
        open.push(node.parts)?;
        return Ok(());
    }
    write_ends(text, open)
}

// After a node: the comma before the next part of the innermost open node, or the ends of open nodes.
#[tactic(auto, using(crate::proofs::Writers::ended_open))]
fn write_ends(text: &mut Vec<u8>, open: &mut Vec<usize>) -> Result<(), NoMemory>
    ensures text { OnOk result (text.new.items ≡ text.old.items ++ ends_text (turned open.old.items)) }
    ensures open { OnOk result (turned open.new.items ≡ after_ends (turned open.old.items)) }
{
    while let Some(parts) = open.pop() {
        if parts > 1 {
            text.push(b',')?;
            open.push(parts - 1)?;
            return Ok(());
        }
        text.push(b')')?;
    }
    Ok(())
}

// A node without its parts.
#[tactic(auto, using(crate::proofs::Writers::head_written))]
fn write_head(text: &mut Vec<u8>, node: &Node) -> Result<(), NoMemory>
    ensures { OnOk result (text.new.items ≡ text.old.items ++ head_text (head node.now)) }
{
    text.extend_from_slice(rule_text(node.rule))?;
    text.push(b'[')?;
    write_variables(text, node.variables.as_slice())?;
    text.push(b'|')?;
    write_credits(text, node.credits.as_slice())?;
    text.push(b']')?;
    Ok(())
}

fn write_variables(text: &mut Vec<u8>, variables: &[usize]) -> Result<(), NoMemory>
    ensures { OnOk result (text.new.items ≡ text.old.items ++ variables_text variables.now []) }
{
    match variables.split_first() {
        None => Ok(()),
        Some((first, more)) => {
            write_number(text, *first as u64)?;
            write_more_variables(text, more)
        }
    }
}

fn write_more_variables(text: &mut Vec<u8>, variables: &[usize]) -> Result<(), NoMemory>
    ensures { OnOk result (text.new.items ≡ text.old.items ++ more_variables variables.now []) }
{
    for variable in variables {
        text.push(b' ')?;
        write_number(text, *variable as u64)?;
    }
    Ok(())
}

fn write_credits(text: &mut Vec<u8>, credits: &[Credit]) -> Result<(), NoMemory>
    ensures { OnOk result (text.new.items ≡ text.old.items ++ credits_text credits.now []) }
{
    match credits.split_first() {
        None => Ok(()),
        Some((first, more)) => {
            write_credit(text, *first)?;
            write_more_credits(text, more)
        }
    }
}

fn write_more_credits(text: &mut Vec<u8>, credits: &[Credit]) -> Result<(), NoMemory>
    ensures { OnOk result (text.new.items ≡ text.old.items ++ more_credits credits.now []) }
{
    for credit in credits {
        text.push(b' ')?;
        write_credit(text, *credit)?;
    }
    Ok(())
}

fn write_credit(text: &mut Vec<u8>, credit: Credit) -> Result<(), NoMemory>
    ensures { OnOk result (text.new.items ≡ text.old.items ++ credit_text credit []) }
{
    write_number(text, u64::from(credit.size))?;
    text.push(b':')?;
    write_number(text, u64::from(credit.count))
}
