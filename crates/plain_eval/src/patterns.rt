// Which clause of a match is chosen: the first whose pattern matches, in text order.
ghost use Rattle.std.specs.Prelude.{◌≡◌, ◌==◌, false, ℕ, ◌≤◌, ◌∷◌, Some, IfOk, OnOk};
ghost use Rattle.std.specs.Prelude.{ℤ};
ghost use Rattle.std.specs.Borrow.{Bor};
ghost use Rattle.fip_trees.specs.fip_language.Values.{Value as Tree, Int, Node, Values};
ghost use Rattle.fip_trees.specs.fip_language.Meaning.{Environment};
ghost use Rattle.fip_trees.specs.TreeView as T;
ghost use Rattle.instance_semantics.specs.Matching.{matching, matching_all};
ghost use Rattle.plain_rows.specs.Rows.{Stands, StandAll};
ghost use Rattle.plain_eval.specs.Slots.{CoversNow, KeepsAll};
ghost use Rattle.plain_eval.specs.Choosing.{Matches, Tries, Chooses};
ghost use Rattle.plain_eval.specs.Work.{block_size, clauses_size};

use crate::variables::Variables;
use fip_base::plain::NoMemory;
use fip_trees::program::{Block, Clause, Pattern};
use plain_rows::{Store, Value};

/// The body of the first clause that matches, whose variables are bound then; none where no clause matches.
pub fn chosen<'a>(
    store: &Store,
    variables: &mut Variables,
    first: &'a Clause,
    others: &'a [Clause],
    value: Value,
) -> Result<Option<&'a Block>, NoMemory>
    ensures chooses { IfOk result (λ o. (env : Environment) (v : Tree) → CoversNow store.now variables.old env →
        Stands store.now value v →
        Chooses (T.clauses (first.entry.now ∷ others.entry.now)) v env store.now variables.new o) }
    ensures keeps { OnOk result (KeepsAll store.now variables.old.values.items store.now variables.new.values.items) }
    ensures longer { OnOk result (variables.old.end ≤ variables.new.end) }
    ensures less { IfOk result (λ o. (b : Bor Block) → o ≡ Some b →
        block_size (T.block b.now) ≤ clauses_size (T.clauses (first.entry.now ∷ others.entry.now))) }
{
    match tried(store, variables, first, value)? {
        Some(block) => return Ok(Some(block)),
        None => {}
    }
    for clause in others {
        match tried(store, variables, clause, value)? {
            Some(block) => return Ok(Some(block)),
            None => {}
        }
    }
    Ok(None)
}

// The body of the clause, where it matches; else the variables are as they were.
fn tried<'a>(
    store: &Store,
    variables: &mut Variables,
    clause: &'a Clause,
    value: Value,
) -> Result<Option<&'a Block>, NoMemory>
    ensures tries { IfOk result (λ o. (env : Environment) (v : Tree) → CoversNow store.now variables.old env →
        Stands store.now value v →
        Tries (matching (T.clause clause.entry.now).pattern v) (T.clause clause.entry.now).body env store.now
        variables.new o) }
    ensures keeps { OnOk result (KeepsAll store.now variables.old.values.items store.now variables.new.values.items) }
    ensures longer { OnOk result (variables.old.end ≤ variables.new.end) }
    ensures is { IfOk result (λ o. (b : Bor Block) → o ≡ Some b → T.block b.now ≡ (T.clause clause.entry.now).body) }
{
    let base = variables.base();
    let end = variables.end();
    if matches(store, variables, &clause.pattern, value)? {
        Ok(Some(&clause.body))
    } else {
        variables.go_back(base, end);
        Ok(None)
    }
}

// Whether a pattern matches a value. Its variables are bound.
#[cycle(matches)]
fn matches(
    store: &Store,
    variables: &mut Variables,
    pattern: &Pattern,
    value: Value,
) -> Result<bool, NoMemory>
    ensures matches { IfOk result (λ b. (env : Environment) (v : Tree) → CoversNow store.now variables.old env →
        Stands store.now value v → Matches (matching (T.pattern pattern.now) v) env store.now variables.new b) }
    ensures keeps { OnOk result (KeepsAll store.now variables.old.values.items store.now variables.new.values.items) }
    ensures longer { OnOk result (variables.old.end ≤ variables.new.end) }
{
    match pattern {
        Pattern::Binder(binder) => {
            variables.bind(binder.number, value)?;
            Ok(true)
        }
        Pattern::Literal { value: wanted, .. } => Ok(value == Value::Int(*wanted)),
        Pattern::Constructor {
            number,
            patterns,
            ..
        } => {
            if is_tagged(store, value, *number) {
                all_match(
                    store,
                    variables,
                    patterns.as_slice(),
                    fields_of(store, value),
                )
            } else {
                Ok(false)
            }
        }
    }
}

// Whether a value is of this constructor.
fn is_tagged(store: &Store, value: Value, number: u32) -> bool
    ensures int { (i : ℤ) → Stands store.now value (Int i) → result ≡ false }
    ensures node { (c : ℕ) (vs : Values) → Stands store.now value (Node c vs) → result ≡ (number == c) }
{
    match value {
        Value::Bare(tag) => number as u64 == tag,
        Value::Row(row) => match store.tag(row) {
            Some(tag) => number == tag,
            None => false,
        },
        _ => false,
    }
}

// The values of its fields.
fn fields_of(store: &Store, value: Value) -> &[Value]
    ensures fields { (c : ℕ) (vs : Values) → Stands store.now value (Node c vs) → StandAll store.now result.now vs }
{
    match value {
        Value::Row(row) => store.fields(row),
        _ => &[],
    }
}

// Whether patterns match values, one another.
#[cycle(matches)]
fn all_match(
    store: &Store,
    variables: &mut Variables,
    patterns: &[Pattern],
    values: &[Value],
) -> Result<bool, NoMemory>
    ensures matches { IfOk result (λ b. (env : Environment) (vs : Values) → CoversNow store.now variables.old env →
        StandAll store.now values.now vs →
        Matches (matching_all (T.patterns patterns.now) vs) env store.now variables.new b) }
    ensures keeps { OnOk result (KeepsAll store.now variables.old.values.items store.now variables.new.values.items) }
    ensures longer { OnOk result (variables.old.end ≤ variables.new.end) }
{
    if patterns.len() != values.len() {
        return Ok(false);
    }
    for (pattern, value) in patterns.iter().zip(values.iter()) {
        if !matches(store, variables, pattern, *value)? {
            return Ok(false);
        }
    }
    Ok(true)
}
