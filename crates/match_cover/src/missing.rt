// The missing pattern of a match: of some values that no clause matches.
//
// Positions are walked from the root, then over the fields from left to right, each with its own fields before the
// next. At a position where no clause has a constructor or a literal `_` is put. At another it is the least
// constructor, or the least number from 0 upwards, such that some value that no clause matches agrees with all choices
// so far and has it there.
ghost use Rattle.std.specs.Prelude.{◌≡◌, ◌<◌, ◌≤◌, ◌^◌, ◌+◌, ◌++◌, true, drop, map, length, option_map, IfOk, OnOk};
ghost use Rattle.fip_language.specs.PrintedText.{shape_at};
ghost use Rattle.fip_language.specs.Table.{constructors};
ghost use Rattle.match_knowledge.specs.Known.{Is};
ghost use Rattle.match_knowledge.specs.Left.{AnswersLeft};
ghost use Rattle.match_knowledge.specs.View.{row, rows, parts, known, knowns};
ghost use Rattle.match_cover.specs.Missing.{is_test, is_tested, part_below, rows_below, fields_at, open_fields, inside};
ghost use Rattle.match_cover.specs.Missing.{placed};
ghost use Rattle.match_cover.specs.MissingSearch.{FindsFields, FindsHead, FindsMissing, LeastNumber, LeastTag};
ghost use Rattle.match_cover.specs.MissingSearch.{head_fields};
ghost use Rattle.match_cover.specs.MissingView.{SaysMissing, last_sign, lent_rows, level, levels, part_sign};
ghost use Rattle.match_cover.specs.PatternText.{head_text, parts_text, pattern_text};

use fip_base::plain::NoMemory;
use fip_base::table::{Constructor, TypeTable};
use match_knowledge::{Head, Knowledge, Row, all_known, copy, left, open, same_head};
use std::alloc::Global;

// A node above a position: its head, and what is known of its fields before and after the one that leads there.
#[derive(Drop)]
struct Frame {
    head: Head,
    before: Vec<Knowledge>,
    following: Vec<Knowledge>,
}

// A match at hand: the types, and the patterns of its clauses.
#[derive(Clone, Copy)]
struct Search<'a> {
    alloc: Global,
    types: &'a TypeTable,
    rows: &'a [Row],
}

/// The text of the missing pattern of a match on this type, where its clauses don't match all values. An error where no
/// memory is left.
pub fn missing_text(
    alloc: Global,
    types: &TypeTable,
    ty: u32,
    patterns: &[Row],
) -> Result<Vec<u8>, NoMemory>
    ensures { IfOk result (λ text. SaysMissing types.now ty (rows patterns.now) text.items) }
{
    let search = Search {
        alloc,
        types,
        rows: patterns,
    };
    let here = all_of(alloc, patterns)?;
    let mut at = Vec::new(alloc);
    let pattern = search.missing_at(&mut at, ty, &here)?;
    let mut text = Vec::new(alloc);
    put_pattern(alloc, types, &pattern, &mut text)?;
    Ok(text)
}

// A reference to each of these patterns.
fn all_of<'a>(alloc: Global, patterns: &'a [Row]) -> Result<Vec<&'a Row>, NoMemory>
    ensures { IfOk result (λ r. lent_rows r.items ≡ rows patterns.now) }
{
    let mut here = Vec::new(alloc);
    for pattern in patterns {
        here.push(pattern)?;
    }
    Ok(here)
}

impl<'a> Search<'a> {
    // The pattern at the position below these nodes: of which type, and what the clauses have there.
    #[cycle(missing)]
    fn missing_at(&self, at: &mut Vec<Frame>, ty: u32, here: &[&Row]) -> Result<Row, NoMemory>
        ensures kept { OnOk result (at.new.items ≡ at.old.items) }
        ensures missing { IfOk result (λ m. FindsMissing self.now.types.now (rows self.now.rows.now)
            (placed (levels at.old.items)) ty (lent_rows here.now) (row m)) }
    {
        if !is_tested(here) {
            return Ok(Row::Any);
        }
        match self.least_head(at, ty, here.len() + 1)? {
            None => Ok(Row::Any),
            Some(head) => {
                let parts = self.missing_fields(at, fields_of(self.types, ty, &head), head, here)?;
                Ok(Row::Test { ty, head, parts })
            }
        }
    }

    // The patterns at the fields of the position's node.
    #[cycle(missing)]
    fn missing_fields(
        &self,
        at: &mut Vec<Frame>,
        fields: &[u32],
        head: Head,
        here: &[&Row],
    ) -> Result<Vec<Row>, NoMemory>
        requires { is_tested (lent_rows here.now) ≡ true }
        ensures kept { OnOk result (at.new.items ≡ at.old.items) }
        ensures missing { IfOk result (λ ms. FindsFields self.now.types.now (rows self.now.rows.now)
            (λ ks. placed (levels at.old.items) (Is head ks)) fields.now (fields_at head (lent_rows here.now))
            (parts ms.items)) }
    {
        let mut parts = Vec::new(self.alloc);
        for (j, field) in fields.iter().enumerate() {
            let before = all_known(self.alloc, &parts)?;
            let following = open_fields(self.alloc, following(fields, j))?;
            at.push(Frame {
                head,
                before,
                following,
            })?;
            let below = rows_below(self.alloc, here, &head, j)?;
            let part = self.missing_at(at, *field, &below)?;
            at.pop();
            parts.push(part)?;
        }
        Ok(parts)
    }

    // The least head that may occur at a position: of the constructors, or of the numbers below an end.
    fn least_head(&self, at: &[Frame], ty: u32, end: usize) -> Result<Option<Head>, NoMemory>
        requires { end ≤ 2 ^ 63 }
        ensures { IfOk result (FindsHead self.now.types.now (rows self.now.rows.now) (placed (levels at.now)) ty end) }
    {
        if ty == 0 {
            return self.least_number(at, end);
        }
        self.least_constructor(at, constructors_of(self.types, ty))
    }

    // The least number below an end that may occur at a position. One that no clause has there always may.
    fn least_number(&self, at: &[Frame], end: usize) -> Result<Option<Head>, NoMemory>
        requires { end ≤ 2 ^ 63 }
        ensures { IfOk result (LeastNumber self.now.types.now (rows self.now.rows.now) (placed (levels at.now)) end) }
    {
        for n in 0..end {
            let head = Head::Number(n as i64);
            if self.may_stand(at, head, &[])? {
                return Ok(Some(head));
            }
        }
        Ok(None)
    }

    // The least of these constructors that may occur at a position.
    fn least_constructor(
        &self,
        at: &[Frame],
        constructors: &[Constructor],
    ) -> Result<Option<Head>, NoMemory>
        requires { length constructors.now < 2 ^ 32 }
        ensures { IfOk result (LeastTag self.now.types.now (rows self.now.rows.now) (placed (levels at.now))
            constructors.now) }
    {
        for (c, constructor) in constructors.iter().enumerate() {
            let head = Head::Tag(c as u32);
            if self.may_stand(at, head, constructor.fields())? {
                return Ok(Some(head));
            }
        }
        Ok(None)
    }

    // Whether some value that no clause matches agrees with all choices so far and has the head, with fields of these
    // types, at the position.
    fn may_stand(&self, at: &[Frame], head: Head, fields: &[u32]) -> Result<bool, NoMemory>
        ensures { IfOk result (AnswersLeft self.now.types.now (rows self.now.rows.now)
            (placed (levels at.now) (Is head (open_fields fields.now)))) }
    {
        let fields = open_fields(self.alloc, fields)?;
        let k = placed(self.alloc, at, Knowledge::Is(head, fields))?;
        left(self.alloc, self.types, self.rows, &k)
    }
}

// The constructors of a type; none where there is no such type.
#[tactic(auto, using(crate::proofs::Shared::ends))]
fn constructors_of(types: &TypeTable, ty: u32) -> &[Constructor]
    ensures same { result.now ≡ constructors types.now ty }
    ensures few { length result.now < 2 ^ 32 }
{
    if ty as usize <= types.len() {
        types.constructors_of(ty)
    } else {
        &[]
    }
}

// The types of the fields of a constructor; an int has none.
fn fields_of<'a>(types: &'a TypeTable, ty: u32, head: &Head) -> &'a [u32]
    ensures { result.now ≡ head_fields types.now ty head.now }
{
    match head {
        Head::Number(_) => &[],
        Head::Tag(c) => match constructors_of(types, ty).get(*c as usize) {
            None => &[],
            Some(constructor) => constructor.fields(),
        },
    }
}

// The types of the fields after the j-th.
fn following(fields: &[u32], j: usize) -> &[u32]
    requires { j < length fields.now }
    ensures { result.now ≡ drop (j + 1) fields.now }
{
    &fields[j + 1..]
}

// Fields of these types of which nothing is known.
fn open_fields(alloc: Global, types: &[u32]) -> Result<Vec<Knowledge>, NoMemory>
    ensures { IfOk result (λ r. knowns r.items ≡ open_fields types.now) }
{
    let mut fields = Vec::new(alloc);
    for _ty in types {
        fields.push(open(alloc))?;
    }
    Ok(fields)
}

// Whether some clause has a constructor or a literal here.
fn is_tested(here: &[&Row]) -> bool
    ensures { result ≡ is_tested (lent_rows here.now) }
{
    for row in here {
        if is_test(row) {
            return true;
        }
    }
    false
}

// Whether the pattern is a constructor or a literal.
fn is_test(p: &Row) -> bool
    ensures { result ≡ is_test (row p.now) }
{
    match p {
        Row::Any => false,
        Row::Test { .. } => true,
    }
}

// What the clauses that have the head here have at its j-th field.
fn rows_below<'a>(
    alloc: Global,
    here: &[&'a Row],
    head: &Head,
    j: usize,
) -> Result<Vec<&'a Row>, NoMemory>
    ensures { IfOk result (λ r. lent_rows r.items ≡ rows_below head.now j (lent_rows here.now)) }
{
    let mut below = Vec::new(alloc);
    for row in here {
        if let Some(part) = part_of(row, head, j) {
            below.push(part)?;
        }
    }
    Ok(below)
}

fn part_of<'a>(p: &'a Row, head: &Head, j: usize) -> Option<&'a Row>
    ensures { option_map (λ r. row r.now) result ≡ part_below head.now j (row p.now) }
{
    match p {
        Row::Any => None,
        Row::Test {
            head: g,
            parts: ps,
            ..
        } => { if same_head(g, head) { ps.get(j) } else { None } }
    }
}

// All choices so far, with k known at the position below these nodes.
fn placed(alloc: Global, at: &[Frame], k: Knowledge) -> Result<Knowledge, NoMemory>
    ensures { IfOk result (λ r. known r ≡ placed (levels at.now) (known k)) }
{
    let mut k = k;
    let mut n = at.len();
    while n > 0 {
        n -= 1;
        k = inside(alloc, &at[n], k)?;
    }
    Ok(k)
}

// After these, as much is known as of others.
fn with_copies(
    alloc: Global,
    first: Vec<Knowledge>,
    others: &[Knowledge],
) -> Result<Vec<Knowledge>, NoMemory>
    ensures { IfOk result (λ r. map known r.items ≡ map known first.items ++ map known others.now) }
{
    let mut all = first;
    for k in others {
        all.push(copy(alloc, k)?)?;
    }
    Ok(all)
}

// The node, with k known of the field that leads to the position.
fn inside(alloc: Global, frame: &Frame, k: Knowledge) -> Result<Knowledge, NoMemory>
    ensures { IfOk result (λ r. known r ≡ inside (level frame.now) (known k)) }
{
    let mut fields = with_copies(alloc, Vec::new(alloc), &frame.before)?;
    fields.push(k)?;
    let fields = with_copies(alloc, fields, &frame.following)?;
    Ok(Knowledge::Is(frame.head, fields))
}

// Puts the text of a pattern, which is that of a value with `_`.
#[cycle(text)]
fn put_pattern(
    alloc: Global,
    types: &TypeTable,
    pattern: &Row,
    text: &mut Vec<u8>,
) -> Result<(), NoMemory>
    ensures { OnOk result (text.new.items ≡ text.old.items ++ pattern_text types.now (row pattern.now)) }
{
    match pattern {
        Row::Any => {
            text.push(b'_')?;
            Ok(())
        }
        Row::Test {
            ty,
            head,
            parts: ps,
        } => {
            put_head(alloc, types, *ty, head, text)?;
            put_parts(alloc, types, ps, text)
        }
    }
}

// Puts the parts of a pattern in brackets; nothing where there are none.
#[cycle(text)]
fn put_parts(
    alloc: Global,
    types: &TypeTable,
    ps: &[Row],
    text: &mut Vec<u8>,
) -> Result<(), NoMemory>
    ensures { OnOk result (text.new.items ≡ text.old.items ++ parts_text types.now (parts ps.now)) }
{
    for (j, p) in ps.iter().enumerate() {
        put_sign(j, text)?;
        put_pattern(alloc, types, p, text)?;
    }
    put_end(ps.len(), text)
}

// Puts what is before the j-th part.
fn put_sign(j: usize, text: &mut Vec<u8>) -> Result<(), NoMemory>
    ensures { OnOk result (text.new.items ≡ text.old.items ++ part_sign j) }
{
    if j == 0 {
        text.extend_from_slice(b"(")?;
        return Ok(());
    }
    text.extend_from_slice(b", ")?;
    Ok(())
}

// Puts what is after so many parts.
fn put_end(count: usize, text: &mut Vec<u8>) -> Result<(), NoMemory>
    ensures { OnOk result (text.new.items ≡ text.old.items ++ last_sign count) }
{
    if count == 0 {
        return Ok(());
    }
    text.extend_from_slice(b")")?;
    Ok(())
}

// Puts a number, or the name of a constructor.
fn put_head(
    alloc: Global,
    types: &TypeTable,
    ty: u32,
    head: &Head,
    text: &mut Vec<u8>,
) -> Result<(), NoMemory>
    ensures { OnOk result (text.new.items ≡ text.old.items ++ head_text types.now ty head.now) }
{
    match head {
        Head::Number(value) => {
            let digits = format!(in alloc; "{value}")?;
            text.extend_from_slice(digits.as_bytes())?;
        }
        Head::Tag(c) => text.extend_from_slice(name_of(types, ty, *c))?,
    }
    Ok(())
}

// The name of a constructor; empty where the type has none of this number.
fn name_of(types: &TypeTable, ty: u32, c: u32) -> &[u8]
    ensures { result.now ≡ (shape_at (constructors types.now ty) c).name }
{
    match constructors_of(types, ty).get(c as usize) {
        None => &[],
        Some(constructor) => constructor.name(),
    }
}
