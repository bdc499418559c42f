// E40, values that no clause matches; E41, clauses that no value reaches; and the call that checks all matches.
ghost use Rattle.std.specs.Prelude.{◌≡◌, ◌++◌, ◌∷◌, [], ℕ, map, IfOk, IfErr, OnOk};
ghost use Rattle.fip_trees.specs.Least.{after};
ghost use Rattle.match_knowledge.specs.View.{row, rows};
ghost use Rattle.match_cover.specs.Answers.{Accepts, Says, SaysShapes, CoverageAnswers};
ghost use Rattle.match_cover.specs.FoundView.{found_match, found_matches};
ghost use Rattle.match_cover.specs.Gathered.{NotesAll, NotesBodies, NotesClause, NotesClauses};
ghost use Rattle.match_cover.specs.Gathered.{NotesMatch, NotesMissed, NotesRow};
ghost use Rattle.match_cover.specs.Matches.{block_matches};
ghost use Rattle.match_cover.specs.PatternView.{erased, pattern_of};
ghost use Rattle.match_cover.specs.Shapes.{shape_faults};

use crate::matches::{Found, find_in_block};
use crate::missing::missing_text;
use crate::patterns::{place_of, row_of};
use crate::shapes::note_shapes;
use fip_base::plain::{NoMemory, Place};
use fip_base::refusal::{PhaseError, Rule};
use fip_base::table::TypeTable;
use fip_trees::least::Least;
use fip_trees::program::{Block, Clause, Instance, Typed};
use match_knowledge::{Row, missed, reached};
use std::alloc::Global;

/// Whether no match breaks a rule. It is refused by the least violation of the first two of these rules, or, where
/// nothing breaks them, of the last two:
///
/// - E42: a variable occurs twice in a pattern or in the binders of a let;
/// - E43: a match has more than 64 clauses, or more than 256 pattern nodes in all;
/// - E40: some value is matched by no clause; the refusal names the missing pattern;
/// - E41: no value is matched first by a clause.
///
/// An error also where no memory is left.
pub fn cover(alloc: Global, typed: &Typed) -> Result<(), PhaseError>
    ensures accepts { IfOk result (λ _. Accepts typed.now.program.types typed.now.program.instances.items) }
    ensures least { IfErr result (Says typed.now.program.types typed.now.program.instances.items) }
{
    match check_shapes(alloc, typed) {
        Err(error) => Err(error),
        Ok(()) => check_coverage(alloc, typed),
    }
}

// E42 and E43.
fn check_shapes(alloc: Global, typed: &Typed) -> Result<(), PhaseError>
    ensures accepts { IfOk result (λ _. shape_faults 0 typed.now.program.instances.items ≡ []) }
    ensures least { IfErr result (SaysShapes typed.now.program.instances.items) }
{
    let mut out = Least::new(alloc);
    match note_all_shapes(alloc, &typed.program.instances, &mut out) {
        Err(_) => Err(PhaseError::NoMemory),
        Ok(()) => match out.into_refusal() {
            None => Ok(()),
            Some(refusal) => Err(PhaseError::Refused(refusal)),
        },
    }
}

#[tactic(auto, using(crate::proofs::Shared::noting))]
fn note_all_shapes(alloc: Global, instances: &[Instance], out: &mut Least) -> Result<(), NoMemory>
    ensures { OnOk result (out.new ≡ after out.old (shape_faults 0 instances.now)) }
{
    for (number, instance) in instances.iter().enumerate() {
        note_shapes(alloc, number, &instance.body, out)?;
    }
    Ok(())
}

// E40 and E41, in a program that breaks neither E42 nor E43.
fn check_coverage(alloc: Global, typed: &Typed) -> Result<(), PhaseError>
    ensures { CoverageAnswers typed.now.program.types typed.now.program.instances.items result }
{
    let mut out = Least::new(alloc);
    match note_all_coverage(
        alloc,
        &typed.program.types,
        &typed.program.instances,
        &mut out,
    ) {
        Err(_) => Err(PhaseError::NoMemory),
        Ok(()) => match out.into_refusal() {
            None => Ok(()),
            Some(refusal) => Err(PhaseError::Refused(refusal)),
        },
    }
}

fn note_all_coverage(
    alloc: Global,
    types: &TypeTable,
    instances: &[Instance],
    out: &mut Least,
) -> Result<(), NoMemory>
    ensures { OnOk result (NotesBodies types.now 0 instances.now out.old out.new) }
{
    for (number, instance) in instances.iter().enumerate() {
        let site = Site {
            alloc,
            types,
            instance: number,
        };
        site.note_body(&instance.body, out)?;
    }
    Ok(())
}

// The instance whose matches are looked at, and the types of the program.
#[derive(Clone, Copy)]
struct Site<'a> {
    alloc: Global,
    types: &'a TypeTable,
    instance: usize,
}

impl Site<'_> {
    fn note_body(&self, body: &Block, out: &mut Least) -> Result<(), NoMemory>
        ensures { OnOk result (NotesAll self.now.types.now self.now.instance (block_matches body.now) out.old out.new) }
    {
        let mut matches = Vec::new(self.alloc);
        find_in_block(body, &mut matches)?;
        self.note_matches(&matches, out)
    }

    fn note_matches(&self, matches: &[Found<'_>], out: &mut Least) -> Result<(), NoMemory>
        ensures { OnOk result (NotesAll self.now.types.now self.now.instance (found_matches matches.now)
            out.old out.new) }
    {
        for found in matches {
            self.note_match(found, out)?;
        }
        Ok(())
    }

    // Notes where a match breaks E41 or E40.
    fn note_match(&self, found: &Found<'_>, out: &mut Least) -> Result<(), NoMemory>
        ensures { OnOk result (NotesMatch self.now.types.now self.now.instance (found_match found.now)
            out.old out.new) }
    {
        let mut patterns = Vec::new(self.alloc);
        self.note_clause(found.first, &mut patterns, out)?;
        self.note_clauses(found.others, &mut patterns, out)?;
        self.note_missed(found.ty, found.place, &patterns, out)
    }

    fn note_clauses(
        &self,
        clauses: &[Clause],
        before: &mut Vec<Row>,
        out: &mut Least,
    ) -> Result<(), NoMemory>
        ensures rows { OnOk result (rows before.new.items ≡
            rows before.old.items ++ map erased (map pattern_of clauses.now)) }
        ensures noted { OnOk result (NotesClauses self.now.types.now self.now.instance (rows before.old.items)
            (map pattern_of clauses.now) out.old out.new) }
    {
        for clause in clauses {
            self.note_clause(clause, before, out)?;
        }
        Ok(())
    }

    // E41: no value is matched first by the clause. Its pattern is put after those of the clauses before it.
    fn note_clause(
        &self,
        clause: &Clause,
        before: &mut Vec<Row>,
        out: &mut Least,
    ) -> Result<(), NoMemory>
        ensures rows { OnOk result (rows before.new.items ≡
            rows before.old.items ++ erased (pattern_of clause.now) ∷ []) }
        ensures noted { OnOk result (NotesClause self.now.types.now self.now.instance (rows before.old.items)
            (pattern_of clause.now) out.old out.new) }
    {
        let row = row_of(self.alloc, &clause.pattern)?;
        self.note_row(&row, place_of(&clause.pattern), before, out)?;
        before.push(row)?;
        Ok(())
    }

    fn note_row(
        &self,
        pattern: &Row,
        place: Place,
        before: &[Row],
        out: &mut Least,
    ) -> Result<(), NoMemory>
        ensures { OnOk result (NotesRow self.now.types.now self.now.instance (rows before.now) place
            (row pattern.now) out.old out.new) }
    {
        if reached(self.alloc, self.types, before, pattern)? {
            return Ok(());
        }
        out.note(Rule::E41, place, self.instance, 0, b"")
    }

    // E40: some value is matched by no clause.
    fn note_missed(
        &self,
        ty: u32,
        place: Place,
        patterns: &[Row],
        out: &mut Least,
    ) -> Result<(), NoMemory>
        ensures { OnOk result (NotesMissed self.now.types.now self.now.instance place ty (rows patterns.now)
            out.old out.new) }
    {
        if !missed(self.alloc, self.types, patterns)? {
            return Ok(());
        }
        let text = missing_text(self.alloc, self.types, ty, patterns)?;
        out.note(Rule::E40, place, self.instance, 0, &text)
    }
}
