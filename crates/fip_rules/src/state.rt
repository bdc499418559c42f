// Where a walk is: which variables are in scope, which were used up, which borrowing occurrences wait for the end of
// the bound expression around them, and the least violation so far.
ghost use Rattle.std.specs.Prelude.{◌≡◌, ◌<◌, ◌≤◌, ◌-◌, ℕ, List, [], ◌∷◌, ◌++◌, length, map, take, drop, filter, OnOk, IfOk};
ghost use Rattle.std.specs.Prelude.{Option, Some, ◌==◌, not, ◌&&◌, if◌then◌else◌};
ghost use Rattle.fip_trees.specs.fip_language.declared.rule.Rule.TheVariants as R;
ghost use Rattle.fip_trees.specs.Least.{after};
ghost use Rattle.fip_rules.specs.Marks.{Mark as PlainMark, reported};
ghost use Rattle.fip_rules.specs.Notes.{Walked, nothing, distinct, look, when, is_owned, use_of, lend_of, exposed};
ghost use Rattle.fip_rules.specs.Rules.{broken};
ghost use Rattle.fip_rules.specs.Shape as S;
ghost use Rattle.fip_rules.specs.Shapes.{Bind, known, used_at, used_by, lent_at, lent_by, token};
ghost use Rattle.fip_rules.specs.Stands.{Stand, Rises, marks, noted, kept_use, awaiting, go, entered, left_to};
ghost use Rattle.fip_rules.specs.Stands.{deepened, surfaced, aside, back, still};
ghost use Rattle.fip_rules.specs.Views.{mark_of, entry_of};

use crate::log::Log;
use crate::scope::{Entry, Mark, Ownership, Scope};
use fip_base::plain::{NoMemory, Place};
use fip_base::refusal::Rule;
use fip_trees::least::Least;
use fip_trees::program::Binder;
use std::alloc::Global;
use std::marker::Model;

/// Where the walk through an instance is.
#[derive(Drop)]
pub struct State<'a> {
    alloc: Global,
    instance: usize,
    is_fip: bool,
    least: Least,
    scope: Scope<'a>,
    // One for each of the bound expressions around; only how many there are matters.
    around: Vec<Kept>,
    // The variables that were used up on some path to here, and those that were on every path.
    used: Log,
    always: Log,
    waiting: Vec<Mark<'a>>,
    // One for each binder that came into scope so far; only how many there are matters, so that memory bounds it.
    entered: Vec<Place>,
}

impl<'a> Model for State<'a> {
    ghost Value = { Stand };

    ghost view = { λ s. record {
      instance = s.instance;
      fip = s.is_fip;
      found = s.least;
      walked = record { scope = s.scope; level = length s.around.items; used = s.used; always = s.always };
      waiting = map mark_of s.waiting.items;
      next = length s.entered.items;
    } };

    ghost invariant = { λ s. Rises 0 s.scope (length s.entered.items) };
}

/// Where the walk was at some time.
#[derive(Clone, Copy)]
pub struct Kept {
    pub(crate) level: usize,
    pub(crate) waiting: usize,
    pub(crate) used: usize,
    pub(crate) always: usize,
}

/// What some alternatives use up: on some path, and on every path.
#[derive(Drop)]
pub struct Ways {
    pub(crate) used: Vec<usize>,
    pub(crate) always: Vec<usize>,
}

impl<'a> State<'a> {
    /// The start of an instance, with the least violation so far.
    pub fn new(alloc: Global, instance: usize, is_fip: bool, least: Least) -> State<'a>
        ensures start { result ≡ record {
          instance = instance;
          fip = is_fip;
          found = least;
          walked = nothing;
          waiting = [];
          next = 0;
        } }
    {
        State {
            alloc,
            instance,
            is_fip,
            least,
            scope: Scope::new(alloc),
            around: Vec::new(alloc),
            used: Log::new(alloc),
            always: Log::new(alloc),
            waiting: Vec::new(alloc),
            entered: Vec::new(alloc),
        }
    }

    /// The least violation so far.
    pub fn into_least(self) -> Least
        ensures found { result ≡ self.entry.found }
    {
        self.least
    }

    /// Where the walk is now.
    pub fn kept(&self) -> Kept
        ensures level { result.level ≡ self.now.walked.level }
        ensures waiting { result.waiting ≡ length self.now.waiting }
        ensures used { result.used ≡ length self.now.walked.used }
        ensures always { result.always ≡ length self.now.walked.always }
    {
        Kept {
            level: self.around.len(),
            waiting: self.waiting.len(),
            used: self.used.len(),
            always: self.always.len(),
        }
    }

    /// How many variables are in scope.
    pub fn in_scope(&self) -> usize
        ensures count { result ≡ length self.now.walked.scope }
    {
        self.scope.len()
    }

    // Notes a rule that is broken at an occurrence where this holds.
    fn note_if(&mut self, is_broken: bool, rule: Rule, mark: &Mark<'a>) -> Result<(), NoMemory>
        ensures { OnOk result (self.new ≡
            noted self.old (when is_broken (broken rule self.old.instance (mark_of mark.now)))) }
    {
        if is_broken {
            self.least
                .note(rule, mark.place, self.instance, 0, mark.name)?;
        }
        Ok(())
    }

    /// A rule that is broken as it is.
    #[tactic(auto, using(crate::proofs::Theorems::go_fault))]
    pub fn fault(&mut self, rule: Rule, place: Place, name: &[u8]) -> Result<(), NoMemory>
        ensures noted { OnOk result (self.new ≡ go self.old (S.Fault rule (token place name.now))) }
    {
        self.least.note(rule, place, self.instance, 0, name)
    }

    /// An owning occurrence of a variable; nothing where it isn't in scope.
    pub fn own(
        &mut self,
        binder: Option<usize>,
        place: Place,
        name: &'a [u8],
    ) -> Result<(), NoMemory>
        ensures used { OnOk result (self.new ≡ go self.old (used_by (marks self.old) binder place name.now)) }
    {
        match binder {
            None => Ok(()),
            Some(number) => {
                self.own_number(number, place, name)?;
                Ok(())
            }
        }
    }

    fn own_number(&mut self, number: usize, place: Place, name: &'a [u8]) -> Result<(), NoMemory>
        ensures used { OnOk result (self.new ≡
            go self.old (used_at (known (marks self.old) number) number place name.now)) }
    {
        match self.scope.look(number) {
            None => Ok(()),
            Some(entry) => {
                let id = entry.mark.id;
                let mark = Mark {
                    id,
                    number,
                    place,
                    name,
                };
                self.use_up(entry.ownership, &mark)?;
                Ok(())
            }
        }
    }

    // E53: the variable is borrowed. E50: it was used up before.
    fn use_up(&mut self, ownership: Ownership, mark: &Mark<'a>) -> Result<(), NoMemory>
        requires { (l : ℕ) × (m : PlainMark) × (look self.now.walked.scope mark.now.id ≡
            Some record { mark = m; ownership = ownership; level = l }) }
        ensures { OnOk result (self.new ≡ go self.old (S.Use (mark_of mark.now))) }
    {
        let is_used = self.used.has(mark.id);
        self.note_use(ownership, is_used, mark)?;
        self.keep_use(mark.id)?;
        Ok(())
    }

    fn keep_use(&mut self, id: usize) -> Result<(), NoMemory>
        ensures { OnOk result (self.new ≡ kept_use id self.old) }
    {
        self.used.push(id)?;
        self.always.push(id)
    }

    fn note_use(
        &mut self,
        ownership: Ownership,
        is_used: bool,
        mark: &Mark<'a>,
    ) -> Result<(), NoMemory>
        ensures { OnOk result (self.new ≡
            noted self.old (use_of ownership self.old.instance is_used (mark_of mark.now))) }
    {
        match ownership {
            Ownership::Scalar => Ok(()),
            Ownership::Borrowed => self.note_if(true, Rule::E53, mark),
            Ownership::Owned => self.note_if(is_used, Rule::E50, mark),
        }
    }

    /// A borrowing occurrence of a variable; nothing where it isn't in scope.
    pub fn lend(
        &mut self,
        binder: Option<usize>,
        place: Place,
        name: &'a [u8],
    ) -> Result<(), NoMemory>
        ensures lent { OnOk result (self.new ≡ go self.old (lent_by (marks self.old) binder place name.now)) }
    {
        match binder {
            None => Ok(()),
            Some(number) => {
                self.lend_number(number, place, name)?;
                Ok(())
            }
        }
    }

    fn lend_number(&mut self, number: usize, place: Place, name: &'a [u8]) -> Result<(), NoMemory>
        ensures lent { OnOk result (self.new ≡
            go self.old (lent_at (known (marks self.old) number) number place name.now)) }
    {
        match self.scope.look(number) {
            None => Ok(()),
            Some(entry) => {
                let id = entry.mark.id;
                let mark = Mark {
                    id,
                    number,
                    place,
                    name,
                };
                self.lend_out(entry.ownership, entry.level, &mark)?;
                Ok(())
            }
        }
    }

    // A borrowing occurrence of a variable that is bound outside of the innermost bound expression waits for its end.
    fn lend_out(
        &mut self,
        ownership: Ownership,
        level: usize,
        mark: &Mark<'a>,
    ) -> Result<(), NoMemory>
        requires { (m : PlainMark) × (look self.now.walked.scope mark.now.id ≡
            Some record { mark = m; ownership = ownership; level = level }) }
        ensures { OnOk result (self.new ≡ go self.old (S.Lend (mark_of mark.now))) }
    {
        let is_used = self.used.has(mark.id);
        let is_bare = self.is_at(level);
        self.note_lend(ownership, is_used, is_bare, mark)?;
        self.wait_if(is_waiting(ownership, is_bare), mark)?;
        Ok(())
    }

    // Whether so many bound expressions are around.
    fn is_at(&self, level: usize) -> bool
        ensures { result ≡ (level == self.now.walked.level) }
    {
        level == self.around.len()
    }

    fn wait_if(&mut self, is_waiting: bool, mark: &Mark<'a>) -> Result<(), NoMemory>
        ensures { OnOk result (self.new ≡
            awaiting self.old (if is_waiting then mark_of mark.now ∷ [] else [])) }
    {
        if is_waiting {
            self.waiting.push(*mark)?;
        }
        Ok(())
    }

    // E51: the variable was used up before. E54: no bound expression is around it within the variable's scope.
    fn note_lend(
        &mut self,
        ownership: Ownership,
        is_used: bool,
        is_bare: bool,
        mark: &Mark<'a>,
    ) -> Result<(), NoMemory>
        ensures { OnOk result (self.new ≡
            noted self.old (lend_of ownership self.old.instance is_used is_bare (mark_of mark.now))) }
    {
        match ownership {
            Ownership::Scalar => Ok(()),
            Ownership::Borrowed => Ok(()),
            Ownership::Owned => {
                self.note_if(is_used, Rule::E51, mark)?;
                self.note_if(is_bare, Rule::E54, mark)
            }
        }
    }

    /// A binder comes into scope. An error where no memory is left.
    pub fn enter(&mut self, ownership: Ownership, binder: &'a Binder) -> Result<(), NoMemory>
        ensures entered { OnOk result (self.new ≡
            entered self.old record { ownership = ownership; binder = binder.now }) }
    {
        let id = self.entered.len();
        let mark = Mark {
            id,
            number: binder.number,
            place: binder.place,
            name: binder.name.as_slice(),
        };
        let level = self.around.len();
        self.entered.push(binder.place)?;
        self.scope.enter(Entry {
            mark,
            ownership,
            level,
        })?;
        Ok(())
    }

    /// Into a bound expression. An error where no memory is left.
    pub fn deepen(&mut self) -> Result<(), NoMemory>
        ensures deeper { OnOk result (self.new ≡ deepened self.old) }
    {
        let kept = self.kept();
        self.around.push(kept)?;
        Ok(())
    }

    /// Out of a bound expression, before which the walk was there. E54: the variable of a borrowing occurrence that
    /// waits was used up in it.
    pub fn surface(&mut self, kept: Kept) -> Result<(), NoMemory>
        requires { kept.level ≤ self.old.walked.level }
        ensures surfaced { OnOk result (self.new ≡ surfaced kept.level kept.waiting kept.used self.old) }
    {
        note_exposed(
            &mut self.least,
            self.instance,
            &self.used,
            kept.used,
            &self.waiting,
            kept.waiting,
        )?;
        self.waiting.truncate(kept.waiting);
        self.around.truncate(kept.level);
        Ok(())
    }

    /// All but the first variables go out of scope. E52, in a fip instance: an owned one isn't used up on some path.
    pub fn leave(&mut self, kept: usize) -> Result<(), NoMemory>
        ensures left { OnOk result (self.new ≡ left_to kept self.old) }
    {
        while kept < self.in_scope() {
            self.leave_one()?;
        }
        Ok(())
    }

    // The last variable goes out of scope.
    fn leave_one(&mut self) -> Result<(), NoMemory>
        requires { 0 < length self.now.walked.scope }
        ensures { OnOk result (self.new ≡ left_to (length self.old.walked.scope - 1) self.old) }
    {
        if let Some(entry) = self.scope.pop() {
            let is_used = self.always.has(entry.mark.id);
            let is_missed = self.is_fip && (is_owned(entry.ownership) && !is_used);
            self.note_if(is_missed, Rule::E52, &entry.mark)?;
        }
        Ok(())
    }

    /// The first of some alternatives since then is at its end: what it used up is taken aside.
    pub fn first_way(&mut self, kept: Kept) -> Result<Ways, NoMemory>
        ensures aside { OnOk result (self.new ≡ aside kept.used kept.always self.old) }
        ensures used { IfOk result (λ w. w.used.items ≡ drop kept.used self.old.walked.used) }
        ensures always { IfOk result (λ w. w.always.items ≡ distinct (drop kept.always self.old.walked.always)) }
    {
        let mut used = Vec::new(self.alloc);
        self.used.append_since(kept.used, &mut used)?;
        let always = self.always.distinct_since(self.alloc, kept.always)?;
        self.take_aside(kept);
        Ok(Ways { used, always })
    }

    /// A further alternative since then is at its end: what it used up is taken aside too.
    pub fn further_way(&mut self, kept: Kept, ways: Ways) -> Result<Ways, NoMemory>
        ensures aside { OnOk result (self.new ≡ aside kept.used kept.always self.old) }
        ensures used { IfOk result (λ w. w.used.items ≡ ways.used.items ++ drop kept.used self.old.walked.used) }
        ensures always { IfOk result (λ w. w.always.items ≡ still kept.always self.old ways.always.items) }
    {
        let mut used = ways.used;
        self.used.append_since(kept.used, &mut used)?;
        let always = self
            .always
            .common_since(self.alloc, kept.always, &ways.always)?;
        self.take_aside(kept);
        Ok(Ways { used, always })
    }

    // What was used up since then is forgotten.
    fn take_aside(&mut self, kept: Kept)
        ensures { self.new ≡ aside kept.used kept.always self.old }
    {
        self.used.leave(kept.used);
        self.always.leave(kept.always);
    }

    /// All alternatives are at their ends: what they used up comes back.
    pub fn join(&mut self, ways: &Ways) -> Result<(), NoMemory>
        ensures back { OnOk result (self.new ≡ back ways.now.used.items ways.now.always.items self.old) }
    {
        self.used.extend(&ways.used)?;
        self.always.extend(&ways.always)
    }
}

fn is_owned(ownership: Ownership) -> bool
    ensures { result ≡ is_owned ownership }
{
    match ownership {
        Ownership::Scalar => false,
        Ownership::Borrowed => false,
        Ownership::Owned => true,
    }
}

// Whether a borrowing occurrence waits: of an owned variable that is bound outside of the bound expression.
fn is_waiting(ownership: Ownership, is_bare: bool) -> bool
    ensures { result ≡ (is_owned ownership && not is_bare) }
{
    is_owned(ownership) && !is_bare
}

// Notes the borrowing occurrences from a place on whose variables were used up after the first `kept` uses.
#[tactic(auto, using(crate::proofs::Shared::noting))]
fn note_exposed(
    least: &mut Least,
    instance: usize,
    used: &Log,
    kept: usize,
    marks: &[Mark<'_>],
    from: usize,
) -> Result<(), NoMemory>
    ensures { OnOk result (least.new ≡ after least.old (map reported
        (exposed instance (drop from (map mark_of marks.now)) (drop kept used.now)))) }
{
    if from <= marks.len() {
        for mark in &marks[from..] {
            if used.has_since(kept, mark.id) {
                least.note(Rule::E54, mark.place, instance, 0, mark.name)?;
            }
        }
    }
    Ok(())
}
