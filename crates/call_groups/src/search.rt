// Groups of functions that call each other, by one search in depth. The functions on the way from where the search
// began are on a path, which is cut into pieces whose functions reach each other. A call back into the path joins
// the pieces from there on. Where all calls of the last piece were followed, it is a group. (H. N. Gabow, Path-based
// depth-first search for strong and biconnected components, Information Processing Letters 74, 2000.)
ghost use Rattle.std.specs.Prelude.{◌≡◌, ◌↔◌, ◌+◌, ◌<◌, ◌≤◌, [], ◌∷◌, ◌++◌, length, set, slice_get, replicate};
ghost use Rattle.std.specs.Prelude.{IsTrue, IfOk, OnOk, MatchOption};
ghost use Rattle.call_groups.specs.CallGraph.{rows, IsPartition, group_number};
ghost use Rattle.call_groups.specs.CallGraph as G;
ghost use Rattle.call_groups.specs.Search.{unmet, left, IsNew, Further, Rises, Joined, Cuts, IsSound, IsIdle, Meets};
ghost use Rattle.call_groups.specs.Search.{KeepsRest, Groups, Leaves, IsDone, IsCalling, Settled, EndsIn, CallsAt};
ghost use Rattle.call_groups.specs.declared.search.Standing.TheVariants.{New};

use fip_base::plain::NoMemory;
use std::alloc::Global;

/// A call: the number of the function that is called, and whether the caller's frame waits for it, as it does outside
/// tail position.
#[derive(Clone, Copy, PartialEq, Eq)]
pub struct Call {
    pub callee: usize,
    pub waits: bool,
}

/// How far the search is with a function.
#[derive(Clone, Copy, PartialEq, Eq)]
pub enum Standing {
    /// It wasn't met yet.
    New,
    /// It is on the path, in this place.
    OnPath(usize),
    /// It belongs to the group of this number.
    Grouped(usize),
}

/// Functions by groups: two are of one group exactly where each reaches the other by calls, or they are one.
#[derive(Drop)]
pub struct Partition {
    standings: Vec<Standing>,
    order: Vec<usize>,
}

impl Partition {
    /// The number of a function's group. A call never leads to a group of a greater number. A function that isn't there
    /// is a group of its own, whose number is the function's.
    pub fn group_of(&self, function: usize) -> usize
        ensures { result ≡ group_number self.now function }
    {
        match self.standings.get(function) {
            Some(Standing::Grouped(group)) => *group,
            _ => function,
        }
    }

    /// The functions, group by group, the groups in order of their numbers. The number of a group is the place of its
    /// first function.
    pub fn order(&self) -> &[usize]
        ensures { result.now ≡ self.now.order.items }
    {
        self.order.as_slice()
    }
}

/// The groups of the functions that these are the calls of. A call of a function that isn't there leads nowhere. Each
/// call is followed once, without recursion. NoMemory: no memory is left.
pub fn partition_of(alloc: Global, calls: &[Vec<Call>]) -> Result<Partition, NoMemory>
    ensures groups { IfOk result (λ p. IsPartition (rows calls.now) p) }
{
    let mut search = Search::new(alloc, calls)?;
    for function in 0..calls.len() {
        search.from(calls, function)?;
    }
    Ok(Partition {
        standings: search.standings,
        order: search.order,
    })
}

// A function whose calls are followed: its place on the path, and the number of its next call.
#[derive(Clone, Copy)]
struct Visit {
    function: usize,
    place: usize,
    next: usize,
}

// Where the search is.
#[derive(Drop)]
struct Search {
    standings: Vec<Standing>,
    path: Vec<usize>,
    // Where the pieces of the path begin.
    pieces: Vec<usize>,
    // The functions whose calls are followed, the last one now.
    visits: Vec<Visit>,
    // The functions of the groups that are found.
    order: Vec<usize>,
}

// A call of a new function: the function, and the number of the call after it.
#[derive(Clone, Copy)]
struct Step {
    callee: usize,
    next: usize,
}

impl Search {
    fn new(alloc: Global, calls: &[Vec<Call>]) -> Result<Search, NoMemory>
        ensures { IfOk result (λ s. IsIdle (rows calls.now) s) }
    {
        Ok(Search {
            standings: all_new(alloc, calls.len())?,
            path: Vec::new(alloc),
            pieces: Vec::new(alloc),
            visits: Vec::new(alloc),
            order: Vec::new(alloc),
        })
    }

    // Whether a function is there and wasn't met yet.
    fn is_new(&self, function: usize) -> bool
        ensures { IsTrue result ↔ IsNew self.now.standings.items function }
    {
        match self.standings.get(function) {
            Some(Standing::New) => true,
            _ => false,
        }
    }

    // Searches from a function, if it wasn't met yet.
    fn from(&mut self, calls: &[Vec<Call>], function: usize) -> Result<(), NoMemory>
        requires { IsIdle (rows calls.now) self.old }
        ensures idle { OnOk result (IsIdle (rows calls.now) self.new) }
        ensures met { OnOk result (IsNew self.new.standings.items function → ⊥) }
        ensures further { OnOk result (Further self.old.standings.items self.new.standings.items) }
    {
        if !self.is_new(function) {
            return Ok(());
        }
        self.meet(function)?;
        while let Some(visit) = self.visits.pop() {
            self.advance(calls, visit)?;
        }
        Ok(())
    }

    // A new function becomes the last one of the path, in a piece of its own.
    fn meet(&mut self, function: usize) -> Result<(), NoMemory>
        requires { IsNew self.old.standings.items function }
        ensures meets { OnOk result (Meets self.old self.new function) }
        ensures met { OnOk result (unmet self.new.standings.items < unmet self.old.standings.items) }
        ensures visits { OnOk result (length self.new.visits.items ≡ length self.old.visits.items + 1) }
    {
        let place = self.path.len();
        self.path.push(function)?;
        self.pieces.push(place)?;
        self.visits.push(Visit {
            function,
            place,
            next: 0,
        })?;
        put(&mut self.standings, function, Standing::OnPath(place));
        Ok(())
    }

    // Follows a function's calls up to one of a new function, or to the end.
    fn advance(&mut self, calls: &[Vec<Call>], visit: Visit) -> Result<(), NoMemory>
        requires { IsSound (rows calls.now) self.old (self.old.visits.items ++ visit ∷ []) }
        ensures sound { OnOk result (IsSound (rows calls.now) self.new self.new.visits.items) }
        ensures further { OnOk result (Further self.old.standings.items self.new.standings.items) }
        ensures less { OnOk result (left self.new.standings.items self.new.visits.items
            ≤ left self.old.standings.items self.old.visits.items) }
    {
        match self.follow(calls, visit) {
            Some(step) => {
                self.visits.push(Visit {
                    function: visit.function,
                    place: visit.place,
                    next: step.next,
                })?;
                self.meet(step.callee)
            }
            None => self.leave(visit.place),
        }
    }

    // The first call that wasn't followed yet and is one of a new function. Those before it that lead into the path
    // join its pieces.
    fn follow(&mut self, calls: &[Vec<Call>], visit: Visit) -> Option<Step>
        requires { IsSound (rows calls.now) self.old (self.old.visits.items ++ visit ∷ []) }
        ensures found { MatchOption result
            (IsDone (rows calls.now) self.new visit.function visit.place)
            (λ s. IsCalling (rows calls.now) self.new visit.function visit.place s.callee s.next) }
        ensures same { KeepsRest self.old self.new }
    {
        let row = calls_of(calls, visit.function);
        for at in visit.next..row.len() {
            let callee = callee_at(row, at);
            if self.is_new(callee) {
                return Some(Step {
                    callee,
                    next: at + 1,
                });
            }
            self.settle(callee);
        }
        None
    }

    // Follows a call of a function that isn't new.
    fn settle(&mut self, callee: usize)
        requires { Rises self.old.pieces.items }
        ensures settled { Settled self.old self.new callee }
        ensures same { KeepsRest self.old self.new }
    {
        match self.standings.get(callee) {
            Some(Standing::OnPath(place)) => join(&mut self.pieces, *place),
            Some(Standing::New) => {}
            Some(Standing::Grouped(_)) => {}
            None => {}
        }
    }

    // All calls of the function in this place were followed. Where it began the last piece, that is a group.
    fn leave(&mut self, place: usize) -> Result<(), NoMemory>
        ensures leaves { OnOk result (Leaves self.old self.new place) }
        ensures met { OnOk result (unmet self.new.standings.items ≤ unmet self.old.standings.items) }
        ensures visits { OnOk result (self.new.visits.items ≡ self.old.visits.items) }
    {
        if self.ends_at(place) {
            self.pieces.pop();
            self.group_from(place)
        } else {
            Ok(())
        }
    }

    // Whether the last piece begins in this place.
    #[tactic(auto, using(crate::proofs::Ends::ends_by, crate::proofs::Ends::ends_none))]
    fn ends_at(&self, place: usize) -> bool
        ensures { EndsIn result self.now.pieces.items place }
    {
        let count = self.pieces.len();
        if count == 0 {
            return false;
        }
        self.pieces[count - 1] == place
    }

    // The functions from a place of the path on become a group.
    fn group_from(&mut self, place: usize) -> Result<(), NoMemory>
        ensures groups { OnOk result (Groups self.old self.new place) }
        ensures pieces { OnOk result (self.new.pieces.items ≡ self.old.pieces.items) }
        ensures met { OnOk result (unmet self.new.standings.items ≤ unmet self.old.standings.items) }
        ensures visits { OnOk result (self.new.visits.items ≡ self.old.visits.items) }
    {
        let group = self.order.len();
        for at in place..self.path.len() {
            let function = self.path[at];
            put(&mut self.standings, function, Standing::Grouped(group));
            self.order.push(function)?;
        }
        self.path.truncate(place);
        Ok(())
    }
}

// The function that the call in this place of a row calls.
fn callee_at(row: &[Call], at: usize) -> usize
    requires { at < length row.now }
    ensures { CallsAt row.now at result }
{
    row[at].callee
}

// None of so many functions was met yet.
fn all_new(alloc: Global, count: usize) -> Result<Vec<Standing>, NoMemory>
    ensures { IfOk result (λ v. v.items ≡ replicate count New) }
{
    let mut standings = Vec::new(alloc);
    standings.resize(count, Standing::New)?;
    Ok(standings)
}

// Writes how far the search is with a function.
fn put(standings: &mut Vec<Standing>, function: usize, standing: Standing)
    ensures { standings.new.items ≡ set standings.old.items function standing }
{
    if function < standings.len() {
        standings[function] = standing;
    }
}

/// A function's calls; none where there is no such function.
pub fn calls_of<'a>(calls: &'a [Vec<Call>], function: usize) -> &'a [Call]
    ensures { result.now ≡ G.calls_of (rows calls.now) function }
{
    match calls.get(function) {
        Some(found) => found.as_slice(),
        None => &[],
    }
}

// The pieces from the one with this place of the path on become one.
fn join(pieces: &mut Vec<usize>, place: usize)
    requires { Rises pieces.old.items }
    ensures { Joined pieces.old.items pieces.new.items place }
{
    let kept = kept_to(pieces, place);
    pieces.truncate(kept);
}

// How many pieces begin at or before a place.
fn kept_to(pieces: &[usize], place: usize) -> usize
    requires { Rises pieces.now }
    ensures { Cuts pieces.now place result }
{
    let mut kept = pieces.len();
    while kept > 0 {
        if pieces[kept - 1] <= place {
            return kept;
        }
        kept -= 1;
    }
    kept
}
