// Tasks in one store.
ghost use Rattle.std.specs.Prelude.{◌≡◌, ◌≢◌, ℕ, ◌<◌, List, [], ◌∷◌, ◌++◌, length, IfOk, All, Some, slice_get, replicate, true};
ghost use Rattle.code_verify.specs.cell_code.Plain.{plain};
ghost use Rattle.task_semantics.specs.machine_semantics.Steps.{Kinds};
ghost use Rattle.code_verify.specs.Checked.{Checked};
ghost use Rattle.fip_machine.specs.machine_cells.Small.{store_of};
ghost use Rattle.task_semantics.specs.Schedules.{Shared, turn, scheduled};
ghost use Rattle.fip_tasks.specs.Followed.{HaveFollowed};
ghost use Rattle.fip_tasks.specs.Gauged.{HasCounted, HoldsAtStart, IsGaugeOf};
ghost use Rattle.fip_tasks.specs.Turns.{CanStart, Standing};
ghost use Rattle.fip_tasks.specs.Shown.{Shows, CanTurn, CanFinish, AreStarted, turned_by};

use crate::task::{Start, Task, Turned};
use cell_store::{Loader, Sealed, seal};
use code_verify::Verified;
use fip_base::plain::NoMemory;
use fip_machine::{Ended, Gauge};
use std::alloc::Global;
use std::marker::Model;

/// Tasks that take turns over one store, each on cells of its own. A turn is one instruction of one task. What a task
/// comes to is what it would come to alone, whatever turns the others take.
#[derive(Drop)]
pub struct Tasks<'a> {
    tasks: Vec<Task<'a>>,
    cells: Sealed,
}

impl<'a> Model for Tasks<'a> {
    ghost use Rattle.std.specs.Prelude.{map};
    ghost use Rattle.fip_machine.specs.machine_cells.Small.{store_of};
    ghost use Rattle.fip_tasks.specs.Landing.{standing};
    ghost use Rattle.fip_tasks.specs.Turns.{Turns};

    ghost Value = { Turns };

    ghost view = { λ t. record {
      tasks = map standing t.tasks.items;
      store = store_of t.cells.cells t.cells.released;
      pushed = t.cells.pushed;
    } };
}

impl<'a> Tasks<'a> {
    /// The tasks at their starts, numbered from 0. The loader has all their cells, and is sealed. All memory is
    /// taken: no later call takes any. An error where it is not there.
    pub fn new(
        alloc: Global,
        verified: &'a Verified,
        loader: Loader,
        starts: &[Start],
    ) -> Result<Tasks<'a>, NoMemory>
        requires can { All (CanStart verified.now) starts.now }
        ensures number { IfOk result (λ t. length t.tasks ≡ length starts.now) }
        // They stand where the functions are loaded, each with its words.
        ensures first { IfOk result (λ t. (shared : Shared) → AreStarted verified.now
            (store_of loader.cells loader.released) starts.now shared → Shows verified.now t shared) }
        // They have followed a schedule without a turn.
        ensures followed { IfOk result (λ t. (kinds : Kinds) (first : Shared) → AreStarted verified.now
            (store_of loader.cells loader.released) starts.now first → HaveFollowed verified.now kinds first [] t) }
        // At its start each holds the cells of its arguments and credits.
        ensures started { IfOk result (λ t. (k : ℕ) (b : Start) (a : Standing) → slice_get starts.now k ≡ Some b →
            slice_get t.tasks k ≡ Some a → HoldsAtStart verified.now loader.cells b a.started) }
    {
        Tasks::begin(alloc, verified, loader, starts, true)
    }

    /// The tasks at their starts, as `new` has them, for who asks for no gauge: the cells of their arguments and credits
    /// aren't counted, so that a gauge has none of them.
    pub fn uncounted(
        alloc: Global,
        verified: &'a Verified,
        loader: Loader,
        starts: &[Start],
    ) -> Result<Tasks<'a>, NoMemory>
        requires can { All (CanStart verified.now) starts.now }
        ensures number { IfOk result (λ t. length t.tasks ≡ length starts.now) }
        ensures first { IfOk result (λ t. (shared : Shared) → AreStarted verified.now
            (store_of loader.cells loader.released) starts.now shared → Shows verified.now t shared) }
        ensures followed { IfOk result (λ t. (kinds : Kinds) (first : Shared) → AreStarted verified.now
            (store_of loader.cells loader.released) starts.now first → HaveFollowed verified.now kinds first [] t) }
    {
        Tasks::begin(alloc, verified, loader, starts, false)
    }

    // The tasks at their starts, whose cells are counted if so wanted.
    fn begin(
        alloc: Global,
        verified: &'a Verified,
        loader: Loader,
        starts: &[Start],
        counts: bool,
    ) -> Result<Tasks<'a>, NoMemory>
        requires can { All (CanStart verified.now) starts.now }
        ensures number { IfOk result (λ t. length t.tasks ≡ length starts.now) }
        ensures first { IfOk result (λ t. (shared : Shared) → AreStarted verified.now
            (store_of loader.cells loader.released) starts.now shared → Shows verified.now t shared) }
        ensures followed { IfOk result (λ t. (kinds : Kinds) (first : Shared) → AreStarted verified.now
            (store_of loader.cells loader.released) starts.now first → HaveFollowed verified.now kinds first [] t) }
        ensures started { IfOk result (λ t. counts ≡ true → (k : ℕ) (b : Start) (a : Standing) →
            slice_get starts.now k ≡ Some b → slice_get t.tasks k ≡ Some a →
            HoldsAtStart verified.now loader.cells b a.started) }
    {
        let _left = loader.left();
        let cells = seal(loader);
        let mut tasks = Vec::new(alloc);
        for start in starts {
            tasks.push(Task::new(alloc, verified, &cells, start, counts)?)?;
        }
        Ok(Tasks { tasks, cells })
    }

    /// How many tasks there are.
    pub fn len(&self) -> usize
        ensures number { result ≡ length self.now.tasks }
    {
        self.tasks.len()
    }

    /// Does one instruction of task `k`. A task that would call and has no call left ends as Out. Once it has ended, it
    /// answers its end again and changes nothing.
    pub fn turn(&mut self, k: usize) -> Turned
        requires there { k < length self.old.tasks }
        ensures number { length self.new.tasks ≡ length self.old.tasks }
        // Tasks that stand where the runs of a schedule do stand where they do after one turn more,
        ensures turn { (v : Checked) (kinds : Kinds) (shared : Shared) → Shows v self.old shared →
            CanTurn v kinds shared k → Shows v self.new (turn kinds (plain v.code) shared k) }
        // and those that followed a schedule have followed one with this turn more,
        ensures followed { (v : Checked) (kinds : Kinds) (first : Shared) (schedule : List ℕ) →
            HaveFollowed v kinds first schedule self.old →
            CanTurn v kinds (scheduled kinds (plain v.code) schedule first) k →
            HaveFollowed v kinds first (schedule ++ k ∷ []) self.new }
        // what its turn released is counted, for its gauge, and the others stay as they are,
        ensures counted { (a b : Standing) → slice_get self.old.tasks k ≡ Some a → slice_get self.new.tasks k ≡ Some b →
            HasCounted a self.old.store b self.new.store }
        ensures others { (j : ℕ) → j ≢ k → slice_get self.new.tasks j ≡ slice_get self.old.tasks j }
        // and the answer reports whether the task has ended, and how.
        ensures reported { (a : Standing) → slice_get self.new.tasks k ≡ Some a → result ≡ turned_by a.ended }
    {
        self.tasks[k].turn(&mut self.cells)
    }

    /// Takes turns of task `k` to its end, and answers that.
    pub fn finish(&mut self, k: usize) -> Ended
        requires there { k < length self.old.tasks }
        ensures number { length self.new.tasks ≡ length self.old.tasks }
        // Tasks that stand where the runs of a schedule do stand where they do after some more turns of this task,
        ensures turns { (v : Checked) (kinds : Kinds) (shared : Shared) → Shows v self.old shared →
            CanFinish v kinds shared k →
            (n : ℕ) × Shows v self.new (scheduled kinds (plain v.code) (replicate n k) shared) }
        // and those that followed a schedule have followed one with these turns more,
        ensures followed { (v : Checked) (kinds : Kinds) (first : Shared) (schedule : List ℕ) →
            HaveFollowed v kinds first schedule self.old →
            CanFinish v kinds (scheduled kinds (plain v.code) schedule first) k →
            (n : ℕ) × HaveFollowed v kinds first (schedule ++ replicate n k) self.new }
        // what they released is counted, and the others stay as they are,
        ensures counted { (a b : Standing) → slice_get self.old.tasks k ≡ Some a → slice_get self.new.tasks k ≡ Some b →
            HasCounted a self.old.store b self.new.store }
        ensures others { (j : ℕ) → j ≢ k → slice_get self.new.tasks j ≡ slice_get self.old.tasks j }
        // and the task has ended.
        ensures reported { (a : Standing) → slice_get self.new.tasks k ≡ Some a → a.ended ≡ Some result }
    {
        self.tasks[k].finish(&mut self.cells)
    }

    /// How task `k` ended; none while it goes on.
    pub fn answer(&self, k: usize) -> Option<Ended>
        requires there { k < length self.now.tasks }
        ensures ended { (a : Standing) → slice_get self.now.tasks k ≡ Some a → result ≡ a.ended }
    {
        self.tasks[k].ended()
    }

    /// The words of the results of task `k`, after Value.
    pub fn results(&self, k: usize) -> &[u64]
        requires there { k < length self.now.tasks }
        ensures given { (a : Standing) → slice_get self.now.tasks k ≡ Some a → result.now ≡ a.stack.given }
    {
        self.tasks[k].results()
    }

    /// The gauge of the states that task `k` was in: it counts the cells of this task alone. Its highest numbers are
    /// those of the start, its lowest those that its turns have left.
    pub fn gauge(&self, k: usize) -> Gauge
        requires there { k < length self.now.tasks }
        ensures reports { (a : Standing) → slice_get self.now.tasks k ≡ Some a → IsGaugeOf a result }
    {
        self.tasks[k].gauge()
    }

    /// The cells of all tasks, as they are now.
    pub fn cells(&self) -> &Sealed
        ensures cells { store_of result.now.cells result.now.released ≡ self.now.store }
    {
        &self.cells
    }
}
