// The theorems on safe runs. Each is the contract of a function that does nothing.
ghost use Rattle.std.specs.Prelude.{◌≡◌, ℕ, List, [], None, Some, slice_get};
ghost use Rattle.fip_machine.specs.cell_code.declared.code.Function.{Function};
ghost use Rattle.fip_machine.specs.cell_store.Made.{Loading};
ghost use Rattle.fip_machine.specs.code_verify.Checked.{HasMachineInts};
ghost use Rattle.fip_machine.specs.declared.machine.Ended.{Ended};
ghost use Rattle.fip_machine.specs.Ending.{KnowsRun, RunsTo, IsSafeRun};
ghost use Rattle.fip_machine.specs.Machines.{Seen};
ghost use Rattle.fip_machine.specs.Tasks.{Stand, state_with};
ghost use Rattle.fip_machine.specs.machine_cells.Small.{IsSmall, store_of};
ghost use Rattle.separation.specs.machine_semantics.Cells.{Store, IsStore};
ghost use Rattle.separation.specs.machine_semantics.Runs.{loaded};
ghost use Rattle.separation.specs.machine_semantics.States.{Typed, State};
ghost use Rattle.separation.specs.machine_semantics.Steps.{Kinds};
ghost use Rattle.separation.specs.code_rules.Breaks.{IsSound};
ghost use Rattle.separation.specs.cell_code.Plain.{plain};
ghost use Rattle.value_text.specs.Loaded.{types_of, IsLoaded};
ghost use Rattle.run_safety.specs.Safe.{IsSafeTask};

/// A task of sound code that is where its function begins on what was loaded from a text is safe, whatever cells
/// were in the store before.
pub fn a_task_on_a_loaded_text_is_safe()
    ensures theorem { (t : Stand) (n : ℕ) (f : Function) (text : List ℕ) (old new : Loading) (words : List ℕ)
        (frames : ℕ) (s : State) → IsSound (plain t.code.code) → HasMachineInts (plain t.code.code) →
        slice_get t.code.code.functions.items n ≡ Some f → IsStore (store_of new.cells new.released) →
        IsLoaded t.code.code.types (types_of f.params) f.credits.items text old new words →
        loaded (plain t.code.code) n (store_of new.cells new.released) words frames ≡ Some s →
        state_with t s.lent (store_of new.cells new.released) ≡ s → IsSafeTask t (store_of new.cells new.released) }
{}

/// A safe task that goes on reaches no instruction that can't be done, however many calls it has, and what its run
/// leaves is safe again.
pub fn a_safe_task_stays_safe()
    ensures run { (m : Seen) (calls : ℕ) → IsSound (plain m.stack.code.code) →
        HasMachineInts (plain m.stack.code.code) → m.stack.ended ≡ None → IsSmall m.store.cells → m.pushed ≡ [] →
        IsSafeTask m.stack m.store → IsSafeRun m calls }
    ensures left { (t u : Stand) (s w : Store) (calls : ℕ) (e : Ended) → IsSound (plain t.code.code) →
        HasMachineInts (plain t.code.code) → u.code ≡ t.code → IsSafeTask t s → ((kinds : Kinds) (lent : List Typed) →
        KnowsRun t.code kinds (state_with t lent s) calls →
        RunsTo kinds (plain t.code.code) (state_with t lent s) calls e (state_with u lent w) u.given) →
        IsSafeTask u w }
{}
