// The theorems of the definitions. Each is the contract of a function that does nothing.
ghost use Rattle.std.specs.Prelude.{◌≡◌, ℕ, Some};
ghost use Rattle.machine_semantics.specs.fip_language.Meaning.{Answer, Gives, Trap, Out, Deep};
ghost use Rattle.machine_semantics.specs.fip_language.Values.{End, More};
ghost use Rattle.machine_semantics.specs.fip_language.declared.TrapKind.TheVariants.{Overflow};
ghost use Rattle.machine_semantics.specs.fip_language.Example.{empty, pair, three, three_reversed};
ghost use Rattle.machine_semantics.specs.cell_code.Plain.{PlainCode};
ghost use Rattle.tree_semantics.specs.States.{State};
ghost use Rattle.tree_semantics.specs.Runs.{Run, Going, Over, Steps, later, after, begun, entry, Ending, ending};
ghost use Rattle.tree_semantics.specs.Example.{lists, great};

/// At most one step leads on from a run, and from one that isn't over one does. For who steps the machine: there is
/// nothing to choose.
pub fn a_tree_run_has_one_next_step()
    ensures one { (code : PlainCode) (r s t : Run) → Steps code r s → Steps code r t → s ≡ t }
    ensures some { (code : PlainCode) (s : State) (left steps : ℕ) →
        Steps code (Going s left steps) (later code (Going s left steps)) }
{}

/// No step leads on from a run that is over, and it stays as it is. For who asks a run twice how it ended.
pub fn an_ended_tree_run_has_no_step()
    ensures none { (code : PlainCode) (a : Answer) (s : State) (left steps : ℕ) (t : Run) →
        Steps code (Over a s left steps) t → ⊥ }
    ensures stays { (code : PlainCode) (n : ℕ) (a : Answer) (s : State) (left steps : ℕ) →
        after code n (Over a s left steps) ≡ Over a s left steps }
{}

/// The code of `rev` and `inc`. `rev` of three items with 10 calls leaves 6 after 15 steps; `inc` of them waits in
/// three frames, and with two it is too deep, unless it is out of calls before; a sum that is too great is a trap at
/// its `+`. So these runs end as the meaning of the two does. For who wants to see the numbers.
pub fn an_example_runs_on_trees()
    ensures reversed { ending (after lists 15 (begun (entry 0 (pair three empty) 0) 10))
        ≡ Some (record { answer = Gives (More three_reversed End) 6; steps = 15 }) }
    ensures deep { ending (after lists 30 (begun (entry 1 (More three End) 2) 10))
        ≡ Some (record { answer = Deep; steps = 15 }) }
    ensures out { ending (after lists 30 (begun (entry 1 (More three End) 2) 3))
        ≡ Some (record { answer = Out; steps = 15 }) }
    ensures traps { ending (after lists 30 (begun (entry 1 great 3) 10))
        ≡ Some (record { answer = Trap Overflow 3 77; steps = 4 }) }
{}
