// The theorems of lists of tasks. Each is the contract of a function that does nothing.
ghost use Rattle.std.specs.Prelude.{◌≡◌, ℕ, List, Result};
ghost use Rattle.command_words.specs.Words.{Room};
ghost use Rattle.command_outcome.specs.declared.failure.Failure.{Failure};
ghost use Rattle.command_session.specs.command_run.command_source.Wanted.{Lawful, IsReady};
ghost use Rattle.command_tasks.specs.TasksAnswer.{TakesTurns};

/// A list of tasks of a source ends in one thing at most: in one text, or in one bad line, or in two numbers that
/// report that the store is too small; and then the source breaks no rule. For who compares what two runs print.
pub fn a_list_of_tasks_comes_to_one_thing()
    ensures one { (source input : List ℕ) (room : Room) (d e : Result (List ℕ) Failure) →
        TakesTurns source input room d → TakesTurns source input room e → d ≡ e }
    ensures ready { (source input : List ℕ) (room : Room) (e : Result (List ℕ) Failure) →
        TakesTurns source input room e → IsReady source Lawful }
{}
