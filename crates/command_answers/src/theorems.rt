// The theorems of answers. Each is the contract of a function that does nothing.
ghost use Rattle.std.specs.Prelude.{◌≡◌, ◌⊎◌, ℕ, List, Bool};
ghost use Rattle.fip_outside.specs.Files.{File};
ghost use Rattle.command_library.specs.command_words.Words.{Command, Room, IsCommand};
ghost use Rattle.command_library.specs.command_run.ExecAnswer as R;
ghost use Rattle.command_library.specs.GenAnswer as M;
ghost use Rattle.command_answers.specs.Answer.{ComesTo};
ghost use Rattle.command_answers.specs.Exec.{End as an_end, Execs};
ghost use Rattle.command_answers.specs.Generating.{Generates};
ghost use Rattle.command_answers.specs.Open.{IsOpen};

/// Words ask for one command at most, and a command ends with one thing, but where two codes of an accepted source may
/// differ: of two ends of `compile` that aren't the same one is E61, which is only where some code of the source has no
/// file that isn't too long, and of `trace` one is E75, only where the trace of some code's run can't be stored. For who
/// compares two calls.
pub fn a_command_ends_with_one_thing()
    ensures words { (words : List (List ℕ)) (c d : Command) → IsCommand words c → IsCommand words d → c ≡ d }
    ensures ends { (files : List File) (input : List ℕ) (c : Command) (d e : an_end) → ComesTo files input c d →
        ComesTo files input c e → (d ≡ e) ⊎ IsOpen files input c d e }
    ensures executes { (source name input : List ℕ) (room : Room) (gauge : Bool) (d e : an_end) →
        Execs source name input room gauge d → Execs source name input room gauge e → d ≡ e }
{}

/// What the run of an entry's code ends in is what evaluation on trees gives, gauge included; and what `gen` reports of
/// the run of the library's `build` is what is reported of the drawn keys. For who asks what a code has to do with an
/// answer.
pub fn a_run_is_reported_by_trees()
    ensures executes { (source name input : List ℕ) (room : Room) (gauge : Bool) (e : an_end) →
        R.Execs source name input room gauge e → Execs source name input room gauge e }
    ensures generates { (seed count : ℕ) (e : an_end) → M.Generates seed count e → Generates seed count e }
{}
