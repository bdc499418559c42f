// The theorems of sessions and of lists of tasks. Each is the contract of a function that does nothing.
ghost use Rattle.std.specs.Prelude.{◌≡◌, ℕ, List};
ghost use Rattle.command_outcome.specs.fip_language.Core.{Name};
ghost use Rattle.session_semantics.specs.Lines.{Line, Parts, SpellsLine, SpellsTask, lines_of};
ghost use Rattle.session_semantics.specs.Talk.{Talks, at_first};
ghost use Rattle.session_semantics.specs.Example.{setting, spoken, replied};

/// A line of a session has one form at most. For who writes lines by a program.
#[tactic(auto, using(crate::proofs::OneForm::line_once))]
pub fn a_line_has_one_form()
    ensures theorem { (bytes : List ℕ) (a b : Line) → SpellsLine bytes a → SpellsLine bytes b → a ≡ b }
{}

/// A line of a list of tasks calls one function at most, with one list of values.
#[tactic(auto, using(crate::proofs::OneForm::task_entry_once, crate::proofs::OneForm::task_values_once))]
pub fn a_task_has_one_form()
    ensures entry { (bytes : List ℕ) (f g : Name) (v w : Parts) → SpellsTask bytes f v → SpellsTask bytes g w →
        f ≡ g }
    ensures values { (bytes : List ℕ) (f g : Name) (v w : Parts) → SpellsTask bytes f v → SpellsTask bytes g w →
        v ≡ w }
{}

/// The session of the examples has the replies that it is said to have: a list is made, shown, given up and gone.
#[tactic(auto, using(crate::proofs::Examples::session_talks))]
pub fn an_example_talks()
    ensures theorem { Talks setting at_first (lines_of spoken) replied }
{}
