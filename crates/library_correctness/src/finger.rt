// The theorems on `finger`.
ghost use Rattle.std.specs.Prelude.{ℕ, ◌<◌, ◌^◌};
ghost use Rattle.fip_language.specs.Table.{HasType};
ghost use Rattle.fip_language.specs.Values.{Value};
ghost use Rattle.instance_semantics.specs.Meaning.{flat_meaning};
ghost use Rattle.evaluation_steps.specs.Gives.{nodes, one};
ghost use Rattle.library_correctness.specs.Bounds.{Suffice};
ghost use Rattle.library_programs.specs.FingerProgram.{finger_program};
ghost use Rattle.library_correctness.specs.Sequences.{Sequence, sequence_value, GivesNeed, IsSequence};

/// Each value of the type `seq` is that of a sequence. So the theorem below is on all arguments.
#[tactic(auto, using(crate::proofs::SequenceTypes::sequence_of))]
pub fn arguments_are_sequences()
    ensures sequences { (v : Value) → HasType finger_program.types 2 v → IsSequence v }
{}

/// `need` gives a number that is at least 0, and at most 3 more than the sequence has nodes More on its spine.
#[tactic(auto, using(crate::proofs::Need::need_gives))]
pub fn need_is_bounded()
    ensures value { (s : Sequence) (calls frames : ℕ) → nodes (sequence_value s) < 2 ^ 60 →
        Suffice (one (sequence_value s)) calls frames →
        GivesNeed s (flat_meaning finger_program 0 (one (sequence_value s)) calls frames).answer }
{}
