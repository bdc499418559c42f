// The theorems on the run of an input. Each is the contract of a function that does nothing.
ghost use Rattle.std.specs.Prelude.{◌≡◌, ℕ, List};
ghost use Rattle.fip_language.specs.SoundTable.{IsSoundTable};
ghost use Rattle.command_words.specs.Words.{Room};
ghost use Rattle.trace_files.specs.run_loading.TraceText.{Trace as a_trace};
ghost use Rattle.command_run.specs.code_rules.Breaks.{IsSound};
ghost use Rattle.code_verify.specs.cell_code.Plain.{PlainCode};
ghost use Rattle.command_run.specs.separation.Codes.{HasLiterals};
ghost use Rattle.command_run.specs.LoadedRun.{InputRun};
ghost use Rattle.command_trace.specs.TraceAnswer.{IsRunTrace};

/// An input has one run of a function of sound code, from where its values are loaded: it ends in one way, in one last
/// state, place by place, and has one trace. So a run leaves one store, and E75 is answered of a code exactly where its
/// trace has no file. For who reads what is left or traced.
pub fn an_input_has_one_run()
    ensures end { (c : PlainCode) (n : ℕ) (input : List ℕ) (room : Room) (r q : InputRun c n input room) → IsSound c →
        HasLiterals c → IsSoundTable c.types → (r.run.end ≡ q.run.end) × (r.run.last ≡ q.run.last) }
    ensures trace { (c : PlainCode) (n : ℕ) (input : List ℕ) (room : Room) (t u : a_trace) → IsSound c →
        HasLiterals c → IsSoundTable c.types → IsRunTrace c n input room t → IsRunTrace c n input room u → t ≡ u }
{}
