// The theorems of code files. Each is the contract of a function that does nothing.
ghost use Rattle.std.specs.Prelude.{◌≡◌, ℕ, List, [], ◌++◌};
ghost use Rattle.code_file.specs.declared.tags.Version.{Version as a_version};
ghost use Rattle.cell_code.specs.Plain.{PlainCode};
ghost use Rattle.code_file.specs.CodeText.{CodeText};

/// A code has one code file at most in each version, and a code file is that of one code, in one version. For who
/// compares code files.
#[tactic(auto, using(crate::proofs::Whole::one_spelling, crate::proofs::Whole::one_code))]
pub fn a_code_has_one_file()
    ensures file { (v : a_version) (c : PlainCode) (text other : List ℕ) → CodeText text v c →
        CodeText other v c → text ≡ other }
    ensures code { (text : List ℕ) (v w : a_version) (c d : PlainCode) → CodeText text v c → CodeText text w d →
        (v ≡ w) × (c ≡ d) }
{}

/// No code file begins another one, of whatever versions they are. For who finds a code file in front of other bytes.
#[tactic(auto, using(crate::proofs::Whole::no_front))]
pub fn no_file_begins_another()
    ensures theorem { (text more : List ℕ) (v w : a_version) (c d : PlainCode) → CodeText text v c →
        CodeText (text ++ more) w d → more ≡ [] }
{}
