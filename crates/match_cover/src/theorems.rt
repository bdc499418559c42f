// Theorems of coverage.
ghost use Rattle.std.specs.Prelude.{◌≡◌, ℕ, List};
ghost use Rattle.fip_language.specs.Table.{Table};
ghost use Rattle.match_knowledge.specs.ValueHeads.{IsTidy};
ghost use Rattle.match_knowledge.specs.Patterns.{Pattern};
ghost use Rattle.match_knowledge.specs.Left.{Missed, Reached};
ghost use Rattle.match_cover.specs.Missing.{IsMissingOf};

/// Some value of the missing pattern is matched by no clause, and a match has one missing pattern.
pub fn missing_values_are_unmatched()
    ensures value { (tb : Table) (t : ℕ) (ps : List Pattern) (q : Pattern) → IsTidy tb → Missed tb t ps →
        IsMissingOf tb t ps q → Reached tb t ps q }
    ensures one { (tb : Table) (t : ℕ) (ps : List Pattern) (q r : Pattern) → IsMissingOf tb t ps q →
        IsMissingOf tb t ps r → q ≡ r }
{}
