// The names of rules.
ghost use Rattle.std.specs.Prelude.{◌≡◌};
ghost use Rattle.derivation_text.specs.ProofText.{rule_text};
ghost use Rattle.derivation_text.specs.Machine.{rule_at};

use derivation_trees::RuleName;

/// The name of a rule in a text.
pub fn rule_text(rule: RuleName) -> &'static [u8]
    ensures { result.now ≡ rule_text rule }
{
    match rule {
        RuleName::Variable => b"VAR",
        RuleName::Scalar => b"SCALAR",
        RuleName::Tuple => b"TUPLE",
        RuleName::Atom => b"ATOM",
        RuleName::Reuse => b"REUSE",
        RuleName::Let => b"LET",
        RuleName::Call => b"CALL",
        RuleName::Match => b"MATCH",
        RuleName::TakingMatch => b"MATCH!",
        RuleName::Weaken => b"WEAKEN",
    }
}

/// The rule whose name begins with this byte. The first letters differ, but for the two kinds of matches: then it is
/// the one that only reads.
pub fn rule_at(first: u8) -> Option<RuleName>
    ensures { result ≡ rule_at first }
{
    match first {
        b'V' => Some(RuleName::Variable),
        b'S' => Some(RuleName::Scalar),
        b'T' => Some(RuleName::Tuple),
        b'A' => Some(RuleName::Atom),
        b'R' => Some(RuleName::Reuse),
        b'L' => Some(RuleName::Let),
        b'C' => Some(RuleName::Call),
        b'M' => Some(RuleName::Match),
        b'W' => Some(RuleName::Weaken),
        _ => None,
    }
}
