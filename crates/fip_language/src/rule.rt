// The rules, and their names.
ghost use Rattle.std.specs.Prelude.{◌≡◌, Some};
ghost use Rattle.fip_language.specs.RuleText.{rule_text};

use std::fmt;

/// The rules that a source, its code, its entry, its proof or its trace can break, in the order of their numbers.
#[derive(Clone, Copy, Debug, PartialEq, Eq, PartialOrd, Ord)]
pub enum Rule {
    /// A byte begins no token.
    E01,
    /// The tokens are no program.
    E02,
    /// A bracket is the 101st open one.
    E03,
    /// A literal is too great.
    E04,
    /// The source is too long.
    E05,
    /// A name is declared twice.
    E10,
    /// A type name is unknown.
    E11,
    /// A type has the wrong number of parameters.
    E12,
    /// A data type has no finite value.
    E13,
    /// A constructor has more than 16 fields.
    E14,
    /// A constructor is unknown.
    E15,
    /// A function is unknown.
    E20,
    /// There are too many instances.
    E21,
    /// A passed function doesn't fit its signature.
    E22,
    /// The number of static arguments is wrong.
    E23,
    /// A type is another than the expected one.
    E30,
    /// A variable is unknown.
    E31,
    /// A constructor of a type with parameters occurs where no type is expected.
    E32,
    /// The number of arguments or fields is wrong.
    E33,
    /// The number of results is wrong.
    E34,
    /// A match leaves a value out.
    E40,
    /// A clause is never reached.
    E41,
    /// A variable occurs twice in a pattern or a binder.
    E42,
    /// A match is too large.
    E43,
    /// An owned variable is used up twice.
    E50,
    /// An owned variable is borrowed after it was used up.
    E51,
    /// An owned variable isn't used up.
    E52,
    /// A borrowed variable is used up.
    E53,
    /// Something is borrowed that can't be borrowed there.
    E54,
    /// A function of a weaker kind is called.
    E55,
    /// A body needs a credit.
    E56,
    /// A clause leaves a credit over.
    E57,
    /// Clauses need different credits.
    E58,
    /// A call of the own group isn't in tail position.
    E59,
    /// A function has too many registers.
    E60,
    /// No code file encodes the code.
    E61,
    /// A header states more credits than its body needs.
    E62,
    /// A header states a credit of no size, or too many.
    E63,
    /// No function has the entry's name.
    E70,
    /// The entry is a plain function.
    E71,
    /// A proof file is no proof text.
    E72,
    /// A proof file is no derivation of the program.
    E73,
    /// The text of a derivation is too long.
    E74,
    /// A run has no trace, or none that is short enough.
    E75,
}

impl Rule {
    /// The rule's name, a capital E and two digits.
    pub fn as_str(self) -> &'static str
        ensures text { result.now ≡ rule_text self }
    {
        match self {
            Rule::E01 => "E01",
            Rule::E02 => "E02",
            Rule::E03 => "E03",
            Rule::E04 => "E04",
            Rule::E05 => "E05",
            Rule::E10 => "E10",
            Rule::E11 => "E11",
            Rule::E12 => "E12",
            Rule::E13 => "E13",
            Rule::E14 => "E14",
            Rule::E15 => "E15",
            Rule::E20 => "E20",
            Rule::E21 => "E21",
            Rule::E22 => "E22",
            Rule::E23 => "E23",
            Rule::E30 => "E30",
            Rule::E31 => "E31",
            Rule::E32 => "E32",
            Rule::E33 => "E33",
            Rule::E34 => "E34",
            Rule::E40 => "E40",
            Rule::E41 => "E41",
            Rule::E42 => "E42",
            Rule::E43 => "E43",
            Rule::E50 => "E50",
            Rule::E51 => "E51",
            Rule::E52 => "E52",
            Rule::E53 => "E53",
            Rule::E54 => "E54",
            Rule::E55 => "E55",
            Rule::E56 => "E56",
            Rule::E57 => "E57",
            Rule::E58 => "E58",
            Rule::E59 => "E59",
            Rule::E60 => "E60",
            Rule::E61 => "E61",
            Rule::E62 => "E62",
            Rule::E63 => "E63",
            Rule::E70 => "E70",
            Rule::E71 => "E71",
            Rule::E72 => "E72",
            Rule::E73 => "E73",
            Rule::E74 => "E74",
            Rule::E75 => "E75",
        }
    }
}

impl fmt::Display for Rule {
    ghost output = { λ r. Some (rule_text r) };

    fn fmt<W: fmt::Write>(&self, f: &mut fmt::Formatter<W>) -> fmt::Result {
        write!(f, "{}", self.as_str())
    }
}
