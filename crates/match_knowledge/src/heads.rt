// What a value is at its root.
ghost use Rattle.std.specs.Prelude.{◌≡◌};
ghost use Rattle.match_knowledge.specs.ValueHeads.{same_head};
ghost use Rattle.match_knowledge.specs.Known.{is_in};
ghost use Rattle.match_knowledge.specs.declared.heads.Head.TheVariants.{Tag};

/// What a value is at its root.
#[derive(Clone, Copy)]
pub enum Head {
    /// This int.
    Number(i64),
    /// A node of the constructor with this number in its type, from 0.
    Tag(u32),
}

/// Whether two heads are the same.
pub fn same_head(a: &Head, b: &Head) -> bool
    ensures { result ≡ same_head a.now b.now }
{
    match a {
        Head::Number(i) => match b {
            Head::Number(j) => *i == *j,
            Head::Tag(_) => false,
        },
        Head::Tag(c) => match b {
            Head::Number(_) => false,
            Head::Tag(d) => *c == *d,
        },
    }
}

/// Whether a head is among others.
pub fn is_in(h: &Head, out: &[Head]) -> bool
    ensures { result ≡ is_in h.now out.now }
{
    for g in out {
        if same_head(g, h) {
            return true;
        }
    }
    false
}

/// Whether it is the head of the nodes of this constructor.
pub fn is_constructor(h: &Head, c: usize) -> bool
    ensures { result ≡ same_head h.now (Tag c) }
{
    match h {
        Head::Number(_) => false,
        Head::Tag(d) => *d as usize == c,
    }
}
