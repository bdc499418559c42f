// Whether label maps say the same of each register.
ghost use Rattle.std.specs.Prelude.{◌≡◌, ◌<◌, true, length};
ghost use Rattle.code_rows.specs.Numbering.{SaysAlike};

use cell_code::{Kind, Label};

/// The number `earlier`, where the label map of that number says what the one of number `number` says; else `number`.
pub fn alike_or_own(labels: &[Label], earlier: usize, number: usize) -> usize
    requires within { number < length labels.now }
    ensures alike { SaysAlike labels.now number result }
{
    if earlier < labels.len() {
        if says_alike(&labels[earlier], &labels[number]) {
            return earlier;
        }
    }
    number
}

// Whether two label maps say the same of each register.
fn says_alike(label: &Label, other: &Label) -> bool
    ensures { result ≡ true → label.now.kinds.items ≡ other.now.kinds.items }
{
    are_alike(label.kinds.as_slice(), other.kinds.as_slice())
}

// Whether kinds are the same, register by register.
fn are_alike(kinds: &[Kind], others: &[Kind]) -> bool
    ensures { result ≡ true → kinds.now ≡ others.now }
{
    kinds.len() == others.len() && are_all_alike(kinds, others)
}

// The same of as many kinds.
fn are_all_alike(kinds: &[Kind], others: &[Kind]) -> bool
    requires { length kinds.now ≡ length others.now }
    ensures { result ≡ true → kinds.now ≡ others.now }
{
    for i in 0..kinds.len() {
        if !is_alike(&kinds[i], &others[i]) {
            return false;
        }
    }
    true
}

// Whether two kinds are the same.
fn is_alike(kind: &Kind, other: &Kind) -> bool
    ensures { result ≡ true → kind.now ≡ other.now }
{
    match (kind, other) {
        (Kind::Gone, Kind::Gone) => true,
        (Kind::Scalar { ty }, Kind::Scalar { ty: other }) => *ty == *other,
        (Kind::Credit { size }, Kind::Credit { size: other }) => *size == *other,
        (
            Kind::Owned { ty, constructors },
            Kind::Owned {
                ty: other,
                constructors: others,
            },
        ) => *ty == *other && constructors.as_slice() == others.as_slice(),
        (
            Kind::Lent {
                ty,
                constructors,
                root,
                from,
            },
            Kind::Lent {
                ty: other,
                constructors: others,
                root: other_root,
                from: other_from,
            },
        ) => {
            *ty == *other
                && constructors.as_slice() == others.as_slice()
                && *root == *other_root
                && *from == *other_from
        }
        _ => false,
    }
}
