// Look-ups in lists, none of which fails.
ghost use Rattle.std.specs.Prelude.{◌≡◌, slice_get, None, Some, MatchOption, length, ◌||◌};
ghost use Rattle.data_types.specs.Marks.{bit, true_of};
ghost use Rattle.data_types.specs.Types as t;
ghost use Rattle.data_types.specs.View as v;

use fip_trees::decls::{DeclaredType, FieldType};

/// The value at a place.
pub fn at(xs: &[bool], i: usize) -> Option<bool>
    ensures { result ≡ slice_get xs.now i }
{
    xs.get(i).copied()
}

/// Whether there is a true at a place.
pub fn is_true(xs: &[bool], i: usize) -> bool
    ensures { result ≡ true_of (slice_get xs.now i) }
{
    match at(xs, i) {
        Some(b) => b,
        None => false,
    }
}

/// Whether one of the two is true.
pub fn either(a: bool, b: bool) -> bool
    ensures { result ≡ (a || b) }
{
    if a { true } else { b }
}

/// What the arguments' bits say of a parameter.
pub fn bit(bits: &[bool], k: usize) -> bool
    ensures { result ≡ bit bits.now k }
{
    match at(bits, k) {
        Some(b) => b,
        None => true,
    }
}

/// The fields of a constructor of the data type at a place.
pub fn fields_of<'s>(
    declared: &'s [DeclaredType<'_>],
    ty: usize,
    number: usize,
) -> Option<&'s [FieldType]>
    ensures { MatchOption result (slice_get (t.constructors (v.declarations declared.now) ty) number ≡ None)
        (λ fs. slice_get (t.constructors (v.declarations declared.now) ty) number ≡ Some (v.tys fs.now)) }
{
    if ty >= declared.len() {
        return None;
    }
    let constructors = declared[ty].constructors.as_slice();
    if number >= constructors.len() {
        return None;
    }
    Some(constructors[number].fields.as_slice())
}

/// How many constructors the data type at a place has.
pub fn count_of(declared: &[DeclaredType<'_>], ty: usize) -> usize
    ensures { result ≡ length (t.constructors (v.declarations declared.now) ty) }
{
    if ty >= declared.len() {
        return 0;
    }
    declared[ty].constructors.len()
}
