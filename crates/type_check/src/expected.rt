// Types found, and types expected.
ghost use Rattle.std.specs.Prelude.{◌≡◌, true, Some, map, drop, length};
ghost use Rattle.type_check.specs.Found.{first_type, first_wanted, usable, slot, or_found, differ, misfits};
ghost use Rattle.type_check.specs.Wanted.{expects, types_of};

/// The number of type int.
pub(crate) const INT: u32 = 0;

/// The number of type bool.
pub(crate) const BOOL: u32 = 1;

/// The type found of a node; none where it has no type because of a violation.
pub(crate) type Found = Option<u32>;

/// What is expected of an argument: none where no type is expected, else a type, which isn't known where a violation
/// hides it.
pub(crate) type Want = Option<Found>;

/// What is expected of several arguments, from left to right.
#[derive(Clone, Copy)]
pub(crate) enum Wants<'a> {
    /// No types are expected.
    Nothing,
    /// These types are expected; of the arguments past the last one types that aren't known.
    Known(&'a [u32]),
    /// The same, where a type may not be known.
    Partial(&'a [Found]),
}

impl Wants<'_> {
    /// What is expected of the argument at an index, from 0.
    pub(crate) fn at(&self, index: usize) -> Want
        ensures { result ≡ first_wanted (expects self.now) (drop index (types_of self.now)) }
    {
        match self {
            Wants::Nothing => None,
            Wants::Known(types) => Some(known_at(types, index)),
            Wants::Partial(types) => Some(found_at(types, index)),
        }
    }
}

/// What is expected of an expression: as many results as there are types, and where types are expected these types.
#[derive(Clone, Copy)]
pub(crate) struct Results<'a> {
    pub(crate) expected: bool,
    pub(crate) types: &'a [Found],
}

impl<'a> Results<'a> {
    /// How many results are expected.
    pub(crate) fn count(&self) -> usize
        ensures { result ≡ length self.now.types.now }
    {
        self.types.len()
    }

    /// What is expected of so many arguments that are the results.
    pub(crate) fn wants(&self, count: usize) -> Wants<'a>
        ensures expected { expects result ≡ self.now.expected }
        ensures types { types_of result ≡ usable self.now.expected count self.now.types.now }
    {
        if !self.expected {
            Wants::Nothing
        } else if count == self.types.len() {
            Wants::Partial(self.types)
        } else {
            Wants::Partial(&[])
        }
    }
}

/// The type at an index; it isn't known past the last one.
pub(crate) fn found_at(types: &[Found], index: usize) -> Found
    ensures { result ≡ first_type (drop index types.now) }
{
    if index < types.len() {
        types[index]
    } else {
        None
    }
}

// The type at an index, of types that are all known; it isn't known past the last one.
#[tactic(auto, using(crate::proofs::Steps::first_known))]
fn known_at(types: &[u32], index: usize) -> Found
    ensures { result ≡ first_type (drop index (map Some types.now)) }
{
    if index < types.len() {
        Some(types[index])
    } else {
        None
    }
}

/// What a slot holds: int is put where no type was found, and then the program is refused.
pub(crate) fn slot(found: Found) -> u32
    ensures { result ≡ slot found }
{
    match found {
        None => INT,
        Some(ty) => ty,
    }
}

/// The first type, or the second where the first isn't known.
pub(crate) fn or_found(first: Found, second: Found) -> Found
    ensures { result ≡ or_found first second }
{
    match first {
        None => second,
        Some(ty) => Some(ty),
    }
}

/// Whether both types are known, and another.
pub(crate) fn differ(expected: Found, found: Found) -> bool
    ensures { result ≡ differ expected found }
{
    match expected {
        None => false,
        Some(expected) => match found {
            None => false,
            Some(found) => expected != found,
        },
    }
}

/// Whether another type was found than the one expected.
pub(crate) fn misfits(want: Want, found: Found) -> bool
    ensures { result ≡ misfits want found }
{
    match want {
        None => false,
        Some(expected) => differ(expected, found),
    }
}
