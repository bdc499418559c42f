// Which types are scalar, found once and kept without memory.
ghost use Rattle.std.specs.Prelude.{◌≡◌, ◌<◌, ℕ, true, get_or};
ghost use Rattle.fip_trees.specs.fip_language.Table.{is_scalar};

use fip_trees::program::Program;

const KEPT: usize = 4_097;

/// Whether each type of a program is scalar. A type's constructors are looked through once, and not at each question;
/// types past the greatest number that a program has are looked through each time.
#[derive(Drop)]
pub struct ScalarTypes<'a> {
    program: &'a Program,
    flags: [bool; KEPT],
    ghost exact: { (t : ℕ) → t < 4097 → get_or flags t true ≡ is_scalar program.now.types t },
}

impl<'a> ScalarTypes<'a> {
    /// Looks through the types.
    pub fn of(program: &'a Program) -> ScalarTypes<'a>
        ensures same { result.program.now ≡ program.now }
    {
        let mut flags = [true; KEPT];
        for ty in 0..KEPT {
            flags[ty] = is_scalar_in(program, ty as u32);
        }
        ScalarTypes { program, flags }
    }

    /// Whether the type is scalar.
    pub fn is_scalar(&self, ty: u32) -> bool
        ensures scalar { result ≡ is_scalar self.now.program.now.types ty }
    {
        if (ty as usize) < KEPT {
            self.flags[ty as usize]
        } else {
            is_scalar_in(self.program, ty)
        }
    }
}

// Whether a type of a program is scalar; so is a number that is no type's.
fn is_scalar_in(program: &Program, ty: u32) -> bool
    ensures scalar { result ≡ is_scalar program.now.types ty }
{
    if ty as usize <= program.types.len() {
        program.types.is_scalar(ty)
    } else {
        true
    }
}
