// What may be last, and what a fip function may not do.
ghost use Rattle.std.specs.Prelude.{◌≡◌};
ghost use Rattle.code_rules.specs.Codes as codes;
ghost use Rattle.code_rules.specs.Endings as endings;
ghost use Rattle.code_rows.specs.Placing.{code_of};

use crate::calls::is_weaker;
use crate::place::Place;
use cell_code::{Function, Instr};

/// Whether a function is fip.
pub fn is_fip(function: &Function) -> bool
    ensures { result ≡ codes.is_fip function.now.kind }
{
    function.kind.is_fip()
}

/// Whether no instruction follows an instruction.
pub fn is_end(instr: &Instr) -> bool
    ensures { result ≡ endings.is_end instr.now }
{
    match instr {
        Instr::Tail { .. } => true,
        Instr::Ret { .. } => true,
        Instr::Jump { .. } => true,
        _ => false,
    }
}

/// Whether an instruction releases cells, or calls a function that may.
pub fn releases(place: &Place, instr: &Instr) -> bool
    ensures { result ≡ endings.releases (code_of place.now) instr.now }
{
    match instr {
        Instr::Drop { .. } => true,
        Instr::Free { .. } => true,
        Instr::Call { function, .. } => is_weaker(place, *function),
        Instr::Tail { function, .. } => is_weaker(place, *function),
        _ => false,
    }
}
