// What a code says of a function that is called. A number that is no function's has nothing.
ghost use Rattle.std.specs.Prelude.{◌≡◌, map};
ghost use Rattle.cell_code.specs.Plain.{results};
ghost use Rattle.code_rules.specs.Codes.{params, credits};
ghost use Rattle.code_rules.specs.Codes as codes;
ghost use Rattle.code_rows.specs.Placing.{code_of};

use crate::ends::is_fip;
use crate::place::Place;
use fip_base::plain::Param;

/// Its parameters.
pub fn params_of<'a>(place: &Place<'a>, callee: u32) -> &'a [Param]
    ensures { result.now ≡ params (code_of place.now) callee }
{
    match place.functions.get(callee as usize) {
        Some(function) => function.params.as_slice(),
        None => &[],
    }
}

/// The sizes of the credits that its header requires.
pub fn credits_of<'a>(place: &Place<'a>, callee: u32) -> &'a [u8]
    ensures { result.now ≡ credits (code_of place.now) callee }
{
    match place.functions.get(callee as usize) {
        Some(function) => function.credits.as_slice(),
        None => &[],
    }
}

/// The types of its results.
pub fn results_of<'a>(place: &Place<'a>, callee: u32) -> &'a [u32]
    ensures { result.now ≡ results (code_of place.now) callee }
{
    match place.functions.get(callee as usize) {
        Some(function) => function.results.as_slice(),
        None => &[],
    }
}

/// Whether it is there, and isn't fip.
pub fn is_weaker(place: &Place, callee: u32) -> bool
    ensures { result ≡ codes.is_weaker (code_of place.now) callee }
{
    match place.functions.get(callee as usize) {
        Some(function) => !is_fip(function),
        None => false,
    }
}
