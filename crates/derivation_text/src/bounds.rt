// Numbers within bounds, digit by digit.
ghost use Rattle.std.specs.Prelude.{◌≡◌, ◌+◌, ◌*◌, ◌<◌, ◌≤◌, ◌^◌};
ghost use Rattle.derivation_text.specs.Machine.{reaches, begins};

/// Whether a number from the least one to the greatest is written with the digits of this one first. So of those from
/// 20 to 450 some begin with 2 and with 40, and none begins with 1 and two digits more.
#[tactic(auto, using(crate::proofs::Begins::begins_some, crate::proofs::Begins::begins_none))]
pub fn begins(number: u64, least: u64, greatest: u64) -> bool
    requires number { number < 2 ^ 40 }
    requires greatest { greatest < 2 ^ 32 }
    ensures { result ≡ begins number least greatest }
{
    if number == 0 {
        return least == 0;
    }
    least <= greatest && reaches(number, least, greatest)
}

// The same for a number that isn't 0. A number below 2^32 has at most ten digits.
#[tactic(auto, using(crate::proofs::Begins::reaches_past, crate::proofs::Begins::reaches_there))]
fn reaches(number: u64, least: u64, greatest: u64) -> bool
    requires number { number < 2 ^ 40 }
    requires least { least ≤ greatest }
    requires greatest { greatest < 2 ^ 32 }
    ensures { result ≡ reaches 10 number number least greatest }
{
    let mut low = number;
    let mut high = number;
    for digits in 0..10u32 {
        if greatest < low {
            return false;
        }
        if least <= high {
            return true;
        }
        low = 10 * low;
        high = 10 * high + 9;
    }
    false
}
