// A bit for each place: 1 where a cell begins.
ghost use Rattle.std.specs.Prelude.{◌≡◌, ℕ, ◌+◌, ◌*◌, ◌/◌, ◌<◌, ◌≤◌, true, nat_eq, length, vec_len, OnOk};
ghost use Rattle.std.specs.Prelude.{if◌then◌else◌};
ghost use Rattle.cell_store.specs.Marks.{is_marked};

use std::alloc::AllocError;

/// Whether the place is marked.
#[inline(always)]
pub fn has_mark(bits: &[u64], place: usize) -> bool
    ensures { result ≡ is_marked bits.now place }
{
    let at = place / 64;
    at < bits.len() && bits[at] >> (place % 64) & 1 == 1
}

/// Marks one more place.
pub fn mark(bits: &mut Vec<u64>, place: usize)
    requires { place / 64 < vec_len bits.old }
    ensures marked { (q : ℕ) → is_marked bits.new.items q
        ≡ (if nat_eq q place then true else is_marked bits.old.items q) }
    ensures same { length bits.new.items ≡ length bits.old.items }
{
    bits[place / 64] |= 1 << (place % 64);
}

/// Lets the bits reach one more number of 64 places, where they do not reach as far as `places`.
pub fn reach(bits: &mut Vec<u64>, places: usize) -> Result<(), AllocError>
    requires { places ≤ 64 * vec_len bits.old + 64 }
    ensures same { (q : ℕ) → is_marked bits.new.items q ≡ is_marked bits.old.items q }
    ensures more { length bits.old.items ≤ length bits.new.items }
    ensures wide { OnOk result (places ≤ 64 * length bits.new.items) }
{
    if bits.len() <= places / 64 {
        bits.push(0)?;
    }
    Ok(())
}
