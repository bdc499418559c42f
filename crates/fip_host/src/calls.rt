// C's calls.
ghost use Rattle.std.specs.Prelude.{◌≡◌};
ghost use Rattle.fip_host.specs.Statuses.{outcome_status};
ghost use Rattle.fip_host.specs.Telling.{byte_count, filled};

mod cells;
mod codes;
mod runs;
mod values;

use crate::answer::Refusal;

// The status of a call.
fn status_of(outcome: Result<(), Refusal>) -> u32
    ensures is { result ≡ outcome_status outcome }
{
    match outcome {
        Ok(()) => 0,
        Err(refusal) => refusal.number(),
    }
}

// Writes as much of the bytes as fits, and how many they are.
fn fill(out: &mut [u8], length: &mut usize, bytes: &[u8])
    ensures out { out.new ≡ filled out.old bytes.now }
    ensures length { length.new ≡ byte_count bytes.now }
{
    *length = bytes.len();
    let count = out.len().min(bytes.len());
    out[..count].copy_from_slice(&bytes[..count]);
}
