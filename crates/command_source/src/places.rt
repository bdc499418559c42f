// Line and column of a report.
ghost use Rattle.std.specs.Prelude.{◌≡◌, ◌+◌, ◌<◌, ◌^◌, length};
ghost use Rattle.machine_correctness.specs.compiler_correctness.fip_grammar.Cut.{first_place};
ghost use Rattle.command_source.specs.Places as P;

use fip_base::plain::Place;
use fip_base::refusal::Refusal;

// The place after a byte.
fn after_byte(place: Place, byte: u8) -> Place
    requires line { place.line + 1 < 2 ^ 64 }
    requires col { place.col + 1 < 2 ^ 64 }
    requires text { place.at + 1 < 2 ^ 64 }
    ensures following { result ≡ P.after_byte place byte }
{
    if byte == b'\n' {
        Place {
            line: place.line + 1,
            col: 1,
            at: place.at + 1,
        }
    } else {
        Place {
            line: place.line,
            col: place.col + 1,
            at: place.at + 1,
        }
    }
}

// The place after the first bytes of a source.
fn after_bytes(bytes: &[u8]) -> Place
    ensures following { result ≡ P.after_bytes first_place bytes.now }
{
    let mut place = Place {
        line: 1,
        col: 1,
        at: 0,
    };
    for byte in bytes {
        place = after_byte(place, *byte);
    }
    place
}

/// The line and the column of an offset in a source, both from 1, the column in bytes; after the end they are those
/// of the end.
pub fn place_at(source: &[u8], offset: usize) -> Place
    ensures place { result ≡ P.place_at source.now offset }
{
    let place = after_bytes(&source[..offset.min(source.len())]);
    Place {
        line: place.line,
        col: place.col,
        at: offset,
    }
}

/// A refusal with the line and the column of its offset in the source.
pub(crate) fn placed(source: &[u8], refusal: Refusal) -> Refusal
    ensures placed { result ≡ P.placed source.now refusal }
{
    let Refusal {
        rule,
        place,
        size,
        detail,
    } = refusal;
    let place = match place {
        Some(place) => Some(place_at(source, place.at)),
        None => None,
    };
    Refusal {
        rule,
        place,
        size,
        detail,
    }
}
