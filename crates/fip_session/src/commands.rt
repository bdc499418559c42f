// Whole inputs: all lines of a session.
ghost use Rattle.std.specs.Prelude.{◌≡◌, ◌≤◌, length, IfOk};
ghost use Rattle.fip_language.specs.declared.limits.TheConstants.{MOST_FILE_BYTES};
ghost use Rattle.session_lines.specs.session_semantics.Lines.{lines_of};
ghost use Rattle.session_lines.specs.session_semantics.Talk.{Setting, Talks, at_first};
ghost use Rattle.session_code.specs.Served.{IsServed};

use crate::session::Session;
use code_verify::Verified;
use fip_base::plain::NoMemory;
use fip_room::Room;
use fip_trees::program::Typed;
use session_lines::line_at;
use std::alloc::Global;

/// The replies to all lines of an input, each ended by LF. An error where memory runs out.
pub fn session_reply(
    alloc: Global,
    typed: &Typed,
    verified: &Verified,
    room: Room,
    input: &[u8],
) -> Result<Vec<u8>, NoMemory>
    ensures talks { (o : Setting) → IsServed o verified.now.code → typed.now.program.types ≡ o.program.types →
        room.words ≡ o.words → room.calls ≡ o.calls → room.frames ≡ o.frames → length input.now ≤ MOST_FILE_BYTES →
        IfOk result (λ out. Talks o at_first (lines_of input.now) out.items) }
{
    let mut session = Session::new(alloc, typed, verified, room)?;
    let mut out = Vec::new(alloc);
    let mut at = 0;
    while at < input.len() {
        let (line, next) = line_at(input, at);
        let (after, reply) = session.line(line)?;
        session = after;
        out.extend_from_slice(reply.as_slice())?;
        out.push(b'\n')?;
        at = next;
    }
    Ok(out)
}
