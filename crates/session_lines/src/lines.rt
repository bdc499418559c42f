// The lines of an input.
ghost use Rattle.std.specs.Prelude.{◌≡◌, ◌≢◌, ◌<◌, ◌≤◌, ◌∷◌, length, drop};
ghost use Rattle.fip_language.specs.Every.{Every};
ghost use Rattle.session_semantics.specs.Lines.{lines_of};

/// The line that begins at a place, without its LF, and the place after that. An LF ends a line, and may be left out
/// after the last one.
pub fn line_at(input: &[u8], at: usize) -> (&[u8], usize)
    requires within { at < length input.now }
    ensures on { at < result.1 }
    ensures line { lines_of (drop at input.now) ≡ result.0.now ∷ lines_of (drop result.1 input.now) }
    ensures one { Every (λ b. b ≢ 10) result.0.now }
    ensures few { length result.0.now ≤ length input.now }
{
    for i in at..input.len() {
        if input[i] == b'\n' {
            return (&input[at..i], i + 1);
        }
    }
    (&input[at..], input.len().saturating_add(1))
}
