// The room that a run is given.
ghost use Rattle.std.specs.Prelude.{◌≡◌, ◌≤◌, IfSome, IsNone};
ghost use Rattle.fip_language.specs.declared.limits.TheConstants.{MOST_FRAMES, MOST_STORE_WORDS};

use fip_language::limits::{MOST_FRAMES, MOST_STORE_WORDS};

/// The room that a run is given. Its frames and its words are within their limits.
#[derive(Clone, Copy, PartialEq, Eq)]
pub struct Room {
    /// How many calls it may take: any number.
    pub calls: u64,
    /// How many frames it may hold beside the entry's, where the entry isn't fip.
    pub frames: usize,
    /// How many words the store has.
    pub words: usize,
    /// No more frames than a run may be given.
    pub ghost few_frames: { frames ≤ MOST_FRAMES },
    /// No more words than a store may have.
    pub ghost few_words: { words ≤ MOST_STORE_WORDS },
}

impl Room {
    /// The room of so many calls, frames and words; none exactly where these are more frames than a run may be given,
    /// or more words than a store may have.
    pub fn new(calls: u64, frames: u64, words: u64) -> Option<Room>
        ensures calls { IfSome result (λ r. r.calls ≡ calls) }
        ensures frames { IfSome result (λ r. r.frames ≡ frames) }
        ensures words { IfSome result (λ r. r.words ≡ words) }
        ensures none { IsNone result → frames ≤ MOST_FRAMES → words ≤ MOST_STORE_WORDS → ⊥ }
    {
        if frames <= MOST_FRAMES as u64 && words <= MOST_STORE_WORDS as u64 {
            Some(Room {
                calls,
                frames: frames as usize,
                words: words as usize,
            })
        } else {
            None
        }
    }
}
