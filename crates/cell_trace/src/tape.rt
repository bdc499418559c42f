// What is kept of a run.
ghost use Rattle.std.specs.Prelude.{◌≡◌, ℕ, ◌+◌, ◌*◌, ◌^◌, ◌-◌, ◌<◌, ◌≤◌, true, false, List, [], ◌∷◌, ◌++◌};
ghost use Rattle.std.specs.Prelude.{IfOk, None, Some, length, min};
ghost use Rattle.cell_store.specs.Reported.{Overwritten, Released};
ghost use Rattle.cell_trace.specs.Traced.{Standing, Noted, IsTraced, plain_cell, plain_event, reported_bytes};
ghost use Rattle.cell_trace.specs.Taped.{IsTape, IsLost};

use crate::error::TraceError;
use crate::trace::{Event, LoadedCell, Trace};
use fip_base::plain::NoMemory;
use std::alloc::Global;

/// The most events of a trace.
pub const MOST_EVENTS: usize = 4_294_967_295;

// The bytes of the file of a trace without cells and events: its head, two counts and the number of steps.
const LEAST_BYTES: usize = 22;

// The bytes of a cell beside those of its fields.
const CELL_BYTES: usize = 9;

// The bytes of an event that gives a cell its words, beside those of its fields.
const PUT_BYTES: usize = 17;

// The bytes of an event that releases a cell.
const RELEASE_BYTES: usize = 13;

// The bytes of a field.
const FIELD_BYTES: usize = 8;

/// A trace that grows with its run. What can't be kept is noted and reported at the end.
#[derive(Drop)]
pub(crate) struct Tape {
    pub alloc: Global,
    pub loaded: Vec<LoadedCell>,
    pub events: Vec<Event>,
    // The number of steps; none where it was more than 64 bits count.
    pub steps: Option<u64>,
    // The bytes of the file so far.
    pub bytes: usize,
    pub limit: usize,
    pub lost: Option<TraceError>,
}

impl Tape {
    /// The tape before the first step, without cells, and the most bytes that the file may have.
    pub(crate) fn new(alloc: Global, limit: usize) -> Tape
        ensures empty { IsTape [] [] 0 limit result }
    {
        Tape {
            alloc,
            loaded: Vec::new(alloc),
            events: Vec::new(alloc),
            steps: Some(0),
            bytes: LEAST_BYTES,
            limit,
            lost: if limit < LEAST_BYTES {
                Some(TraceError::TooLong)
            } else {
                None
            },
        }
    }

    /// Whether nothing more is kept.
    pub(crate) fn is_lost(&self) -> bool
        ensures kept { result ≡ false → self.now.lost ≡ None }
        ensures lost { result ≡ true → (cells : List Standing) (limit : ℕ) → IsTape cells [] 0 limit self.now →
            (c : Standing) → IsTape (cells ++ c ∷ []) [] 0 limit self.now }
    {
        self.lost.is_some()
    }

    /// Keeps a cell as it is before the first step.
    pub(crate) fn load(&mut self, cell: LoadedCell) -> Result<(), NoMemory>
        requires kept { self.old.lost ≡ None }
        ensures loaded { IfOk result (λ _. (cells : List Standing) (limit : ℕ) → IsTape cells [] 0 limit self.old →
            IsTape (cells ++ plain_cell cell ∷ []) [] 0 limit self.new) }
    {
        let size = cell.fields.len();
        if self.has_bytes(size.saturating_mul(FIELD_BYTES).saturating_add(CELL_BYTES)) {
            self.loaded.push(cell)?;
        }
        Ok(())
    }

    /// A step begins. Its number is one more than that of the step before, from 1.
    pub(crate) fn next_step(&mut self)
        ensures counted { (cells : List Standing) (events : List Noted) (steps limit : ℕ) → IsTape cells events steps
            limit self.old → IsTape cells events (steps + 1) limit self.new }
    {
        if let Some(steps) = self.steps {
            self.steps = steps.checked_add(1);
        }
    }

    /// Notes that the step gave the cell at the place this constructor and these words.
    pub(crate) fn put(&mut self, place: u32, tag: u32, words: &[u64])
        ensures noted { (cells : List Standing) (events : List Noted) (steps limit : ℕ) → IsTape cells events steps
            limit self.old → IsTape cells (events ++ record { step = steps; reported = Overwritten place tag words.now }
            ∷ []) steps limit self.new }
    {
        let Some(step) = self.steps else {
            return;
        };
        if self.lost.is_some() {
            return;
        }
        let mut fields = Vec::new(self.alloc);
        if fields.extend_from_slice(words).is_err() {
            self.lose(TraceError::NoMemory);
            return;
        }
        let bytes = words
            .len()
            .saturating_mul(FIELD_BYTES)
            .saturating_add(PUT_BYTES);
        self.keep(
            Event::Put {
                step,
                place,
                tag,
                fields,
            },
            bytes,
        );
    }

    /// Notes that the step released the cell at the place.
    pub(crate) fn release(&mut self, place: u32)
        ensures noted { (cells : List Standing) (events : List Noted) (steps limit : ℕ) → IsTape cells events steps
            limit self.old → IsTape cells (events ++ record { step = steps; reported = Released place } ∷ []) steps limit
            self.new }
    {
        let Some(step) = self.steps else {
            return;
        };
        if self.lost.is_some() {
            return;
        }
        self.keep(Event::Release { step, place }, RELEASE_BYTES);
    }

    // Keeps an event, which has so many bytes in the file.
    fn keep(&mut self, event: Event, bytes: usize)
        requires kept { self.old.lost ≡ None }
        requires bytes { bytes ≡ min (reported_bytes (plain_event event).reported) (2 ^ 64 - 1) }
        requires some { 0 < bytes }
        ensures noted { (cells : List Standing) (events : List Noted) (steps limit : ℕ) → IsTape cells events steps
            limit self.old → IsTape cells (events ++ plain_event event ∷ []) steps limit self.new }
    {
        if self.events.len() == MOST_EVENTS {
            self.lose(TraceError::TooLong);
            return;
        }
        if !self.has_bytes(bytes) {
            return;
        }
        match self.events.push(event) {
            Ok(()) => {}
            Err(_) => self.lose(TraceError::NoMemory),
        }
    }

    // Counts so many bytes of the file, where they are within the limit; else the trace is lost.
    fn has_bytes(&mut self, more: usize) -> bool
        requires some { 0 < more }
        ensures room { result ≡ true → (self.old.bytes + more ≤ self.old.limit)
            × (self.new ≡ record self.old { bytes = self.old.bytes + more }) }
        ensures fits { result ≡ true → self.old.bytes + more < 2 ^ 64 }
        ensures full { result ≡ false → (self.old.limit < self.old.bytes + more)
            × IsLost self.old TraceError.TooLong self.new }
    {
        if self.limit.saturating_sub(self.bytes) < more {
            self.lose(TraceError::TooLong);
            return false;
        }
        self.bytes += more;
        true
    }

    // Gives the trace up.
    fn lose(&mut self, error: TraceError)
        ensures lost { IsLost self.old error self.new }
    {
        self.lost = Some(error);
        self.loaded = Vec::new(self.alloc);
        self.events = Vec::new(self.alloc);
    }

    /// The trace. TooLong where it is longer than it may be, NoMemory where no memory was left for it.
    pub(crate) fn finish(self) -> Result<Trace, TraceError>
        ensures traced { (cells : List Standing) (events : List Noted) (steps limit : ℕ) → IsTape cells events steps
            limit self → IsTraced cells events steps limit result }
    {
        let Tape {
            loaded,
            events,
            steps,
            lost,
            ..
        } = self;
        match lost {
            Some(error) => Err(error),
            None => match steps {
                None => Err(TraceError::TooLong),
                Some(steps) => Ok(Trace {
                    cells: loaded,
                    events,
                    steps,
                }),
            },
        }
    }
}
