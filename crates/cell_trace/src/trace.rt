// Traces.

/// A cell as it was before the first step: its place, the number of its constructor, the words of its fields (1 to 16).
#[derive(Drop)]
pub struct LoadedCell {
    pub place: u32,
    pub tag: u32,
    pub fields: Vec<u64>,
}

/// What a step did to a cell. Steps are numbered from 1.
#[derive(Drop)]
pub enum Event {
    /// The cell at the place got this constructor and these words, as many as it has fields.
    Put {
        step: u64,
        place: u32,
        tag: u32,
        fields: Vec<u64>,
    },
    /// The cell at the place was released.
    Release {
        step: u64,
        place: u32,
    },
}

impl Event {
    /// The number of its step.
    pub fn step(&self) -> u64 {
        match self {
            Event::Put { step, .. } | Event::Release { step, .. } => *step,
        }
    }
}

/// What a run wrote: the cells before it in order of place, what happened to them in order of steps, and the number of
/// steps.
#[derive(Drop)]
pub struct Trace {
    pub cells: Vec<LoadedCell>,
    pub events: Vec<Event>,
    pub steps: u64,
}
