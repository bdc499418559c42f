// Where a run is.
use cell_code::Instr;

/// The most frames that waited below the running one, and the most words of all frames.
#[derive(Clone, Copy)]
pub struct Highest {
    pub frames: usize,
    pub words: usize,
}

/// The function that runs: its number, its registers and instructions, the number of the next one, where its frame
/// begins among the words of all frames, how many frames wait below it, and the most of frames and words so far. It is
/// `Copy`: a loop that holds it in a variable keeps it in registers of the processor.
#[derive(Clone, Copy)]
pub struct Cursor<'a> {
    pub instrs: &'a [Instr],
    pub registers: usize,
    pub function: usize,
    pub at: usize,
    pub base: usize,
    pub frames: usize,
    pub highest: Highest,
}

/// The frames that may wait below the running one, the words that all frames may have, and the greatest frame of any
/// function.
#[derive(Clone, Copy)]
pub struct Bounds {
    pub frames: usize,
    pub words: usize,
    pub largest: usize,
}
