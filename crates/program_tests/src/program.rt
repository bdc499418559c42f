// The whole program, as a host in memory runs it.

use cell_store::Cells;
use fip_driver::fp2;
use std::alloc::Global;
use test_host::{Ended, MemFolder, MemSink, MemSource, Program};

/// The program of this repository.
pub struct Fp2;

impl Program for Fp2 {
    fn run(
        alloc: Global,
        words: &[String],
        folder: &mut MemFolder,
        input: &mut MemSource,
        out: &mut MemSink,
        err: &mut MemSink,
    ) -> Ended {
        let mut left = None;
        let status = fp2(alloc, words, folder, input, out, err, &mut left);
        let cells = match left {
            Some(left) => Some(left.cells.count(2)),
            None => None,
        };
        Ended {
            status: status.0,
            cells,
        }
    }
}
