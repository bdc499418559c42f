// What tasks end in, one after another.
ghost use Rattle.std.specs.Prelude.{◌≡◌, List, length, IfOk};
ghost use Rattle.fip_tasks.specs.machine_semantics.Steps.{Kinds};
ghost use Rattle.code_verify.specs.Checked.{Checked};
ghost use Rattle.fip_language.specs.Meaning.{Answer};
ghost use Rattle.fip_tasks.specs.task_semantics.Schedules.{Shared};
ghost use Rattle.command_tasks.specs.Telling.{AreTaskLines, CanRun, EndAs, ShowsSome};

use crate::printing::put_task;
use cell_code::Code;
use fip_base::plain::NoMemory;
use fip_tasks::{Start, Tasks};
use std::alloc::Global;

/// Runs each task to its end, in order, and reports in a line for each what it ends in.
pub fn answers(
    alloc: Global,
    code: &Code,
    tasks: &mut Tasks,
    starts: &[Start],
) -> Result<Vec<u8>, NoMemory>
    requires number { length tasks.old.tasks ≡ length starts.now }
    ensures lines { (v : Checked) (kinds : Kinds) (first : Shared) (means : List Answer) → v.code ≡ code.now →
        CanRun v kinds first → ShowsSome v kinds first tasks.old → length means ≡ length starts.now →
        EndAs v kinds first starts.now means → IfOk result (λ t. AreTaskLines code.now 0 starts.now means t.items) }
{
    let mut out = Vec::new(alloc);
    for (k, start) in starts.iter().enumerate() {
        let ended = tasks.finish(k);
        put_task(alloc, code, tasks, k, start, ended, &mut out)?;
    }
    Ok(out)
}
