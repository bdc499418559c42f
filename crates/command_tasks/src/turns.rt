// Turns of tasks that are drawn from a seed.
ghost use Rattle.std.specs.Prelude.{◌≡◌, ◌<◌, length};
ghost use Rattle.fip_tasks.specs.machine_semantics.Steps.{Kinds};
ghost use Rattle.code_verify.specs.Checked.{Checked};
ghost use Rattle.fip_tasks.specs.task_semantics.Schedules.{Shared};
ghost use Rattle.command_tasks.specs.Telling.{CanRun, ShowsSome};

use fip_tasks::Tasks;

// The number that follows in the sequence that draws the tasks.
fn drawn_after(number: u64) -> u64
    requires { number < 2147483648 }
    ensures { result < 2147483648 }
{
    (number * 1_103_515_245 + 12_345) % 2_147_483_648
}

// The task that a number draws of so many.
fn task_of(number: u64, count: usize) -> usize
    requires { 0 < count }
    ensures { result < count }
{
    (number / 65_536) as usize % count
}

/// So many turns, of tasks that are drawn from a seed.
pub fn take_turns(tasks: &mut Tasks, seed: u64, turns: u64)
    requires seed { seed < 2147483648 }
    ensures number { length tasks.new.tasks ≡ length tasks.old.tasks }
    ensures shows { (v : Checked) (kinds : Kinds) (first : Shared) → CanRun v kinds first →
        ShowsSome v kinds first tasks.old → ShowsSome v kinds first tasks.new }
{
    let count = tasks.len();
    if count == 0 {
        return;
    }
    let mut drawn = seed;
    for _ in 0..turns {
        drawn = drawn_after(drawn);
        let k = task_of(drawn, count);
        tasks.turn(k);
    }
}
