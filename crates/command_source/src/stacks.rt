// The code of a program is verified with the stack numbers that are known of its instances.
ghost use Rattle.std.specs.Prelude.{◌≡◌, ◌++◌, IfOk, OnOk};
ghost use Rattle.code_verify.specs.code_rules.Breaks.{IsSound};
ghost use Rattle.cell_code.specs.Plain.{plain};
ghost use Rattle.fip_trees.specs.TreeView as V;
ghost use Rattle.program_front.specs.tail_groups.Members.{AreMembers};
ghost use Rattle.command_source.specs.FunctionNumbers.{function_stacks, stack_if};
ghost use Rattle.command_source.specs.ProgramCode.{IsLoweredFrom};

use cell_code::Code;
use code_verify::{Verified, verify_sound};
use fip_base::plain::{NoMemory, Stack};
use fip_trees::groups::Groups;
use fip_trees::program::{Instance, Typed};
use std::alloc::Global;

/// The code of a program, verified.
pub(crate) fn verified_with(
    alloc: Global,
    typed: &Typed,
    groups: &Groups,
    code: Code,
) -> Result<Verified, NoMemory>
    requires groups { AreMembers (V.program typed.now.program).instances groups.now }
    requires code { IsLoweredFrom (V.program typed.now.program) (plain code) }
    requires sound { IsSound (plain code) }
    ensures same { IfOk result (λ v. v.code ≡ code) }
{
    let stacks = function_stacks(alloc, typed.program.instances.as_slice(), groups)?;
    verify_sound(alloc, code, stacks)
}

// What runs of the functions of a program hold of the stack, in the functions' order.
fn function_stacks(
    alloc: Global,
    instances: &[Instance],
    groups: &Groups,
) -> Result<Vec<Option<Stack>>, NoMemory>
    ensures stacks { IfOk result (λ v. v.items ≡ function_stacks groups.now 0 (V.instances instances.now)) }
{
    let mut stacks = Vec::new(alloc);
    for (number, instance) in instances.iter().enumerate() {
        put_stack(&mut stacks, instance, groups.stack_of(number))?;
    }
    Ok(stacks)
}

// What a run of an instance holds of the stack, where it has a function.
fn put_stack(
    stacks: &mut Vec<Option<Stack>>,
    instance: &Instance,
    stack: Option<Stack>,
) -> Result<(), NoMemory>
    ensures put { OnOk result (stacks.new.items ≡ stacks.old.items ++ stack_if (V.instance_of instance.now) stack) }
{
    if instance.kind.is_ruled() {
        stacks.push(stack)?;
    }
    Ok(())
}
