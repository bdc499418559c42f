// The lines of a program's or a code's functions.
ghost use Rattle.std.specs.Prelude.{◌≡◌, ◌++◌, ℕ, List, IfOk, OnOk};
ghost use Rattle.cell_code.specs.Plain.{PlainCode, plain_function, plain};
ghost use Rattle.code_verify.specs.code_rules.StackNumbers.{HasStack};
ghost use Rattle.command_source.specs.Codes.{IsLine, AreLines};
ghost use Rattle.fip_trees.specs.TreeView.{instance_of, instances};
ghost use Rattle.command_source.specs.Roots.{root_line, root_lines};

use cell_code::Function;
use code_verify::Verified;
use command_outcome::put_function;
use fip_base::plain::{NoMemory, Stack};
use fip_trees::groups::Groups;
use fip_trees::program::{Instance, Program};
use std::alloc::Global;

/// A line for each root of a program, in text order.
pub fn roots_text(alloc: Global, program: &Program, groups: &Groups) -> Result<Vec<u8>, NoMemory>
    ensures lines { IfOk result (λ v. v.items ≡ root_lines groups.now 0 (instances program.now.instances.items)) }
{
    let mut text = Vec::new(alloc);
    for (number, instance) in program.instances.iter().enumerate() {
        put_root(alloc, &mut text, instance, groups.stack_of(number))?;
    }
    Ok(text)
}

// The line of an instance, where it is a root.
fn put_root(
    alloc: Global,
    text: &mut Vec<u8>,
    instance: &Instance,
    stack: Option<Stack>,
) -> Result<(), NoMemory>
    ensures line { OnOk result (text.new.items ≡ text.old.items ++ root_line (instance_of instance.now) stack) }
{
    if instance.root {
        put_function(
            alloc,
            text,
            instance.name.as_slice(),
            instance.kind,
            instance.credits.as_slice(),
            stack,
        )?;
    }
    Ok(())
}

/// A line for each function of a code that has a name, in the code's order.
pub fn functions_text(alloc: Global, verified: &Verified) -> Result<Vec<u8>, NoMemory>
    ensures lines { IfOk result (λ v.
        AreLines (plain verified.now.code) 0 (plain verified.now.code).functions v.items) }
{
    let mut text = Vec::new(alloc);
    for (number, function) in verified.code().functions.iter().enumerate() {
        put_named(alloc, &mut text, function, verified.code_stack(number))?;
    }
    Ok(text)
}

// The line of a function, where it has a name.
fn put_named(
    alloc: Global,
    text: &mut Vec<u8>,
    function: &Function,
    stack: Option<Stack>,
) -> Result<(), NoMemory>
    ensures line { (c : PlainCode) (n : ℕ) → HasStack c n stack → OnOk result ((line : List ℕ)
        × IsLine c n (plain_function function.now) function.now.name line
        × (text.new.items ≡ text.old.items ++ line)) }
{
    if function.name.as_slice().is_empty() {
        return Ok(());
    }
    put_function(
        alloc,
        text,
        function.name.as_slice(),
        function.kind.fun_kind(),
        function.credits.as_slice(),
        stack,
    )
}
