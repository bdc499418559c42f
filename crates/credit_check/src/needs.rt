// What arguments need and patterns give, of cells of each size.
ghost use Rattle.std.specs.Prelude.{◌≡◌, slice_get, IfOk, OnOk};
ghost use Rattle.fip_trees.specs.Sizes.{no_sizes};
ghost use Rattle.fip_trees.specs.TreeView as V;
ghost use Rattle.credit_check.specs.Tallies as L;

use fip_base::plain::NoMemory;
use fip_trees::program::{Argument, Instance, Pattern};
use fip_trees::sizes::Sizes;

/// Adds what an argument needs: a credit for each constructor with fields.
#[cycle(argument)]
pub fn add_argument(sizes: &mut Sizes, argument: &Argument) -> Result<(), NoMemory>
    ensures added { OnOk result (sizes.new ≡ L.made_from sizes.old (V.argument argument.now)) }
{
    match argument {
        Argument::Variable { .. } => Ok(()),
        Argument::Literal { .. } => Ok(()),
        Argument::Constructor { arguments, .. } => {
            sizes.try_add_one(arguments.len())?;
            add_arguments(sizes, arguments)?;
            Ok(())
        }
    }
}

/// Adds what some arguments need.
#[cycle(argument)]
pub fn add_arguments(sizes: &mut Sizes, arguments: &[Argument]) -> Result<(), NoMemory>
    ensures added { OnOk result (sizes.new ≡ L.made_all_from sizes.old (V.arguments arguments.now)) }
{
    for argument in arguments {
        add_argument(sizes, argument)?;
    }
    Ok(())
}

/// Adds what a pattern gives: a credit for each constructor with fields.
#[cycle(pattern)]
pub fn add_pattern(sizes: &mut Sizes, pattern: &Pattern) -> Result<(), NoMemory>
    ensures added { OnOk result (sizes.new ≡ L.nodes_from sizes.old (V.pattern pattern.now)) }
{
    match pattern {
        Pattern::Binder(_) => Ok(()),
        Pattern::Literal { .. } => Ok(()),
        Pattern::Constructor { patterns, .. } => {
            sizes.try_add_one(patterns.len())?;
            add_patterns(sizes, patterns)?;
            Ok(())
        }
    }
}

#[cycle(pattern)]
fn add_patterns(sizes: &mut Sizes, patterns: &[Pattern]) -> Result<(), NoMemory>
    ensures added { OnOk result (sizes.new ≡ L.nodes_all_from sizes.old (V.patterns patterns.now)) }
{
    for pattern in patterns {
        add_pattern(sizes, pattern)?;
    }
    Ok(())
}

/// What a pattern gives where its match takes the scrutinee apart.
pub fn given(is_taken: bool, pattern: &Pattern) -> Result<Sizes, NoMemory>
    ensures given { IfOk result (λ s. s ≡ L.given_sizes is_taken (V.pattern pattern.now)) }
{
    let mut sizes = Sizes::none();
    if is_taken {
        add_pattern(&mut sizes, pattern)?;
    }
    Ok(sizes)
}

/// What the header that marks these credits gives its body, and requires of a call.
pub fn marked(credits: &[u8]) -> Result<Sizes, NoMemory>
    ensures marked { IfOk result (λ s. s ≡ L.marked_from no_sizes credits.now) }
{
    let mut sizes = Sizes::none();
    for size in credits {
        sizes.try_add_one(*size as usize)?;
    }
    Ok(sizes)
}

/// Adds what the header of a callee requires; nothing where there is none.
pub fn add_asked(sizes: &mut Sizes, instances: &[Instance], callee: u32) -> Result<(), NoMemory>
    ensures added { OnOk result (sizes.new ≡
        L.asked_from sizes.old (slice_get (V.instances instances.now) callee)) }
{
    match instances.get(callee as usize) {
        None => Ok(()),
        Some(instance) => sizes.try_add(&marked(&instance.credits)?),
    }
}
