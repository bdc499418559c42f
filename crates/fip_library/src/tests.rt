// The programs of the library, by their names.

use crate::typed;
use std::alloc::Global;
use std::test::Fail;

// How many instances the typed program of a name has.
fn instances(alloc: Global, name: &str) -> Result<Option<usize>, Fail> {
    match typed(alloc, name)? {
        Some(typed) => Ok(Some(typed.program.instances.len())),
        None => Ok(None),
    }
}

#[test]
fn each_function_of_a_library_text_is_an_instance(rt: HostRuntime) -> Result<(), Fail> {
    assert!(rt; instances(rt.alloc(), "list")? == Some(7));
    assert!(rt; instances(rt.alloc(), "tree")? == Some(3));
    assert!(rt; instances(rt.alloc(), "rbtree")? == Some(6));
    assert!(rt; instances(rt.alloc(), "finger")? == Some(6));
    Ok(())
}

#[test]
fn another_name_has_no_program(rt: HostRuntime) -> Result<(), Fail> {
    assert!(rt; instances(rt.alloc(), "trees")?.is_none());
    assert!(rt; instances(rt.alloc(), "")?.is_none());
    Ok(())
}
