// The arguments of a run that makes a tree: the keys of a seed, a pad for each, and a tree without a node.
ghost use Rattle.std.specs.Prelude.{◌≡◌, ◌++◌, [], IfOk, OnOk, codes};
ghost use Rattle.std.specs.Fmt.{decimal};
ghost use Rattle.task_semantics.specs.Draws.{next_number, numbers};
ghost use Rattle.command_library.specs.MadeTree.{closing, keys_line, pads_line, gen_input};

use fip_base::plain::NoMemory;
use itoa::Buffer;
use std::alloc::Global;

// The key after a key, and after the seed.
fn next_key(key: u64) -> u64
    ensures next { result ≡ next_number key }
{
    key.wrapping_mul(1_103_515_245).wrapping_add(12_345) % 2_147_483_648
}

// Puts the beginning of a key's item.
fn put_key(text: &mut Vec<u8>, key: u64) -> Result<(), NoMemory>
    ensures put { OnOk result (text.new.items
        ≡ text.old.items ++ (codes "Cons(" ++ (decimal key ++ codes ", "))) }
{
    let mut digits = Buffer::new();
    text.extend_from_slice(b"Cons(")?;
    text.extend_from_slice(digits.format(key).as_bytes())?;
    text.extend_from_slice(b", ")?;
    Ok(())
}

// Puts the items of the keys, but what ends their list.
fn put_keys(text: &mut Vec<u8>, seed: u64, count: u64) -> Result<(), NoMemory>
    ensures line { OnOk result (text.new.items ++ keys_line [] count
        ≡ text.old.items ++ keys_line (numbers count seed) 0) }
{
    let mut key = seed;
    for _ in 0..count {
        key = next_key(key);
        put_key(text, key)?;
    }
    Ok(())
}

// Puts the items of the pads, but what ends their list.
fn put_pads(text: &mut Vec<u8>, count: u64) -> Result<(), NoMemory>
    ensures line { OnOk result (text.new.items ++ pads_line 0 count ≡ text.old.items ++ pads_line count 0) }
{
    for _ in 0..count {
        text.extend_from_slice(b"Cons(Pad4(0, 0, 0, 0), ")?;
    }
    Ok(())
}

// Puts a ) for each item.
fn put_closing(text: &mut Vec<u8>, count: u64) -> Result<(), NoMemory>
    ensures closes { OnOk result (text.new.items ++ codes "\n" ≡ text.old.items ++ closing count) }
{
    for _ in 0..count {
        text.push(b')')?;
    }
    Ok(())
}

// Puts what ends a list of so many items, and its line.
fn put_end(text: &mut Vec<u8>, count: u64) -> Result<(), NoMemory>
    ensures ends { OnOk result (text.new.items ≡ text.old.items ++ (codes "Nil" ++ closing count)) }
{
    text.extend_from_slice(b"Nil")?;
    put_closing(text, count)?;
    text.push(b'\n')?;
    Ok(())
}

/// The text of the arguments of `build`: the keys, as many pads, and a tree without a node.
pub(crate) fn arguments(alloc: Global, seed: u64, count: u64) -> Result<Vec<u8>, NoMemory>
    ensures text { IfOk result (λ v. v.items ≡ gen_input seed count) }
{
    let mut text = Vec::new(alloc);
    put_keys(&mut text, seed, count)?;
    put_end(&mut text, count)?;
    put_pads(&mut text, count)?;
    put_end(&mut text, count)?;
    text.extend_from_slice(b"Leaf\n")?;
    Ok(text)
}
