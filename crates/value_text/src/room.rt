// Elements are put after the others of a vector, or taken away. Where that takes memory or gives it back, the vector
// moves to a place of its own meanwhile, so that everywhere else its length and its place can stay in registers.
ghost use Rattle.std.specs.Prelude.{◌≡◌, ◌+◌, ◌≤◌, ◌++◌, ◌∷◌, [], OnOk, length, take, vec_len, vec_capacity};

use std::alloc::AllocError;
use std::mem::replace;

// Memory is given back only by vectors of as many elements as this, or more.
const MANY: usize = 65_536;

// The vector, in whose place an empty one is left.
#[inline(always)]
fn move_out<T: Copy>(items: &mut Vec<T>) -> Vec<T>
    ensures { result ≡ items.old }
{
    let none = Vec::new(*items.allocator());
    replace(items, none)
}

// Puts an element after the others of a vector that may have to grow.
#[cold]
#[inline(never)]
fn push_growing<T: Copy>(item: T, items: &mut Vec<T>) -> Result<(), AllocError>
    ensures items { OnOk result (items.new.items ≡ items.old.items ++ item ∷ []) }
    ensures more { OnOk result (vec_len items.new ≡ vec_len items.old + 1) }
{
    items.push(item)?;
    Ok(())
}

// The same, the vector at a place of its own meanwhile.
#[inline(always)]
fn push_last<T: Copy>(item: T, items: &mut Vec<T>) -> Result<(), AllocError>
    ensures items { OnOk result (items.new.items ≡ items.old.items ++ item ∷ []) }
    ensures more { OnOk result (vec_len items.new ≡ vec_len items.old + 1) }
{
    let mut full = move_out(items);
    let pushed = push_growing(item, &mut full);
    let _ = replace(items, full);
    pushed
}

/// Puts an element after the others. An error where memory runs out.
#[inline(always)]
pub fn push<T: Copy>(item: T, items: &mut Vec<T>) -> Result<(), AllocError>
    ensures items { OnOk result (items.new.items ≡ items.old.items ++ item ∷ []) }
    ensures more { OnOk result (vec_len items.new ≡ vec_len items.old + 1) }
{
    if items.len() < items.capacity() {
        items.push_reserved(item);
        return Ok(());
    }
    push_last(item, items)
}

// Gives half of the memory of many elements back, where three quarters of it are free.
#[cold]
#[inline(never)]
fn shrink<T: Copy>(items: &mut Vec<T>)
    ensures { items.new.items ≡ items.old.items }
{
    if items.len() >= MANY && items.len() <= items.capacity() / 4 {
        items.shrink_to(items.capacity() / 2);
    }
}

/// Keeps so many elements. Where that leaves a multiple of 65,536, memory may be given back.
#[inline(always)]
pub fn cut<T: Copy>(items: &mut Vec<T>, len: usize)
    ensures { items.new.items ≡ take len items.old.items }
{
    items.truncate(len);
    if len % MANY == 0 {
        let mut few = move_out(items);
        shrink(&mut few);
        let _ = replace(items, few);
    }
}

// Puts bytes after the others, which may have to grow.
#[inline(never)]
fn extend_growing(bytes: &[u8], out: &mut Vec<u8>) -> Result<(), AllocError>
    ensures items { OnOk result (out.new.items ≡ out.old.items ++ bytes.now) }
    ensures more { OnOk result (vec_len out.new ≡ vec_len out.old + length bytes.now) }
{
    out.extend_from_slice(bytes)
}

// Puts many bytes after the others.
#[inline(always)]
fn put_many(bytes: &[u8], out: &mut Vec<u8>) -> Result<(), AllocError>
    ensures items { OnOk result (out.new.items ≡ out.old.items ++ bytes.now) }
    ensures more { OnOk result (vec_len out.new ≡ vec_len out.old + length bytes.now) }
{
    let mut full = move_out(out);
    let put = extend_growing(bytes, &mut full);
    let _ = replace(out, full);
    put
}

// Puts bytes after the others, for which there is room.
#[inline(always)]
fn put_within(bytes: &[u8], out: &mut Vec<u8>)
    requires { vec_len out.old + length bytes.now ≤ vec_capacity out.old }
    ensures items { out.new.items ≡ out.old.items ++ bytes.now }
    ensures more { vec_len out.new ≡ vec_len out.old + length bytes.now }
{
    for b in bytes {
        out.push_reserved(*b);
    }
}

// Puts a few bytes after the others, for which there is room. Up to eight are told apart, so that they are moved at
// once.
#[inline(always)]
fn put_few(bytes: &[u8], out: &mut Vec<u8>)
    requires { vec_len out.old + length bytes.now ≤ vec_capacity out.old }
    ensures items { out.new.items ≡ out.old.items ++ bytes.now }
    ensures more { vec_len out.new ≡ vec_len out.old + length bytes.now }
{
    match bytes {
        [a] => put_within(&[*a], out),
        [a, b] => put_within(&[*a, *b], out),
        [a, b, c] => put_within(&[*a, *b, *c], out),
        [a, b, c, d] => put_within(&[*a, *b, *c, *d], out),
        [a, b, c, d, e] => put_within(&[*a, *b, *c, *d, *e], out),
        [a, b, c, d, e, f] => put_within(&[*a, *b, *c, *d, *e, *f], out),
        [a, b, c, d, e, f, g] => put_within(&[*a, *b, *c, *d, *e, *f, *g], out),
        [a, b, c, d, e, f, g, h] => put_within(&[*a, *b, *c, *d, *e, *f, *g, *h], out),
        _ => put_within(bytes, out),
    }
}

// The same for names, of which most have three or four bytes.
#[inline(always)]
fn put_short(name: &[u8], out: &mut Vec<u8>)
    requires { vec_len out.old + length name.now ≤ vec_capacity out.old }
    ensures items { out.new.items ≡ out.old.items ++ name.now }
    ensures more { vec_len out.new ≡ vec_len out.old + length name.now }
{
    match name {
        [a, b, c, d] => put_within(&[*a, *b, *c, *d], out),
        [a, b, c] => put_within(&[*a, *b, *c], out),
        _ => put_few(name, out),
    }
}

/// Puts a name after the others. An error where memory runs out.
#[inline(always)]
pub fn put_name(name: &[u8], out: &mut Vec<u8>) -> Result<(), AllocError>
    ensures items { OnOk result (out.new.items ≡ out.old.items ++ name.now) }
    ensures more { OnOk result (vec_len out.new ≡ vec_len out.old + length name.now) }
{
    if name.len() > 8 || name.len() > out.capacity() - out.len() {
        return put_many(name, out);
    }
    put_short(name, out);
    Ok(())
}

/// Puts bytes after the others. An error where memory runs out.
#[inline(always)]
pub fn put(bytes: &[u8], out: &mut Vec<u8>) -> Result<(), AllocError>
    ensures items { OnOk result (out.new.items ≡ out.old.items ++ bytes.now) }
    ensures more { OnOk result (vec_len out.new ≡ vec_len out.old + length bytes.now) }
{
    if bytes.len() > 8 || bytes.len() > out.capacity() - out.len() {
        return put_many(bytes, out);
    }
    put_few(bytes, out);
    Ok(())
}
