// The texts of `library`: each is a right program, whose functions give what they should.

use crate::program::Fp2;
use std::alloc::{AllocError, Global};
use std::test::Fail;
use test_host::programs::{LIST, REVERSED};
use test_host::{Host, Row, first_wrong_run, host_of, run};

// Over the text of `library list`.
const ON_LIST: &[Row<'static>] = &[
    (
        "check a.fp",
        "",
        0,
        "back fip stack 0 frames 9 words
reverse fip stack 0 frames 9 words
append fip stack 1 frames 15 words
increment fip stack 0 frames 12 words
raise fip stack 0 frames 12 words
right fip stack 0 frames 15 words
plug fbip
",
    ),
    ("exec a.fp reverse", LIST, 0, REVERSED),
    (
        "exec a.fp append",
        "Cons(1, Cons(2, Nil))\nCons(3, Nil)\n",
        0,
        LIST,
    ),
    (
        "exec a.fp increment",
        "Cons(1, Cons(-1, Nil))\n",
        0,
        "Cons(2, Cons(0, Nil))\n",
    ),
    (
        "exec a.fp right",
        "Zip(Cons(1, Nil), Cons(2, Cons(3, Nil)))\n",
        0,
        "Zip(Cons(2, Cons(1, Nil)), Cons(3, Nil))\n",
    ),
    (
        "exec a.fp right",
        "Zip(Cons(1, Nil), Nil)\n",
        0,
        "Zip(Cons(1, Nil), Nil)\n",
    ),
    (
        "exec a.fp plug",
        "Zip(Cons(2, Cons(1, Nil)), Cons(3, Nil))\n",
        0,
        LIST,
    ),
];

// Over the text of `library tree`.
const ON_TREE: &[Row<'static>] = &[
    (
        "check a.fp",
        "",
        0,
        "increment fip stack 0 frames 17 words
down fip stack 0 frames 17 words
up fip stack 0 frames 17 words
",
    ),
    (
        "exec a.fp increment",
        "Bin(Bin(Leaf, 1, Leaf), 2, Bin(Leaf, 3, Leaf))\n",
        0,
        "Bin(Bin(Leaf, 2, Leaf), 3, Bin(Leaf, 4, Leaf))\n",
    ),
    ("exec a.fp increment", "Leaf\n", 0, "Leaf\n"),
];

// Over the text of `library rbtree`.
const ON_RBTREE: &[Row<'static>] = &[
    (
        "check a.fp",
        "",
        0,
        "insert fip stack 1 frames 136 words
search fip stack 1 frames 136 words
close fip stack 0 frames 17 words
grow fip +4 stack 0 frames 98 words
member fip stack 0 frames 18 words
build fbip
",
    ),
    (
        "exec a.fp insert --gauge",
        "Leaf\n5\nPad4(0, 0, 0, 0)\n",
        0,
        "Node(Black, Leaf, 5, Leaf)
Pad0
True
cells of 4: 1 to 1
stack: 1 frames, 136 words
bound: 1 frames, 136 words
",
    ),
    (
        "exec a.fp insert --gauge",
        "Node(Black, Leaf, 5, Leaf)\n5\nPad4(0, 0, 0, 0)\n",
        0,
        "Node(Black, Leaf, 5, Leaf)
Pad4(0, 0, 0, 0)
True
cells of 4: 2 to 2
stack: 1 frames, 55 words
bound: 1 frames, 136 words
",
    ),
    (
        "exec a.fp insert",
        "Node(Black, Leaf, 5, Leaf)\n7\nPad0\n",
        0,
        "Node(Black, Leaf, 5, Leaf)\nPad0\nFalse\n",
    ),
    (
        "exec a.fp member",
        "Node(Black, Leaf, 5, Leaf)\n5\n",
        0,
        "True\n",
    ),
    (
        "exec a.fp member",
        "Node(Black, Leaf, 5, Leaf)\n6\n",
        0,
        "False\n",
    ),
    (
        "exec a.fp build",
        "Cons(3, Cons(1, Cons(2, Nil)))
Cons(Pad4(0, 0, 0, 0), Cons(Pad4(0, 0, 0, 0), Cons(Pad4(0, 0, 0, 0), Nil)))
Leaf
",
        0,
        "Node(Black, Node(Black, Leaf, 1, Leaf), 2, Node(Black, Leaf, 3, Leaf))\n",
    ),
];

// Over the text of `library finger`.
const ON_FINGER: &[Row<'static>] = &[
    (
        "check a.fp",
        "",
        0,
        "need fip stack 0 frames 14 words
full fip stack 0 frames 14 words
holds fip stack 0 frames 17 words
cons fip stack 2 frames 127 words
push fip +3 +3 stack 1 frames 98 words
close fip stack 0 frames 10 words
",
    ),
    ("exec a.fp need", "Empty\n", 0, "3\n"),
    ("exec a.fp need", "Unit(Item(1, 0, 0), 0, 0)\n", 0, "3\n"),
    (
        "exec a.fp cons",
        "7\nEmpty\nDone\n",
        0,
        "Empty\nDone\nFalse\n",
    ),
    (
        "exec a.fp cons",
        "7\nEmpty\nPad3(0, 0, Pad3(0, 0, Pad3(0, 0, Done)))\n",
        0,
        "Unit(Item(7, 0, 0), 0, 0)\nPad3(0, 0, Done)\nTrue\n",
    ),
];

// What a command without a file prints; no bytes where it doesn't end with status 0, or reads the input or changes a
// file.
fn printed(alloc: Global, words: &str) -> Result<Vec<u8>, AllocError> {
    let seen = run::<Fp2>(alloc, words, host_of(b"", b"Nil\n"))?;
    if seen.status == 0 && seen.err.is_empty() && seen.left == 4 && seen.same_files {
        Ok(seen.out)
    } else {
        Ok(Vec::new(alloc))
    }
}

#[test]
fn the_texts_of_lists_and_trees_are_right(rt: HostRuntime) -> Result<(), Fail> {
    let alloc = rt.alloc();
    let list = printed(alloc, "library list")?;
    assert_eq!(rt;
        first_wrong_run::<Fp2>(alloc, "", list.as_slice(), ON_LIST)?,
        None
    );
    let tree = printed(alloc, "library tree")?;
    assert_eq!(rt;
        first_wrong_run::<Fp2>(alloc, "", tree.as_slice(), ON_TREE)?,
        None
    );
    Ok(())
}

#[test]
fn the_texts_of_search_trees_and_finger_trees_are_right(rt: HostRuntime) -> Result<(), Fail> {
    let alloc = rt.alloc();
    let rbtree = printed(alloc, "library rbtree")?;
    assert_eq!(rt;
        first_wrong_run::<Fp2>(alloc, "", rbtree.as_slice(), ON_RBTREE)?,
        None
    );
    let finger = printed(alloc, "library finger")?;
    assert_eq!(rt;
        first_wrong_run::<Fp2>(alloc, "", finger.as_slice(), ON_FINGER)?,
        None
    );
    Ok(())
}

#[test]
fn a_text_calls_no_folder_and_may_fill_out(rt: HostRuntime) -> Result<(), Fail> {
    let alloc = rt.alloc();
    let text = printed(alloc, "library tree")?;
    let host = Host {
        folder_fails: &[1],
        room: 100,
        ..host_of(b"", b"Nil\n")
    };
    let seen = run::<Fp2>(alloc, "library tree", host)?;
    assert_eq!(rt; seen.status, 9);
    assert_eq!(rt; seen.out.len(), 100);
    assert!(rt; text.starts_with(seen.out.as_slice()));
    assert_eq!(rt; seen.err.as_slice(), b"fault: out\n".as_slice());
    Ok(())
}
