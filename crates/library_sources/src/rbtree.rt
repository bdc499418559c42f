// The library's text of red-black search trees.

/// The program, as `library rbtree` prints it.
pub const TEXT: &str = "// Red-black search trees of numbers, grown in place.
//
// A new key needs a cell, and the caller hands it in as a pad of the same size.
// The search keeps its way back in the cells of the nodes it has passed, so
// insertion makes no cell, frees none, and needs a stack of one frame.

data color { Red; Black }
data rb { Leaf; Node(color, rb, int, rb) }
data pad { Pad0; Pad4(int, int, int, int) }
data list[a] { Nil; Cons(a, list[a]) }

// The way from a subtree to the root: the node above without this subtree.
data way { Top; Left(color, way, int, rb); Right(color, rb, int, way) }

// The tree with k, the pad that is left, and whether k is in the tree now.
// A key that is there already leaves its pad; a new one uses the pad's cell up;
// a new one without a pad leaves the tree as it was.
fip fun insert(t: rb, k: int, p: pad): (rb, pad, bool) { search(t, k, p, Top) }

fip fun search(t: rb, k: int, p: pad, w: way): (rb, pad, bool) {
  match! t {
    Leaf -> match! p {
      Pad0 -> let s = close(Leaf, w); (s, Pad0, False);
      Pad4(_, _, _, _) -> let s = grow(Leaf, k, Leaf, w); (s, Pad0, True)
    };
    Node(c, l, x, r) ->
      if k < x { search(l, k, p, Left(c, w, x, r)) }
      else { if k > x { search(r, k, p, Right(c, l, x, w)) }
      else { let s = close(Node(c, l, x, r), w); (s, p, True) } }
  }
}

// The whole tree, with t in its place.
fip fun close(t: rb, w: way): rb {
  match! w {
    Top -> t;
    Left(c, v, x, r) -> close(Node(c, t, x, r), v);
    Right(c, l, x, v) -> close(Node(c, l, x, t), v)
  }
}

// The whole tree, with a red node of l, k and r in its place; the cell for that
// node comes from the caller. Under a black node it may stay. A red node above
// has a black one above it: the three become a red node with two black ones
// below, and the red one may be in conflict higher up. The root becomes black.
fip +4 fun grow(l: rb, k: int, r: rb, w: way): rb {
  match! w {
    Top -> Node(Black, l, k, r);
    Left(Black, v, x, s) -> close(Node(Black, Node(Red, l, k, r), x, s), v);
    Right(Black, s, x, v) -> close(Node(Black, s, x, Node(Red, l, k, r)), v);
    Left(Red, Top, x, s) -> Node(Black, Node(Red, l, k, r), x, s);
    Right(Red, s, x, Top) -> Node(Black, s, x, Node(Red, l, k, r));
    Left(Red, Left(_, v, y, b), x, a) -> grow(Node(Black, l, k, r), x, Node(Black, a, y, b), v);
    Right(Red, b, x, Left(_, v, y, a)) -> grow(Node(Black, b, x, l), k, Node(Black, r, y, a), v);
    Left(Red, Right(_, a, y, v), x, b) -> grow(Node(Black, a, y, l), k, Node(Black, r, x, b), v);
    Right(Red, b, x, Right(_, a, y, v)) -> grow(Node(Black, a, y, b), x, Node(Black, l, k, r), v)
  }
}

// Whether k is in t. The tree is lent: it stays as it is.
fip fun member(^t: rb, k: int): bool {
  match t {
    Leaf -> False;
    Node(_, l, x, r) ->
      if k < x { member(l, k) } else { if k > x { member(r, k) } else { True } }
  }
}

// Inserts the first key with the first pad, and so on, until a list ends. What
// is left over is freed: the lists' own cells, pads that weren't used.
fbip fun build(keys: list[int], pads: list[pad], t: rb): rb {
  match! keys {
    Nil -> t;
    Cons(k, ks) -> match! pads {
      Nil -> t;
      Cons(p, ps) -> let (s, _, _) = insert(t, k, p); build(ks, ps, s)
    }
  }
}
";
