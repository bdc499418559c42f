// The library's text of trees of numbers.

/// The program, as `library tree` prints it.
pub const TEXT: &str = "// Trees of numbers, visited in place.
//
// A walk needs to know the way back. It keeps that way in the cells of the
// nodes it has entered: a node with a subtree missing is a stored context, as
// large as the node. So the walk takes no memory and no stack, however deep
// the tree is.

data tree[a] { Leaf; Bin(tree[a], a, tree[a]) }

// The way from a subtree to the root. Left: the walk is in the left subtree,
// the item and the right one are still to visit. Right: it is in the right
// subtree, the left one and the item are done.
data way { Top; Left(way, int, tree[int]); Right(tree[int], int, way) }

// The same shape with each item plus 1, visited from left to right.
fip fun increment(t: tree[int]): tree[int] { down(t, Top) }

fip fun down(t: tree[int], w: way): tree[int] {
  match! t {
    Leaf -> up(Leaf, w);
    Bin(l, x, r) -> down(l, Left(w, x, r))
  }
}

// t is done.
fip fun up(t: tree[int], w: way): tree[int] {
  match! w {
    Top -> t;
    Left(v, x, r) -> let y = x + 1; down(r, Right(t, y, v));
    Right(l, y, v) -> up(Bin(l, y, t), v)
  }
}
";
