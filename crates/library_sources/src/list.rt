// The library's text of lists of numbers.

/// The program, as `library list` prints it.
pub const TEXT: &str = "// Lists of numbers, in their own cells.
//
// `back` moves the items of one list, one by one, to the front of another: the
// cell that an item leaves is the cell that it is put into. A list is reversed
// by one such move and appended by two, so nothing here needs a stack.

data list[a] { Nil; Cons(a, list[a]) }

// A place in a list: the items before it, the nearest first, and those after it.
data zipper { Zip(list[int], list[int]) }

fip fun back(xs: list[int], acc: list[int]): list[int] {
  match! xs { Nil -> acc; Cons(x, t) -> back(t, Cons(x, acc)) }
}

fip fun reverse(xs: list[int]): list[int] { back(xs, Nil) }

// The items of xs, then those of ys.
fip fun append(xs: list[int], ys: list[int]): list[int] {
  let front = back(xs, Nil);
  back(front, ys)
}

// Each item plus 1, in the same order.
fip fun increment(xs: list[int]): list[int] { raise(xs, Nil) }

fip fun raise(xs: list[int], acc: list[int]): list[int] {
  match! xs {
    Nil -> back(acc, Nil);
    Cons(x, t) -> let y = x + 1; raise(t, Cons(y, acc))
  }
}

// One step to the right; at the end the zipper stays.
fip fun right(z: zipper): zipper {
  match! z {
    Zip(xs, Cons(y, ys)) -> Zip(Cons(y, xs), ys);
    Zip(xs, Nil) -> Zip(xs, Nil)
  }
}

// The whole list of a zipper. The cell of Zip itself isn't needed any more, so
// this function is fbip: it frees that cell.
fbip fun plug(z: zipper): list[int] {
  match! z { Zip(xs, ys) -> back(xs, ys) }
}
";
