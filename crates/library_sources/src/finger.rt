// The library's text of finger trees.

/// The program, as `library finger` prints it.
pub const TEXT: &str = "// Sequences as finger trees, with a new front item in place.
//
// All cells have size 3, so that each can become any other. Numbers beside the
// elements only fill the cells and mean nothing. An Item's item is its first
// number. The middle of a sequence holds pairs of elements, its middle pairs of
// pairs, and so on.

data elem { Item(int, int, int); Pair(elem, elem, int); Triple(elem, elem, elem) }
data some { One(elem, int, int); Two(elem, elem, int); Three(elem, elem, elem) }
data seq { Empty; Unit(elem, int, int); More(some, seq, some) }

// Cells that a caller hands in.
data spares { Done; Pad3(int, int, spares) }

// The way from a middle to the whole sequence: the front and the back around it.
data way { Top; Around(some, way, some) }

// How many spares `cons` asks for: three for the item and the inmost sequence,
// and one for each front on the way there that is full. `cons` hands back those
// that it doesn't use.
fip fun need(^s: seq): int { full(s, 3) }

fip fun full(^s: seq, n: int): int {
  match s {
    More(Three(_, _, _), q, _) -> full(q, n + 1);
    _ -> n
  }
}

// Whether p has at least n spares.
fip fun holds(^p: spares, n: int): bool {
  if n <= 0 { True }
  else { match p { Done -> False; Pad3(_, _, q) -> holds(q, n - 1) } }
}

// x before the items of s, the spares that are left, and True; with too few
// spares s and p as they were, and False.
fip fun cons(x: int, s: seq, p: spares): (seq, spares, bool) {
  let n = need(s);
  let enough = holds(p, n);
  if enough {
    match! p {
      Pad3(_, _, Pad3(_, _, Pad3(_, _, q))) ->
        let (t, left) = push(Item(x, 0, 0), s, q, Top);
        (t, left, True);
      q -> (s, q, False)
    }
  } else { (s, p, False) }
}

// The whole sequence, with e before s in the inmost place; two cells come from
// the caller. A full front keeps e and its first element, and its other two go
// on as a pair into the middle, with a spare for the pair's cell. (Where there
// is no spare the pair stays in the front; `cons` has asked for enough.)
fip +3 +3 fun push(e: elem, s: seq, p: spares, w: way): (seq, spares) {
  match! s {
    Empty ->
      let t = close(Unit(e, 0, 0), w);
      (t, Pad3(0, 0, p));
    Unit(a, _, _) ->
      let t = close(More(One(e, 0, 0), Empty, One(a, 0, 0)), w);
      (t, p);
    More(One(a, _, _), q, r) ->
      let t = close(More(Two(e, a, 0), q, r), w);
      (t, Pad3(0, 0, Pad3(0, 0, p)));
    More(Two(a, b, _), q, r) ->
      let t = close(More(Three(e, a, b), q, r), w);
      (t, Pad3(0, 0, Pad3(0, 0, p)));
    More(Three(a, b, c), q, r) -> match! p {
      Pad3(_, _, o) -> push(Pair(b, c, 0), q, o, Around(Two(e, a, 0), w, r));
      Done ->
        let t = close(More(Three(e, Pair(a, b, 0), c), q, r), w);
        (t, Pad3(0, 0, Done))
    }
  }
}

// The whole sequence, with s in its middle.
fip fun close(s: seq, w: way): seq {
  match! w {
    Top -> s;
    Around(front, v, back) -> close(More(front, s, back), v)
  }
}
";
