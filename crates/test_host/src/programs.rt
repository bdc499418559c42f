// Programs that several tests run, and texts that are in several rows.

/// Programs over lists, of each kind.
pub const LISTS: &str = "data ints { Nil; Cons(int, ints) }
fip fun rev(xs: ints, acc: ints): ints { match! xs { Nil -> acc; Cons(x, t) -> rev(t, Cons(x, acc)) } }
fbip fun len(xs: ints, n: int): int { match! xs { Nil -> n; Cons(_, t) -> len(t, n + 1) } }
fbip fun inc(xs: ints): ints { match! xs { Nil -> Nil; Cons(x, t) -> Cons(x + 1, inc(t)) } }
fip fun size(^xs: ints, n: int): int { match xs { Nil -> n; Cons(_, t) -> size(t, n + 1) } }
fip fun sized(xs: ints): (ints, int) { let n = size(xs, 0); (xs, n) }
fip +2 fun push(x: int, xs: ints): ints { Cons(x, xs) }
fip fun div(a: int, b: int): int { a / b }
fip fun less(a: int, b: int): bool { a < b }
fip fun seven(): int { 7 }
fun dup(x: int, xs: ints): ints { Cons(x, Cons(x, xs)) }
fun id[a](x: a): a { x }
";

/// The lines of `check` over `LISTS`.
pub const FUNCTIONS: &str = "rev fip stack 0 frames 9 words
len fbip
inc fbip
size fip stack 0 frames 10 words
sized fip stack 1 frames 15 words
push fip +2 stack 0 frames 6 words
div fip stack 0 frames 5 words
less fip stack 0 frames 5 words
seven fip stack 0 frames 3 words
dup fun
";

/// The lines of `verify` over the code of `LISTS`, which has no plain functions.
pub const CODED_FUNCTIONS: &str = "rev fip stack 0 frames 9 words
len fbip
inc fbip
size fip stack 0 frames 10 words
sized fip stack 1 frames 15 words
push fip +2 stack 0 frames 6 words
div fip stack 0 frames 5 words
less fip stack 0 frames 5 words
seven fip stack 0 frames 3 words
";

/// A generic program with functions that are passed.
pub const MAPS: &str = "data list[a] { End; More(a, list[a]) }
fip fun map[a, b, f: fun(a): b](xs: list[a], acc: list[b]): list[b] {
  match! xs { End -> acc; More(x, t) -> let y = f(x); map[a, b, f](t, More(y, acc)) }
}
fip fun half(x: int): int { x / 2 }
fip fun is_big(x: int): bool { x > 9 }
fip fun halves(xs: list[int]): list[int] { map[int, int, half](xs, End) }
fip fun bigs(xs: list[int]): list[bool] { map[int, bool, is_big](xs, End) }
fip fun both(xs: list[int]): list[bool] { let ys = halves(xs); bigs(ys) }
";

/// The lines of `check` over `MAPS`, and of `verify` over its code.
pub const MAP_FUNCTIONS: &str = "half fip stack 0 frames 5 words
is_big fip stack 0 frames 5 words
halves fip stack 1 frames 15 words
bigs fip stack 1 frames 15 words
both fip stack 2 frames 19 words
";

/// A list of three numbers and an empty one.
pub const ARGUMENTS: &str = "Cons(1, Cons(2, Cons(3, Nil)))\nNil\n";

/// A list of three numbers.
pub const LIST: &str = "Cons(1, Cons(2, Cons(3, Nil)))\n";

/// That list backwards.
pub const REVERSED: &str = "Cons(3, Cons(2, Cons(1, Nil)))\n";

/// What err holds after words that are no command.
pub const NOT_UNDERSTOOD: &str = "fp2: words not understood\n";

/// What err holds where a file isn't there.
pub const MISSING: &str = "fault: folder\n";

/// The code file of list reversal in version 1.
pub const OLD_REVERSE: &str =
    "4650324300010002000000020000000546616c73650000000004547275650000000002000000034e696c0000000004436f6e
7302000000020001000000000372657600020000020000020100020007000000060500000000000000000003080000000e01
0001080000020002000309000000020000000102000200010d00000000000200030000000000010000000301000200010000
0001010002000200000000000000010000000000";

/// The same in version 2.
pub const NEW_REVERSE: &str =
    "4650324300020002000000020000000546616c73650000000004547275650000000002000000034e696c0000000004436f6e
730200000002000100000000037265760002000002000002000100020007000000060500000000000000000003080000000e
010001080000020002000309000000020000000102000200010d000000000002000300000000000100000003010002000100
000001010002000200000000000000010000000000";
