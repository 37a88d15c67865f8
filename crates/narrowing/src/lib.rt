// The windows of a path, eight pairs, and how they narrow by a comparison of two sides.
#![tactic(auto)]

ghost use Rattle.std.specs.Prelude.{◌≡◌, ◌<◌, get_or, set};
ghost use Rattle.std.proofs.Math.Option.{none};
ghost use Rattle.semantics.specs.Search.{to, decided, clip, clipped, all32};
ghost use Rattle.ints.specs.Meaning.{of_comparison};
ghost use Rattle.intervals.specs.Meaning.{of_window, of_pairs};
ghost use Rattle.narrowing.specs.Meaning.{AmongEight, range_of, variable_of, narrowed_by};

use intervals::Window;
use ints::Comparison;
use ranges::mirrored;

// A side of a comparison: just a free variable, by its place among the eight, or anything else, by its range.
#[derive(Clone, Copy)]
pub enum Side {
    Free(usize),
    Other(Window),
}

// The windows of a path, eight pairs by value (this form is named for this place): the one at i.
fn window_at(ws: [[i32; 2]; 8], i: usize) -> Window
    requires { i < 8 }
    ensures { of_window result ≡ get_or (of_pairs ws) i all32 }
{
    let [low, high] = ws[i];
    Window { low, high }
}

// The windows with another pair at i, as that of a free declaration that is reached.
pub fn with_pair(mut ws: [[i32; 2]; 8], i: usize, p: [i32; 2]) -> [[i32; 2]; 8]
    requires { i < 8 }
    ensures { result ≡ set ws i p }
{
    ws[i] = p;
    ws
}

// The windows with the one at i narrowed by a comparison with a number.
fn narrow_at(ws: [[i32; 2]; 8], i: usize, c: Comparison, k: i32) -> [[i32; 2]; 8]
    requires { (i < 8) × (decided (of_comparison c) (get_or (of_pairs ws) i all32) (to k k) ≡ none) }
    ensures { of_pairs result ≡ set (of_pairs ws) i (clip (of_comparison c) k (get_or (of_pairs ws) i all32)) }
{
    with_pair(ws, i, window_at(ws, i).narrow(c, k))
}

// The range of a side, in these windows.
fn range_of(ws: [[i32; 2]; 8], s: Side) -> Window
    requires { AmongEight s }
    ensures { of_window result ≡ range_of (of_pairs ws) s }
{
    match s {
        Side::Free(i) => window_at(ws, i),
        Side::Other(r) => r,
    }
}

// The windows, narrowed if the side is just a free variable, which compares so with a number.
fn narrow_side(ws: [[i32; 2]; 8], s: Side, c: Comparison, k: i32) -> [[i32; 2]; 8]
    requires { AmongEight s × (decided (of_comparison c) (range_of (of_pairs ws) s) (to k k) ≡ none) }
    ensures { of_pairs result ≡ clipped (of_comparison c) (variable_of s) (to k k) (of_pairs ws) }
{
    match s {
        Side::Free(i) => narrow_at(ws, i, c, k),
        Side::Other(_) => ws,
    }
}

// The windows where the comparison, which the ranges of its sides do not decide, holds.
pub fn narrowed(ws: [[i32; 2]; 8], c: Comparison, a: Side, b: Side) -> [[i32; 2]; 8]
    requires among_eight { AmongEight a × AmongEight b }
    requires undecided { decided (of_comparison c) (range_of (of_pairs ws) a) (range_of (of_pairs ws) b) ≡ none }
    ensures { of_pairs result ≡ narrowed_by (of_comparison c) a b (of_pairs ws) }
{
    let w = range_of(ws, b);
    if w.low == w.high {
        return narrow_side(ws, a, c, w.low);
    }
    let v = range_of(ws, a);
    if v.low == v.high {
        return narrow_side(ws, b, mirrored(c), v.low);
    }
    ws
}
