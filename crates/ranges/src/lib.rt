// What two ranges decide, and the ranges of operations, over 32-bit numbers.
#![tactic(auto)]

ghost use Rattle.std.specs.Prelude.{◌≡◌, ◌+ℤ◌, ◌-ℤ◌, ◌*ℤ◌};
ghost use Rattle.semantics.specs.Int.{add, sub, mul};
ghost use Rattle.semantics.specs.Search.{to, min_z, max_z, span, fitted, always as alwaysOf, decided, negated as negatedOf, mirrored as mirroredOf};
ghost use Rattle.ints.specs.Meaning.{of_operation, of_comparison};
ghost use Rattle.intervals.specs.Meaning.{of_window, Filled};
ghost use Rattle.ranges.specs.Meaning.{of_decided};

use intervals::Window;
use ints::{Comparison, Operation};

// The comparison that holds where this one does not.
pub fn negated(c: Comparison) -> Comparison
    ensures { of_comparison result ≡ negatedOf (of_comparison c) }
{
    match c {
        Comparison::Less => Comparison::AtLeast,
        Comparison::AtMost => Comparison::Greater,
        Comparison::Greater => Comparison::AtMost,
        Comparison::AtLeast => Comparison::Less,
        Comparison::Equal => Comparison::Unequal,
        Comparison::Unequal => Comparison::Equal,
    }
}

// This comparison read from its right side.
pub fn mirrored(c: Comparison) -> Comparison
    ensures { of_comparison result ≡ mirroredOf (of_comparison c) }
{
    match c {
        Comparison::Less => Comparison::Greater,
        Comparison::AtMost => Comparison::AtLeast,
        Comparison::Greater => Comparison::Less,
        Comparison::AtLeast => Comparison::AtMost,
        Comparison::Equal => Comparison::Equal,
        Comparison::Unequal => Comparison::Unequal,
    }
}

// Whether the comparison holds for all numbers of two ranges.
// By the comparison's number: this form is named for this place.
fn always(c: Comparison, v: Window, w: Window) -> bool
    ensures { result ≡ alwaysOf (of_comparison c) (of_window v) (of_window w) }
{
    match u32::from(c) {
        0 => v.high < w.low,
        1 => v.high <= w.low,
        2 => w.high < v.low,
        3 => w.high <= v.low,
        4 => v.high <= w.low && w.high <= v.low,
        _ => v.high < w.low || w.high < v.low,
    }
}

// What two ranges say of a comparison; none, where it may hold and may not.
pub fn decide(c: Comparison, v: Window, w: Window) -> Option<bool>
    ensures { of_decided result ≡ decided (of_comparison c) (of_window v) (of_window w) }
{
    if always(c, v, w) {
        Some(true)
    } else if always(negated(c), v, w) {
        Some(false)
    } else {
        None
    }
}

// Exact results, in 64 bits.
fn plus(a: i32, b: i32) -> i64
    ensures { result ≡ a +ℤ b }
{
    i64::from(a) + i64::from(b)
}

fn minus(a: i32, b: i32) -> i64
    ensures { result ≡ a -ℤ b }
{
    i64::from(a) - i64::from(b)
}

fn times(a: i32, b: i32) -> i64
    ensures { result ≡ a *ℤ b }
{
    i64::from(a) * i64::from(b)
}

// The range from low to high; all of 32 bits, where that leaves them.
fn fit(low: i64, high: i64) -> Window
    requires { Filled (to low high) }
    ensures { of_window result ≡ fitted (to low high) }
{
    if i32::MIN as i64 <= low && high <= i32::MAX as i64 {
        Window {
            low: low as i32,
            high: high as i32,
        }
    } else {
        Window {
            low: i32::MIN,
            high: i32::MAX,
        }
    }
}

fn least_of(a: i64, b: i64, c: i64, d: i64) -> i64
    ensures { result ≡ min_z (min_z a b) (min_z c d) }
{
    a.min(b).min(c.min(d))
}

fn most_of(a: i64, b: i64, c: i64, d: i64) -> i64
    ensures { result ≡ max_z (max_z a b) (max_z c d) }
{
    a.max(b).max(c.max(d))
}

// The ranges of a sum, a difference and a product.
fn sum(v: Window, w: Window) -> Window
    requires { Filled (of_window v) × Filled (of_window w) }
    ensures { of_window result ≡ fitted (span add (of_window v) (of_window w)) }
{
    fit(plus(v.low, w.low), plus(v.high, w.high))
}

fn difference(v: Window, w: Window) -> Window
    requires { Filled (of_window v) × Filled (of_window w) }
    ensures { of_window result ≡ fitted (span sub (of_window v) (of_window w)) }
{
    fit(minus(v.low, w.high), minus(v.high, w.low))
}

fn product(v: Window, w: Window) -> Window
    requires { Filled (of_window v) × Filled (of_window w) }
    ensures { of_window result ≡ fitted (span mul (of_window v) (of_window w)) }
{
    let a = times(v.low, w.low);
    let b = times(v.low, w.high);
    let c = times(v.high, w.low);
    let d = times(v.high, w.high);
    fit(least_of(a, b, c, d), most_of(a, b, c, d))
}

// The range of an operation.
pub fn range(o: Operation, v: Window, w: Window) -> Window
    requires { Filled (of_window v) × Filled (of_window w) }
    ensures { of_window result ≡ fitted (span (of_operation o) (of_window v) (of_window w)) }
{
    match o {
        Operation::Add => sum(v, w),
        Operation::Sub => difference(v, w),
        Operation::Mul => product(v, w),
    }
}
