// A window, and how it narrows by a comparison with a number.
#![tactic(auto)]

ghost use Rattle.std.specs.Prelude.{◌≡◌};
ghost use Rattle.std.proofs.Math.Option.{none};
ghost use Rattle.semantics.specs.Int.{lt, le, gt, ge, eq, ne};
ghost use Rattle.semantics.specs.Search.{to, decided, clip};
ghost use Rattle.ints.specs.Meaning.{of_comparison};
ghost use Rattle.intervals.specs.Meaning.{of_window, of_pair};

use ints::Comparison;

// From low to high; none, where low is above high.
#[derive(Clone, Copy, PartialEq, Eq, Debug)]
pub struct Window {
    pub low: i32,
    pub high: i32,
}

// A window narrows by a comparison with a number that the ranges do not decide: each method hands back the narrowed pair.
// Pairs in place of windows: this form is named for this place.
impl Window {
    pub fn below(self, k: i32) -> [i32; 2]
        requires { decided lt (of_window self) (to k k) ≡ none }
        ensures { of_pair result ≡ clip lt k (of_window self) }
    {
        [self.low, self.high.min(k - 1)]
    }

    pub fn at_most(self, k: i32) -> [i32; 2]
        ensures { of_pair result ≡ clip le k (of_window self) }
    {
        [self.low, self.high.min(k)]
    }

    pub fn above(self, k: i32) -> [i32; 2]
        requires { decided gt (of_window self) (to k k) ≡ none }
        ensures { of_pair result ≡ clip gt k (of_window self) }
    {
        [self.low.max(k + 1), self.high]
    }

    pub fn at_least(self, k: i32) -> [i32; 2]
        ensures { of_pair result ≡ clip ge k (of_window self) }
    {
        [self.low.max(k), self.high]
    }

    pub fn only(self, k: i32) -> [i32; 2]
        requires { decided eq (of_window self) (to k k) ≡ none }
        ensures { of_pair result ≡ clip eq k (of_window self) }
    {
        [k, k]
    }

    // Only an end goes.
    pub fn without(self, k: i32) -> [i32; 2]
        requires { decided ne (of_window self) (to k k) ≡ none }
        ensures { of_pair result ≡ clip ne k (of_window self) }
    {
        if self.low == k {
            [k + 1, self.high]
        } else if self.high == k {
            [self.low, k - 1]
        } else {
            [self.low, self.high]
        }
    }

    // By a comparison: by its number, the form that is named for this place.
    pub fn narrow(self, c: Comparison, k: i32) -> [i32; 2]
        requires { decided (of_comparison c) (of_window self) (to k k) ≡ none }
        ensures { of_pair result ≡ clip (of_comparison c) k (of_window self) }
    {
        match u32::from(c) {
            0 => self.below(k),
            1 => self.at_most(k),
            2 => self.above(k),
            3 => self.at_least(k),
            4 => self.only(k),
            _ => self.without(k),
        }
    }
}
