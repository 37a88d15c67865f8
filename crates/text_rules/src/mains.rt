// The function main.
ghost use Rattle.std.specs.Prelude.{◌≡◌, position};
ghost use Rattle.text_rules.specs.Spelling.{main_in};
ghost use Rattle.text_rules.specs.Resolve.{main_of};

use crate::heads::{Head, Heads};
use crate::spelling::is_main;
use syntax::source::Source;

// The number of the first of some functions that is main.
fn first_main(source: &Source, list: &[Head]) -> Option<usize>
    ensures { result ≡ position (λ h. main_in source.now h.name) list.now }
{
    list.iter().position(|head| is_main(source, head.name))
}

// The number of the first function that is main; how many there are if none is.
// The count and no Option where none is: `main_of` says so, and `resolved` rests on it.
pub fn main_number(source: &Source, heads: &Heads) -> usize
    ensures { result ≡ main_of (main_in source.now) heads.now }
{
    let list = heads.as_slice();
    first_main(source, list).unwrap_or(list.len())
}
