// The lookup of a variable's name.
ghost use Rattle.std.specs.Prelude.{◌≡◌, ◌^◌, ◌<◌, length, map, reverse};
ghost use Rattle.text_rules.specs.Spelling.{same_in};
ghost use Rattle.text_rules.specs.Names as N;
ghost use Rattle.scopes.specs.Memory.{Ordered, as_declared, blocks_of};
ghost use Rattle.scopes.specs.Answers.{slot_of, or_zero};

use crate::scope::Declaration;
use code::Address;
use lexer::same_bytes;
use syntax::source::Source;
use text_rules::spelling::spelling;

// What a lookup finds, and how many declarations it has compared.
#[derive(Drop)]
pub struct Sought {
    pub found: Option<Address>,
    pub compared: usize,
}

// The name of token i is sought from the innermost block outwards, and within a block from its newest declaration back: the blocks begin at `starts` among the declarations, both from the outermost on. The first hit leaves both loops.
pub fn seek(source: &Source, declarations: &[Declaration], starts: &[usize], i: usize) -> Sought
    requires { Ordered (length declarations.now) (reverse starts.now) }
    ensures found { slot_of result ≡ N.sought (same_in source.now) (blocks_of (map as_declared declarations.now) (reverse starts.now)) i }
    ensures compared { result.compared ≡ N.compared (same_in source.now) (N.seen (blocks_of (map as_declared declarations.now) (reverse starts.now))) i }
    ensures small { or_zero (slot_of result) < 2 ^ 32 }
{
    // Read once, and not at each declaration.
    let sought = spelling(source, i);
    let mut compared = 0;
    let mut found = None;
    let mut end = declarations.len();
    'blocks: for block in (0..starts.len()).rev() {
        let start = starts[block];
        for k in (start..end).rev() {
            compared += 1;
            if same_bytes(spelling(source, declarations[k].name), sought) {
                found = Some(Address(declarations[k].slot as usize));
                break 'blocks;
            }
        }
        end = start;
    }
    Sought { found, compared }
}
