// The tables that an analysis fills: enough for every text of at most 2,048 bytes.
ghost use Rattle.checker.specs.Sizes.{Fresh};

use events::event::Events;
use syntax::node::Nodes;
use syntax::token::TokenKind;
use text_rules::heads::Heads;

// Kinds, places, values and meanings: one for each token. There are at most as many tokens as bytes, and the end.
pub const TOKENS: usize = 2049;

// Of a text the tokens with their kinds, places and values, the nodes of its tree, its events, its functions, and what each name means, by its token.
#[derive(Drop)]
pub struct Tables {
    pub kinds: [TokenKind; TOKENS],
    pub places: [u32; TOKENS],
    pub values: [u32; TOKENS],
    pub nodes: Nodes,
    pub events: Events,
    pub heads: Heads,
    pub slots: [u32; TOKENS],
}

impl Tables {
    // Tables in which no name means anything yet.
    // Worked where it is called: so it is made where it stays, and not copied.
    #[inline(always)]
    pub fn new() -> Tables
        ensures { Fresh result }
    {
        Tables {
            kinds: [TokenKind::End; TOKENS],
            places: [0; TOKENS],
            values: [0; TOKENS],
            nodes: Nodes::new(),
            events: Events::new(),
            heads: Heads::new(),
            slots: [0; TOKENS],
        }
    }
}
