// The functions of a text: of each its name, and how many parameters it has.
ghost use Rattle.std.specs.Prelude.{◌≡◌, ◌≤◌, ◌<◌, List, [], ◌∷◌, ◌++◌, length, map, take_while, position, find};
ghost use Rattle.events.specs.Read.{as_event};
ghost use Rattle.text_rules.specs.Spelling.{same_in};
ghost use Rattle.text_rules.specs.Rules as R;
ghost use Rattle.text_rules.specs.Answers.{as_head, is_parameter};

use crate::spelling::same_name;
use arrayvec::ArrayVec;
use events::event::{Event, Events};
use std::marker::Model;
use syntax::source::Source;

// A function: its name's token, and how many parameters it has.
#[derive(Clone, Copy, PartialEq, Eq, Default, Debug)]
pub struct Head {
    pub name: usize,
    pub arity: usize,
}

// How many functions there is room for: as many as events.
pub const HEADS: usize = 4096;

// Functions in their order. A clause sees the list of them.
#[derive(Drop)]
pub struct Heads {
    list: ArrayVec<Head, HEADS>,
}

impl Model for Heads {
    ghost Value = { List R.Head };

    ghost view = { λ t. map as_head t.list.items };
}

impl Heads {
    // No functions, with room for those of every text.
    // Worked where it is called: so it is made where it stays, and not copied.
    #[inline(always)]
    pub fn new() -> Heads
        ensures { result ≡ [] }
    {
        Heads {
            list: ArrayVec::new(),
        }
    }

    // The functions, first to last.
    pub fn as_slice(&self) -> &[Head]
        ensures heads { map as_head result.now ≡ self.now }
        ensures few { length self.now ≤ 4096 }
    {
        self.list.as_slice()
    }

    // Adds a function behind the others.
    fn push(&mut self, head: Head)
        requires { length self.old < 4096 }
        ensures { self.new ≡ self.old ++ as_head head ∷ [] }
    {
        self.list.push(head);
    }

    // Takes all functions out.
    fn clear(&mut self)
        ensures { self.new ≡ [] }
    {
        self.list.clear();
    }
}

// How many parameters some events begin with.
fn arity(events: &[Event]) -> usize
    ensures { result ≡ length (take_while is_parameter events.now) }
{
    events
        .iter()
        .take_while(|event| matches!(event, Event::Parameter(_)))
        .count()
}

// Puts the functions of some events, in order, in place of those that there were.
pub fn collect_heads(events: &Events, heads: &mut Heads)
    ensures { heads.new ≡ R.heads events.now }
{
    heads.clear();
    let list = events.as_slice();
    for (i, &event) in list.iter().enumerate() {
        if let Event::Function(name) = event {
            heads.push(Head {
                name,
                arity: arity(&list[i + 1..]),
            });
        }
    }
}

// The number of the first of some functions that has the name of token i.
pub fn position_of(source: &Source, list: &[Head], i: usize) -> Option<usize>
    ensures { result ≡ position (λ h. same_in source.now h.name i) list.now }
{
    list.iter().position(|head| same_name(source, head.name, i))
}

// The number of the first function that has the name of token i.
pub fn function_of(source: &Source, heads: &Heads, i: usize) -> Option<usize>
    ensures { result ≡ R.function_of (same_in source.now) heads.now i }
{
    position_of(source, heads.as_slice(), i)
}

// The first of some functions that has the name of token i.
fn named(source: &Source, list: &[Head], i: usize) -> Option<Head>
    ensures { result ≡ find (λ h. same_in source.now h.name i) list.now }
{
    list.iter()
        .copied()
        .find(|head| same_name(source, head.name, i))
}

// How many arguments a call of the name of token i takes.
pub fn arity_of(source: &Source, heads: &Heads, i: usize) -> Option<usize>
    ensures { result ≡ R.arity_of (same_in source.now) heads.now i }
{
    let head = named(source, heads.as_slice(), i)?;
    Some(head.arity)
}
