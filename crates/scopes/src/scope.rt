// The scope at an event: the blocks that are open, with their declarations.
ghost use Rattle.std.specs.Prelude.{◌≡◌, ◌^◌, ◌<◌, suc, [], ◌∷◌, length, reverse};
ghost use Rattle.events.specs.Read.{as_event};
ghost use Rattle.text_rules.specs.Spelling.{same_in};
ghost use Rattle.text_rules.specs.Names as N;
ghost use Rattle.text_rules.specs.Scopes.{Scope, scope, nowhere, added, outer, entered};
ghost use Rattle.scopes.specs.Memory.{scope_of, Packed, Room};
ghost use Rattle.scopes.specs.Answers.{slot_of, or_zero};

use crate::lookup::{Sought, seek};
use arrayvec::ArrayVec;
use events::event::Event;
use std::marker::Model;
use syntax::source::Source;

// A declaration: its name's token, and its number in its function, parameters first.
#[derive(Clone, Copy, PartialEq, Eq, Default, Debug)]
pub struct Declaration {
    pub name: usize,
    pub slot: u32,
}

// The declarations that can be seen, the earliest first; where each open block begins among them, the outermost first; and the number of the function's next declaration. There is room for so many of either. A clause sees the blocks with their declarations, and that number.
#[derive(Clone, Drop)]
pub struct Scopes<const ROOM: usize> {
    declarations: ArrayVec<Declaration, ROOM>,
    starts: ArrayVec<usize, ROOM>,
    next: usize,
}

impl<const ROOM: usize> Model for Scopes<ROOM> {
    ghost Value = { Scope };

    ghost view = { λ s. scope_of s.declarations.items s.starts.items s.next };

    ghost invariant = { λ s. Packed (length s.declarations.items) (reverse s.starts.items) };
}

impl<const ROOM: usize> Scopes<ROOM> {
    // No block is open.
    // Worked where it is called: so it is made where it stays, and not copied.
    #[inline(always)]
    pub fn new() -> Scopes<ROOM>
        ensures { result ≡ nowhere }
    {
        Scopes {
            declarations: ArrayVec::new(),
            starts: ArrayVec::new(),
            next: 0,
        }
    }

    // The number of the function's next declaration.
    pub fn next(&self) -> usize
        ensures { result ≡ self.now.next }
    {
        self.next
    }

    // The name of token i is sought from the innermost block outwards, and within a block from its newest declaration back.
    pub fn seek(&self, source: &Source, i: usize) -> Sought
        ensures found { slot_of result ≡ N.sought (same_in source.now) self.now.blocks i }
        ensures compared { result.compared ≡ N.compared (same_in source.now) (N.seen self.now.blocks) i }
        ensures small { or_zero (slot_of result) < 2 ^ 32 }
    {
        seek(
            source,
            self.declarations.as_slice(),
            self.starts.as_slice(),
            i,
        )
    }

    // A function begins, with the block of its parameters.
    fn begin_function(&mut self)
        requires blocks { 0 < ROOM }
        requires size { ROOM < 2 ^ 32 }
        ensures { self.new ≡ scope ([] ∷ []) 0 }
    {
        self.declarations.clear();
        self.starts.clear();
        self.starts.push(0);
        self.next = 0;
    }

    fn open_block(&mut self)
        requires blocks { length self.old.blocks < ROOM }
        requires size { ROOM < 2 ^ 32 }
        ensures { self.new ≡ scope ([] ∷ self.old.blocks) self.old.next }
    {
        self.starts.push(self.declarations.len());
    }

    fn close_block(&mut self)
        ensures { self.new ≡ scope (outer self.old.blocks) self.old.next }
    {
        if let Some(start) = self.starts.pop() {
            self.declarations.truncate(start);
        }
    }

    // A declaration in the innermost block; where no block is open, it opens one.
    fn declare(&mut self, name: usize)
        requires { Room ROOM self.old }
        ensures { self.new ≡ scope (added name self.old.next self.old.blocks) (suc self.old.next) }
    {
        if self.starts.is_empty() {
            self.starts.push(self.declarations.len());
        }
        self.declarations.push(Declaration {
            name,
            slot: self.next as u32,
        });
        self.next += 1;
    }

    // Goes on past an event.
    pub fn enter(&mut self, event: Event)
        requires { Room ROOM self.old }
        ensures { self.new ≡ entered self.old (as_event event) }
    {
        match event {
            Event::Function(_) => self.begin_function(),
            Event::Parameter(i) | Event::Declares(i) => self.declare(i),
            Event::Opens => self.open_block(),
            Event::Closes => self.close_block(),
            _ => {}
        }
    }
}
