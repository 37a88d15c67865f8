// The events of a text, in a list.
ghost use Rattle.std.specs.Prelude.{◌≡◌, ◌<◌, ◌≤◌, List, [], ◌∷◌, ◌++◌, length, map};
ghost use Rattle.events.specs.Event.{Event as Told};
ghost use Rattle.events.specs.Read.{as_event};

use arrayvec::ArrayVec;
use std::marker::Model;

// One event: tokens, but for a depth and a count. The first is the default one: so an empty table of events is all zero bytes.
#[derive(Clone, Copy, PartialEq, Eq, Default, Debug)]
pub enum Event {
    #[default]
    Opens,
    Closes,
    Function(usize),
    Parameter(usize),
    Thing { depth: usize, token: usize },
    Declares(usize),
    Uses(usize),
    Calls { token: usize, count: usize },
    Ends { token: usize, open: bool },
}

// How many events there is room for: two for each token of the longest text.
pub const EVENTS: usize = 4096;

// Events in their order. A clause sees the list of them.
#[derive(Drop)]
pub struct Events {
    list: ArrayVec<Event, EVENTS>,
}

impl Model for Events {
    ghost Value = { List Told };

    ghost view = { λ t. map as_event t.list.items };
}

impl Events {
    // No events, with room for those of every text.
    // Worked where it is called: so it is made where it stays, and not copied.
    #[inline(always)]
    pub fn new() -> Events
        ensures { result ≡ [] }
    {
        Events {
            list: ArrayVec::new(),
        }
    }

    // The events, first to last.
    pub fn as_slice(&self) -> &[Event]
        ensures events { map as_event result.now ≡ self.now }
        ensures few { length self.now ≤ 4096 }
    {
        self.list.as_slice()
    }

    // Adds an event behind the others.
    pub fn push(&mut self, event: Event)
        requires { length self.old < 4096 }
        ensures { self.new ≡ self.old ++ as_event event ∷ [] }
    {
        self.list.push(event);
    }

    // Takes all events out.
    pub fn clear(&mut self)
        ensures { self.new ≡ [] }
    {
        self.list.clear();
    }
}
