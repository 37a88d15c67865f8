// The code of a program, as the compiler makes it and the machine works it.
#![tactic(auto)]

ghost use Rattle.std.specs.Prelude.{◌≡◌, ℕ, ◌<◌, ◌≤◌, [], ◌∷◌, ◌++◌, ◌%◌, length, map, take, set, get_or, replicate};
ghost use Rattle.std.specs.List.{All};
ghost use Rattle.simulation.specs.Code.{Code as Told, act, fail};
ghost use Rattle.code.specs.Meaning.{as_entry, Exact};

use ints::{Comparison, Operation};
use std::marker::Model;

// "An address names a variable and is never itself a value of the program": the number of a variable's declaration in its function, parameters first.
#[derive(Clone, Copy, PartialEq, Eq, Debug)]
pub struct Address(pub usize);

// An entry of the code.
#[derive(Clone, Copy, PartialEq, Eq, Debug)]
pub enum Entry {
    // The run fails.
    Fail,
    // An operand that takes no work: a number, or a variable.
    Number(i32),
    Name(Address),
    // The end of an argument, whose code is so many entries long.
    Argument(u32),
    // An operation or a comparison of two operands, the right one of which has so many entries.
    Operate(Operation, u32),
    Compare(Comparison, u32),
    // A call of a function, by its number, with so many arguments.
    Call { function: usize, count: usize },
    // The flag is set to this.
    Constant(bool),
    // Forward over so many entries, if the flag is as said.
    Jump { flag: bool, over: u32 },
    // Forward over so many entries.
    Skip(u32),
    // Back by so many entries, to a while's condition.
    Again(u32),
    // A statement begun.
    Begin,
    // A variable declared free.
    Ask(Address),
    // The same with its own pair, the numbers at the two entries before it.
    Own(Address),
    // The operand before goes into a variable.
    Store(Address),
    // The operand before is returned.
    Return,
}

// How many functions a program has at most.
pub const FUNCTIONS: usize = 16;

// Where the functions begin that a program has not: the entry where a run fails.
pub const NOWHERE: usize = 2;

// A code: its entries, and where each function begins. A clause sees it as the code that the machine works.
#[derive(Drop)]
pub struct Code<'a> {
    entries: &'a [Entry],
    starts: &'a [usize; FUNCTIONS],
}

impl<'a> Model for Code<'a> {
    ghost Value = { Told };

    ghost view = { λ c. record { entries = map as_entry c.entries.now; starts = c.starts.now } };

    ghost invariant = { λ c. (length c.entries.now < 65536) × (length c.starts.now ≡ 16) };
}

impl<'a> Code<'a> {
    pub fn new(entries: &'a [Entry], starts: &'a [usize; FUNCTIONS]) -> Code<'a>
        requires { length entries.now < 65536 }
        ensures { result ≡ record { entries = map as_entry entries.now; starts = starts.now } }
    {
        Code { entries, starts }
    }

    // The same code, in a struct of its own.
    pub fn copied(&self) -> Code<'a>
        ensures { result ≡ self.now }
    {
        Code {
            entries: self.entries,
            starts: self.starts,
        }
    }

    // How many entries there are.
    pub fn len(&self) -> usize
        ensures value { result ≡ length self.now.entries }
        ensures few { result < 65536 }
    {
        self.entries.len()
    }

    // The entries, first to last.
    pub fn entries(&self) -> &'a [Entry]
        ensures { map as_entry result.now ≡ self.now.entries }
    {
        &self.entries[..]
    }

    // Entry i.
    pub fn entry(&self, i: usize) -> Entry
        requires { (i < length self.now.entries) × (i < 65536) }
        ensures { as_entry result ≡ get_or self.now.entries i (act fail) }
    {
        self.entries[i]
    }

    // Where function g begins.
    pub fn start(&self, g: usize) -> usize
        requires { g < 16 }
        ensures { result ≡ get_or self.now.starts g 2 }
    {
        self.starts[g]
    }
}

// How many entries there is room for in a draft: as many as a text's tokens need.
pub const ENTRIES: usize = 2052;

// How many variables a function has at most.
const VARIABLES: usize = 16;

// An address among the sixteen that there are.
fn among(a: Address) -> Address
    ensures { (result.0 ≡ a.0 % 16) × (result.0 < 16) }
{
    Address(a.0 % VARIABLES)
}

// The entry that means the same and names its variable or its function by a number below 16.
fn exact(entry: Entry) -> Entry
    ensures { (as_entry result ≡ as_entry entry) × Exact result }
{
    match entry {
        Entry::Name(a) => Entry::Name(among(a)),
        Entry::Call { function, count } => Entry::Call {
            function: function % FUNCTIONS,
            count,
        },
        Entry::Ask(a) => Entry::Ask(among(a)),
        Entry::Own(a) => Entry::Own(among(a)),
        Entry::Store(a) => Entry::Store(among(a)),
        _ => entry,
    }
}

// A code that is being made. A clause sees it as a code too; of its entries each is the only one that means what it means (`Exact`).
#[derive(Drop)]
pub struct Draft {
    entries: [Entry; ENTRIES],
    count: usize,
    starts: [usize; FUNCTIONS],
}

impl Model for Draft {
    ghost Value = { Told };

    ghost view = { λ c. record { entries = map as_entry (take c.count c.entries); starts = c.starts } };

    ghost invariant = { λ c. (c.count ≤ 2052) × (length c.entries ≡ 2052) × (length c.starts ≡ 16) × All Exact c.entries };
}

impl Draft {
    // A code with no entries and no functions.
    pub fn new() -> Draft
        ensures entries { result.entries ≡ [] }
        ensures starts { result.starts ≡ replicate 16 2 }
    {
        Draft {
            entries: [Entry::Fail; ENTRIES],
            count: 0,
            starts: [NOWHERE; FUNCTIONS],
        }
    }

    // Takes all entries and functions out.
    pub fn clear(&mut self)
        ensures entries { self.new.entries ≡ [] }
        ensures starts { self.new.starts ≡ replicate 16 2 }
    {
        self.count = 0;
        self.starts = [NOWHERE; FUNCTIONS];
    }

    // How many entries there are.
    pub fn len(&self) -> usize
        ensures value { result ≡ length self.now.entries }
        ensures few { result ≤ 2052 }
    {
        self.count
    }

    // The entries so far, first to last.
    pub fn as_slice(&self) -> &[Entry]
        ensures entries { map as_entry result.now ≡ self.now.entries }
        ensures exact { All Exact result.now }
    {
        &self.entries[..self.count]
    }

    // The code so far.
    pub fn code(&self) -> Code<'_>
        ensures { result ≡ self.now }
    {
        Code::new(&self.entries[..self.count], &self.starts)
    }

    // Adds an entry behind the others.
    pub fn push(&mut self, entry: Entry)
        requires { length self.old.entries < 2052 }
        ensures entries { self.new.entries ≡ self.old.entries ++ as_entry entry ∷ [] }
        ensures starts { self.new.starts ≡ self.old.starts }
    {
        self.entries[self.count] = exact(entry);
        self.count += 1;
    }

    // Entry `at` becomes another.
    pub fn set(&mut self, at: usize, entry: Entry)
        requires { (at < length self.old.entries) × (at < 65536) }
        ensures entries { self.new.entries ≡ set self.old.entries at (as_entry entry) }
        ensures starts { self.new.starts ≡ self.old.starts }
    {
        self.entries[at] = exact(entry);
    }

    // Function `function` begins at entry `at`.
    pub fn set_start(&mut self, function: usize, at: usize)
        requires { function < 16 }
        ensures entries { self.new.entries ≡ self.old.entries }
        ensures starts { self.new.starts ≡ set self.old.starts function at }
    {
        self.starts[function] = at;
    }
}
