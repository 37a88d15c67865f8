// Rule 17 of a text: definite assignment. The variables are walked sixteen at a time: an array says which of a group are assigned.
#![tactic(auto)]

ghost use Rattle.std.specs.Prelude.{◌≡◌, true, ◌&&◌, ◌||◌, ℕ, ◌+◌, ◌*◌, ◌^◌, ◌≤◌, ◌<◌, eqb, ltb, get_or, length};
ghost use Rattle.syntax.specs.Table.{node_words};
ghost use Rattle.syntax.specs.Fetch.{Fetched, words_of};
ghost use Rattle.syntax.specs.Ast.{cond, params, fun, prog};
ghost use Rattle.events.specs.Walk.{Rooted};
ghost use Rattle.assignment.specs.Group.{within, only};
ghost use Rattle.assignment.specs.Walk.{OfExpr, OfStmt, OfRow, PartAt, Read, Split, Flowed, Counted, Finds, Unassigned};

use syntax::node::{Node, NodeKind};
use text_rules::broken::lesser;
use text_rules::spelling::word;

// How many variables a group has.
const GROUP: usize = 16;

// The variables of a group that are assigned after a condition when it is true and when it is false, and the least token found.
#[derive(Clone, Copy)]
struct Ends {
    yes: [bool; GROUP],
    no: [bool; GROUP],
    best: Option<usize>,
}

// The variables of a group that are assigned after a statement, and the least token found.
#[derive(Clone, Copy)]
struct After {
    set: [bool; GROUP],
    best: Option<usize>,
}

// Every variable is assigned.
fn all() -> [bool; GROUP]
    ensures { (base v : ℕ) → only base result v ≡ true }
{
    [true; GROUP]
}

// Those that are assigned in both.
fn both(a: [bool; GROUP], b: [bool; GROUP]) -> [bool; GROUP]
    ensures { (base v : ℕ) → only base result v ≡ (only base a v && only base b v) }
{
    let mut set = [false; GROUP];
    for (k, &yes) in b.iter().enumerate() {
        set[k] = a[k] && yes;
    }
    set
}

// Whether the variable v is assigned.
fn assigned(set: [bool; GROUP], base: usize, v: usize) -> bool
    ensures { result ≡ only base set v }
{
    if base <= v && v - base < GROUP {
        return set[v - base];
    }
    true
}

// The variable v is assigned too.
fn assign(mut set: [bool; GROUP], base: usize, v: usize) -> [bool; GROUP]
    ensures { (u : ℕ) → only base result u ≡ (eqb v u || only base set u) }
{
    if base <= v && v - base < GROUP {
        set[v - base] = true;
    }
    set
}

// The first `count` variables are assigned.
fn start(base: usize, count: usize) -> [bool; GROUP]
    ensures { (v : ℕ) → only base result v ≡ within base (λ u. ltb u count) v }
{
    let mut set = [false; GROUP];
    for (k, yes) in set.iter_mut().enumerate() {
        *yes = k < count.saturating_sub(base);
    }
    set
}

// The greatest of some words.
fn greatest(words: &[u32]) -> usize
    ensures { ((i : ℕ) → get_or words.now i 0 ≤ result) × (result < 2 ^ 32) }
{
    let mut top = 0;
    for &word in words {
        top = top.max(word as usize);
    }
    top
}

// The word behind the one at i, 0 past the end.
fn next_word(words: &[u32], i: usize) -> usize
    ensures { result ≡ get_or words.now (i + 1) 0 }
{
    if i < words.len() {
        return word(words, i + 1);
    }
    0
}

// What the walk of a group reads: a tree, which variable each of its names means, and the first variable of the group.
#[derive(Clone, Copy)]
struct Walk<'a> {
    nodes: &'a [Node],
    slots: &'a [u32],
    base: usize,
}

impl<'a> Walk<'a> {
    // Node i.
    fn node(&self, i: usize) -> Node
        requires { (node_words * i + node_words ≤ length (words_of self.now.nodes.now)) × (i < 65536) }
        ensures { Fetched (words_of self.now.nodes.now) i result }
    {
        self.nodes[i]
    }

    // How many parameters stand at node i.
    // A loop of its own: it follows a chain of nodes.
    fn parameters(&self, i: usize) -> usize
        requires { Rooted params (words_of self.now.nodes.now) i }
        ensures { Counted (words_of self.now.nodes.now) i result }
    {
        let mut j = i;
        let mut count = 0;
        loop {
            let node = self.node(j);
            if node.kind != NodeKind::MoreParams {
                return count;
            }
            j = node.first;
            count += 1;
        }
    }

    // The names that an expression or arguments read.
    fn reads(&self, i: usize, set: [bool; GROUP], best: Option<usize>) -> Option<usize>
        requires { PartAt OfExpr (words_of self.now.nodes.now) i }
        ensures { Read (words_of self.now.nodes.now) i self.now.slots.now self.now.base set best result }
    {
        let node = self.node(i);
        match node.kind {
            NodeKind::Name => {
                if assigned(set, self.base, word(self.slots, node.token)) {
                    best
                } else {
                    lesser(node.token, best)
                }
            }
            NodeKind::Call | NodeKind::Bracket => self.reads(node.first, set, best),
            NodeKind::Times | NodeKind::Plus | NodeKind::Minus | NodeKind::MoreArgs => {
                let best = self.reads(node.first, set, best);
                self.reads(node.second, set, best)
            }
            _ => best,
        }
    }

    // The names that a condition reads, and its two ends.
    fn split(&self, i: usize, set: [bool; GROUP], best: Option<usize>) -> Ends
        requires { Rooted cond (words_of self.now.nodes.now) i }
        ensures { Split (words_of self.now.nodes.now) i self.now.slots.now self.now.base set best result.yes result.no result.best }
    {
        let node = self.node(i);
        match node.kind {
            NodeKind::Always => {
                let no = all();
                Ends { yes: set, no, best }
            }
            NodeKind::Never => {
                let yes = all();
                Ends { yes, no: set, best }
            }
            NodeKind::Both => {
                let a = self.split(node.first, set, best);
                let b = self.split(node.second, a.yes, a.best);
                let no = both(a.no, b.no);
                Ends { no, ..b }
            }
            NodeKind::Either => {
                let a = self.split(node.first, set, best);
                let b = self.split(node.second, a.no, a.best);
                let yes = both(a.yes, b.yes);
                Ends { yes, ..b }
            }
            _ => {
                let best = self.reads(node.first, set, best);
                let best = self.reads(node.second, set, best);
                Ends {
                    yes: set,
                    no: set,
                    best,
                }
            }
        }
    }

    // The names that a statement reads, and what is assigned after it.
    // A set and a token, and no `After`, go in: behind a condition it would be made anew from one of two sets.
    #[cycle(flow_sequence)]
    fn flow(&self, i: usize, set: [bool; GROUP], best: Option<usize>) -> After
        requires { PartAt OfStmt (words_of self.now.nodes.now) i }
        ensures { Flowed OfStmt (words_of self.now.nodes.now) i self.now.slots.now self.now.base set best result.set result.best }
    {
        let node = self.node(i);
        match node.kind {
            NodeKind::DeclareFree | NodeKind::DeclareOwn => {
                let set = assign(set, self.base, next_word(self.slots, node.token));
                After { set, best }
            }
            NodeKind::Assign => {
                let best = self.reads(node.first, set, best);
                let set = assign(set, self.base, word(self.slots, node.token));
                After { set, best }
            }
            NodeKind::Eval => {
                let best = self.reads(node.first, set, best);
                After { set, best }
            }
            NodeKind::Block => self.sequence(node.first, set, best),
            NodeKind::IfElse => {
                let c = self.split(node.first, set, best);
                let s = self.flow(node.second, c.yes, c.best);
                let t = self.flow(node.third, c.no, s.best);
                let set = both(s.set, t.set);
                After { set, ..t }
            }
            NodeKind::While => {
                let c = self.split(node.first, set, best);
                let s = self.flow(node.second, c.yes, c.best);
                let set = c.no;
                After { set, ..s }
            }
            NodeKind::Return => {
                let best = self.reads(node.first, set, best);
                let set = all();
                After { set, best }
            }
            NodeKind::Fail => {
                let set = all();
                After { set, best }
            }
            _ => After { set, best },
        }
    }

    // The same of statements, and of these in braces.
    #[cycle(flow_sequence)]
    fn sequence(&self, i: usize, set: [bool; GROUP], best: Option<usize>) -> After
        requires { PartAt OfRow (words_of self.now.nodes.now) i }
        ensures { Flowed OfRow (words_of self.now.nodes.now) i self.now.slots.now self.now.base set best result.set result.best }
    {
        let node = self.node(i);
        match node.kind {
            NodeKind::Braced => self.sequence(node.first, set, best),
            NodeKind::MoreStmts => {
                let a = self.sequence(node.first, set, best);
                self.flow(node.second, a.set, a.best)
            }
            _ => After { set, best },
        }
    }

    // What breaks the rule in a function.
    fn function(&self, i: usize, best: Option<usize>) -> Option<usize>
        requires { Rooted fun (words_of self.now.nodes.now) i }
        ensures { Finds fun (words_of self.now.nodes.now) i self.now.slots.now self.now.base best result }
    {
        let node = self.node(i);
        let set = start(self.base, self.parameters(node.first));
        self.sequence(node.second, set, best).best
    }

    // The same in the functions of a program.
    fn functions(&self, i: usize, best: Option<usize>) -> Option<usize>
        requires { Rooted prog (words_of self.now.nodes.now) i }
        ensures { Finds prog (words_of self.now.nodes.now) i self.now.slots.now self.now.base best result }
    {
        let node = self.node(i);
        match node.kind {
            NodeKind::MoreFuns => {
                let best = self.functions(node.first, best);
                self.function(node.second, best)
            }
            _ => best,
        }
    }
}

// The least token that reads a variable before it is assigned, in the program at node `root`, whose names mean what `slots` says.
pub fn unassigned(nodes: &[Node], root: usize, slots: &[u32]) -> Option<usize>
    requires { Rooted prog (words_of nodes.now) root }
    ensures { Unassigned (words_of nodes.now) root slots.now result }
{
    let top = greatest(slots);
    let mut best = None;
    for base in (0..=top).step_by(GROUP) {
        best = Walk { nodes, slots, base }.functions(root, best);
    }
    best
}
