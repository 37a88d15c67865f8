// The nodes of a syntax tree, in a table.
ghost use Rattle.std.specs.Prelude.{◌≡◌, ◌+◌, ◌*◌, ◌≤◌, ◌<◌, List, ℕ, length};
ghost use Rattle.syntax.specs.Table.{node_words, row};
ghost use Rattle.syntax.specs.NodeKinds.{node_number};
ghost use Rattle.syntax.specs.Fetch.{Fetched, words_of};

use std::marker::Model;

// A node's kind.
#[derive(Clone, Copy, PartialEq, Eq, Debug)]
pub enum NodeKind {
    Number,
    Negative,
    Name,
    Call,
    Bracket,
    Times,
    Plus,
    Minus,
    NoArgs,
    MoreArgs,
    Always,
    Never,
    Compare,
    Both,
    Either,
    Empty,
    Declare,
    DeclareFree,
    DeclareOwn,
    Assign,
    Eval,
    Block,
    IfElse,
    While,
    Return,
    Fail,
    NoStmts,
    MoreStmts,
    Braced,
    NoParams,
    MoreParams,
    Function,
    NoFuns,
    MoreFuns,
}

// A node: its kind, the number of a token, and three numbers, which are those of its children first.
// Three numbers for every kind and no enum with fields: a clause sees each node as five words (`words_of`).
#[derive(Clone, Copy, PartialEq, Eq, Debug)]
pub struct Node {
    pub kind: NodeKind,
    pub token: usize,
    pub first: usize,
    pub second: usize,
    pub third: usize,
}

// How many nodes there is room for: two for each token of the longest text, and of its end.
pub const NODES: usize = 4098;

// A table of nodes, in which a node's children stand before it. A clause sees the words of the nodes, five for each.
// Children by their numbers and not in boxes: nothing is allocated.
#[derive(Drop)]
pub struct Nodes {
    nodes: [Node; NODES],
}

impl Model for Nodes {
    ghost Value = { List ℕ };

    ghost view = { λ t. words_of t.nodes };

    ghost invariant = { λ t. length t.nodes ≡ 4098 };
}

impl Nodes {
    // A table with room for every text.
    // Worked where it is called, and all zero bytes: so a table is made where it stays, and not copied.
    #[inline(always)]
    pub fn new() -> Nodes
        ensures { length result ≡ node_words * 4098 }
    {
        Nodes {
            nodes: [Node {
                kind: NodeKind::Number,
                token: 0,
                first: 0,
                second: 0,
                third: 0,
            }; NODES],
        }
    }

    // The nodes, first to last.
    pub fn as_slice(&self) -> &[Node]
        ensures { words_of result.now ≡ self.now }
    {
        &self.nodes
    }

    // Node i.
    pub fn node(&self, i: usize) -> Node
        requires { (node_words * i + node_words ≤ length self.now) × (i < 65536) }
        ensures { Fetched self.now i result }
    {
        self.nodes[i]
    }

    // Writes node `at`.
    pub fn put(&mut self, at: usize, node: Node)
        requires { (node_words * at + node_words ≤ length self.old) × (at < 65536) }
        ensures { self.new ≡ row self.old at (node_number node.kind) node.token node.first node.second node.third }
    {
        self.nodes[at] = node;
    }
}
