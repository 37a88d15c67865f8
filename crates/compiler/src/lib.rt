// The code of a resolved program: one pass over the node table.
#![tactic(auto)]

ghost use Rattle.std.specs.Prelude.{◌≡◌, ◌+◌, ◌*◌, ◌<◌, ◌≤◌, length, pos, ◌-ℤ◌, slice_index};
ghost use Rattle.syntax.specs.Ast.{args, prog};
ghost use Rattle.syntax.specs.Fetch.{Fetched};
ghost use Rattle.syntax.specs.NodeKinds.{node_number};
ghost use Rattle.syntax.specs.Table.{node_words};
ghost use Rattle.events.specs.Visit.{Count};
ghost use Rattle.events.specs.Walk.{Rooted};
ghost use Rattle.code.specs.Meaning.{as_entry};
ghost use Rattle.compiler.specs.Compile.{Ready, Compiled};
ghost use Rattle.compiler.specs.Pass.{Resolved as Told, operation_of, jump_of, Functions, EndRoom, End, Room, Written, OwnRoom, OwnWritten, RoomP, Built};

use code::{Address, Draft, Entry};
use events::arity;
use ints::{Comparison, Operation};
use std::marker::Model;
use syntax::node::{Node, NodeKind, Nodes};
use syntax::source::Source;

// The entry of a node that takes two operands, or ends an argument, where the right operand or the argument has so many entries.
#[tactic(auto, unfolding(crate::specs::Pass::operation_of))]
fn operation(k: NodeKind, c: usize, over: u32) -> Entry
    requires { c < 6 }
    ensures { as_entry result ≡ operation_of (node_number k) c over }
{
    match k {
        NodeKind::Times => Entry::Operate(Operation::Mul, over),
        NodeKind::Plus => Entry::Operate(Operation::Add, over),
        NodeKind::Minus => Entry::Operate(Operation::Sub, over),
        NodeKind::MoreArgs => Entry::Argument(over),
        _ => Entry::Compare(Comparison::from(c as u32), over),
    }
}

// The flag that jumps over the right side of `&&` or `||`.
#[tactic(auto, unfolding(crate::specs::Pass::jump_of))]
fn jump_over(k: NodeKind) -> bool
    ensures { result ≡ jump_of (node_number k) }
{
    !matches!(k, NodeKind::Both)
}

// A resolved program: its nodes, its text with the tokens' values, and what its names mean, a variable or a function for each token.
#[derive(Drop)]
struct Resolved<'a> {
    nodes: &'a Nodes,
    source: &'a Source<'a>,
    slots: &'a [u32],
}

impl<'a> Model for Resolved<'a> {
    ghost Value = { Told };

    ghost view = { λ p. record { nodes = p.nodes.now; values = p.source.now.values; slots = p.slots.now } };
}

impl<'a> Resolved<'a> {
    fn new(nodes: &'a Nodes, source: &'a Source<'a>, slots: &'a [u32]) -> Resolved<'a>
        ensures { result ≡ record { nodes = nodes.now; values = source.now.values; slots = slots.now } }
    {
        Resolved {
            nodes,
            source,
            slots,
        }
    }

    // Node i.
    fn node(&self, i: usize) -> Node
        requires { (node_words * i + node_words ≤ length self.now.nodes) × (i < 65536) }
        ensures { Fetched self.now.nodes i result }
    {
        self.nodes.node(i)
    }

    // The count of the arguments at node i.
    fn arity(&self, i: usize) -> usize
        requires { Rooted args self.now.nodes i }
        ensures { Count self.now.nodes i result }
    {
        arity(self.nodes, i)
    }

    // The number of token i.
    fn number(&self, i: usize) -> i32
        requires { slice_index self.now.values i < 2147483648 }
        ensures { result ≡ pos (slice_index self.now.values i) }
    {
        self.source.value(i).cast_signed()
    }

    // The number of token i, negated.
    fn negated(&self, i: usize) -> i32
        requires { slice_index self.now.values i < 2147483648 }
        ensures { result ≡ pos 0 -ℤ pos (slice_index self.now.values i) }
    {
        -self.number(i)
    }

    // An end of a pair whose first token is i: its number, or the one behind its minus, negated.
    // `minus` is a number and no bool, as a node has it.
    fn end(&self, i: usize, minus: usize) -> i32
        requires { EndRoom self.now.values i minus }
        ensures { End self.now.values i minus result }
    {
        if minus == 0 {
            return self.number(i);
        }
        self.negated(i + minus)
    }

    // What token i means.
    fn meaning(&self, i: usize) -> usize
        requires { i < length self.now.slots }
        ensures { result ≡ slice_index self.now.slots i }
    {
        let slots = self.slots;
        slots[i] as usize
    }

    // The variable that token i names.
    fn address(&self, i: usize) -> Address
        requires { i < length self.now.slots }
        ensures { result.0 ≡ slice_index self.now.slots i }
    {
        Address(self.meaning(i))
    }

    // The count of the functions at node i.
    // A loop of its own: it follows a chain of nodes.
    fn functions(&self, i: usize) -> usize
        requires { Rooted prog self.now.nodes i }
        ensures { Functions self.now.nodes i result }
    {
        let mut j = i;
        let mut count = 0;
        loop {
            let node = self.node(j);
            let NodeKind::MoreFuns = node.kind else {
                return count;
            };
            j = node.first;
            count += 1;
        }
    }

    // The code of an expression, a condition or arguments.
    fn expression(&self, i: usize, code: &mut Draft)
        requires { Room 0 self.now.nodes i self.now.values self.now.slots (length code.old.entries) }
        ensures { Written self.now.nodes i self.now.values self.now.slots code.old code.new }
    {
        let node = self.node(i);
        let k = node.kind;
        match k {
            NodeKind::Number => code.push(Entry::Number(self.number(node.token))),
            NodeKind::Negative => code.push(Entry::Number(self.negated(node.token + 1))),
            NodeKind::Name => code.push(Entry::Name(self.address(node.token))),
            NodeKind::Call => {
                self.expression(node.first, code);
                let count = self.arity(node.first);
                let function = self.meaning(node.token);
                code.push(Entry::Call { function, count });
            }
            NodeKind::Bracket => self.expression(node.first, code),
            NodeKind::NoArgs => {}
            NodeKind::Always => code.push(Entry::Constant(true)),
            NodeKind::Never => code.push(Entry::Constant(false)),
            NodeKind::Both | NodeKind::Either => {
                self.expression(node.first, code);
                let at = code.len();
                let flag = jump_over(k);
                code.push(Entry::Jump { flag, over: 0 });
                self.expression(node.second, code);
                let over = (code.len() - (at + 1)) as u32;
                code.set(at, Entry::Jump { flag, over });
            }
            _ => {
                self.expression(node.first, code);
                let at = code.len();
                self.expression(node.second, code);
                let over = (code.len() - at) as u32;
                code.push(operation(k, node.third, over));
            }
        }
    }

    // The code of a free declaration with its own pair, whose first token is `token`: the two ends, with or without a minus, and then the declaration.
    fn own(&self, token: usize, low: usize, high: usize, code: &mut Draft)
        requires { OwnRoom self.now.values self.now.slots (length code.old.entries) token low high }
        ensures { OwnWritten self.now.values self.now.slots code.old code.new token low high }
    {
        let l = self.end(token + 3, low);
        let h = self.end(token + 5 + low, high);
        code.push(Entry::Number(l));
        code.push(Entry::Number(h));
        code.push(Entry::Own(self.address(token + 1)));
    }

    // The code of a statement, of statements, or of these in braces.
    fn statement(&self, i: usize, code: &mut Draft)
        requires { Room 1 self.now.nodes i self.now.values self.now.slots (length code.old.entries) }
        ensures { Written self.now.nodes i self.now.values self.now.slots code.old code.new }
    {
        let node = self.node(i);
        match node.kind {
            NodeKind::Empty => code.push(Entry::Begin),
            NodeKind::Declare => code.push(Entry::Begin),
            NodeKind::DeclareFree => code.push(Entry::Ask(self.address(node.token + 1))),
            NodeKind::Assign => {
                code.push(Entry::Begin);
                self.expression(node.first, code);
                code.push(Entry::Store(self.address(node.token)));
            }
            NodeKind::Eval => {
                code.push(Entry::Begin);
                self.expression(node.first, code);
            }
            NodeKind::Block => {
                code.push(Entry::Begin);
                self.statement(node.first, code);
            }
            NodeKind::IfElse => {
                code.push(Entry::Begin);
                self.expression(node.first, code);
                let test = code.len();
                code.push(Entry::Jump {
                    flag: false,
                    over: 0,
                });
                self.statement(node.second, code);
                let skip = code.len();
                code.push(Entry::Skip(0));
                self.statement(node.third, code);
                let over = (code.len() - (skip + 1)) as u32;
                code.set(skip, Entry::Skip(over));
                let past = (skip - test) as u32;
                code.set(
                    test,
                    Entry::Jump {
                        flag: false,
                        over: past,
                    },
                );
            }
            NodeKind::While => {
                code.push(Entry::Begin);
                let start = code.len();
                self.expression(node.first, code);
                let test = code.len();
                code.push(Entry::Jump {
                    flag: false,
                    over: 0,
                });
                self.statement(node.second, code);
                let end = code.len();
                let back = (end - start) as u32;
                code.push(Entry::Again(back));
                let over = (end - test) as u32;
                code.set(test, Entry::Jump { flag: false, over });
            }
            NodeKind::Return => {
                code.push(Entry::Begin);
                self.expression(node.first, code);
                code.push(Entry::Return);
            }
            NodeKind::Fail => {
                code.push(Entry::Begin);
                code.push(Entry::Fail);
            }
            NodeKind::MoreStmts => {
                self.statement(node.first, code);
                self.statement(node.second, code);
            }
            NodeKind::Braced => self.statement(node.first, code),
            NodeKind::DeclareOwn => self.own(node.token, node.first, node.second, code),
            _ => {}
        }
    }

    // The code of a program, and where each of its functions begins.
    fn program(&self, i: usize, code: &mut Draft)
        requires { RoomP self.now.nodes i self.now.values self.now.slots (length code.old.entries) }
        ensures { Built self.now.nodes i self.now.values self.now.slots code.old code.new }
    {
        let node = self.node(i);
        let NodeKind::MoreFuns = node.kind else {
            return;
        };
        self.program(node.first, code);
        let g = self.functions(node.first);
        let at = code.len();
        code.set_start(g, at);
        let function = self.node(node.second);
        self.statement(function.second, code);
        code.push(Entry::Fail);
    }
}

// Puts the code of the program at node `root`, whose main is the function of that number, in place of what stood there.
pub fn compile(
    nodes: &Nodes,
    root: usize,
    source: &Source,
    slots: &[u32],
    main: usize,
    code: &mut Draft,
)
    requires { Ready nodes.now root source.now.values slots.now main }
    ensures { Compiled nodes.now root source.now.values slots.now main code.new }
{
    code.clear();
    code.push(Entry::Call {
        function: main,
        count: 0,
    });
    code.push(Entry::Return);
    code.push(Entry::Fail);
    Resolved::new(nodes, source, slots).program(root, code);
}
