// The events of a syntax tree: one pass over the node table.
#![tactic(auto)]

ghost use Rattle.std.specs.Prelude.{◌+◌, length};
ghost use Rattle.syntax.specs.Ast.{expr, args};
ghost use Rattle.events.specs.Walk.{Rooted, Ready, Walked};
ghost use Rattle.events.specs.Visit.{Stands, Located, First, Count, Stops, Visited, Enclosed};

use event::{Event, Events};
use syntax::node::{NodeKind, Nodes};

pub mod event;

// The first token of the expression at node i.
// A loop of its own: it follows a chain of nodes.
fn first_token(nodes: &Nodes, i: usize) -> usize
    requires { Rooted expr nodes.now i }
    ensures { First nodes.now i result }
{
    let mut j = i;
    loop {
        let node = nodes.node(j);
        match node.kind {
            NodeKind::Times | NodeKind::Plus | NodeKind::Minus => j = node.first,
            _ => return node.token,
        }
    }
}

// The count of the arguments at node i.
// A loop of its own: it follows a chain of nodes. Parameters and functions are counted apart: their trees are of other sorts.
pub fn arity(nodes: &Nodes, i: usize) -> usize
    requires { Rooted args nodes.now i }
    ensures { Count nodes.now i result }
{
    let mut j = i;
    let mut count = 0;
    loop {
        let node = nodes.node(j);
        if node.kind != NodeKind::MoreArgs {
            return count;
        }
        j = node.first;
        count += 1;
    }
}

// Whether the tree at node i is one that can't reach its end.
fn stops(nodes: &Nodes, i: usize) -> bool
    requires { Stands nodes.now i }
    ensures { Stops nodes.now i result }
{
    let node = nodes.node(i);
    match node.kind {
        NodeKind::Return | NodeKind::Fail => true,
        NodeKind::Block | NodeKind::Braced => stops(nodes, node.first),
        NodeKind::MoreStmts => stops(nodes, node.second),
        NodeKind::IfElse => stops(nodes, node.second) && stops(nodes, node.third),
        _ => false,
    }
}

// The events of an expression, a condition or arguments.
fn expression(nodes: &Nodes, i: usize, depth: usize, events: &mut Events)
    requires { Located 0 nodes.now i depth (length events.old) }
    ensures { Visited nodes.now i depth events.old events.new }
{
    let node = nodes.node(i);
    match node.kind {
        NodeKind::Name => events.push(Event::Uses(node.token)),
        NodeKind::Call => {
            let count = arity(nodes, node.first);
            events.push(Event::Calls {
                token: node.token,
                count,
            });
            expression(nodes, node.first, depth + 1, events);
        }
        NodeKind::Bracket => {
            let token = first_token(nodes, node.first);
            events.push(Event::Thing {
                depth: depth + 1,
                token,
            });
            expression(nodes, node.first, depth + 1, events);
        }
        NodeKind::MoreArgs => {
            expression(nodes, node.first, depth, events);
            let token = first_token(nodes, node.second);
            events.push(Event::Thing { depth, token });
            expression(nodes, node.second, depth, events);
        }
        NodeKind::Times
        | NodeKind::Plus
        | NodeKind::Minus
        | NodeKind::Compare
        | NodeKind::Both
        | NodeKind::Either => {
            expression(nodes, node.first, depth, events);
            expression(nodes, node.second, depth, events);
        }
        _ => {}
    }
}

// The events of an arm, which is a block.
#[cycle(arm_statement)]
fn arm(nodes: &Nodes, i: usize, depth: usize, events: &mut Events)
    requires { Located 1 nodes.now i depth (length events.old + 2) }
    ensures { Enclosed nodes.now i depth events.old events.new }
{
    events.push(Event::Opens);
    statement(nodes, i, depth, events);
    events.push(Event::Closes);
}

// The events of a statement, of statements, or of these in braces.
#[cycle(arm_statement)]
fn statement(nodes: &Nodes, i: usize, depth: usize, events: &mut Events)
    requires { Located 1 nodes.now i depth (length events.old) }
    ensures { Visited nodes.now i depth events.old events.new }
{
    let node = nodes.node(i);
    let token = node.token;
    match node.kind {
        NodeKind::Empty | NodeKind::Fail => events.push(Event::Thing { depth, token }),
        NodeKind::Declare | NodeKind::DeclareFree | NodeKind::DeclareOwn => {
            events.push(Event::Thing { depth, token });
            events.push(Event::Declares(token + 1));
        }
        NodeKind::Assign => {
            events.push(Event::Thing { depth, token });
            events.push(Event::Uses(token));
            expression(nodes, node.first, depth, events);
        }
        NodeKind::Eval => {
            let token = first_token(nodes, node.first);
            events.push(Event::Thing { depth, token });
            expression(nodes, node.first, depth, events);
        }
        NodeKind::Block => {
            events.push(Event::Thing { depth, token });
            statement(nodes, node.first, depth + 1, events);
        }
        NodeKind::IfElse => {
            events.push(Event::Thing { depth, token });
            expression(nodes, node.first, depth, events);
            arm(nodes, node.second, depth + 1, events);
            arm(nodes, node.third, depth + 1, events);
        }
        NodeKind::While => {
            events.push(Event::Thing { depth, token });
            expression(nodes, node.first, depth, events);
            arm(nodes, node.second, depth + 1, events);
        }
        NodeKind::Return => {
            events.push(Event::Thing { depth, token });
            expression(nodes, node.first, depth, events);
        }
        NodeKind::MoreStmts => {
            statement(nodes, node.first, depth, events);
            statement(nodes, node.second, depth, events);
        }
        NodeKind::Braced => arm(nodes, node.first, depth, events),
        _ => {}
    }
}

// The events of a program, a function or parameters.
fn program(nodes: &Nodes, i: usize, events: &mut Events)
    requires { Located 2 nodes.now i 1 (length events.old) }
    ensures { Visited nodes.now i 1 events.old events.new }
{
    let node = nodes.node(i);
    match node.kind {
        NodeKind::MoreParams => {
            program(nodes, node.first, events);
            events.push(Event::Parameter(node.token));
        }
        NodeKind::Function => {
            events.push(Event::Function(node.token));
            program(nodes, node.first, events);
            statement(nodes, node.second, 1, events);
            let open = !stops(nodes, node.second);
            let token = nodes.node(node.second).token;
            events.push(Event::Ends { token, open });
        }
        NodeKind::MoreFuns => {
            program(nodes, node.first, events);
            program(nodes, node.second, events);
        }
        _ => {}
    }
}

// Puts the events of the program at node `root` in place of those that there were.
pub fn walk(nodes: &Nodes, root: usize, events: &mut Events)
    requires { Ready nodes.now root }
    ensures { Walked nodes.now root events.new }
{
    events.clear();
    program(nodes, root, events);
}
