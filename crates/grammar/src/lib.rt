// The readers: from the kinds of the tokens to the syntax tree, in a table that is lent.
#![tactic(auto)]

ghost use Rattle.std.specs.Prelude.{◌≡◌, ◌+◌, ◌*◌, ◌≤◌, ◌<◌, length};
ghost use Rattle.syntax.specs.Ast.{bit};
ghost use Rattle.syntax.specs.TokenKinds.{kind_number};
ghost use Rattle.syntax.specs.NodeKinds.{node_number};
ghost use Rattle.grammar.specs.Parse.{read_operand, read_bracket, read_call, read_args, more_args, read_term, more_term, read_sum, more_sum, read_atom, read_conj, more_conj, read_cond, more_cond, read_guard, read_own, read_decl, read_named, read_fail, read_stmt, read_block, read_if, read_while, more_body, read_params, more_params, read_fun, more_prog, parsed};
ghost use Rattle.grammar.specs.Readers.{Added, is_minus, Inside, Ready, Fresh, Rest, Ended, Bodies, sign_of, comparison_of, Expected};
ghost use Rattle.grammar.specs.Answer.{Tabled, Parses};

use syntax::node::{Node, NodeKind, Nodes};
use syntax::source::Source;
use syntax::token::TokenKind;

// What a reader answers: a tree's root, and the number of the token after it. Its error is the number of the token that does not fit.
#[derive(Clone, Copy, PartialEq, Eq, Debug)]
struct Read {
    next: usize,
    root: usize,
}

// The table of nodes, and how many are written. It holds no text: a reader that lent one too would have to say that the text stays the same.
// The count stands here and not in `Nodes`, which keeps its length (`kept`).
#[derive(Drop)]
struct Table<'a> {
    nodes: &'a mut Nodes,
    count: usize,
}

impl Table<'_> {
    // Writes a node behind the others, and answers its number.
    fn add(
        &mut self,
        kind: NodeKind,
        token: usize,
        first: usize,
        second: usize,
        third: usize,
    ) -> usize
        requires { (5 * self.old.count + 5 ≤ length self.old.nodes.now) × (self.old.count < 65535) }
        ensures { Added self.old self.new (node_number kind) token first second third result }
    {
        let number = self.count;
        self.nodes.put(
            number,
            Node {
                kind,
                token,
                first,
                second,
                third,
            },
        );
        self.count += 1;
        number
    }
}

// The token at `at` has to be of this kind.
fn expect(source: &Source, at: usize, kind: TokenKind) -> Result<(), usize>
    ensures { Expected source.now.kinds at (kind_number kind) result }
{
    if source.kind(at) == kind {
        return Ok(());
    }
    Err(at)
}

// The node of a sum by its mark.
fn sign(k: TokenKind) -> Option<NodeKind>
    ensures { result ≡ sign_of (kind_number k) }
{
    match k {
        TokenKind::Plus => Some(NodeKind::Plus),
        TokenKind::Minus => Some(NodeKind::Minus),
        _ => None,
    }
}

// The comparison's number by its mark.
// A number and no enum: it becomes a node's third number, as `comparison_of` has it.
fn comparison(k: TokenKind) -> Option<usize>
    ensures { result ≡ comparison_of (kind_number k) }
{
    match k {
        TokenKind::Less => Some(0),
        TokenKind::LessEq => Some(1),
        TokenKind::Greater => Some(2),
        TokenKind::GreaterEq => Some(3),
        TokenKind::Equal => Some(4),
        TokenKind::Unequal => Some(5),
        _ => None,
    }
}

// An expression: terms with + and - between, left to right.
// The readers of this cycle are apart, which is the form named for them: `more_expression` and `more_term` are no one function.
#[cycle(arguments_bracketed_expression_more_arguments_more_expression_more_term_named_operand_term)]
fn expression(source: &Source, at: usize, table: &mut Table) -> Result<Read, usize>
    requires { Ready source.now.kinds table.old.nodes.now at table.old.count }
    ensures { Fresh source.now.kinds table.old table.new 1 at 4 result (read_sum source.now.kinds) }
{
    let Read { next, root } = term(source, at, table)?;
    more_expression(source, next, table, root)
}

// What follows the expression at node left.
#[cycle(arguments_bracketed_expression_more_arguments_more_expression_more_term_named_operand_term)]
fn more_expression(
    source: &Source,
    at: usize,
    table: &mut Table,
    left: usize,
) -> Result<Read, usize>
    requires { Ready source.now.kinds table.old.nodes.now at table.old.count × (left < table.old.count) }
    ensures { Rest source.now.kinds table.old table.new 0 left at 1 result (more_sum source.now.kinds) }
{
    let Some(mark) = sign(source.kind(at)) else {
        return Ok(Read {
            next: at,
            root: left,
        });
    };
    let Read { next, root } = term(source, at + 1, table)?;
    let more = table.add(mark, 0, left, root, 0);
    more_expression(source, next, table, more)
}

// A term: operands with * between, left to right.
#[cycle(arguments_bracketed_expression_more_arguments_more_expression_more_term_named_operand_term)]
fn term(source: &Source, at: usize, table: &mut Table) -> Result<Read, usize>
    requires { Ready source.now.kinds table.old.nodes.now at table.old.count }
    ensures { Fresh source.now.kinds table.old table.new 1 at 3 result (read_term source.now.kinds) }
{
    let Read { next, root } = operand(source, at, table)?;
    more_term(source, next, table, root)
}

// What follows the term at node left.
#[cycle(arguments_bracketed_expression_more_arguments_more_expression_more_term_named_operand_term)]
fn more_term(source: &Source, at: usize, table: &mut Table, left: usize) -> Result<Read, usize>
    requires { Ready source.now.kinds table.old.nodes.now at table.old.count × (left < table.old.count) }
    ensures { Rest source.now.kinds table.old table.new 0 left at 1 result (more_term source.now.kinds) }
{
    let TokenKind::Times = source.kind(at) else {
        return Ok(Read {
            next: at,
            root: left,
        });
    };
    let Read { next, root } = operand(source, at + 1, table)?;
    let more = table.add(NodeKind::Times, 0, left, root, 0);
    more_term(source, next, table, more)
}

// An operand: a number, - with a number, a name, a call or an expression in brackets.
#[cycle(arguments_bracketed_expression_more_arguments_more_expression_more_term_named_operand_term)]
fn operand(source: &Source, at: usize, table: &mut Table) -> Result<Read, usize>
    requires { Ready source.now.kinds table.old.nodes.now at table.old.count }
    ensures { Fresh source.now.kinds table.old table.new 1 at 2 result (read_operand source.now.kinds) }
{
    match source.kind(at) {
        TokenKind::Number => Ok(Read {
            next: at + 1,
            root: table.add(NodeKind::Number, at, 0, 0, 0),
        }),
        TokenKind::Minus => {
            expect(source, at + 1, TokenKind::Number)?;
            Ok(Read {
                next: at + 1 + 1,
                root: table.add(NodeKind::Negative, at, 0, 0, 0),
            })
        }
        TokenKind::Name => named(source, at, table),
        TokenKind::Open => bracketed(source, at, table),
        _ => Err(at),
    }
}

// An expression in brackets; the opening one is at `at`.
#[cycle(arguments_bracketed_expression_more_arguments_more_expression_more_term_named_operand_term)]
fn bracketed(source: &Source, at: usize, table: &mut Table) -> Result<Read, usize>
    requires { Ready source.now.kinds table.old.nodes.now at table.old.count × (at + 1 < length source.now.kinds) }
    ensures { Fresh source.now.kinds table.old table.new 1 at 1 result (read_bracket source.now.kinds) }
{
    let Read { next, root } = expression(source, at + 1, table)?;
    expect(source, next, TokenKind::Close)?;
    Ok(Read {
        next: next + 1,
        root: table.add(NodeKind::Bracket, at, root, 0, 0),
    })
}

// A name or a call; the name is at `at`.
#[cycle(arguments_bracketed_expression_more_arguments_more_expression_more_term_named_operand_term)]
fn named(source: &Source, at: usize, table: &mut Table) -> Result<Read, usize>
    requires { Ready source.now.kinds table.old.nodes.now at table.old.count × (at + 1 < length source.now.kinds) }
    ensures { Fresh source.now.kinds table.old table.new 1 at 1 result (read_call source.now.kinds) }
{
    let TokenKind::Open = source.kind(at + 1) else {
        return Ok(Read {
            next: at + 1,
            root: table.add(NodeKind::Name, at, 0, 0, 0),
        });
    };
    let Read { next, root } = arguments(source, at + 1 + 1, table)?;
    Ok(Read {
        next,
        root: table.add(NodeKind::Call, at, root, 0, 0),
    })
}

// The arguments of a call with the closing bracket: a node for none, and one for each argument.
#[cycle(arguments_bracketed_expression_more_arguments_more_expression_more_term_named_operand_term)]
fn arguments(source: &Source, at: usize, table: &mut Table) -> Result<Read, usize>
    requires { Ready source.now.kinds table.old.nodes.now at (table.old.count + 1) }
    ensures { Fresh source.now.kinds table.old table.new 1 at 5 result (read_args source.now.kinds) }
{
    let none = table.add(NodeKind::NoArgs, 0, 0, 0, 0);
    if source.kind(at) == TokenKind::Close {
        return Ok(Read {
            next: at + 1,
            root: none,
        });
    }
    let Read { next, root } = expression(source, at, table)?;
    let first = table.add(NodeKind::MoreArgs, 0, none, root, 0);
    more_arguments(source, next, table, first)
}

// What follows the arguments at node left.
#[cycle(arguments_bracketed_expression_more_arguments_more_expression_more_term_named_operand_term)]
fn more_arguments(source: &Source, at: usize, table: &mut Table, left: usize) -> Result<Read, usize>
    requires { Ready source.now.kinds table.old.nodes.now at table.old.count × (left < table.old.count) }
    ensures { Rest source.now.kinds table.old table.new 2 left at 1 result (more_args source.now.kinds) }
{
    match source.kind(at) {
        TokenKind::Close => Ok(Read {
            next: at + 1,
            root: left,
        }),
        TokenKind::Comma => {
            let Read { next, root } = expression(source, at + 1, table)?;
            let more = table.add(NodeKind::MoreArgs, 0, left, root, 0);
            more_arguments(source, next, table, more)
        }
        _ => Err(at),
    }
}

// An operand of a condition: true, false or a comparison.
fn atom(source: &Source, at: usize, table: &mut Table) -> Result<Read, usize>
    requires { Ready source.now.kinds table.old.nodes.now at table.old.count }
    ensures { Fresh source.now.kinds table.old table.new 1 at 5 result (read_atom source.now.kinds) }
{
    match source.kind(at) {
        TokenKind::True => Ok(Read {
            next: at + 1,
            root: table.add(NodeKind::Always, 0, 0, 0, 0),
        }),
        TokenKind::False => Ok(Read {
            next: at + 1,
            root: table.add(NodeKind::Never, 0, 0, 0, 0),
        }),
        _ => {
            let Read { next, root } = expression(source, at, table)?;
            let Some(mark) = comparison(source.kind(next)) else {
                return Err(next);
            };
            let Read { next, root: other } = expression(source, next + 1, table)?;
            Ok(Read {
                next,
                root: table.add(NodeKind::Compare, 0, root, other, mark),
            })
        }
    }
}

// Operands of a condition with && between, left to right.
fn conjunction(source: &Source, at: usize, table: &mut Table) -> Result<Read, usize>
    requires { Ready source.now.kinds table.old.nodes.now at table.old.count }
    ensures { Fresh source.now.kinds table.old table.new 1 at 6 result (read_conj source.now.kinds) }
{
    let Read { next, root } = atom(source, at, table)?;
    more_conjunction(source, next, table, root)
}

// What follows the conjunction at node left.
// Not one function with `more_condition`: the reader within and the definition that is kept (`more_conj`, `more_cond`) are others.
fn more_conjunction(
    source: &Source,
    at: usize,
    table: &mut Table,
    left: usize,
) -> Result<Read, usize>
    requires { Ready source.now.kinds table.old.nodes.now at table.old.count × (left < table.old.count) }
    ensures { Rest source.now.kinds table.old table.new 0 left at 1 result (more_conj source.now.kinds) }
{
    let TokenKind::And = source.kind(at) else {
        return Ok(Read {
            next: at,
            root: left,
        });
    };
    let Read { next, root } = atom(source, at + 1, table)?;
    let more = table.add(NodeKind::Both, 0, left, root, 0);
    more_conjunction(source, next, table, more)
}

// A condition: conjunctions with || between, left to right.
fn condition(source: &Source, at: usize, table: &mut Table) -> Result<Read, usize>
    requires { Ready source.now.kinds table.old.nodes.now at table.old.count }
    ensures { Fresh source.now.kinds table.old table.new 1 at 7 result (read_cond source.now.kinds) }
{
    let Read { next, root } = conjunction(source, at, table)?;
    more_condition(source, next, table, root)
}

// What follows the condition at node left.
fn more_condition(source: &Source, at: usize, table: &mut Table, left: usize) -> Result<Read, usize>
    requires { Ready source.now.kinds table.old.nodes.now at table.old.count × (left < table.old.count) }
    ensures { Rest source.now.kinds table.old table.new 0 left at 1 result (more_cond source.now.kinds) }
{
    let TokenKind::Or = source.kind(at) else {
        return Ok(Read {
            next: at,
            root: left,
        });
    };
    let Read { next, root } = conjunction(source, at + 1, table)?;
    let more = table.add(NodeKind::Either, 0, left, root, 0);
    more_condition(source, next, table, more)
}

// ( b ), of an if or a while.
fn guard(source: &Source, at: usize, table: &mut Table) -> Result<Read, usize>
    requires { Ready source.now.kinds table.old.nodes.now at table.old.count }
    ensures { Fresh source.now.kinds table.old table.new 1 at 1 result (read_guard source.now.kinds) }
{
    expect(source, at, TokenKind::Open)?;
    let Read { next, root } = condition(source, at + 1, table)?;
    expect(source, next, TokenKind::Close)?;
    Ok(Read {
        next: next + 1,
        root,
    })
}

// e ; as a statement of the kind `made`, whose token is `first`.
fn ended(
    source: &Source,
    at: usize,
    table: &mut Table,
    made: NodeKind,
    first: usize,
) -> Result<Read, usize>
    requires { Ready source.now.kinds table.old.nodes.now at table.old.count × (first < 65536) }
    ensures { Ended source.now.kinds table.old table.new at (node_number made) first result }
{
    let Read { next, root } = expression(source, at, table)?;
    expect(source, next, TokenKind::Semi)?;
    Ok(Read {
        next: next + 1,
        root: table.add(made, first, root, 0, 0),
    })
}

// Where the number of an end of a pair stands, if `at` is the end's first token: behind the minus, if there is one.
fn end_number(source: &Source, at: usize) -> usize
    requires { Inside source.now.kinds at }
    ensures { (result ≡ at + bit (is_minus source.now.kinds at)) × (result < length source.now.kinds) }
{
    if source.kind(at) == TokenKind::Minus {
        return at + 1;
    }
    at
}

// l .. h ; of int x free l .. h ; the low end's first token is at `at`, and the int is the token `first`.
fn own_pair(source: &Source, at: usize, table: &mut Table, first: usize) -> Result<Read, usize>
    requires { Ready source.now.kinds table.old.nodes.now at table.old.count × (first < 65536) }
    ensures { Fresh source.now.kinds table.old table.new 1 at 1 result (λ d. read_own source.now.kinds first) }
{
    let low = end_number(source, at);
    expect(source, low, TokenKind::Number)?;
    expect(source, low + 1, TokenKind::DotDot)?;
    let after = low + 1 + 1;
    let high = end_number(source, after);
    expect(source, high, TokenKind::Number)?;
    expect(source, high + 1, TokenKind::Semi)?;
    Ok(Read {
        next: high + 1 + 1,
        root: table.add(NodeKind::DeclareOwn, first, low - at, high - after, 0),
    })
}

// int x ; int x free ; or int x free l .. h ; the int is at `at`.
fn declaration(source: &Source, at: usize, table: &mut Table) -> Result<Read, usize>
    requires { Ready source.now.kinds table.old.nodes.now at table.old.count × (at + 1 < length source.now.kinds) }
    ensures { Fresh source.now.kinds table.old table.new 1 at 1 result (λ d. read_decl source.now.kinds) }
{
    expect(source, at + 1, TokenKind::Name)?;
    match source.kind(at + 1 + 1) {
        TokenKind::Semi => Ok(Read {
            next: at + 1 + 1 + 1,
            root: table.add(NodeKind::Declare, at, 0, 0, 0),
        }),
        TokenKind::Free => {
            let TokenKind::Semi = source.kind(at + 1 + 1 + 1) else {
                return own_pair(source, at + 1 + 1 + 1, table, at);
            };
            Ok(Read {
                next: at + 1 + 1 + 1 + 1,
                root: table.add(NodeKind::DeclareFree, at, 0, 0, 0),
            })
        }
        _ => Err(at + 1 + 1),
    }
}

// x = e ; or an expression that begins with x; the name x is at `at`.
fn assignment(source: &Source, at: usize, table: &mut Table) -> Result<Read, usize>
    requires { Ready source.now.kinds table.old.nodes.now at table.old.count × (at + 1 < length source.now.kinds) }
    ensures { Fresh source.now.kinds table.old table.new 1 at 6 result (read_named source.now.kinds) }
{
    if source.kind(at + 1) == TokenKind::Assign {
        return ended(source, at + 1 + 1, table, NodeKind::Assign, at);
    }
    ended(source, at, table, NodeKind::Eval, 0)
}

// fail ; the word is at `at`.
fn failing(source: &Source, at: usize, table: &mut Table) -> Result<Read, usize>
    requires { Ready source.now.kinds table.old.nodes.now at table.old.count × (at + 1 < length source.now.kinds) }
    ensures { Fresh source.now.kinds table.old table.new 1 at 1 result (λ d. read_fail source.now.kinds) }
{
    expect(source, at + 1, TokenKind::Semi)?;
    Ok(Read {
        next: at + 1 + 1,
        root: table.add(NodeKind::Fail, at, 0, 0, 0),
    })
}

// A statement: its first token decides.
#[cycle(block_body_braces_if_else_statement_while_do)]
fn statement(source: &Source, at: usize, table: &mut Table) -> Result<Read, usize>
    requires { Ready source.now.kinds table.old.nodes.now at table.old.count }
    ensures { Fresh source.now.kinds table.old table.new 1 at 7 result (read_stmt source.now.kinds) }
{
    match source.kind(at) {
        TokenKind::Semi => Ok(Read {
            next: at + 1,
            root: table.add(NodeKind::Empty, at, 0, 0, 0),
        }),
        TokenKind::Int => declaration(source, at, table),
        TokenKind::Name => assignment(source, at, table),
        TokenKind::Lbrace => block(source, at, table),
        TokenKind::If => if_else(source, at, table),
        TokenKind::While => while_do(source, at, table),
        TokenKind::Return => ended(source, at + 1, table, NodeKind::Return, at),
        TokenKind::Fail => failing(source, at, table),
        _ => ended(source, at, table, NodeKind::Eval, 0),
    }
}

// Statements in braces; the opening one is at `at`.
#[cycle(block_body_braces_if_else_statement_while_do)]
fn block(source: &Source, at: usize, table: &mut Table) -> Result<Read, usize>
    requires { Ready source.now.kinds table.old.nodes.now at table.old.count × (at + 1 < length source.now.kinds) }
    ensures { Fresh source.now.kinds table.old table.new 1 at 1 result (read_block source.now.kinds) }
{
    let Read { next, root } = braces(source, at + 1, table)?;
    Ok(Read {
        next,
        root: table.add(NodeKind::Block, at, root, 0, 0),
    })
}

// if ( b ) s else s; the if is at `at`.
#[cycle(block_body_braces_if_else_statement_while_do)]
fn if_else(source: &Source, at: usize, table: &mut Table) -> Result<Read, usize>
    requires { Ready source.now.kinds table.old.nodes.now at table.old.count × (at + 1 < length source.now.kinds) }
    ensures { Fresh source.now.kinds table.old table.new 1 at 1 result (read_if source.now.kinds) }
{
    let Read { next, root } = guard(source, at + 1, table)?;
    let Read { next, root: yes } = statement(source, next, table)?;
    expect(source, next, TokenKind::Else)?;
    let Read { next, root: no } = statement(source, next + 1, table)?;
    Ok(Read {
        next,
        root: table.add(NodeKind::IfElse, at, root, yes, no),
    })
}

// while ( b ) s; the while is at `at`.
#[cycle(block_body_braces_if_else_statement_while_do)]
fn while_do(source: &Source, at: usize, table: &mut Table) -> Result<Read, usize>
    requires { Ready source.now.kinds table.old.nodes.now at table.old.count × (at + 1 < length source.now.kinds) }
    ensures { Fresh source.now.kinds table.old table.new 1 at 1 result (read_while source.now.kinds) }
{
    let Read { next, root } = guard(source, at + 1, table)?;
    let Read { next, root: turn } = statement(source, next, table)?;
    Ok(Read {
        next,
        root: table.add(NodeKind::While, at, root, turn, 0),
    })
}

// Statements with the closing brace: a node for none, and one for each statement.
#[cycle(block_body_braces_if_else_statement_while_do)]
fn braces(source: &Source, at: usize, table: &mut Table) -> Result<Read, usize>
    requires { Ready source.now.kinds table.old.nodes.now at (table.old.count + 1) }
    ensures { Bodies source.now.kinds table.old table.new at result }
{
    let none = table.add(NodeKind::NoStmts, 0, 0, 0, 0);
    body(source, at, table, none)
}

// What follows the statements at node left.
#[cycle(block_body_braces_if_else_statement_while_do)]
fn body(source: &Source, at: usize, table: &mut Table, left: usize) -> Result<Read, usize>
    requires { Ready source.now.kinds table.old.nodes.now at table.old.count × (left < table.old.count) }
    ensures { Rest source.now.kinds table.old table.new 1 left at 8 result (more_body source.now.kinds) }
{
    if source.kind(at) == TokenKind::Rbrace {
        return Ok(Read {
            next: at + 1,
            root: table.add(NodeKind::Braced, at, left, 0, 0),
        });
    }
    let Read { next, root } = statement(source, at, table)?;
    let more = table.add(NodeKind::MoreStmts, 0, left, root, 0);
    body(source, next, table, more)
}

// The parameters with the closing bracket: a node for none, and one for each parameter.
fn parameters(source: &Source, at: usize, table: &mut Table) -> Result<Read, usize>
    requires { Ready source.now.kinds table.old.nodes.now at (table.old.count + 1) }
    ensures { Fresh source.now.kinds table.old table.new 1 at 1 result (read_params source.now.kinds) }
{
    let none = table.add(NodeKind::NoParams, 0, 0, 0, 0);
    if source.kind(at) == TokenKind::Close {
        return Ok(Read {
            next: at + 1,
            root: none,
        });
    }
    expect(source, at, TokenKind::Int)?;
    expect(source, at + 1, TokenKind::Name)?;
    let first = table.add(NodeKind::MoreParams, at + 1, none, 0, 0);
    more_parameters(source, at + 1 + 1, table, first)
}

// What follows the parameters at node left.
fn more_parameters(
    source: &Source,
    at: usize,
    table: &mut Table,
    left: usize,
) -> Result<Read, usize>
    requires { Ready source.now.kinds table.old.nodes.now at table.old.count × (left < table.old.count) }
    ensures { Rest source.now.kinds table.old table.new 2 left at 1 result (more_params source.now.kinds) }
{
    if source.kind(at) == TokenKind::Close {
        return Ok(Read {
            next: at + 1,
            root: left,
        });
    }
    expect(source, at, TokenKind::Comma)?;
    expect(source, at + 1, TokenKind::Int)?;
    expect(source, at + 1 + 1, TokenKind::Name)?;
    let more = table.add(NodeKind::MoreParams, at + 1 + 1, left, 0, 0);
    more_parameters(source, at + 1 + 1 + 1, table, more)
}

// A function; its int is at `at`.
fn function(source: &Source, at: usize, table: &mut Table) -> Result<Read, usize>
    requires { Ready source.now.kinds table.old.nodes.now at table.old.count × (at + 1 < length source.now.kinds) }
    ensures { Fresh source.now.kinds table.old table.new 1 at 1 result (read_fun source.now.kinds) }
{
    expect(source, at + 1, TokenKind::Name)?;
    expect(source, at + 1 + 1, TokenKind::Open)?;
    let Read { next, root } = parameters(source, at + 1 + 1 + 1, table)?;
    expect(source, next, TokenKind::Lbrace)?;
    let Read { next, root: held } = braces(source, next + 1, table)?;
    Ok(Read {
        next,
        root: table.add(NodeKind::Function, at + 1, root, held, 0),
    })
}

// What follows the functions at node left.
fn functions(source: &Source, at: usize, table: &mut Table, left: usize) -> Result<Read, usize>
    requires { Ready source.now.kinds table.old.nodes.now at table.old.count × (left < table.old.count) }
    ensures { Rest source.now.kinds table.old table.new 0 left at 2 result (more_prog source.now.kinds) }
{
    let TokenKind::Int = source.kind(at) else {
        return Ok(Read {
            next: at,
            root: left,
        });
    };
    let Read { next, root } = function(source, at, table)?;
    let more = table.add(NodeKind::MoreFuns, 0, left, root, 0);
    functions(source, next, table, more)
}

// A whole text: functions, and then the end. The answer is the root of the program's tree, or the number of the first token that no program could have there.
pub fn parse(source: &Source, nodes: &mut Nodes) -> Result<usize, usize>
    requires { Tabled source.now.kinds nodes.old }
    ensures answer { Parses nodes.new result (parsed source.now.kinds) }
    ensures kept { length nodes.new ≡ length nodes.old }
{
    let mut table = Table { nodes, count: 0 };
    let none = table.add(NodeKind::NoFuns, 0, 0, 0, 0);
    let Read { next, root } = functions(source, 0, &mut table, none)?;
    expect(source, next, TokenKind::End)?;
    Ok(root)
}
