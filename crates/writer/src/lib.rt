// The writer (document 02, slip 7): a text in house style, into a slice that is lent.
#![tactic(auto)]

ghost use Rattle.std.specs.Prelude.{List, [], ◌∷◌, ◌++◌, ◌≡◌, ℕ, ◌+◌, ◌*◌, ◌≤◌, ◌<◌};
ghost use Rattle.syntax.specs.NodeKinds.{node_number};
ghost use Rattle.text_rules.specs.Spelling.{spelled_in};
ghost use Rattle.printing.specs.Decimal.{natural};
ghost use Rattle.printing.specs.Written.{Wrote};
ghost use Rattle.house_style.specs.House.{indent};
ghost use Rattle.writer.specs.Write.{left, answer_of, wrote, printed};
ghost use Rattle.lexer.specs.Lex.{bytes};
ghost use Rattle.writer.specs.Parts.{Puts, Part, Lays, Lines, Fills, value_in, bracketed, left_rank, right_rank, if_so, comparison_sign, sign_of, leaf_bytes, comma_after, end_bytes, pair_bytes, declared_bytes, plain_bytes};

use checker::Analysis;
use checker::tables::Tables;
use printing::{put_blanks, put_byte, put_bytes, put_natural};
use syntax::node::NodeKind;
use syntax::refusal::{Reason, Refusal};
use syntax::source::Source;
use text_rules::spelling::spelling;

// Whether an operation of this kind stands in brackets at a place of this rank.
fn is_bracketed(k: NodeKind, rank: usize) -> bool
    ensures { result ≡ bracketed (node_number k) rank }
{
    match k {
        NodeKind::Times => 1 < rank,
        NodeKind::Plus | NodeKind::Minus => 0 < rank,
        _ => false,
    }
}

// The rank of the left side of an operation of this kind.
fn left_rank(k: NodeKind) -> usize
    ensures { result ≡ left_rank (node_number k) }
{
    match k {
        NodeKind::Times => 1,
        _ => 0,
    }
}

// The rank of its right side.
fn right_rank(k: NodeKind) -> usize
    ensures { result ≡ right_rank (node_number k) }
{
    match k {
        NodeKind::Times => 2,
        NodeKind::Plus | NodeKind::Minus => 1,
        _ => 0,
    }
}

// A pen over a slice that is lent: it stands behind the bytes that it put. What lies past the slice's end is counted and not put.
#[derive(Drop)]
struct Pen<'a> {
    out: &'a mut [u8],
    at: usize,
}

impl Pen<'_> {
    // A byte.
    fn byte(&mut self, b: u8)
        ensures { Puts self.old self.new (b ∷ []) }
    {
        self.at = put_byte(self.out, self.at, b);
    }

    // The bytes of a word.
    fn bytes(&mut self, word: &[u8])
        ensures { Puts self.old self.new word.now }
    {
        self.at = put_bytes(self.out, self.at, word);
    }

    // A number in decimal.
    fn natural(&mut self, n: u32)
        ensures { Puts self.old self.new (natural n) }
    {
        self.at = put_natural(self.out, self.at, n);
    }

    // Two blanks for each depth.
    fn margin(&mut self, depth: usize)
        requires { depth < 4294967296 }
        ensures { Puts self.old self.new (indent depth) }
    {
        self.at = put_blanks(self.out, self.at, 2 * depth);
    }

    // The name at token i.
    fn name(&mut self, source: &Source, i: usize)
        ensures { Puts self.old self.new (spelled_in source.now i) }
    {
        self.bytes(spelling(source, i));
    }

    // A mark, if it is needed.
    fn mark(&mut self, needed: bool, mark: &[u8])
        ensures { Puts self.old self.new (if_so needed mark.now) }
    {
        self.bytes(if needed { mark } else { b"" });
    }

    // The sign of the comparison with the number o, with its blanks.
    // A number and no enum, as a node has it: an enum would be made of it to be matched once.
    fn comparison(&mut self, o: usize)
        ensures { Puts self.old self.new (comparison_sign o) }
    {
        match o {
            0 => self.bytes(b" < "),
            1 => self.bytes(b" <= "),
            2 => self.bytes(b" > "),
            3 => self.bytes(b" >= "),
            4 => self.bytes(b" == "),
            _ => self.bytes(b" != "),
        }
    }

    // The sign of an operation of this kind, or of the comparison with the number o, with its blanks.
    fn sign(&mut self, k: NodeKind, o: usize)
        ensures { Puts self.old self.new (sign_of (node_number k) o) }
    {
        match k {
            NodeKind::Times => self.bytes(b" * "),
            NodeKind::Plus => self.bytes(b" + "),
            NodeKind::Minus => self.bytes(b" - "),
            NodeKind::Both => self.bytes(b" && "),
            NodeKind::Either => self.bytes(b" || "),
            _ => self.comparison(o),
        }
    }

    // A number, a name, `true` or `false` at a token; of any other kind nothing.
    fn leaf(&mut self, source: &Source, k: NodeKind, token: usize)
        requires { token < 4294967296 }
        ensures { Puts self.old self.new (leaf_bytes (spelled_in source.now) (value_in source.now) (node_number k) token) }
    {
        match k {
            NodeKind::Number => self.natural(source.value(token)),
            NodeKind::Negative => {
                self.byte(b'-');
                self.natural(source.value(token + 1));
            }
            NodeKind::Name => self.name(source, token),
            NodeKind::Always => self.bytes(b"true"),
            NodeKind::Never => self.bytes(b"false"),
            _ => self.bytes(b""),
        }
    }

    // What stands behind arguments or parameters whose node has this kind, before one more.
    fn comma(&mut self, k: NodeKind)
        ensures { Puts self.old self.new (comma_after (node_number k)) }
    {
        match k {
            NodeKind::MoreArgs | NodeKind::MoreParams => self.bytes(b", "),
            _ => self.bytes(b""),
        }
    }

    // An expression, arguments or a condition, at a place of a rank.
    fn expression(&mut self, analysis: &Analysis, i: usize, rank: usize)
        requires { Part 0 analysis.now.nodes.now i }
        ensures { Lays analysis.now.source analysis.now.nodes.now i rank self.old self.new }
    {
        let node = analysis.nodes.node(i);
        match node.kind {
            NodeKind::Call => {
                self.name(&analysis.source, node.token);
                self.byte(b'(');
                self.expression(analysis, node.first, 0);
                self.byte(b')');
            }
            NodeKind::Bracket => self.expression(analysis, node.first, rank),
            NodeKind::MoreArgs => {
                let before = analysis.nodes.node(node.first);
                self.expression(analysis, node.first, 0);
                self.comma(before.kind);
                self.expression(analysis, node.second, 0);
            }
            NodeKind::Times
            | NodeKind::Plus
            | NodeKind::Minus
            | NodeKind::Compare
            | NodeKind::Both
            | NodeKind::Either => {
                let needed = is_bracketed(node.kind, rank);
                self.mark(needed, b"(");
                self.expression(analysis, node.first, left_rank(node.kind));
                self.sign(node.kind, node.third);
                self.expression(analysis, node.second, right_rank(node.kind));
                self.mark(needed, b")");
            }
            _ => self.leaf(&analysis.source, node.kind, node.token),
        }
    }

    // A margin and words.
    fn words(&mut self, depth: usize, words: &[u8])
        requires { depth < 4294967296 }
        ensures { Puts self.old self.new (indent depth ++ words.now) }
    {
        self.margin(depth);
        self.bytes(words);
    }

    // A line: a margin, a head, the expression or condition at node i, and a tail.
    fn line(&mut self, analysis: &Analysis, i: usize, depth: usize, head: &[u8], tail: &[u8])
        requires { Part 0 analysis.now.nodes.now i × (depth < 4294967296) }
        ensures { Lines analysis.now.source analysis.now.nodes.now i depth head.now tail.now self.old self.new }
    {
        self.margin(depth);
        self.bytes(head);
        self.expression(analysis, i, 0);
        self.bytes(tail);
    }

    // `int` and the name at token i.
    fn typed(&mut self, source: &Source, i: usize)
        ensures { Puts self.old self.new (bytes "int " ++ spelled_in source.now i) }
    {
        self.bytes(b"int ");
        self.name(source, i);
    }

    // A declaration at a token, with what stands behind its name.
    fn declared(&mut self, source: &Source, token: usize, depth: usize, tail: &[u8])
        requires { (token < 4294967296) × (depth < 4294967296) }
        ensures { Puts self.old self.new (declared_bytes (spelled_in source.now) depth token tail.now) }
    {
        self.margin(depth);
        self.typed(source, token + 1);
        self.bytes(tail);
    }

    // The end of a pair whose first token is i, which has a minus unless `minus` is 0.
    // `minus` is a number and no bool, as a node has it.
    fn end(&mut self, source: &Source, i: usize, minus: usize)
        requires { i < 4294967296 }
        ensures { Puts self.old self.new (end_bytes (value_in source.now) i minus) }
    {
        if minus == 0 {
            self.natural(source.value(i));
        } else {
            self.byte(b'-');
            self.natural(source.value(i + 1));
        }
    }

    // The pair whose low end has the first token t, and the end of its declaration.
    fn pair(&mut self, source: &Source, t: usize, low: usize, high: usize)
        requires { (t < 131072) × (low < 2) }
        ensures { Puts self.old self.new (pair_bytes (value_in source.now) t low high) }
    {
        self.end(source, t, low);
        self.bytes(b" .. ");
        self.end(source, t + low + 2, high);
        self.bytes(b";\n");
    }

    // A statement of a kind that holds no other part, at a token; of any other kind nothing.
    fn plain(&mut self, source: &Source, k: NodeKind, token: usize, depth: usize)
        requires { (token < 4294967296) × (depth < 4294967296) }
        ensures { Puts self.old self.new (plain_bytes (spelled_in source.now) depth (node_number k) token) }
    {
        match k {
            NodeKind::Empty => self.words(depth, b";\n"),
            NodeKind::Fail => self.words(depth, b"fail;\n"),
            NodeKind::Declare => self.declared(source, token, depth, b";\n"),
            NodeKind::DeclareFree => self.declared(source, token, depth, b" free;\n"),
            _ => self.bytes(b""),
        }
    }

    // A statement, statements, or these in braces, at a depth.
    fn statement(&mut self, analysis: &Analysis, i: usize, depth: usize)
        requires { Part 1 analysis.now.nodes.now i × (depth + i < 131072) }
        ensures { Lays analysis.now.source analysis.now.nodes.now i depth self.old self.new }
    {
        let node = analysis.nodes.node(i);
        match node.kind {
            NodeKind::DeclareOwn => {
                self.declared(&analysis.source, node.token, depth, b" free ");
                self.pair(&analysis.source, node.token + 3, node.first, node.second);
            }
            NodeKind::Assign => {
                self.margin(depth);
                self.name(&analysis.source, node.token);
                self.line(analysis, node.first, 0, b" = ", b";\n");
            }
            NodeKind::Eval => self.line(analysis, node.first, depth, b"", b";\n"),
            NodeKind::Return => self.line(analysis, node.first, depth, b"return ", b";\n"),
            NodeKind::Block => self.statement(analysis, node.first, depth),
            NodeKind::IfElse => {
                self.line(analysis, node.first, depth, b"if (", b")\n");
                self.statement(analysis, node.second, depth + 1);
                self.words(depth, b"else\n");
                self.statement(analysis, node.third, depth + 1);
            }
            NodeKind::While => {
                self.line(analysis, node.first, depth, b"while (", b")\n");
                self.statement(analysis, node.second, depth + 1);
            }
            NodeKind::MoreStmts => {
                self.statement(analysis, node.first, depth);
                self.statement(analysis, node.second, depth);
            }
            NodeKind::Braced => {
                self.words(depth, b"{\n");
                self.statement(analysis, node.first, depth + 1);
                self.words(depth, b"}\n");
            }
            _ => self.plain(&analysis.source, node.kind, node.token, depth),
        }
    }

    // Functions, a function or parameters.
    fn program(&mut self, analysis: &Analysis, i: usize)
        requires { Part 2 analysis.now.nodes.now i }
        ensures { Lays analysis.now.source analysis.now.nodes.now i 0 self.old self.new }
    {
        let node = analysis.nodes.node(i);
        match node.kind {
            NodeKind::MoreParams => {
                let before = analysis.nodes.node(node.first);
                self.program(analysis, node.first);
                self.comma(before.kind);
                self.typed(&analysis.source, node.token);
            }
            NodeKind::Function => {
                self.typed(&analysis.source, node.token);
                self.byte(b'(');
                self.program(analysis, node.first);
                self.bytes(b")\n");
                self.statement(analysis, node.second, 0);
            }
            NodeKind::MoreFuns => {
                self.program(analysis, node.first);
                self.program(analysis, node.second);
            }
            _ => self.bytes(b""),
        }
    }
}

// The analysed program, if the slice has room for all of it: measured first, then put.
fn put_whole(analysis: &Analysis, out: &mut [u8]) -> Result<usize, Refusal>
    requires { Part 2 analysis.now.nodes.now analysis.now.root }
    ensures { Fills analysis.now.source analysis.now.nodes.now analysis.now.root out.old (answer_of result) out.new }
{
    let mut unread = [0; 1];
    let mut measure = Pen {
        out: &mut unread,
        at: 0,
    };
    measure.program(analysis, analysis.root);
    if out.len() < measure.at {
        return Err(Refusal {
            reason: Reason::ShortOutput,
            place: 0,
        });
    }
    let mut pen = Pen { out, at: 0 };
    pen.program(analysis, analysis.root);
    Ok(pen.at)
}

// The house style of a text, at the front of out, and its length; or a refusal, as check's, or one of short output if out is too short for the whole. Then nothing is written.
pub fn write(text: &[u8], out: &mut [u8]) -> Result<usize, Refusal>
    ensures { left (answer_of result) out.new ≡ wrote text.now out.old }
{
    let mut tables = Tables::new();
    let analysis = checker::analyse(text, &mut tables)?;
    put_whole(&analysis, out)
}

// Enough bytes for the house style of any text: 64 for each of its bytes.
pub const ROOM: usize = 131072;

// What is printed for a text: its house style, or the line of its refusal. The answer is how many bytes that are.
pub fn print(text: &[u8], out: &mut [u8; ROOM]) -> usize
    ensures { Wrote out.old (printed text.now) out.new result }
{
    match write(text, out) {
        Ok(length) => length,
        Err(refusal) => {
            let number = u32::from(refusal.reason);
            lines::put_refusal(out, 0, number, refusal.place as u32)
        }
    }
}
