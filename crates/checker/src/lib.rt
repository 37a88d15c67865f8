// Check.
#![tactic(auto)]

ghost use Rattle.std.specs.Prelude.{◌≡◌, ◌≤◌, ◌<◌, length, get_or, replicate};
ghost use Rattle.lexer.specs.Lex.{lexed};
ghost use Rattle.syntax.specs.Ast.{prog};
ghost use Rattle.syntax.specs.Refusals.{number_of};
ghost use Rattle.grammar.specs.Text.{Tokens};
ghost use Rattle.events.specs.Walk.{Ready, Rooted};
ghost use Rattle.text_rules.specs.Rules as R;
ghost use Rattle.checker.specs.Sizes.{TOKENS, Fresh};
ghost use Rattle.checker.specs.Check.{rules_of, checked_tokens, checked};
ghost use Rattle.checker.specs.Judge.{Keeps, first_rules, function_rules, last_rules, Listed, Standing, Readable, Judges, JudgesPart};
ghost use Rattle.checker.specs.Analysis.{verdict_of, Reads, Inspected, Settles, Analyses};

use breaches::pairs::PairRule;
use events::event::{EVENTS, Events};
use syntax::node::Nodes;
use syntax::refusal::{Reason, Refusal};
use syntax::source::Source;
use syntax::token::TokenKind;
use tables::Tables;
use text_rules::heads::Heads;

pub mod tables;

// A refusal at token i.
fn refusal(source: &Source, reason: Reason, i: usize) -> Refusal
    ensures { result ≡ record { reason = reason; place = get_or source.now.places i 0 } }
{
    Refusal {
        reason,
        place: source.place(i) as usize,
    }
}

// Whether a rule is kept, by the first token that breaks it.
fn keeps(source: &Source, reason: Reason, first: Option<usize>) -> Result<(), Refusal>
    ensures { Keeps source.now (number_of reason) first result }
{
    match first {
        Some(i) => Err(refusal(source, reason, i)),
        None => Ok(()),
    }
}

// The rules 7 to 9, on calls, main and the ends of bodies, of a text with these events and functions.
fn judge_functions(source: &Source, events: &Events, heads: &Heads) -> Result<(), Refusal>
    requires { (0 < length source.now.kinds) × (heads.now ≡ R.heads events.now) }
    ensures { JudgesPart (Listed events.now) source.now (function_rules source.now) result }
{
    keeps(
        source,
        Reason::BadCall,
        breaches::calls::miscalls(source, events, heads),
    )?;
    keeps(
        source,
        Reason::BadMain,
        breaches::mains::main_rule(source, heads, source.len() - 1),
    )?;
    keeps(source, Reason::OpenEnd, breaches::ends::open_ends(events))
}

// The rules 5 to 9, in the order of checking. The functions are left in `heads`, and what each name means in `slots`.
fn judge_first(
    source: &Source,
    events: &Events,
    heads: &mut Heads,
    slots: &mut [u32],
) -> Result<(), Refusal>
    requires { (0 < length source.now.kinds) × (slots.old ≡ replicate TOKENS 0) }
    ensures { Judges (Listed events.now) source.now (first_rules source.now) slots.new heads.new result }
{
    keeps(source, Reason::TooDeep, breaches::depth::too_deep(events))?;
    text_rules::heads::collect_heads(events, heads);
    keeps(
        source,
        Reason::BadName,
        names::resolve::<EVENTS>(source, events.as_slice(), heads.as_slice(), slots),
    )?;
    judge_functions(source, events, heads)
}

// The rules after 9, of a text that keeps the rules 5 to 9, whose tree stands at node `root` and whose names mean `slots`.
fn judge_last(
    source: &Source,
    nodes: &Nodes,
    root: usize,
    slots: &[u32],
    events: &Events,
) -> Result<(), Refusal>
    requires { (length source.now.kinds ≤ TOKENS) × Rooted prog nodes.now root }
    ensures { JudgesPart (Readable source.now nodes.now root slots.now events.now) source.now (last_rules source.now) result }
{
    keeps(
        source,
        Reason::Unassigned,
        assignment::unassigned(nodes.as_slice(), root, slots),
    )?;
    keeps(source, Reason::TooMany, breaches::counts::too_many(events))?;
    keeps(
        source,
        Reason::ReversedPair,
        breaches::pairs::bad_pair(source, PairRule::Reversed),
    )?;
    keeps(
        source,
        Reason::WidePair,
        breaches::pairs::bad_pair(source, PairRule::Wide),
    )
}

// What the rules say of a text with these events, whose tree stands at node `root`.
// Lent one by one and not as an `Analysis`: heads and slots are filled on the way, and clauses say what they hold before.
fn judge(
    source: &Source,
    nodes: &Nodes,
    root: usize,
    events: &Events,
    heads: &mut Heads,
    slots: &mut [u32],
) -> Result<(), Refusal>
    requires { Rooted prog nodes.now root × (0 < length source.now.kinds) × (length source.now.kinds ≤ TOKENS) × (slots.old ≡ replicate TOKENS 0) }
    ensures { Judges (Standing source.now.kinds nodes.now root events.now) source.now (rules_of source.now) slots.new heads.new result }
{
    judge_first(source, events, heads, slots)?;
    judge_last(source, nodes, root, slots, events)
}

// The rules of a text whose tree stands at node `root`.
fn inspect(
    source: &Source,
    nodes: &Nodes,
    root: usize,
    events: &mut Events,
    heads: &mut Heads,
    slots: &mut [u32],
) -> Result<(), Refusal>
    requires { Ready nodes.now root × (0 < length source.now.kinds) × (length source.now.kinds ≤ TOKENS) × (slots.old ≡ replicate TOKENS 0) }
    ensures { Inspected source.now nodes.now root events.new heads.new slots.new result }
{
    events::walk(nodes, root, events);
    judge(source, nodes, root, events, heads, slots)
}

// The tree of a text's tokens, by its root, and its rules.
fn settle(
    source: &Source,
    nodes: &mut Nodes,
    events: &mut Events,
    heads: &mut Heads,
    slots: &mut [u32],
) -> Result<usize, Refusal>
    requires { Tokens source.now.kinds × (length source.now.kinds ≤ TOKENS) × (length nodes.old ≡ 20490) × (slots.old ≡ replicate TOKENS 0) }
    ensures { Settles source.now nodes.new events.new heads.new slots.new result (checked_tokens source.now) }
{
    match grammar::parse(source, nodes) {
        Err(i) => Err(refusal(source, Reason::Misplaced, i)),
        Ok(root) => {
            inspect(source, nodes, root, events, heads, slots)?;
            Ok(root)
        }
    }
}

// The tokens of a text.
fn read<'a>(
    text: &'a [u8],
    kinds: &'a mut [TokenKind],
    places: &'a mut [u32],
    values: &'a mut [u32],
) -> Result<Source<'a>, Refusal>
    requires { (length kinds.old ≡ TOKENS) × (length places.old ≡ TOKENS) × (length values.old ≡ TOKENS) }
    ensures { Reads text.now result (lexed text.now) }
{
    let n = lexer::lex(text, kinds, places, values)?;
    Ok(Source::new(text, &kinds[..n], &places[..n], &values[..n]))
}

// An accepted text: its tokens, its tree, which stands at node `root`, its events, its functions, and what each name means, by its token.
#[derive(Drop)]
pub struct Analysis<'a> {
    pub source: Source<'a>,
    pub nodes: &'a Nodes,
    pub root: usize,
    pub events: &'a Events,
    pub heads: &'a Heads,
    pub slots: &'a [u32],
}

// The whole analysis of a text, in the tables.
pub fn analyse<'a>(text: &'a [u8], tables: &'a mut Tables) -> Result<Analysis<'a>, Refusal>
    requires { Fresh tables.old }
    ensures { Analyses text.now result (checked text.now) }
{
    let Tables {
        kinds,
        places,
        values,
        nodes,
        events,
        heads,
        slots,
    } = tables;
    let source = read(text, kinds, places, values)?;
    let root = settle(&source, nodes, events, heads, slots)?;
    Ok(Analysis {
        source,
        nodes,
        root,
        events,
        heads,
        slots,
    })
}

// Whether a text keeps the grammar and every other rule, or the number of the first rule that it breaks, with the place.
pub fn check(text: &[u8]) -> Result<(), Refusal>
    ensures { verdict_of result ≡ checked text.now }
{
    let mut tables = Tables::new();
    analyse(text, &mut tables)?;
    Ok(())
}
