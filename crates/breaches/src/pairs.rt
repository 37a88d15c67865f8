// Rules 18 and 19: the own pairs of free declarations. The tokens show them: behind a `free` stands a semicolon, or the low end of a pair.
ghost use Rattle.std.specs.Prelude.{◌≡◌, ◌+◌, ◌^◌, ◌≤◌, ◌<◌, length};
ghost use Rattle.std.specs.Int.Signed.{mag};
ghost use Rattle.syntax.specs.Ast.{bit};
ghost use Rattle.semantics.specs.Search.{to};
ghost use Rattle.text_rules.specs.Scan.{least};
ghost use Rattle.text_rules.specs.Own as O;
ghost use Rattle.text_rules.specs.Own.{breaching};
ghost use Rattle.text_rules.specs.Answers.{least_with, minus_at};
ghost use Rattle.breaches.specs.Pairs.{word, wide_rule, pair_rule, own_here, breaches_from};

use syntax::source::Source;
use syntax::token::TokenKind;
use text_rules::broken::lesser;

// What a pair must not be: its low end above its high end, which is rule 18, or of over 4,096 values, which is rule 19.
// An enum and no function lent: the two rules are one definition, by `wide_rule`.
#[derive(Clone, Copy, PartialEq, Eq, Debug)]
pub enum PairRule {
    Reversed,
    Wide,
}

// Whether token i is a minus.
fn is_minus(source: &Source, i: usize) -> bool
    ensures { result ≡ minus_at source.now.kinds i }
{
    matches!(source.kind(i), TokenKind::Minus)
}

// The token of an end's number, if its first token is i: behind the minus, if there is one.
fn number_token(i: usize, minus: bool) -> usize
    requires { i < 2 ^ 32 }
    ensures { result ≡ i + bit minus }
{
    i + usize::from(minus)
}

// A number with a minus or without, exact in 64 bits.
fn signed(minus: bool, value: u32) -> i64
    ensures { (result ≡ O.signed minus value) × (mag result < 2 ^ 61) }
{
    if minus {
        return -i64::from(value);
    }
    i64::from(value)
}

// Whether a pair breaks a rule. It has over 4,096 values if high is as far above low.
fn breaks(low: i64, high: i64, rule: PairRule) -> bool
    requires { (mag low < 2 ^ 61) × (mag high < 2 ^ 61) }
    ensures { result ≡ pair_rule (wide_rule rule) (to low high) }
{
    match rule {
        PairRule::Reversed => high < low,
        PairRule::Wide => 4096 <= high - low,
    }
}

// What breaks a rule at token i, with what was found before.
fn breach_at(source: &Source, i: usize, rule: PairRule, best: Option<usize>) -> Option<usize>
    requires { i < 65536 }
    ensures { result ≡ least_with (breaching (word source.now.values) (pair_rule (wide_rule rule)) (own_here source.now.kinds i)) best }
{
    let TokenKind::Free = source.kind(i) else {
        return best;
    };
    let first = i + 1;
    if let TokenKind::Semi = source.kind(first) {
        return best;
    }
    let minus = is_minus(source, first);
    let number = number_token(first, minus);
    let low = signed(minus, source.value(number));
    let after = number + 2;
    let second = is_minus(source, after);
    let high = signed(second, source.value(number_token(after, second)));
    if breaks(low, high, rule) {
        return lesser(first, best);
    }
    best
}

// The least of the low ends' first tokens of the own pairs that break a rule.
pub fn bad_pair(source: &Source, rule: PairRule) -> Option<usize>
    requires { length source.now.kinds ≤ 65536 }
    ensures { result ≡ least (breaches_from source.now.kinds source.now.values (wide_rule rule) 0) }
{
    let mut best = None;
    for i in 0..source.len() {
        best = breach_at(source, i, rule, best);
    }
    best
}
