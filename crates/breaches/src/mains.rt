// Rule 8: the function main.
ghost use Rattle.std.specs.Prelude.{◌≡◌, [], ◌∷◌};
ghost use Rattle.text_rules.specs.Scan.{least};
ghost use Rattle.text_rules.specs.Spelling.{main_in};
ghost use Rattle.text_rules.specs.Rules.{mains, with_parameters, bad_main};
ghost use Rattle.text_rules.specs.Answers.{least_with, as_head};

use syntax::source::Source;
use text_rules::broken::lesser;
use text_rules::heads::{Head, Heads};
use text_rules::mains::main_number;
use text_rules::spelling::is_main;

// What breaks the rule at one function, with what was found before.
#[tactic(auto, unfolding(text_rules::specs::Rules::mains, text_rules::specs::Rules::with_parameters, text_rules::specs::Answers::least_with))]
fn main_with(source: &Source, head: Head, best: Option<usize>) -> Option<usize>
    ensures { result ≡ least_with (with_parameters (mains (main_in source.now) (as_head head ∷ []))) best }
{
    if is_main(source, head.name) && head.arity > 0 {
        return lesser(head.name, best);
    }
    best
}

// The least of the names of those functions that are main and have parameters.
// A loop of its own, as for depth: a scan that is lent a closure would have a law of it to prove.
fn mains_with(source: &Source, heads: &Heads) -> Option<usize>
    ensures { result ≡ least (with_parameters (mains (main_in source.now) heads.now)) }
{
    let mut best = None;
    for &head in heads.as_slice() {
        best = main_with(source, head, best);
    }
    best
}

// What is wrong with main: there is none among the functions (at the end's token), or it has parameters.
pub fn main_rule(source: &Source, heads: &Heads, end: usize) -> Option<usize>
    ensures { result ≡ least (bad_main end (mains (main_in source.now) heads.now)) }
{
    if main_number(source, heads) < heads.as_slice().len() {
        return mains_with(source, heads);
    }
    Some(end)
}
