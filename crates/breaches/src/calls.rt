// Rule 7: how many arguments calls have.
ghost use Rattle.std.specs.Prelude.{◌≡◌};
ghost use Rattle.text_rules.specs.Scan.{on, least};
ghost use Rattle.text_rules.specs.Spelling.{same_in};
ghost use Rattle.text_rules.specs.Rules.{miscounted};
ghost use Rattle.events.specs.Read.{as_event};
ghost use Rattle.text_rules.specs.Answers.{least_with};

use events::event::{Event, Events};
use syntax::source::Source;
use text_rules::broken::lesser;
use text_rules::heads::{Heads, arity_of};

// What breaks the rule at one event, with what was found before.
#[tactic(auto, unfolding(text_rules::specs::Rules::miscounted, text_rules::specs::Rules::wrong, text_rules::specs::Answers::least_with))]
fn miscount(source: &Source, heads: &Heads, event: Event, best: Option<usize>) -> Option<usize>
    ensures { result ≡ least_with (miscounted (same_in source.now) heads.now (as_event event)) best }
{
    match event {
        Event::Calls { token, count } => match arity_of(source, heads, token) {
            Some(arity) if arity != count => lesser(token, best),
            _ => best,
        },
        _ => best,
    }
}

// The least of the called names in some events whose call has a wrong count of arguments, by the functions.
// A loop of its own, as for depth: a scan that is lent a closure would have a law of it to prove.
pub fn miscalls(source: &Source, events: &Events, heads: &Heads) -> Option<usize>
    ensures { result ≡ least (on (miscounted (same_in source.now) heads.now) events.now) }
{
    let mut best = None;
    for &event in events.as_slice() {
        best = miscount(source, heads, event, best);
    }
    best
}
