// Rule 5: depth.
ghost use Rattle.std.specs.Prelude.{◌≡◌};
ghost use Rattle.text_rules.specs.Scan.{least};
ghost use Rattle.text_rules.specs.Rules.{deep, too_deep};
ghost use Rattle.events.specs.Read.{as_event};
ghost use Rattle.text_rules.specs.Answers.{least_with};

use events::event::{Event, Events};
use text_rules::broken::lesser;

// How deep a thing may be.
const DEPTH: usize = 24;

// What breaks the rule at one event, with what was found before.
#[tactic(auto, unfolding(text_rules::specs::Rules::deep, text_rules::specs::Answers::least_with))]
fn deeper(event: Event, best: Option<usize>) -> Option<usize>
    ensures { result ≡ least_with (deep (as_event event)) best }
{
    match event {
        Event::Thing { depth, token } if depth > DEPTH => lesser(token, best),
        _ => best,
    }
}

// The least of the first tokens of the things in some events that are too deep.
// A loop in each rule, and no scan that is lent a closure: the loop is short, and each rule would have to prove a law of its closure.
pub fn too_deep(events: &Events) -> Option<usize>
    ensures { result ≡ least (too_deep events.now) }
{
    let mut best = None;
    for &event in events.as_slice() {
        best = deeper(event, best);
    }
    best
}
