// Rule 9: bodies that can reach their end.
ghost use Rattle.std.specs.Prelude.{◌≡◌};
ghost use Rattle.text_rules.specs.Scan.{least};
ghost use Rattle.text_rules.specs.Rules.{unended, open_ends};
ghost use Rattle.events.specs.Read.{as_event};
ghost use Rattle.text_rules.specs.Answers.{least_with};

use events::event::{Event, Events};
use text_rules::broken::lesser;

// What breaks the rule at one event, with what was found before.
#[tactic(auto, unfolding(text_rules::specs::Rules::unended, text_rules::specs::Answers::least_with))]
fn reached(event: Event, best: Option<usize>) -> Option<usize>
    ensures { result ≡ least_with (unended (as_event event)) best }
{
    match event {
        Event::Ends { token, open: true } => lesser(token, best),
        _ => best,
    }
}

// The least of the closing braces of the bodies in some events that can reach their end.
// A loop of its own, as for depth: a scan that is lent a closure would have a law of it to prove.
pub fn open_ends(events: &Events) -> Option<usize>
    ensures { result ≡ least (open_ends events.now) }
{
    let mut best = None;
    for &event in events.as_slice() {
        best = reached(event, best);
    }
    best
}
