// Rule 10: how many functions, parameters and declarations.
ghost use Rattle.std.specs.Prelude.{◌≡◌};
ghost use Rattle.text_rules.specs.Scan.{least};
ghost use Rattle.text_rules.specs.Rules.{counted, over, too_many};
ghost use Rattle.events.specs.Read.{as_event};
ghost use Rattle.text_rules.specs.Answers.{least_with};
ghost use Rattle.breaches.specs.Answers.{tallied, Room};

use events::event::{Event, Events};
use text_rules::broken::lesser;

// How many there may be.
const FUNCTIONS: usize = 16;

const PARAMETERS: usize = 4;

const DECLARATIONS: usize = 16;

// How many functions so far, and of the present one how many parameters, and declarations with the parameters.
#[derive(Clone, Copy)]
struct Tally {
    pub functions: usize,
    pub parameters: usize,
    pub declarations: usize,
}

// The tally after one event.
#[tactic(auto, unfolding(text_rules::specs::Rules::counted))]
fn count(tally: Tally, event: Event) -> Tally
    requires { Room tally }
    ensures { tallied result ≡ counted (tallied tally) (as_event event) }
{
    match event {
        Event::Function(_) => Tally {
            functions: tally.functions + 1,
            parameters: 0,
            declarations: 0,
        },
        Event::Parameter(_) => Tally {
            parameters: tally.parameters + 1,
            declarations: tally.declarations + 1,
            ..tally
        },
        Event::Declares(_) => Tally {
            declarations: tally.declarations + 1,
            ..tally
        },
        _ => tally,
    }
}

// What breaks the rule at one event, after those of the tally, with what was found before.
#[tactic(auto, unfolding(text_rules::specs::Rules::over, text_rules::specs::Answers::least_with))]
fn exceeds(tally: Tally, event: Event, best: Option<usize>) -> Option<usize>
    ensures { result ≡ least_with (over (tallied tally) (as_event event)) best }
{
    match event {
        Event::Function(token) if tally.functions >= FUNCTIONS => lesser(token, best),
        Event::Parameter(token)
            if tally.parameters >= PARAMETERS || tally.declarations >= DECLARATIONS => {
            lesser(token, best)
        }
        Event::Declares(token) if tally.declarations >= DECLARATIONS => lesser(token, best),
        _ => best,
    }
}

// The least of the names in some events that are one too many.
pub fn too_many(events: &Events) -> Option<usize>
    ensures { result ≡ least (too_many events.now) }
{
    let mut tally = Tally {
        functions: 0,
        parameters: 0,
        declarations: 0,
    };
    let mut best = None;
    for &event in events.as_slice() {
        best = exceeds(tally, event, best);
        tally = count(tally, event);
    }
    best
}
