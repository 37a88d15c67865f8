// Rule 6 over the events of a text, and what each name means.
#![tactic(auto)]

ghost use Rattle.std.specs.Prelude.{◌≡◌, [], ◌^◌, ◌≤◌, ◌<◌, length, map, set};
ghost use Rattle.std.specs.List.{list_any};
ghost use Rattle.text_rules.specs.Spelling.{same_in};
ghost use Rattle.text_rules.specs.Rules as R;
ghost use Rattle.text_rules.specs.Names.{repeated};
ghost use Rattle.events.specs.Read.{as_event};
ghost use Rattle.text_rules.specs.Answers.{as_head, least_with};
ghost use Rattle.names.specs.Steps.{SeenDeclaration, SeenVariable, SeenCall, SeenEvent, SeenEvents, Named};

use code::Address;
use events::event::Event;
use scopes::scope::Scopes;
use syntax::source::Source;
use text_rules::broken::lesser;
use text_rules::heads::{Head, position_of};
use text_rules::spelling::same_name;

// What token i means, as a number; a token past the end is passed over.
fn write(slots: &mut [u32], i: usize, means: usize)
    requires { means < 2 ^ 32 }
    ensures { slots.new ≡ set slots.old i means }
{
    if i < slots.len() {
        slots[i] = means as u32;
    }
}

// Token i names a variable.
fn write_address(slots: &mut [u32], i: usize, address: Address)
    requires { address.0 < 2 ^ 32 }
    ensures { slots.new ≡ set slots.old i address.0 }
{
    write(slots, i, address.0);
}

// Token i declares a variable.
fn see_declaration<const ROOM: usize>(
    source: &Source,
    scopes: &Scopes<ROOM>,
    slots: &mut [u32],
    i: usize,
    best: Option<usize>,
) -> Option<usize>
    requires { scopes.now.next < 2 ^ 32 }
    ensures { SeenDeclaration (same_in source.now) scopes.now.blocks scopes.now.next i best slots.old result slots.new }
{
    write_address(slots, i, Address(scopes.next()));
    match scopes.seek(source, i).found {
        Some(_) => lesser(i, best),
        None => best,
    }
}

// Token i is a variable that is read or assigned.
fn see_variable<const ROOM: usize>(
    source: &Source,
    scopes: &Scopes<ROOM>,
    slots: &mut [u32],
    i: usize,
    best: Option<usize>,
) -> Option<usize>
    ensures { SeenVariable (same_in source.now) scopes.now.blocks i best slots.old result slots.new }
{
    match scopes.seek(source, i).found {
        Some(address) => {
            write_address(slots, i, address);
            best
        }
        None => lesser(i, best),
    }
}

// Token i is a call's name.
fn see_call(
    source: &Source,
    heads: &[Head],
    slots: &mut [u32],
    i: usize,
    best: Option<usize>,
) -> Option<usize>
    requires { length heads.now < 2 ^ 32 }
    ensures { SeenCall (same_in source.now) (map as_head heads.now) i best slots.old result slots.new }
{
    match position_of(source, heads, i) {
        Some(number) => {
            write(slots, i, number);
            best
        }
        None => lesser(i, best),
    }
}

// One event: what breaks the rule there, and what its name means.
// Lent one by one and not as a struct: one with the slots, which change, would have to say that the others stay the same.
#[tactic(auto, using(crate::proofs::Seeing::ends), unfolding(crate::specs::Steps::noted, text_rules::specs::Answers::least_with, text_rules::specs::Names::misnamed, text_rules::specs::Names::named, text_rules::specs::Names::uncalled, text_rules::specs::Scopes::on_name))]
fn see<const ROOM: usize>(
    source: &Source,
    heads: &[Head],
    scopes: &Scopes<ROOM>,
    slots: &mut [u32],
    event: Event,
    best: Option<usize>,
) -> Option<usize>
    requires heads { length heads.now < 2 ^ 32 }
    requires next { scopes.now.next < 2 ^ 32 }
    ensures { SeenEvent (same_in source.now) (map as_head heads.now) scopes.now (as_event event) best slots.old result slots.new }
{
    match event {
        Event::Parameter(i) | Event::Declares(i) => {
            see_declaration(source, scopes, slots, i, best)
        }
        Event::Uses(i) => see_variable(source, scopes, slots, i, best),
        Event::Calls { token, count: _ } => see_call(source, heads, slots, token, best),
        _ => best,
    }
}

// All events, in order.
fn see_all<const ROOM: usize>(
    source: &Source,
    events: &[Event],
    heads: &[Head],
    slots: &mut [u32],
) -> Option<usize>
    requires events { length events.now ≤ ROOM }
    requires size { ROOM < 2 ^ 32 }
    requires heads { length heads.now < 2 ^ 32 }
    ensures { SeenEvents (same_in source.now) (map as_head heads.now) (map as_event events.now) slots.old result slots.new }
{
    let mut best = None;
    let mut scopes = Scopes::<ROOM>::new();
    for &event in events {
        best = see(source, heads, &scopes, slots, event, best);
        scopes.enter(event);
    }
    best
}

// Whether one of some functions has the name of token i.
fn is_named(source: &Source, heads: &[Head], i: usize) -> bool
    ensures { result ≡ list_any (λ h. same_in source.now h.name i) heads.now }
{
    heads.iter().any(|head| same_name(source, head.name, i))
}

// The functions that have an earlier one's name.
fn repeats(source: &Source, heads: &[Head], before: Option<usize>) -> Option<usize>
    ensures { result ≡ least_with (repeated (same_in source.now) [] (map as_head heads.now)) before }
{
    let mut best = before;
    for (k, head) in heads.iter().enumerate() {
        if is_named(source, &heads[..k], head.name) {
            best = lesser(head.name, best);
        }
    }
    best
}

// The least token that breaks rule 6 in at most ROOM events with the functions `heads`; what each name means is written at its token.
pub fn resolve<const ROOM: usize>(
    source: &Source,
    events: &[Event],
    heads: &[Head],
    slots: &mut [u32],
) -> Option<usize>
    requires events { length events.now ≤ ROOM }
    requires size { ROOM < 2 ^ 32 }
    requires heads { map as_head heads.now ≡ R.heads (map as_event events.now) }
    ensures { Named (same_in source.now) (map as_event events.now) slots.old result slots.new }
{
    let best = see_all::<ROOM>(source, events, heads, slots);
    repeats(source, heads, best)
}
