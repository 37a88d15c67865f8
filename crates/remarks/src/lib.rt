// Remarks: the functions that main never leads to.
#![tactic(auto)]

ghost use Rattle.std.specs.Prelude.{◌≡◌, ℕ, ◌≤◌, ◌<◌, length, get_or, map};
ghost use Rattle.events.specs.Read.{as_event};
ghost use Rattle.text_rules.specs.Spelling.{same_in};
ghost use Rattle.text_rules.specs.Answers.{as_head};
ghost use Rattle.remarks.specs.Remarks.{begun, call_to, called_by, offsets_from, remarks_of, leaves};
ghost use Rattle.remarks.specs.Steps.{unmarked, fresh, calls_in, Marks, Fits, Fair, WroteOffsets, offsets_by};

use checker::Analysis;
use checker::tables::Tables;
use events::event::Event;
use syntax::refusal::{Reason, Refusal};
use syntax::source::Source;
use text_rules::heads::{Head, function_of};
use text_rules::mains::main_number;
use text_rules::spelling::word;

// How many functions have begun after one event more.
#[tactic(auto, unfolding(crate::specs::Remarks::begun))]
fn begin(f: usize, event: Event) -> usize
    requires { f < 9223372036854775808 }
    ensures { result ≡ begun f (as_event event) }
{
    match event {
        Event::Function(_) => f + 1,
        _ => f,
    }
}

// The callee, if the present function, the last of f that have begun, is reached and the callee is not.
#[tactic(auto, unfolding(crate::specs::Steps::fresh))]
fn unless_reached(reached: &[u32], f: usize, callee: Option<usize>) -> Option<usize>
    ensures { result ≡ fresh reached.now (call_to f callee) }
{
    let k = callee?;
    if word(reached, f.saturating_sub(1)) == 0 {
        return None;
    }
    if word(reached, k) == 0 { Some(k) } else { None }
}

// The function that one event calls, if the present function is reached and it is not.
#[tactic(auto, unfolding(crate::specs::Remarks::called_by, crate::specs::Steps::fresh))]
fn newly_called(analysis: &Analysis, reached: &[u32], f: usize, event: Event) -> Option<usize>
    ensures { result ≡ fresh reached.now
        (called_by (same_in analysis.now.source) analysis.now.heads.now f (as_event event)) }
{
    match event {
        Event::Calls { token, count: _ } => {
            let callee = function_of(&analysis.source, analysis.heads, token);
            unless_reached(reached, f, callee)
        }
        _ => None,
    }
}

// The first function that one that is reached calls, and that is not reached.
fn next_reached(analysis: &Analysis, reached: &[u32]) -> Option<usize>
    ensures { result ≡ fresh reached.now
        (calls_in (same_in analysis.now.source) analysis.now.events.now analysis.now.heads.now) }
{
    let mut f = 0;
    let events = analysis.events.as_slice();
    for &event in events {
        if let Some(g) = newly_called(analysis, reached, f, event) {
            return Some(g);
        }
        f = begin(f, event);
    }
    None
}

// Marks the functions that a chain of calls leads to from main.
fn reach(analysis: &Analysis, main: usize, reached: &mut [u32])
    requires { (length analysis.now.heads.now ≤ length reached.old) × (main < length reached.old) × ((g : ℕ) → get_or reached.old g 0 ≡ 0) }
    ensures { Marks (calls_in (same_in analysis.now.source) analysis.now.events.now analysis.now.heads.now) main reached.new }
{
    reached[main] = 1;
    while let Some(g) = next_reached(analysis, reached) {
        reached[g] = 1;
    }
}

// Writes the places of the names of those functions that are not reached, in the order of the text, and answers how many they are.
// The count stands beside the loop: only some of the functions are written, and the slice is C's.
fn write(source: &Source, heads: &[Head], reached: &[u32], offsets: &mut [u16]) -> usize
    requires { (length heads.now ≤ length offsets.old) × Fits source.now.places (map as_head heads.now) }
    ensures { WroteOffsets (offsets_from (unmarked reached.now) source.now.places 0 (map as_head heads.now)) offsets.old offsets.new result }
{
    let mut count = 0;
    for (g, head) in heads.iter().enumerate() {
        if word(reached, g) == 0 {
            offsets[count] = source.place(head.name) as u16;
            count += 1;
        }
    }
    count
}

// Writes the places of the names of the functions but main that no chain of calls leads to from main.
fn list(analysis: &Analysis, offsets: &mut [u16]) -> usize
    requires { Fair analysis.now.source analysis.now.heads.now × (16 ≤ length offsets.old) }
    ensures { WroteOffsets (offsets_by analysis.now.source analysis.now.events.now analysis.now.heads.now) offsets.old offsets.new result }
{
    // Words and no bools: the edit chain_of_one_call gives a function a third mark.
    let mut reached = [0u32; 16];
    let main = main_number(&analysis.source, analysis.heads);
    reach(analysis, main, &mut reached);
    write(
        &analysis.source,
        analysis.heads.as_slice(),
        &reached,
        offsets,
    )
}

// Writes the offset of the name of each function but main that no chain of calls leads to from main, in ascending order, and answers how many there are; or refuses.
pub fn remarks(text: &[u8], offsets: &mut [u16]) -> Result<usize, Refusal>
    ensures { leaves result offsets.new ≡ remarks_of text.now offsets.old }
{
    if offsets.len() < 16 {
        return Err(Refusal {
            reason: Reason::ShortOffsets,
            place: 0,
        });
    }
    let mut tables = Tables::new();
    // A match and no `?`: so a refusal that is handed on with another place is refused for that place (must-fail/refused_at_0.edit).
    match checker::analyse(text, &mut tables) {
        Ok(analysis) => Ok(list(&analysis, offsets)),
        Err(refusal) => Err(refusal),
    }
}
