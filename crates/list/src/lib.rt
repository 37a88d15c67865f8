// List: its refusals, the code of the text's program, the search on it, and what is answered and left.
#![tactic(auto)]

ghost use Rattle.std.specs.Prelude.{◌≡◌, ◌≤◌, ltb, true, ◌-ℤ◌, length, Ok};
ghost use Rattle.std.specs.Int.Signed.{le_z};
ghost use Rattle.semantics.specs.Run.{numbers};
ghost use Rattle.semantics.specs.Search.{to};
ghost use Rattle.checker.specs.Check.{checked};
ghost use Rattle.list.specs.List.{ground, list as list_of};
ghost use Rattle.list.specs.Parts.{ground_of, leaves};
ghost use Rattle.list.specs.Code.{Translates, Searches};

use checker::tables::Tables;
use code::{Code, Draft};
use intervals::Window;
use search::Answered;
use syntax::refusal::{Reason, Refusal};
use text_rules::mains::main_number;

// What a job says besides its text: the ends of the window, the step limit, how many rows to skip, and the budget of moves.
#[derive(Clone, Copy, PartialEq, Eq, Debug)]
pub struct Terms {
    pub low: i32,
    pub high: i32,
    pub steps: u32,
    pub skip: u32,
    pub budget: u32,
}

// How far high is above low, exact in 64 bits.
fn gap(low: i32, high: i32) -> i64
    ensures { result ≡ high -ℤ low }
{
    i64::from(high) - i64::from(low)
}

// Whether a window has over 4,096 values: it has one more than high is above low.
fn is_wide(low: i32, high: i32) -> bool
    ensures { result ≡ ltb 4096 (length (numbers (to low high))) }
{
    4096 <= gap(low, high)
}

// The first of list's own grounds for a refusal, where scratch has this many words.
// Numbers and no `Terms`: a job line is asked about too, which has no skip and no budget.
pub fn refusal(low: i32, high: i32, steps: u32, words: usize) -> Option<Reason>
    ensures { ground_of result ≡ ground words low high steps }
{
    if words < 16384 {
        return Some(Reason::ShortScratch);
    }
    if high < low {
        return Some(Reason::LowAboveHigh);
    }
    if is_wide(low, high) {
        return Some(Reason::WideWindow);
    }
    if steps == 0 || 1000 < steps {
        return Some(Reason::BadSteps);
    }
    None
}

// Puts the code of a text in place of what stood there.
fn code_of(text: &[u8], code: &mut Draft) -> Result<(), Refusal>
    ensures { Translates text.now code.new result (checked text.now) }
{
    let mut tables = Tables::new();
    let analysis = checker::analyse(text, &mut tables)?;
    let main = main_number(&analysis.source, analysis.heads);
    compiler::compile(
        analysis.nodes,
        analysis.root,
        &analysis.source,
        analysis.slots,
        main,
        code,
    );
    Ok(())
}

// The search on a code, with scratch as its memory, which is left all zero.
fn explore(code: &Code, terms: Terms, rows: &mut [i32], scratch: &mut [u32]) -> Answered
    requires { (16384 ≤ length scratch.old) × (le_z terms.low terms.high ≡ true) × (terms.steps ≤ 1000) }
    ensures { Searches code.now terms.low terms.high terms.steps terms.skip terms.budget rows.old scratch.old (leaves (Ok result) rows.new scratch.new) }
{
    let answered = search::run(
        code,
        scratch,
        Window {
            low: terms.low,
            high: terms.high,
        },
        terms.steps as usize,
        terms.skip,
        terms.budget,
        rows,
    );
    scratch.fill(0);
    answered
}

// Lists the plans of a job: rows are written into the slice, the skipped ones not, as far as it has room and the budget goes.
pub fn list(
    text: &[u8],
    terms: Terms,
    rows: &mut [i32],
    scratch: &mut [u32],
) -> Result<Answered, Refusal>
    ensures { leaves result rows.new scratch.new ≡ list_of text.now terms.low terms.high terms.steps terms.skip terms.budget rows.old scratch.old }
{
    if let Some(reason) = refusal(terms.low, terms.high, terms.steps, scratch.len()) {
        return Err(Refusal { reason, place: 0 });
    }
    let mut draft = Draft::new();
    code_of(text, &mut draft)?;
    Ok(explore(&draft.code(), terms, rows, scratch))
}
