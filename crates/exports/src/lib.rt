// The operations of the lister, for Rust and C. A slice passes as a pointer and then a length.
#![tactic(auto)]

ghost use Rattle.std.specs.Prelude.{◌≡◌, ◌/◌, ◌≤◌, min, length};
ghost use Rattle.checker.specs.Check.{checked};
ghost use Rattle.list.specs.Parts.{answer_of};
ghost use Rattle.search.specs.Loop.{close_of};
ghost use Rattle.pages.specs.Parts.{foot_at, foot_of};
ghost use Rattle.exports.specs.Page.{page_out};
ghost use Rattle.exports.specs.Write.{styled, write_out};
ghost use Rattle.exports.specs.Answers.{check_words, both, remarks_out, ending_word, Fits, five_words, list_words, out, list_out};

use list::Terms;
use search::{Answered, Ending};
use syntax::refusal::Refusal;

// Check: answer[0] is 0 if the text is accepted, else the number of the refusal; answer[1] is the place, 0 if accepted.
// An answer of fewer than two words is left as it is.
#[unsafe(no_mangle)]
pub extern "C" fn plans_check(text: &[u8], answer: &mut [u32])
    ensures { answer.new ≡ check_words (checked text.now) answer.old }
{
    if answer.len() < 2 {
        return;
    }
    match checker::check(text) {
        Ok(()) => {
            answer[0] = 0;
            answer[1] = 0;
        }
        Err(refusal) => {
            let reason = u32::from(refusal.reason);
            answer[0] = reason;
            answer[1] = refusal.place as u32;
        }
    }
}

// Remarks: answer[0] and answer[1] as for check, answer[2] the count of offsets, which ascend; 0 if refused.
// With an answer of fewer than three words, nothing is written anywhere.
// Word by word, as in `plans_write`: a function for three words would have a definition of its own for three lines.
#[unsafe(no_mangle)]
pub extern "C" fn plans_remarks(text: &[u8], offsets: &mut [u16], answer: &mut [u32])
    ensures { both offsets.new answer.new ≡ remarks_out text.now offsets.old answer.old }
{
    if answer.len() < 3 {
        return;
    }
    match remarks::remarks(text, offsets) {
        Err(refusal) => {
            answer[0] = u32::from(refusal.reason);
            answer[1] = refusal.place as u32;
            answer[2] = 0;
        }
        Ok(count) => {
            answer[0] = 0;
            answer[1] = 0;
            answer[2] = count as u32;
        }
    }
}

// Five words of an answer.
fn put_words(answer: &mut [u32], number: u32, place: u32, ending: u32, rows: u32, moves: u32)
    requires { 5 ≤ length answer.old }
    ensures { answer.new ≡ five_words answer.old number place ending rows moves }
{
    answer[0] = number;
    answer[1] = place;
    answer[2] = ending;
    answer[3] = rows;
    answer[4] = moves;
}

// The number of an ending.
// A function and no `From`: the enum is another crate's, and the numbers are C's.
fn ending_number(close: Ending) -> u32
    ensures { result ≡ ending_word (close_of close) }
{
    match close {
        Ending::Whole => 0,
        Ending::Cuts => 1,
        Ending::Full => 2,
        Ending::Spent => 3,
    }
}

// What list answers, in words.
fn put_listed(answer: &mut [u32], listed: Result<Answered, Refusal>)
    requires { (5 ≤ length answer.old) × Fits (answer_of listed) }
    ensures { answer.new ≡ list_words (answer_of listed) answer.old }
{
    match listed {
        Ok(found) => {
            let ending = ending_number(found.ending);
            put_words(answer, 0, 0, ending, found.written as u32, found.moves);
        }
        Err(refusal) => {
            let number = u32::from(refusal.reason);
            put_words(answer, number, refusal.place as u32, 0, 0, 0);
        }
    }
}

// List: answer[0] and answer[1] as for check, answer[2] the ending (0 whole, 1 cut, 2 full, 3 spent), answer[3] the rows written, answer[4] the moves made; all three 0 if refused.
// With an answer of fewer than five words, nothing is written anywhere.
#[unsafe(no_mangle)]
pub extern "C" fn plans_list(
    text: &[u8],
    low: i32,
    high: i32,
    steps: u32,
    skip: u32,
    budget: u32,
    rows: &mut [i32],
    scratch: &mut [u32],
    answer: &mut [u32],
)
    ensures { out rows.new scratch.new answer.new ≡ list_out text.now low high steps skip budget rows.old scratch.old answer.old }
{
    if answer.len() < 5 {
        return;
    }
    let terms = Terms {
        low,
        high,
        steps,
        skip,
        budget,
    };
    put_listed(answer, list::list(text, terms, rows, scratch));
}

// How many rows of a slice of so many words stand on a page.
fn rows_on_page(words: usize) -> usize
    ensures { result ≡ min (words / 10) 58 }
{
    (words / 10).min(pages::ROWS)
}

// The ending with this number, if one has it.
// A function and no `TryFrom`: the enum is another crate's, and the numbers are C's.
fn ending_of(number: u32) -> Option<Ending>
    ensures { foot_of result ≡ foot_at number }
{
    match number {
        0 => Some(Ending::Whole),
        1 => Some(Ending::Cuts),
        2 => Some(Ending::Full),
        3 => Some(Ending::Spent),
        _ => None,
    }
}

// One page of a sheet: the rows in the slice's whole tens of words, the first 58 of them, under this page number, and on line 60 the word of an ending (0 whole, 1 cut, 2 full, 3 spent) or, for any other number, none.
// The page is written to the first 4,860 bytes of out, and the others keep their content; with fewer bytes nothing is written.
#[unsafe(no_mangle)]
pub extern "C" fn plans_page(rows: &[i32], page: u32, ending: u32, out: &mut [u8])
    ensures { out.new ≡ page_out rows.now page ending out.old }
{
    if out.len() < pages::PAGE {
        return;
    }
    let shown = 10 * rows_on_page(rows.len());
    pages::put_page(out, 0, page, &rows[..shown], ending_of(ending));
}

// A text in house style: answer[0] and answer[1] as for check, with 20 at 0 if out is too short for the whole; answer[2] the length written, 0 if refused. The text is at the front of out, and the other bytes keep their content; after a refusal all do.
// With an answer of fewer than three words, nothing is written anywhere.
#[unsafe(no_mangle)]
pub extern "C" fn plans_write(text: &[u8], out: &mut [u8], answer: &mut [u32])
    ensures { styled out.new answer.new ≡ write_out text.now out.old answer.old }
{
    let words = answer.len();
    if words < 3 {
        return;
    }
    match writer::write(text, out) {
        Err(refusal) => {
            answer[0] = u32::from(refusal.reason);
            answer[1] = refusal.place as u32;
            answer[2] = 0;
        }
        Ok(length) => {
            answer[0] = 0;
            answer[1] = 0;
            answer[2] = length as u32;
        }
    }
}
