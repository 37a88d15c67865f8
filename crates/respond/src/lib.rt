// The programs but for their reading and writing: what they print, as functions of the input.
#![tactic(auto)]

ghost use Rattle.std.specs.Prelude.{◌≡◌, ◌*◌, ◌≤◌, ◌<◌, length, Ok, Some};
ghost use Rattle.printing.specs.Written.{Put, Wrote};
ghost use Rattle.list.specs.Parts.{answer_of};
ghost use Rattle.respond.specs.Output.{listing, by_list, answered, output, posted, job_enough, enough_input};
ghost use Rattle.respond.specs.Parts.{Small, printed_of, printed_for, size_of};

use lines::Job;
use list::Terms;
use search::Answered;
use syntax::refusal::{Reason, Refusal};

// 1,000 rows of at most 110 bytes each, and a last line of at most 39.
pub const OUTPUT: usize = 110039;

// 1,000 rows are 18 pages of 4,860 bytes.
pub const SHEET: usize = 87480;

// The two ways to print a plan list.
// An enum and no function lent: what is promised of both is one clause, by `printed_of` and `size_of`.
#[derive(Clone, Copy, PartialEq, Eq, Debug)]
enum Layout {
    Lines,
    Sheet,
}

// The rows that a search has written, and how it closed.
fn print_rows(out: &mut [u8], rows: &[i32], found: Answered, layout: Layout) -> usize
    requires { (found.written ≤ 1000) × (10 * found.written ≤ length rows.now) }
    ensures { Put out.old 0 (printed_of layout (answer_of (Ok found)) rows.now) out.new result × (result ≤ size_of layout) }
{
    let shown = &rows[..10 * found.written];
    match layout {
        Layout::Lines => {
            let p = lines::put_rows(out, 0, shown);
            lines::put_last_line(out, p, found.ending, found.written as u32, found.moves)
        }
        Layout::Sheet => pages::put_pages(out, shown, found.ending),
    }
}

// What is printed of list's answer, where it left these rows.
fn print_listed(
    out: &mut [u8],
    rows: &[i32],
    listed: Result<Answered, Refusal>,
    layout: Layout,
) -> usize
    requires { Small (answer_of listed) × (10000 ≤ length rows.now) }
    ensures { Put out.old 0 (printed_of layout (answer_of listed) rows.now) out.new result × (result ≤ size_of layout) }
{
    match listed {
        Ok(found) => print_rows(out, rows, found, layout),
        Err(refusal) => {
            let number = u32::from(refusal.reason);
            lines::put_refusal(out, 0, number, refusal.place as u32)
        }
    }
}

// What is printed for a job of this text: list, with 1,000 rows, skip 0 and a budget of 1,000,000 moves.
fn print_job(out: &mut [u8], text: &[u8], job: Job, layout: Layout) -> usize
    ensures { Put out.old 0 (printed_for layout (by_list (listing text.now job.low job.high job.steps))) out.new result × (result ≤ size_of layout) }
{
    let mut rows = [0i32; 10000];
    let mut scratch = [0u32; 16384];
    let terms = Terms {
        low: job.low,
        high: job.high,
        steps: job.steps,
        skip: 0,
        budget: 1000000,
    };
    let listed = list::list(text, terms, &mut rows, &mut scratch);
    print_listed(out, &rows, listed, layout)
}

// What is printed for this input.
fn print_answer(out: &mut [u8], input: &[u8], layout: Layout) -> usize
    ensures { Put out.old 0 (printed_for layout (answered input.now)) out.new result × (result ≤ size_of layout) }
{
    match lines::job_line(input) {
        None => lines::put_refusal(out, 0, u32::from(Reason::BadJobLine), 0),
        Some(job) => print_job(out, &input[job.text..], job, layout),
    }
}

// All that the first program prints for this input, at the front of out; the answer is how many bytes that is.
pub fn respond(input: &[u8], out: &mut [u8; OUTPUT]) -> usize
    ensures { Wrote out.old (output input.now) out.new result }
{
    print_answer(out, input, Layout::Lines)
}

// All that the second program prints for this input: the pages of its sheet, or a refusal.
pub fn post(input: &[u8], out: &mut [u8; SHEET]) -> usize
    ensures { Wrote out.old (posted input.now) out.new result }
{
    print_answer(out, input, Layout::Sheet)
}

// Whether a job is refused whatever its text, or its text is too long already where so much was read.
fn is_job_enough(job: Job, read: usize) -> bool
    requires { job.text < 65536 }
    ensures { result ≡ job_enough read (Some job) }
{
    match list::refusal(job.low, job.high, job.steps, 16384) {
        Some(_) => true,
        None => job.text + 2048 < read,
    }
}

// Whether no further input changes what is printed.
pub fn is_enough(input: &[u8]) -> bool
    ensures { result ≡ enough_input input.now }
{
    if !lines::line_settled(input) {
        return false;
    }
    match lines::job_line(input) {
        None => true,
        Some(job) => is_job_enough(job, input.len()),
    }
}
