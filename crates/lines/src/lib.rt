// What the programs read and print, as functions on slices.
#![tactic(auto)]

ghost use Rattle.std.specs.Prelude.{◌≡◌, ◌++◌, map, pos, ◌+◌, ◌*◌, ◌≤◌, ◌<◌, length, take, drop, position, ◌==◌, IfSome, SomeIff, nat_abs};
ghost use Rattle.std.specs.Int.{IsNonNegative};
ghost use Rattle.lexer.specs.Lex.{bytes};
ghost use Rattle.lines.specs.JobLine.{plain, minus, number_of, place as place_of, before, after, blank, job_in, line_job, line_settled};
ghost use Rattle.lines.specs.Parts.{magnitude_of};
ghost use Rattle.printing.specs.Decimal.{integer};
ghost use Rattle.printing.specs.Written.{Put};
ghost use Rattle.lines.specs.Written.{count_of, row_from, rows_of};
ghost use Rattle.search.specs.Loop.{close_of};
ghost use Rattle.lines.specs.Print.{spaced, row_line, row_lines, ending, last_line, refusal, acceptance};

use printing::{put_bytes, put_integer, put_natural};
use search::Ending;

// A job: the window, the step limit, and where the text begins.
#[derive(Clone, Copy, PartialEq, Eq, Debug)]
pub struct Job {
    pub low: i32,
    pub high: i32,
    pub steps: u32,
    pub text: usize,
}

// The place where a byte first stands, if it stands somewhere.
fn find(s: &[u8], b: u8) -> Option<usize>
    ensures { result ≡ position (λ x. x == b) s.now }
{
    s.iter().position(|x| *x == b)
}

// The place where a byte first stands, the length where it stands nowhere.
// The length and no Option where it stands nowhere: the definition `place` says so.
pub fn place(s: &[u8], b: u8) -> usize
    ensures { (result ≡ place_of b s.now) × (result ≤ length s.now) }
{
    find(s, b).unwrap_or(s.len())
}

// The number that one to ten digits stand for.
// By hand and not by `parse`, which takes a plus, and zeros beyond ten digits.
fn magnitude(digits: &[u8]) -> Option<u64>
    ensures value { result ≡ magnitude_of digits.now }
    ensures bound { IfSome result (λ n. n < 10000000000) }
{
    if digits.is_empty() || 10 < digits.len() {
        return None;
    }
    let mut value: u64 = 0;
    for &digit in digits {
        if !digit.is_ascii_digit() {
            return None;
        }
        value = 10 * value + u64::from(digit - b'0');
    }
    Some(value)
}

// The number that digits stand for.
fn plain(digits: &[u8]) -> Option<i32>
    ensures { result ≡ plain digits.now }
{
    i32::try_from(magnitude(digits)?).ok()
}

// The number that digits stand for with a minus before them.
fn minus(digits: &[u8]) -> Option<i32>
    ensures { result ≡ minus digits.now }
{
    i32::try_from(-(magnitude(digits)? as i64)).ok()
}

// A number in decimal.
fn number(word: &[u8]) -> Option<i32>
    ensures { result ≡ number_of word.now }
{
    match word {
        [b'-', digits @ ..] => minus(digits),
        _ => plain(word),
    }
}

// A number of steps, where it is not negative.
fn steps_of(z: i32) -> Option<u32>
    ensures { SomeIff result (IsNonNegative z) (nat_abs z) }
{
    u32::try_from(z).ok()
}

// What stands before the first blank, and what stands after it, nothing where there is none.
fn first_word(s: &[u8]) -> (&[u8], &[u8])
    ensures word { result.0.now ≡ before blank s.now }
    ensures rest { result.1.now ≡ after blank s.now }
{
    match find(s, b' ') {
        Some(end) => (&s[..end], &s[end + 1..]),
        None => (s, &[]),
    }
}

// The job of a line whose text begins at `text`.
fn job_in(line: &[u8], text: usize) -> Option<Job>
    ensures { result ≡ job_in text line.now }
{
    let (word, rest) = first_word(line);
    if word != b"job".as_slice() {
        return None;
    }
    let (low, rest) = first_word(rest);
    let (high, steps) = first_word(rest);
    Some(Job {
        low: number(low)?,
        high: number(high)?,
        steps: steps_of(number(steps)?)?,
        text,
    })
}

// The job line at the front of the input.
pub fn job_line(input: &[u8]) -> Option<Job>
    ensures { result ≡ line_job input.now }
{
    let end = find(input, b'\n')?;
    job_in(&input[..end], end + 1)
}

// Whether no further input changes the job line: it has ended, or it is longer than any good one.
#[tactic(auto, using(crate::proofs::Words::settled_long, crate::proofs::Words::settled_short))]
pub fn line_settled(input: &[u8]) -> bool
    ensures { result ≡ line_settled input.now }
{
    40 <= input.len() || place(input, b'\n') < input.len()
}

// A blank and a value.
fn put_value(out: &mut [u8], at: usize, z: i32) -> usize
    ensures { Put out.old at (bytes " " ++ integer z) out.new result × (result ≤ at + 12) }
{
    let p = put_bytes(out, at, b" ");
    put_integer(out, p, z)
}

// Values, a blank before each.
fn put_values(out: &mut [u8], at: usize, values: &[i32]) -> usize
    ensures { Put out.old at (spaced values.now) out.new result × (result ≤ at + 12 * length values.now) }
{
    let mut p = at;
    for &z in values {
        p = put_value(out, p, z);
    }
    p
}

// How many values a row has, from its second word.
pub fn value_count(z: i32) -> usize
    ensures { (result ≡ count_of z) × (result ≤ 8) }
{
    z.clamp(0, 8) as usize
}

// The word of an ending.
pub fn ending_word(close: Ending) -> &'static [u8]
    ensures { result.now ≡ ending (close_of close) }
{
    match close {
        Ending::Whole => b"whole",
        Ending::Cuts => b"cut",
        Ending::Full => b"full",
        Ending::Spent => b"spent",
    }
}

// The last line: an ending, rows written, moves made.
pub fn put_last_line(out: &mut [u8], at: usize, close: Ending, rows: u32, moves: u32) -> usize
    ensures { Put out.old at (last_line (close_of close) rows moves) out.new result }
{
    let p = put_bytes(out, at, ending_word(close));
    let q = put_bytes(out, p, b" ");
    let s = put_natural(out, q, rows);
    let t = put_bytes(out, s, b" rows ");
    let u = put_natural(out, t, moves);
    put_bytes(out, u, b" moves\n")
}

// A refusal: its number and its place.
pub fn put_refusal(out: &mut [u8], at: usize, number: u32, place: u32) -> usize
    ensures { Put out.old at (refusal number place) out.new result }
{
    let p = put_bytes(out, at, b"refused ");
    let q = put_natural(out, p, number);
    let s = put_bytes(out, q, b" at ");
    let t = put_natural(out, s, place);
    put_bytes(out, t, b"\n")
}

// The row whose ten words stand at the front.
fn put_row(out: &mut [u8], at: usize, row: &[i32]) -> usize
    requires { 10 ≤ length row.now }
    ensures { Put out.old at (row_line (row_from row.now)) out.new result × (result ≤ at + 110) }
{
    let p = put_integer(out, at, row[0]);
    let q = put_bytes(out, p, b" :");
    let s = put_values(out, q, &row[2..2 + value_count(row[1])]);
    put_bytes(out, s, b"\n")
}

// The rows in a slice's whole tens of words.
pub fn put_rows(out: &mut [u8], at: usize, rows: &[i32]) -> usize
    ensures { Put out.old at (row_lines (rows_of rows.now)) out.new result × (result ≤ at + 11 * length rows.now) }
{
    let mut p = at;
    for k in 0..rows.len() / 10 {
        p = put_row(out, p, &rows[10 * k..]);
    }
    p
}

// Offsets, a blank before each.
// Not one function with `put_values`: a generic one would ask for a law of the conversion, and the loop is short.
fn put_offsets(out: &mut [u8], at: usize, offsets: &[u16]) -> usize
    ensures { Put out.old at (spaced (map pos offsets.now)) out.new result × (result ≤ at + 12 * length offsets.now) }
{
    let mut p = at;
    for &offset in offsets {
        p = put_value(out, p, i32::from(offset));
    }
    p
}

// A text that is accepted, with these offsets.
pub fn put_acceptance(out: &mut [u8], at: usize, offsets: &[u16]) -> usize
    ensures { Put out.old at (acceptance offsets.now) out.new result × (result ≤ at + 12 * length offsets.now + 9) }
{
    let p = put_bytes(out, at, b"accepted");
    let q = put_offsets(out, p, offsets);
    put_bytes(out, q, b"\n")
}
