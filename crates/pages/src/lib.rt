// The pages of a sheet for the wall, written into a lent slice.
#![tactic(auto)]

ghost use Rattle.std.specs.Prelude.{◌++◌, ◌≡◌, ◌/◌, ◌≤◌, length};
ghost use Rattle.printing.specs.Decimal.{natural, integer};
ghost use Rattle.printing.specs.Written.{blanks, Put};
ghost use Rattle.lines.specs.Print.{line_end};
ghost use Rattle.lines.specs.Written.{row_from, rows_of};
ghost use Rattle.search.specs.Loop.{close_of};
ghost use Rattle.pages.specs.Pages.{right, filled, column, row_across, last_five, heading, page as page_of, wall_sheet, page_bytes, sheet_bytes};
ghost use Rattle.pages.specs.Parts.{foot_of, joined, rows_bytes, blank_lines};

use printing::{put_blanks, put_byte, put_bytes, put_integer, put_natural};
use search::Ending;

// The bytes of a page: 60 lines of 80 characters and LF.
pub const PAGE: usize = 4860;

// The rows of a page.
pub const ROWS: usize = 58;

// A word at the right end of so many columns.
fn put_right(out: &mut [u8], at: usize, width: usize, word: &[u8]) -> usize
    ensures { Put out.old at (right width word.now) out.new result }
{
    let p = put_blanks(out, at, width.saturating_sub(word.len()));
    put_bytes(out, p, word)
}

// A value in its column.
fn put_column(out: &mut [u8], at: usize, z: i32) -> usize
    ensures { Put out.old at (column z) out.new result }
{
    let mut digits = [0u8; 11];
    let n = put_integer(&mut digits, 0, z);
    if 8 < n {
        return put_bytes(out, at, b"########");
    }
    put_right(out, at, 8, &digits[..n])
}

// A result in its twelve columns.
fn put_result(out: &mut [u8], at: usize, z: i32) -> usize
    ensures { Put out.old at (right 12 (integer z)) out.new result }
{
    let mut digits = [0u8; 11];
    let n = put_integer(&mut digits, 0, z);
    put_right(out, at, 12, &digits[..n])
}

// Values, each in its column.
fn put_columns(out: &mut [u8], at: usize, values: &[i32]) -> usize
    ensures { Put out.old at (joined column values.now) out.new result }
{
    let mut p = at;
    for &z in values {
        p = put_column(out, p, z);
    }
    p
}

// The line of the row whose ten words stand at the front.
fn put_row(out: &mut [u8], at: usize, row: &[i32]) -> usize
    requires { 10 ≤ length row.now }
    ensures { Put out.old at (filled (row_across (row_from row.now)) ++ line_end) out.new result }
{
    let p = put_result(out, at, row[0]);
    let n = lines::value_count(row[1]);
    let q = put_columns(out, p, &row[2..2 + n]);
    let s = put_blanks(out, q, 8 * (8 - n) + 4);
    put_byte(out, s, b'\n')
}

// The lines of rows.
// A loop of its own beside that of `lines`: a row is put in another way, and a loop that is lent a closure would have a law of it to prove.
fn put_rows(out: &mut [u8], at: usize, rows: &[i32]) -> usize
    ensures { Put out.old at (rows_bytes (rows_of rows.now)) out.new result }
{
    let mut p = at;
    for k in 0..rows.len() / 10 {
        p = put_row(out, p, &rows[10 * k..]);
    }
    p
}

// So many blank lines.
fn put_blank_lines(out: &mut [u8], at: usize, n: usize) -> usize
    ensures { Put out.old at (blank_lines n) out.new result }
{
    let mut p = at;
    for _ in 0..n {
        p = put_blanks(out, p, 80);
        p = put_byte(out, p, b'\n');
    }
    p
}

// The last five digits of a page number, in five columns.
fn put_number(out: &mut [u8], at: usize, number: u32) -> usize
    ensures { Put out.old at (right 5 (last_five (natural number))) out.new result }
{
    let mut digits = [0u8; 10];
    let n = put_natural(&mut digits, 0, number);
    let first = n.saturating_sub(5);
    put_right(out, at, 5, &digits[first..n])
}

// Line 1.
fn put_head(out: &mut [u8], at: usize, number: u32) -> usize
    ensures { Put out.old at (filled (heading number) ++ line_end) out.new result }
{
    let p = put_bytes(out, at, b"plan list");
    let q = put_blanks(out, p, 2);
    let s = put_number(out, q, number);
    let t = put_blanks(out, s, 64);
    put_byte(out, t, b'\n')
}

// The word of line 60.
fn foot_word(ending: Option<Ending>) -> &'static [u8]
    ensures { result.now ≡ foot_of ending }
{
    match ending {
        Some(close) => lines::ending_word(close),
        None => b"",
    }
}

// Line 60.
fn put_foot(out: &mut [u8], at: usize, ending: Option<Ending>) -> usize
    ensures { Put out.old at (filled (foot_of ending) ++ line_end) out.new result }
{
    let word = foot_word(ending);
    let p = put_bytes(out, at, word);
    let q = put_blanks(out, p, 80 - word.len());
    put_byte(out, q, b'\n')
}

// The page with this number, with the rows in a slice's whole tens of words, and an ending or none.
pub fn put_page(
    out: &mut [u8],
    at: usize,
    number: u32,
    rows: &[i32],
    ending: Option<Ending>,
) -> usize
    requires { length rows.now / 10 ≤ 58 }
    ensures { Put out.old at (page_bytes (page_of number (rows_of rows.now) (foot_of ending))) out.new result }
{
    let p = put_head(out, at, number);
    let q = put_rows(out, p, rows);
    let s = put_blank_lines(out, q, ROWS - rows.len() / 10);
    put_foot(out, s, ending)
}

// The sheet of the rows in a slice's whole tens of words, with an ending.
pub fn put_pages(out: &mut [u8], rows: &[i32], close: Ending) -> usize
    requires { length rows.now / 10 ≤ 1000 }
    ensures { Put out.old 0 (sheet_bytes (wall_sheet (rows_of rows.now) (close_of close))) out.new result }
{
    let mut p = 0;
    let mut number: u32 = 1;
    let mut rest = rows;
    // A loop of its own: the step is a page, and the last one has the ending.
    while ROWS < rest.len() / 10 {
        let (page, more) = rest.split_at(10 * ROWS);
        p = put_page(out, p, number, page, None);
        number += 1;
        rest = more;
    }
    put_page(out, p, number, rest, Some(close))
}
