// The input of the programs that list: a job line and a text, read no further than the answer needs.
#![tactic(auto)]

ghost use Rattle.std.specs.Prelude.{◌≤◌, length, IfOk};

use std::io;
use std::io::Read;

// 2,089 bytes settle what is printed: 40 of a job line, and 2,049 of a text.
pub const ENOUGH: usize = 2089;

// Reads until no further input changes what is printed, or the input ends.
pub fn read_input(input: &mut impl Read, buffer: &mut [u8]) -> io::Result<usize>
    ensures { IfOk result (λ n. n ≤ length buffer.new) }
{
    text_input::read_until(input, buffer, respond::is_enough)
}
