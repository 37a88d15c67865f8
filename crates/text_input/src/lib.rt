// What the programs read: the front of an input, in a slice that they lend.
#![tactic(auto)]

ghost use Rattle.std.specs.Prelude.{◌≤◌, length, IfOk};

use std::io;
use std::io::Read;

// 2,049 bytes settle what is said of a text: one of more than 2,048 is refused.
pub const ENOUGH: usize = 2049;

// Reads until what was read is enough, the buffer is full, the input ends or a read fails: how many bytes stand at the front of the buffer, and whether a read failed.
// A pair and no Result alone: what was read before a read failed is worked too.
pub fn fill<F: Fn(&[u8]) -> bool>(
    input: &mut impl Read,
    buffer: &mut [u8],
    enough: F,
) -> (usize, io::Result<()>)
    requires { F.IsAlwaysCallable enough }
    ensures { result.0 ≤ length buffer.new }
{
    let mut n = 0;
    // A loop of its own: the step is what a read brings.
    while n < buffer.len() && !enough(&buffer[..n]) {
        match input.read(&mut buffer[n..]) {
            Ok(0) => break,
            Ok(more) => n += more,
            Err(error) => return (n, Err(error)),
        }
    }
    (n, Ok(()))
}

// Reads until what was read is enough, the buffer is full or the input ends: how many bytes stand at the front of the buffer.
pub fn read_until<F: Fn(&[u8]) -> bool>(
    input: &mut impl Read,
    buffer: &mut [u8],
    enough: F,
) -> io::Result<usize>
    requires { F.IsAlwaysCallable enough }
    ensures { IfOk result (λ n. n ≤ length buffer.new) }
{
    let (n, read) = fill(input, buffer, enough);
    read?;
    Ok(n)
}

// Reads until the buffer is full or the input ends.
pub fn read_text(input: &mut impl Read, buffer: &mut [u8]) -> io::Result<usize>
    ensures { IfOk result (λ n. n ≤ length buffer.new) }
{
    read_until(input, buffer, |_| false)
}
