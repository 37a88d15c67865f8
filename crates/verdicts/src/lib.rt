// What is said of a text that is only checked, as a line of bytes.
#![tactic(auto)]

ghost use Rattle.printing.specs.Written.{Wrote};
ghost use Rattle.verdicts.specs.Line.{line_of};

// `accepted`, sixteen offsets of at most 12 bytes with their blanks, and LF. A refusal is shorter.
pub const LINE: usize = 201;

// The line of a text, at the front of out; the answer is how many bytes it has.
pub fn verdict(text: &[u8], out: &mut [u8; LINE]) -> usize
    ensures { Wrote out.old (line_of text.now) out.new result }
{
    let mut offsets = [0u16; 16];
    match remarks::remarks(text, &mut offsets) {
        Ok(count) => lines::put_acceptance(out, 0, &offsets[..count]),
        Err(refusal) => {
            let number = u32::from(refusal.reason);
            lines::put_refusal(out, 0, number, refusal.place as u32)
        }
    }
}
