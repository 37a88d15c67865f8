// Checks one rule: reads a text and prints the line that `verdicts` gives for it: `accepted` with the offsets of remarks behind it, or `refused N at P`.
#![tactic(auto)]

// Says what failed, where something did.
// Not one function with the other programs: what reads, what answers, and the sizes of both buffers differ.
fn check(rt: &HostRuntime) -> Result<(), &'static str> {
    let mut buffer = [0u8; text_input::ENOUGH];
    let read = text_input::read_text(&mut rt.stdin(), &mut buffer).map_err(
        |_| "cannot read the input",
    )?;
    let mut out = [0u8; verdicts::LINE];
    let n = verdicts::verdict(&buffer[..read], &mut out);
    rt.write_all(&out[..n])
        .map_err(|_| "cannot write the output")
}

fn main(rt: HostRuntime) {
    if let Err(failure) = check(&rt) {
        let _ = eprintln!(rt; "rule_check: {failure}");
    }
}
