// Reads texts, which a byte 1 separates, and prints what check and remarks answer for each: a line `accepted` with the offsets of remarks behind it, or `refused N at P`.
#![tactic(auto)]

fn print_verdict(rt: &impl Print, text: &[u8]) {
    let mut out = [0u8; verdicts::LINE];
    let n = verdicts::verdict(text, &mut out);
    let _ = rt.write_all(&out[..n]);
}

// What was read before a read failed is worked too.
fn main(rt: HostRuntime) {
    let mut input = [0u8; 65536];
    let (n, _) = text_input::fill(&mut rt.stdin(), &mut input, |_| false);
    for text in input[..n].split_inclusive(|b| *b == 1) {
        print_verdict(&rt, &text[..lines::place(text, 1)]);
    }
}
