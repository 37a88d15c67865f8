// Reads inputs of the lister, which a byte 1 separates, and prints what the lister prints for each, on pages where a byte 2 stands before the input.
#![tactic(auto)]

// Not one function with `print_sheet`: a generic one would take the size of the buffer and what fills it.
fn print_output(rt: &impl Print, input: &[u8]) {
    let mut out = [0u8; respond::OUTPUT];
    let n = respond::respond(input, &mut out);
    let _ = rt.write_all(&out[..n]);
}

fn print_sheet(rt: &impl Print, input: &[u8]) {
    let mut out = [0u8; respond::SHEET];
    let n = respond::post(input, &mut out);
    let _ = rt.write_all(&out[..n]);
}

// What was read before a read failed is worked too.
fn main(rt: HostRuntime) {
    let mut inputs = [0u8; 65536];
    let (n, _) = text_input::fill(&mut rt.stdin(), &mut inputs, |_| false);
    for case in inputs[..n].split_inclusive(|b| *b == 1) {
        let input = &case[..lines::place(case, 1)];
        match input {
            [2, job @ ..] => print_sheet(&rt, job),
            _ => print_output(&rt, input),
        }
    }
}
