// The plan lister: reads a job line and a text, and prints the job's plan list or a refusal. What it prints is respond's `output` of what it reads.
#![tactic(auto)]

// Says what failed, where something did.
// Not one function with the other programs: what reads, what answers, and the sizes of both buffers differ.
fn list(rt: &HostRuntime) -> Result<(), &'static str> {
    let mut buffer = [0u8; reading::ENOUGH];
    let read = reading::read_input(&mut rt.stdin(), &mut buffer).map_err(
        |_| "cannot read the input",
    )?;
    let mut out = [0u8; respond::OUTPUT];
    let n = respond::respond(&buffer[..read], &mut out);
    rt.write_all(&out[..n])
        .map_err(|_| "cannot write the output")
}

fn main(rt: HostRuntime) {
    if let Err(failure) = list(&rt) {
        let _ = eprintln!(rt; "lister: {failure}");
    }
}
