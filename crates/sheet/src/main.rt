// The plan lister on pages: reads a job line and a text, and prints the sheet of the job's plan list or a refusal. What it prints is respond's `posted` of what it reads.
#![tactic(auto)]

// Says what failed, where something did.
// Not one function with the other programs: what reads, what answers, and the sizes of both buffers differ.
fn post(rt: &HostRuntime) -> Result<(), &'static str> {
    let mut buffer = [0u8; reading::ENOUGH];
    let read = reading::read_input(&mut rt.stdin(), &mut buffer).map_err(
        |_| "cannot read the input",
    )?;
    let mut out = [0u8; respond::SHEET];
    let n = respond::post(&buffer[..read], &mut out);
    rt.write_all(&out[..n])
        .map_err(|_| "cannot write the output")
}

fn main(rt: HostRuntime) {
    if let Err(failure) = post(&rt) {
        let _ = eprintln!(rt; "sheet: {failure}");
    }
}
