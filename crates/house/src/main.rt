// Rules in one hand: reads a text and prints it in house style, or `refused N at P`. What it prints is the writer's `printed` of what it reads.
#![tactic(auto)]

// Says what failed, where something did.
// Not one function with the other programs: what reads, what answers, and the sizes of both buffers differ.
fn print(rt: &HostRuntime) -> Result<(), &'static str> {
    let mut buffer = [0u8; text_input::ENOUGH];
    let read = text_input::read_text(&mut rt.stdin(), &mut buffer).map_err(
        |_| "cannot read the input",
    )?;
    let mut out = [0u8; writer::ROOM];
    let n = writer::print(&buffer[..read], &mut out);
    rt.write_all(&out[..n])
        .map_err(|_| "cannot write the output")
}

fn main(rt: HostRuntime) {
    if let Err(failure) = print(&rt) {
        let _ = eprintln!(rt; "house: {failure}");
    }
}
