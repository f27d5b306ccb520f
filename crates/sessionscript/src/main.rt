// Reads a script from standard input, makes its calls on a session over its sheet, and prints the replies.
#![tactic(auto)]

use script::answering::answer_script;
use std::io::Read;

fn main(rt: HostRuntime) -> anyhow::Result<()> {
    let heap = rt.alloc();
    let mut input = Vec::new(heap);
    rt.stdin().read_to_end(&mut input)?;
    let text = answer_script(heap, input.as_slice())?;
    rt.print(text.as_str())?;
    Ok(())
}
