// kjudge: reads a stored history from standard input and prints what is found of it.
#![tactic(auto)]

use std::io::Read;
use stored::printed::printed;

// Two header lines and one event line more than a history may have, each of at most 80 bytes and a newline:
// whatever stands behind them is never looked at, so no more is read.
const MOST_BYTES: u64 = (2 + 65537) * 81;

fn judge_input(rt: &HostRuntime) -> anyhow::Result<()> {
    let heap = rt.alloc();
    let mut input = Vec::new(heap);
    let _ = rt.stdin().take(MOST_BYTES).read_to_end(&mut input)?;
    let text = printed(heap, &input)?;
    rt.print(text)?;
    Ok(())
}

fn main(rt: HostRuntime) -> anyhow::Result<()> {
    judge_input(&rt)
}
