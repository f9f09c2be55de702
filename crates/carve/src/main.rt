// carve reads a text from standard input and prints what its orders are answered, or where it is at fault. All that is decided is decided in
// report; this only reads and prints. It stands on report.
#![tactic(auto)]

use report::answer;
use std::io::Read;

// One byte more than a text may have: more need not be read to refuse it.
const ENOUGH_BYTES: u64 = 60_001;

fn run(rt: &HostRuntime) -> anyhow::Result<()> {
    let mut text = Vec::new(rt.alloc());
    rt.stdin().take(ENOUGH_BYTES).read_to_end(&mut text)?;
    let out = answer(rt.alloc(), &text)?;
    print!(rt; "{out}")?;
    Ok(())
}

fn main(rt: HostRuntime) -> anyhow::Result<()> {
    run(&rt)
}
