// Many texts and their verdicts: for each text on standard input, a line with its fault, or `ok` and how many states, cuts and orders it
// holds. A text stands there as its length, a line feed, its bytes and a line feed. A test of reader, and it stands on reader: crates.txt
// lists text, table and course too, since reader needs them.
#![tactic(auto)]

ghost use Rattle.std.specs.Prelude.{◌<◌, ◌≤◌, length, IfSome};

use anyhow::{Context, anyhow};
use reader::{ReadError, read};
use std::io::Read;

// The verdict on one text, in one line.
fn judge(rt: &HostRuntime, text: &[u8]) -> anyhow::Result<()> {
    match read(rt.alloc(), text) {
        Ok(document) => {
            let states = document.estimates.len();
            let cuts = document.targets.len();
            let orders = document.orders.len();
            println!(rt; "ok {states} {cuts} {orders}")?;
        }
        Err(ReadError::AtFault(fault)) => println!(rt; "{fault}")?,
        Err(ReadError::NoMemory(_)) => return Err(anyhow!("no memory")),
    }
    Ok(())
}

// The number in front of some bytes, 0 where no digit stands there, and what follows it.
fn length_at(bytes: &[u8]) -> (usize, &[u8])
    ensures { length result.1.now ≤ length bytes.now }
{
    let count = bytes.iter().take_while(|b| b.is_ascii_digit()).count();
    let (digits, rest) = bytes.split_at(count);
    let number = digits.iter().fold(0_usize, |n, b| {
        n.saturating_mul(10)
            .saturating_add(usize::from(b.wrapping_sub(b'0')))
    });
    (number, rest)
}

// The text in front of some bytes, and what follows it, which is shorter than the whole.
fn frame(bytes: &[u8]) -> Option<(&[u8], &[u8])>
    ensures { IfSome result (λ p. length p.1.now < length bytes.now) }
{
    let (length, rest) = length_at(bytes);
    let (_, body) = rest.split_first()?;
    let (text, rest) = body.split_at_checked(length)?;
    let (_, rest) = rest.split_first()?;
    Some((text, rest))
}

fn run(rt: &HostRuntime) -> anyhow::Result<()> {
    let mut all = Vec::new(rt.alloc());
    rt.stdin().read_to_end(&mut all)?;
    let mut rest = all.as_slice();
    while !rest.is_empty() {
        let (text, after) = frame(rest).context("a frame is cut short")?;
        judge(rt, text)?;
        rest = after;
    }
    Ok(())
}

fn main(rt: HostRuntime) -> anyhow::Result<()> {
    run(&rt)
}
