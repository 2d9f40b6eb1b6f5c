#![tactic(auto)]

// Runs two lists of calls side by side on two new sheets, and says what the rule for two sheets says of their records.
mod reading;
mod working;

use reading::Block;
use std::io::{BufRead, BufReader};
use working::work;

fn run(rt: &HostRuntime) -> anyhow::Result<()> {
    let heap = rt.alloc();
    let mut first = Block::new(heap);
    let mut second = Block::new(heap);
    let mut parted = false;
    for (i, line) in BufReader::new(heap, rt.stdin())?.lines(heap).enumerate() {
        let text = line?;
        let number = i.saturating_add(1);
        if text.trim().is_empty() {
            parted = true;
        } else if parted {
            second.add(number, text.trim())?;
        } else {
            first.add(number, text.trim())?;
        }
    }
    work(rt, &first, &second)
}

fn main(rt: HostRuntime) -> anyhow::Result<()> {
    run(&rt)
}
