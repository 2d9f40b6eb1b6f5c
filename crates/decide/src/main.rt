#![tactic(auto)]

// Decides lots from package errors typed on the standard input, and compares two lists of errors for one lot.
mod printing;
mod reading;
mod undecided;
mod working;

use reading::Block;
use std::io::{BufRead, BufReader};
use working::work;

fn run(rt: &HostRuntime) -> anyhow::Result<()> {
    let heap = rt.alloc();
    let mut block = Block::new(heap);
    for (i, line) in BufReader::new(heap, rt.stdin())?.lines(heap).enumerate() {
        let text = line?;
        if text.trim().is_empty() {
            work(rt, &block)?;
            block = Block::new(heap);
        } else {
            block.add(heap, i.saturating_add(1), text.trim())?;
        }
    }
    work(rt, &block)
}

fn main(rt: HostRuntime) -> anyhow::Result<()> {
    run(&rt)
}
