#![tactic(auto)]

// Runs two sheet texts side by side on two new sheets, and says what the rule for two sheets says of their records.
mod playing;
mod working;

use std::io::Read;
use std::{env, fs};
use working::work;

// A text, or one byte more than it may have.
fn read_text(rt: &HostRuntime, path: &str) -> anyhow::Result<Vec<u8>> {
    let mut text = Vec::new(rt.alloc());
    fs::open(rt, path)?.take(65_537).read_to_end(&mut text)?;
    Ok(text)
}

fn run(rt: &HostRuntime) -> anyhow::Result<()> {
    let mut names = env::args(rt)?;
    let _ = names.next();
    let (Some(first), Some(second), None) = (names.next(), names.next(), names.next()) else {
        println!(rt; "usage: compare FIRST SECOND, each the name of a sheet text")?;
        return Ok(());
    };
    let first = read_text(rt, first.as_str())?;
    let second = read_text(rt, second.as_str())?;
    work(rt, first.as_slice(), second.as_slice())
}

fn main(rt: HostRuntime) -> anyhow::Result<()> {
    run(&rt)
}
