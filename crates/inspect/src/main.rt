#![tactic(auto)]

// Reads a sheet as text on the standard input, and prints its refusal lines and its report.
use console::transcribing::transcribe;
use packages::list::PackageList;
use packages::package::Package;
use packages::reading::Reading;
use packages::records::Random;
use std::io::{Read, Write};

fn run(rt: &HostRuntime) -> anyhow::Result<()> {
    let heap = rt.alloc();
    let mut text = Vec::new(heap);
    // one byte more than a text may have tells that it is too long
    rt.stdin().take(65_537).read_to_end(&mut text)?;
    let mut places = [Random::holding(Reading::Empty); 48];
    let mut list = PackageList::new(&mut places);
    let said = transcribe(heap, text.as_slice(), &mut list)?;
    rt.stdout().write_all(said.as_slice())?;
    Ok(())
}

fn main(rt: HostRuntime) -> anyhow::Result<()> {
    run(&rt)
}
