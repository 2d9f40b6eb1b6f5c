#![tactic(auto)]

ghost use Rattle.std.specs.Prelude.{◌<◌, length, IfSome};

// Prints the transcripts of many texts in one run. Each text comes behind its length in eight digits, and so does its transcript.
use console::transcribing::transcribe;
use packages::list::PackageList;
use packages::package::Package;
use packages::reading::Reading;
use packages::records::Random;
use std::io::{Read, Write};

// Digit by digit, since `parse` takes a sign too.
fn length_of(digits: &[u8]) -> Option<usize> {
    digits.iter().try_fold(0_usize, |length, digit| {
        let digit = char::from(*digit).to_digit(10)?;
        Some(length.saturating_mul(10).saturating_add(digit as usize))
    })
}

// The first text and what is behind it; none at the end, and where a length or a text is cut short.
fn first_text(input: &[u8]) -> Option<(&[u8], &[u8])>
    ensures { IfSome result (λ p. length p.1.now < length input.now) }
{
    let (digits, rest) = input.split_at_checked(8)?;
    rest.split_at_checked(length_of(digits)?)
}

fn run(rt: &HostRuntime) -> anyhow::Result<()> {
    let heap = rt.alloc();
    let mut input = Vec::new(heap);
    rt.stdin().read_to_end(&mut input)?;
    // the list goes from text to text as the one before left it
    let mut places = [Random::holding(Reading::Empty); 48];
    let mut list = PackageList::new(&mut places);
    let mut rest = input.as_slice();
    while let Some((text, behind)) = first_text(rest) {
        let said = transcribe(heap, text, &mut list)?;
        let length = said.len();
        print!(rt; "{length:08}")?;
        rt.stdout().write_all(said.as_slice())?;
        rest = behind;
    }
    Ok(())
}

fn main(rt: HostRuntime) -> anyhow::Result<()> {
    run(&rt)
}
