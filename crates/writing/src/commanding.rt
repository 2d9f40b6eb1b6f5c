ghost use Rattle.std.specs.Prelude.{◌≡◌, ℕ, ◌≤◌, true, [], ◌∷◌, length, take, IfOk, Some, Ok, decimal};
ghost use Rattle.commands.specs.Parsing.{reading};
ghost use Rattle.commands.specs.declared.command.Command.{Command as AnyCommand};
ghost use Rattle.commands.specs.declared.command.Command.TheVariants.{Lot as LotOf, Call as CallOf};
ghost use Rattle.writing.specs.Bytes.{line as line_of};
ghost use Rattle.writing.specs.Render.{letter as letter_of, all_small, optional, writable, render};
ghost use Rattle.writing.specs.Writes.{WritesCommand};

use crate::page::Page;
use crate::unwritten::Unwritten;
use crate::word::Word::{Label, Letter, Number, Text};
use categories::handbook::HandbookCategory;
use commands::command::Command;
use kinds::handbook::HandbookKind;
use kinds::kind::Kind;
use lots::lot::Lot;
use sheet::call::Call;

fn is_small(n: u32) -> bool
    ensures { result ≡ all_small (n ∷ []) }
{
    n <= 999_999_999
}

// No number of the command has more than nine digits.
fn is_writable(command: Command) -> bool
    ensures { result ≡ writable command }
{
    match command {
        Command::Lot { lot, .. } => is_small(lot.size)
            && is_small(lot.division)
            && is_small(lot.allowance)
            && lot.label.is_none_or(is_small),
        Command::Call(
            Call::Weigh {
                place,
                gross,
                label,
            }
            | Call::Correct {
                place,
                gross,
                label,
            },
        ) => is_small(place) && is_small(gross) && label.is_none_or(is_small),
        Command::Call(Call::Strike { place }) => is_small(place),
        Command::Call(Call::Open { place, tare }) => is_small(place) && is_small(tare),
        Command::Call(Call::Settle | Call::Reopen) | Command::End => true,
    }
}

// Not beside the enum: only here is a letter a byte.
fn letter_of(category: HandbookCategory) -> u8
    ensures { result ∷ [] ≡ letter_of category }
{
    match category {
        HandbookCategory::A => b'A',
        HandbookCategory::B => b'B',
        HandbookCategory::C => b'C',
    }
}

// A weight's line, with a label if one is given.
fn write_weight(page: &mut Page<64>, verb: &[u8], place: u32, gross: u32, label: Option<u32>)
    requires { (page.old.bytes.items ≡ []) × (length verb.now ≤ 3) }
    ensures { page.new.bytes.items ≡ line_of (verb.now ∷ decimal place ∷ decimal gross ∷ optional label) }
{
    let verb = Text(verb);
    let place = Number(place);
    let gross = Number(gross);
    match label {
        Some(label) => page.line(verb, &[place, gross, Number(label)]),
        None => page.line(verb, &[place, gross]),
    }
}

fn write_lot(page: &mut Page<64>, category: HandbookCategory, kind: HandbookKind, lot: Lot)
    requires { page.old.bytes.items ≡ [] }
    ensures { page.new.bytes.items ≡ render (LotOf category kind lot) }
{
    page.line(
        Text(b"lot"),
        &[
            Letter(letter_of(category)),
            Text(kind.word().as_bytes()),
            Number(lot.size),
            Number(lot.division),
            Label(lot.label),
            Number(lot.allowance),
        ],
    )
}

fn write_call(page: &mut Page<64>, call: Call)
    requires { page.old.bytes.items ≡ [] }
    ensures { page.new.bytes.items ≡ render (CallOf call) }
{
    match call {
        Call::Weigh {
            place,
            gross,
            label,
        } => write_weight(page, b"wt", place, gross, label),
        Call::Correct {
            place,
            gross,
            label,
        } => write_weight(page, b"fix", place, gross, label),
        Call::Strike { place } => page.line(Text(b"del"), &[Number(place)]),
        Call::Open { place, tare } => page.line(Text(b"op"), &[Number(place), Number(tare)]),
        Call::Settle => page.line(Text(b"set"), &[]),
        Call::Reopen => page.line(Text(b"re"), &[]),
    }
}

// A command's line.
fn page_of(command: Command) -> Page<64>
    ensures { result.bytes.items ≡ render command }
{
    let mut page = Page::new();
    match command {
        Command::Lot {
            category,
            kind,
            lot,
        } => write_lot(&mut page, category, kind, lot),
        Command::Call(call) => write_call(&mut page, call),
        Command::End => page.line(Text(b"end"), &[]),
    }
    page
}

// A command as a line that reads back as the same command. Refuses a number of more than nine digits, then an output of fewer
// than 64 bytes.
pub fn write_command(command: Command, out: &mut [u8]) -> Result<usize, Unwritten>
    ensures writes { WritesCommand command out.old result out.new }
    ensures back { IfOk result (λ n. (line : ℕ) → reading line (take n out.new) ≡ Ok (Some command)) }
    ensures apart { IfOk result (λ n. (other : AnyCommand) → writable other ≡ true → render other ≡ take n out.new → other ≡ command) }
{
    if !is_writable(command) {
        return Err(Unwritten::NotNumber);
    }
    page_of(command).print(out)
}
