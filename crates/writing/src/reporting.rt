ghost use Rattle.std.specs.Prelude.{◌≡◌};
ghost use Rattle.writing.specs.Report.{report, still_open};
ghost use Rattle.writing.specs.Writes.{Writes};

use crate::page::Page;
use crate::unwritten::Unwritten;
use crate::word::Word::{Number, Signed, Text, Wide};
use sheet::record::Record;

// The eight lines of a closed record.
fn page_of(closed: &Record) -> Page<256>
    ensures { result.bytes.items ≡ report closed.now }
{
    let decision = closed.decision();
    let figures = decision.figures;
    let total = closed.tare_total();
    let average = closed.average_tare();
    let verdict = decision.verdict.word();
    let mut page = Page::new();
    page.line(Text(b"sample"), &[Number(figures.sample)]);
    page.line(Text(b"tare"), &[Number(total), Number(average)]);
    page.line(Text(b"total"), &[Signed(figures.total)]);
    page.line(Text(b"short"), &[Number(figures.short)]);
    page.line(Text(b"unreasonable"), &[Number(figures.unreasonable)]);
    page.line(Text(b"deviation"), &[Wide(decision.deviation)]);
    page.line(Text(b"limit"), &[Wide(decision.limit)]);
    page.line(Text(b"verdict"), &[Text(verdict.as_bytes())]);
    page
}

// The report of a closed record. Refuses an output of fewer than 256 bytes.
pub fn write_report(closed: &Record, out: &mut [u8]) -> Result<usize, Unwritten>
    ensures { Writes 256 (report closed.now) out.old result out.new }
{
    page_of(closed).print(out)
}

// The line of a text in which no closing was accepted. Refuses an output of fewer than 256 bytes.
pub fn write_open(out: &mut [u8]) -> Result<usize, Unwritten>
    ensures { Writes 256 still_open out.old result out.new }
{
    let mut page = Page::<256>::new();
    page.line(Text(b"open"), &[]);
    page.print(out)
}
