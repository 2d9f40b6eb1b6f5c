ghost use Rattle.writing.specs.Report.{refusal_line};
ghost use Rattle.writing.specs.Writes.{Writes};

use crate::page::Page;
use crate::unwritten::Unwritten;
use crate::word::Word::{Letter, Number, Wide};

// The line of a refusal: line and column in the text, the letter of the layer and the number of the question. Refuses an
// output of fewer than 64 bytes.
pub fn write_refusal(
    line: usize,
    column: usize,
    letter: u8,
    number: u32,
    out: &mut [u8],
) -> Result<usize, Unwritten>
    ensures { Writes 64 (refusal_line line column letter number) out.old result out.new }
{
    let mut page = Page::<64>::new();
    page.line(
        Wide(line as u64),
        &[Wide(column as u64), Letter(letter), Number(number)],
    );
    page.print(out)
}
