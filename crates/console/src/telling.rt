ghost use Rattle.std.specs.Prelude.{◌≡◌, ◌≤◌, length, IfOk};
ghost use Rattle.packages.specs.Memory.{SameMemory};
ghost use Rattle.words.specs.Lines.{words as words_of};
ghost use Rattle.sheet.specs.Views.{rows_of};
ghost use Rattle.writing.specs.Writes.{Writes};
ghost use Rattle.commands.specs.Faults.{account as fault_account};
ghost use Rattle.console.specs.Effects.{standing};
ghost use Rattle.console.specs.Transcripts.{first_column, refused_at, told_by, said, ending, Answers, Ended};

use crate::denial::Reply;
use crate::handling::handle;
use crate::session::Session;
use commands::fault::Fault;
use commands::parsing::parse;
use packages::list::PackageList;
use packages::package::Package;
use words::reader::Reader;
use writing::refusing::write_refusal;
use writing::reporting::{write_open, write_report};
use writing::unwritten::Unwritten;

// The column of the first word of a line.
fn first_column(text: &[u8]) -> usize
    ensures { result ≡ first_column (words_of 1 text.now) }
{
    Reader::new(text, 1)
        .next_word()
        .map_or(1, |first| first.column)
}

// The line of a text that is not read.
fn tell_fault(fault: Fault, out: &mut [u8]) -> Result<usize, Unwritten>
    ensures { Writes 64 (refused_at fault.line fault.column (fault_account fault.why)) out.old result out.new }
{
    write_refusal(
        fault.line,
        fault.column,
        fault.letter() as u8,
        fault.number(),
        out,
    )
}

// What a command came to, of a line with its number and the column of its first word.
fn tell(reply: Reply, line: usize, column: usize, out: &mut [u8]) -> Result<usize, Unwritten>
    requires { 256 ≤ length out.old }
    ensures { Writes 256 (told_by line column reply) out.old result out.new }
{
    match reply {
        Ok(None) => Ok(0),
        Ok(Some(record)) => write_report(&record, out),
        Err(denial) => write_refusal(line, column, denial.letter() as u8, denial.number(), out),
    }
}

// One line of a text, with its number: what it comes to is printed, and where the inspection then stands is answered.
pub fn take_line<P: Package>(
    session: Session,
    list: &mut PackageList<P>,
    line: usize,
    text: &[u8],
    out: &mut [u8],
) -> (Session, Result<usize, Unwritten>)
    ensures answers { Answers (said P.Package.labeled line text.now (standing P.Package.labeled session) (rows_of P.Package list.old)) (standing P.Package.labeled session) (rows_of P.Package list.old) out.old result.1 out.new (standing P.Package.labeled result.0) (rows_of P.Package list.new) }
    ensures fits { IfOk result.1 (λ n. n ≤ length out.new) }
    ensures memory { SameMemory list.old.places list.new.places }
{
    if out.len() < 256 {
        return (session, Err(Unwritten::FewBytes));
    }
    match parse(text, line) {
        Err(fault) => (session, tell_fault(fault, out)),
        Ok(None) => (session, Ok(0)),
        Ok(Some(command)) => {
            let (session, reply) = handle(session, list, command);
            (session, tell(reply, line, first_column(text), out))
        }
    }
}

// The last call: prints that the sheet is open, if no closing was accepted.
pub fn finish(session: Session, out: &mut [u8]) -> Result<usize, (Session, Unwritten)>
    ensures { Ended session out.old result out.new }
{
    if out.len() < 256 {
        return Err((session, Unwritten::FewBytes));
    }
    match session {
        Session::Closed => Ok(0),
        open => {
            open.abandon();
            Ok(write_open(out).unwrap())
        }
    }
}
