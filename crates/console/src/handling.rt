ghost use Rattle.std.specs.Prelude.{◌≡◌};
ghost use Rattle.packages.specs.Memory.{SameMemory};
ghost use Rattle.sheet.specs.Views.{rows_of};
ghost use Rattle.console.specs.Effects.{idle, standing, reply_of, on_sheet, begun, effect, Follows};

use crate::denial::{Denial, Reply};
use crate::session::Session;
use categories::handbook::HandbookCategory;
use commands::command::Command;
use history::entry::Entry;
use history::running::turn;
use kinds::handbook::HandbookKind;
use packages::list::PackageList;
use packages::package::Package;
use sheet::record::Record;
use sheet::refusal::Refusal;
use sheet::sheet::Sheet;

// A command where no sheet was started.
fn begin<P: Package>(list: &mut PackageList<P>, command: Command) -> (Session, Reply)
    ensures follows { Follows (begun P.Package.labeled (rows_of P.Package list.old) command) idle (rows_of P.Package list.old) result.1 (standing P.Package.labeled result.0) (rows_of P.Package list.new) }
    ensures memory { SameMemory list.old.places list.new.places }
{
    let Command::Lot {
        category,
        kind,
        lot,
    } = command
    else {
        return (Session::Idle, Err(Denial::NotOpen));
    };
    match Sheet::start(category, kind, lot, list) {
        Ok(sheet) => (Session::Open(sheet), Ok(None)),
        Err(refusal) => (Session::Idle, Err(refusal.into())),
    }
}

// What a turn of the sheet comes to.
fn reply_of(
    turned: Result<Record, (Sheet<HandbookCategory, HandbookKind>, Option<Refusal>)>,
) -> (Session, Reply)
    ensures { result ≡ reply_of turned }
{
    match turned {
        Ok(record) => (Session::Closed, Ok(Some(record))),
        Err((sheet, None)) => (Session::Open(sheet), Ok(None)),
        Err((sheet, Some(refusal))) => (Session::Open(sheet), Err(refusal.into())),
    }
}

// A command on the open sheet.
fn advance<P: Package>(
    sheet: Sheet<HandbookCategory, HandbookKind>,
    list: &mut PackageList<P>,
    command: Command,
) -> (Session, Reply)
    ensures follows { Follows (on_sheet P.Package.labeled sheet (rows_of P.Package list.old) command) (standing P.Package.labeled (Session.Open sheet)) (rows_of P.Package list.old) result.1 (standing P.Package.labeled result.0) (rows_of P.Package list.new) }
    ensures memory { SameMemory list.old.places list.new.places }
{
    match command {
        Command::Lot { .. } => (Session::Open(sheet), Err(Denial::Started)),
        Command::Call(call) => reply_of(turn(sheet, list, Entry::Call(call))),
        Command::End => reply_of(turn(sheet, list, Entry::Close)),
    }
}

// One command, by where the inspection stands. After the closing a lot is refused as started, and all else as not open.
pub fn handle<P: Package>(
    session: Session,
    list: &mut PackageList<P>,
    command: Command,
) -> (Session, Reply)
    ensures follows { Follows (effect P.Package.labeled (standing P.Package.labeled session) (rows_of P.Package list.old) command) (standing P.Package.labeled session) (rows_of P.Package list.old) result.1 (standing P.Package.labeled result.0) (rows_of P.Package list.new) }
    ensures memory { SameMemory list.old.places list.new.places }
{
    match session {
        Session::Idle => begin(list, command),
        Session::Open(sheet) => advance(sheet, list, command),
        Session::Closed => {
            let denial = match command {
                Command::Lot { .. } => Denial::Started,
                Command::Call(_) | Command::End => Denial::NotOpen,
            };
            (Session::Closed, Err(denial))
        }
    }
}
