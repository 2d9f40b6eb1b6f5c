ghost use Rattle.std.specs.Prelude.{◌≡◌, ◌≤◌, length};
ghost use Rattle.packages.specs.Memory.{SameMemory};
ghost use Rattle.sheet.specs.Views.{rows_of, terms_of};
ghost use Rattle.history.specs.Runs.{run as run_of};
ghost use Rattle.history.specs.Turns.{Turned, Runs};

use crate::entry::Entry;
use categories::category::Category;
use kinds::kind::Kind;
use packages::list::PackageList;
use packages::package::Package;
use sheet::record::Record;
use sheet::refusal::Refusal;
use sheet::sheet::Sheet;

// One entry: a record where it is a closing that is accepted, else the sheet, still open, and the refusal if any. Closing moves the
// sheet, so what comes back open is the error.
pub fn turn<C: Category + Drop, K: Kind + Drop, P: Package>(
    sheet: Sheet<C, K>,
    list: &mut PackageList<P>,
    entry: Entry,
) -> Result<Record, (Sheet<C, K>, Option<Refusal>)>
    ensures turned { Turned (terms_of C.Category K.Kind P.Package sheet) sheet (rows_of P.Package list.old) entry result (rows_of P.Package list.new) }
    ensures memory { SameMemory list.old.places list.new.places }
{
    match entry {
        Entry::Close => sheet
            .close(list)
            .map_err(|(back, refusal)| (back, Some(refusal))),
        Entry::Call(call) => {
            let mut sheet = sheet;
            let refusal = sheet.act(list, call).err();
            Err((sheet, refusal))
        }
    }
}

// The entries in turn, up to the first closing that is accepted.
pub fn run<C: Category + Drop, K: Kind + Drop, P: Package>(
    sheet: Sheet<C, K>,
    list: &mut PackageList<P>,
    entries: &[Entry],
) -> Result<Record, Sheet<C, K>>
    ensures runs { Runs (terms_of C.Category K.Kind P.Package sheet) (run_of (terms_of C.Category K.Kind P.Package sheet) entries.now sheet.phase (rows_of P.Package list.old)) sheet result (rows_of P.Package list.new) }
    ensures memory { SameMemory list.old.places list.new.places }
{
    let mut sheet = sheet;
    for entry in entries {
        match turn(sheet, list, *entry) {
            Ok(record) => return Ok(record),
            Err((back, _)) => sheet = back,
        }
    }
    Err(sheet)
}
