ghost use Rattle.std.specs.Prelude.{◌≡◌, length};
ghost use Rattle.packages.specs.Memory.{SameMemory};
ghost use Rattle.sheet.specs.Views.{rows_of};
ghost use Rattle.history.specs.Contest.{start as start_of, Ends, Ruled};
ghost use Rattle.history.specs.Setups.{setup_of};

use crate::ending::{Ending, Start};
use crate::entry::Entry;
use crate::running::run;
use categories::category::Category;
use kinds::kind::Kind;
use packages::list::PackageList;
use packages::package::Package;
use sheet::sheet::Sheet;

// Starts a sheet and runs it. Start, list and entries stay three: a struct that held the list would tie its memory to one sheet.
pub fn start_and_run<C: Category + Drop, K: Kind + Drop, P: Package>(
    start: Start<C, K>,
    list: &mut PackageList<P>,
    entries: &[Entry],
) -> Ending<C, K>
    ensures ends { Ends (setup_of C.Category K.Kind P.Package start entries.now list.old) (start_of (setup_of C.Category K.Kind P.Package start entries.now list.old)) result (rows_of P.Package list.new) }
    ensures memory { SameMemory list.old.places list.new.places }
{
    let Start {
        category,
        kind,
        lot,
    } = start;
    match Sheet::start(category, kind, lot, list) {
        Err(refusal) => Ending::Refused(refusal),
        Ok(sheet) => match run(sheet, list, entries) {
            Ok(record) => Ending::Closed(record),
            Err(open) => Ending::Open(open),
        },
    }
}

// Two new sheets, each started and run. The contract has the rule for two sheets.
pub fn contest<
    C: Category + Drop,
    K: Kind + Drop,
    D: Category + Drop,
    L: Kind + Drop,
    P: Package,
    Q: Package,
>(
    first: Start<C, K>,
    second: Start<D, L>,
    places: &mut PackageList<P>,
    others: &mut PackageList<Q>,
    entries: &[Entry],
    more: &[Entry],
) -> (Ending<C, K>, Ending<D, L>)
    ensures first { Ends (setup_of C.Category K.Kind P.Package first entries.now places.old) (start_of (setup_of C.Category K.Kind P.Package first entries.now places.old)) result.0 (rows_of P.Package places.new) }
    ensures second { Ends (setup_of D.Category L.Kind Q.Package second more.now others.old) (start_of (setup_of D.Category L.Kind Q.Package second more.now others.old)) result.1 (rows_of Q.Package others.new) }
    ensures rule { Ruled (setup_of C.Category K.Kind P.Package first entries.now places.old) (setup_of D.Category L.Kind Q.Package second more.now others.old) result.0 result.1 }
    ensures memory { (SameMemory places.old.places places.new.places) × (SameMemory others.old.places others.new.places) }
{
    let one = start_and_run(first, places, entries);
    let two = start_and_run(second, others, more);
    (one, two)
}
