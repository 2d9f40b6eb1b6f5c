ghost use Rattle.std.specs.Prelude.{◌≡◌, length};
ghost use Rattle.lots.specs.Lots.{planned};
ghost use Rattle.packages.specs.Memory.{SameMemory};
ghost use Rattle.sheet.specs.Starts.{starting as starting_by, Starts};
ghost use Rattle.sheet.specs.Views.{rows_of};

use crate::call::Phase;
use crate::refusal::Refusal;
use crate::sheet::Sheet;
use categories::category::Category;
use kinds::kind::Kind;
use lots::lot::Lot;
use lots::planning::plan_lot;
use packages::list::PackageList;
use packages::package::Package;

impl<C: Category + Drop, K: Kind + Drop> Sheet<C, K> {
    // A new sheet over a package list whose first places, one for each package of the sample, are emptied.
    pub fn start<P: Package>(
        category: C,
        kind: K,
        lot: Lot,
        list: &mut PackageList<P>,
    ) -> Result<Sheet<C, K>, Refusal>
        ensures starts { Starts category kind lot (starting_by (planned (C.Category.meaning category) (K.Kind.meaning kind) lot) (length list.old.places.now)) (rows_of P.Package list.old) result (rows_of P.Package list.new) }
        ensures memory { SameMemory list.old.places list.new.places }
    {
        let plan = plan_lot(&category, &kind, lot)?;
        if list.len() < plan.sample as usize {
            return Err(Refusal::FewPlaces);
        }
        list.empty(plan.sample as usize);
        Ok(Sheet {
            category,
            kind,
            lot,
            plan,
            phase: Phase::Unsettled,
        })
    }
}

impl<C: Category, K: Kind> Sheet<C, K> {
    // Lets an open sheet go without a record, and gives back its category and kind.
    pub fn discard(self) -> (C, K)
        ensures { (result.0 ≡ self.category) × (result.1 ≡ self.kind) }
    {
        let Sheet {
            category,
            kind,
            lot: _,
            plan: _,
            phase: _,
        } = self;
        (category, kind)
    }
}
