ghost use Rattle.std.specs.Prelude.{◌≡◌};
ghost use Rattle.lots.specs.Lots.{package_mav, planned};

use crate::lot::{Lot, LotFault, is_division, is_label};
use categories::category::Category;
use categories::plan::Plan;
use kinds::kind::Kind;
use kinds::label::Label;

// The plan by which the lot is inspected.
pub fn plan_lot<C: Category, K: Kind>(category: &C, kind: &K, lot: Lot) -> Result<Plan, LotFault>
    ensures { result ≡ planned (C.Category.meaning category.now) (K.Kind.meaning kind.now) lot }
{
    if !lot.is_in_range() {
        return Err(LotFault::OutOfRange);
    }
    let word = kind.word();
    if !lot.suits(word) {
        return Err(LotFault::NotTaken);
    }
    category
        .plan(lot.size, word, lot.units())
        .ok_or(LotFault::NotTaken)
}

// The MAV of a package by its label in divisions; none where label or division is out of range.
pub fn package_mav<K: Kind>(kind: &K, division: u32, label: u32) -> Option<(u64, u16)>
    ensures { result ≡ package_mav (K.Kind.meaning kind.now) division label }
{
    if !is_label(label) || !is_division(division) {
        return None;
    }
    let label = Label::new(u64::from(label) * u64::from(division))?;
    Some(kind.mav(label))
}
