ghost use Rattle.std.specs.Prelude.{◌≡◌, true};
ghost use Rattle.sheet.specs.Sound.{sound as sound_lot};

use crate::call::Phase;
use categories::plan::Plan;
use lots::lot::Lot;

// An open lot sheet. It is never copied, and is spent by closing or discarding it.
pub struct Sheet<C, K> {
    pub(crate) category: C,
    pub(crate) kind: K,
    pub(crate) lot: Lot,
    pub(crate) plan: Plan,
    pub(crate) phase: Phase,
    ghost sound: { sound_lot lot plan ≡ true },
}
