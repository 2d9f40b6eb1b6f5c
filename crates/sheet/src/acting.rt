ghost use Rattle.std.specs.Prelude.{◌≡◌, ℕ, ◌≤◌, true, length};
ghost use Rattle.packages.specs.Memory.{SameMemory};
ghost use Rattle.sheet.specs.Calls.{place_of, placed as placed_by, weighable as weighable_by, thawed, step as step_by};
ghost use Rattle.sheet.specs.Steps.{Follows};
ghost use Rattle.sheet.specs.Views.{rows_of, terms_of, Kept};

use crate::call::{Call, Phase};
use crate::placing::{corrected, held_at, is_label, opened, place_next, struck, weighed};
use crate::refusal::Refusal;
use crate::sheet::Sheet;
use categories::category::Category;
use kinds::kind::Kind;
use packages::list::PackageList;
use packages::package::Package;

fn place_of(call: Call) -> Option<u32>
    ensures { result ≡ place_of call }
{
    match call {
        Call::Weigh { place, .. }
        | Call::Correct { place, .. }
        | Call::Strike { place }
        | Call::Open { place, .. } => { Some(place) }
        Call::Settle | Call::Reopen => None,
    }
}

// A place that is given is one of the sample.
fn is_placed(sample: u32, place: Option<u32>) -> bool
    ensures { result ≡ placed_by sample place }
{
    place.is_none_or(|place| (1..=sample).contains(&place))
}

// Weighing and correcting give a weight up to 999999, and a label where one belongs.
fn is_weighable(random: bool, call: Call) -> bool
    ensures { result ≡ weighable_by random call }
{
    match call {
        Call::Weigh { gross, label, .. } | Call::Correct { gross, label, .. } => gross <= 999_999
            && is_label(random, label),
        _ => true,
    }
}

impl<C: Category, K: Kind> Sheet<C, K> {
    // The call by the sheet's phase, once its place, weight and label are asked. One match on both, a fixed form.
    fn perform<P: Package>(&mut self, list: &mut PackageList<P>, call: Call) -> Result<(), Refusal>
        requires enough_places { self.old.plan.sample ≤ length list.old.places.now }
        requires placed { placed_by self.old.plan.sample (place_of call) ≡ true }
        ensures step { Follows
            (thawed (terms_of C.Category K.Kind P.Package self.old) self.old.phase (rows_of P.Package list.old) call)
            self.old.phase (rows_of P.Package list.old) result self.new.phase (rows_of P.Package list.new) }
        ensures kept { Kept self.old self.new }
        ensures memory { SameMemory list.old.places list.new.places }
    {
        match (self.phase, call) {
            (
                Phase::Settled { total, .. },
                Call::Weigh { place, .. }
                | Call::Correct { place, .. }
                | Call::Strike { place }
                | Call::Open { place, .. },
            ) if place <= total => Err(Refusal::Frozen),
            (
                _,
                Call::Weigh {
                    place,
                    gross,
                    label,
                },
            ) => {
                let next = weighed(held_at(list, place), gross, label);
                place_next(list, place, next)
            }
            (
                _,
                Call::Correct {
                    place,
                    gross,
                    label,
                },
            ) => {
                let next = corrected(held_at(list, place), gross, label);
                place_next(list, place, next)
            }
            (_, Call::Strike { place }) => {
                let next = struck(held_at(list, place));
                place_next(list, place, next)
            }
            (_, Call::Open { place, tare }) => {
                let next = opened(held_at(list, place), tare);
                place_next(list, place, next)
            }
            (Phase::Unsettled, Call::Settle) => {
                self.phase = self.settling(list)?;
                Ok(())
            }
            (Phase::Settled { .. }, Call::Settle) => Err(Refusal::Settled),
            (Phase::Settled { .. }, Call::Reopen) => {
                self.phase = Phase::Unsettled;
                Ok(())
            }
            (Phase::Unsettled, Call::Reopen) => Err(Refusal::Unsettled),
        }
    }

    // One call on the open sheet.
    pub fn act<P: Package>(&mut self, list: &mut PackageList<P>, call: Call) -> Result<(), Refusal>
        ensures step { Follows
            (step_by (terms_of C.Category K.Kind P.Package self.old) self.old.phase (rows_of P.Package list.old) call)
            self.old.phase (rows_of P.Package list.old) result self.new.phase (rows_of P.Package list.new) }
        ensures kept { Kept self.old self.new }
        ensures memory { SameMemory list.old.places list.new.places }
    {
        if list.len() < self.plan.sample as usize {
            return Err(Refusal::FewPlaces);
        }
        if !is_placed(self.plan.sample, place_of(call)) {
            return Err(Refusal::NoPlace);
        }
        if !is_weighable(self.lot.label.is_none(), call) {
            return Err(Refusal::Unweighable);
        }
        self.perform(list, call)
    }
}
