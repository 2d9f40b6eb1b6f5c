ghost use Rattle.std.specs.Prelude.{◌≡◌, ◌≤◌, true, map, length, is_some, None, MatchOption, nat_le, unsigned_abs};
ghost use Rattle.std.specs.List.{list_all};
ghost use Rattle.packages.specs.Readings.{gross_of};
ghost use Rattle.decision.specs.Answer.{outside};
ghost use Rattle.sheet.specs.Closing.{complete as complete_by, lot_error, package_mavs, Judges, Closes};
ghost use Rattle.sheet.specs.Tare.{label_by};
ghost use Rattle.sheet.specs.Views.{rows_of, terms_of};

use crate::call::Phase;
use crate::placing::is_label;
use crate::record::Record;
use crate::refusal::Refusal;
use crate::sheet::Sheet;
use arrayvec::ArrayVec;
use categories::category::Category;
use decision::deciding::decide;
use kinds::kind::Kind;
use lots::lot::Lot;
use lots::planning::package_mav;
use packages::list::PackageList;
use packages::package::Package;
use packages::reading::Reading;

// The package's own label on a random sheet, else the sheet's. A missing one counts as 0, as the rules have it.
pub fn label_of(sheet: Option<u32>, reading: Reading) -> u32
    ensures { result ≡ label_by sheet reading }
{
    sheet.or(reading.label()).unwrap_or(0)
}

// An empty place weighs 0, as the rules have it.
pub(crate) fn gross_of(reading: Reading) -> u32
    ensures { result ≡ gross_of reading }
{
    reading.gross().unwrap_or(0)
}

// Gross less label less average tare, and the moisture that is allowed for.
pub fn package_error(lot: Lot, average: u32, reading: Reading) -> i64
    ensures { result ≡ lot_error lot average reading }
{
    let label = label_of(lot.label, reading);
    let moisture = u64::from(label) * u64::from(lot.allowance) / 1_000;
    i64::from(gross_of(reading)) - i64::from(label) - i64::from(average) + moisture as i64
}

// Weighed, with the label that belongs there.
fn is_complete<P: Package>(random: bool, held: &P) -> bool
    ensures { result ≡ complete_by random (P.Package.reading held.now) }
{
    match held.read() {
        Reading::Empty => false,
        Reading::Weighed { label, .. } | Reading::Opened { label, .. } => is_label(random, label),
    }
}

fn all_complete<P: Package>(random: bool, sample: &[P]) -> bool
    ensures { result ≡ list_all (complete_by random) (map P.Package.reading sample.now) }
{
    sample.iter().all(|held| is_complete(random, held))
}

// As the decision asks it, before an error is narrowed.
fn is_in_range(error: i64) -> bool
    ensures { result ≡ nat_le (unsigned_abs error) 8000 }
{
    (-8_000..=8_000).contains(&error)
}

// The package errors of the sample; none where one is not from -8000 to 8000.
fn errors<P: Package>(lot: Lot, average: u32, sample: &[P]) -> Option<ArrayVec<i32, 48>>
    requires { length sample.now ≤ 48 }
    ensures { let errors = map (lot_error lot average) (map P.Package.reading sample.now) in
        MatchOption result (is_some (outside errors) ≡ true) (λ found. (found.items ≡ errors) × (outside errors ≡ None)) }
{
    let mut errors = ArrayVec::new();
    for held in sample {
        let error = package_error(lot, average, held.read());
        if !is_in_range(error) {
            return None;
        }
        errors.push(error as i32);
    }
    Some(errors)
}

impl<C: Category, K: Kind> Sheet<C, K> {
    // The MAV of each package of the sample.
    fn mavs<P: Package>(&self, sample: &[P]) -> ArrayVec<(u64, u16), 48>
        requires few { length sample.now ≤ 48 }
        requires complete { list_all (complete_by (terms_of C.Category K.Kind P.Package self.now).random)
            (map P.Package.reading sample.now) ≡ true }
        ensures { result.items ≡ package_mavs (terms_of C.Category K.Kind P.Package self.now)
            (map P.Package.reading sample.now) }
    {
        let mut mavs = ArrayVec::new();
        for held in sample {
            let label = label_of(self.lot.label, held.read());
            let mav = package_mav(&self.kind, self.lot.division, label).unwrap();
            mavs.push(mav);
        }
        mavs
    }

    // The record that closing makes, or the first question that fails.
    fn judged<P: Package>(&self, list: &PackageList<P>) -> Result<Record, Refusal>
        ensures { Judges (terms_of C.Category K.Kind P.Package self.now) self.now.phase
            (rows_of P.Package list.now) result }
    {
        let Some(sample) = list.first(self.plan.sample as usize) else {
            return Err(Refusal::FewPlaces);
        };
        let Phase::Settled { total, average } = self.phase else {
            return Err(Refusal::Unsettled);
        };
        if !all_complete(self.lot.label.is_none(), sample) {
            return Err(Refusal::Unweighed);
        }
        let Some(errors) = errors(self.lot, average, sample) else {
            return Err(Refusal::ErrorRange);
        };
        let mavs = self.mavs(sample);
        // a sound sheet fails no question of the decision once its errors are in range
        let decision = decide(&errors, &mavs, self.lot.division, self.plan.rule).unwrap();
        Ok(Record {
            tare_total: total,
            average_tare: average,
            rule: self.plan.rule,
            decision,
        })
    }
}

impl<C: Category + Drop, K: Kind + Drop> Sheet<C, K> {
    // Turns the open sheet into a closed record, or hands it back with the refusal.
    pub fn close<P: Package>(self, list: &PackageList<P>) -> Result<Record, (Sheet<C, K>, Refusal)>
        ensures { Closes (terms_of C.Category K.Kind P.Package self) self (rows_of P.Package list.now) result }
    {
        match self.judged(list) {
            Ok(record) => {
                let _ = self.discard();
                Ok(record)
            }
            Err(refusal) => Err((self, refusal)),
        }
    }
}
