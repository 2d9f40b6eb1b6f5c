ghost use Rattle.std.specs.Prelude.{◌≡◌, ◌-◌, ◌*◌, ◌^◌, ◌≤◌, map, length, pos, ◌-ℤ◌, unsigned_abs};
ghost use Rattle.std.specs.Int.{int_max, int_min};
ghost use Rattle.packages.specs.Readings.{gross_of, tare_of};
ghost use Rattle.sheet.specs.Tare.{label_by, is_opened, all_opened, total_for, tare_sum, average_of, Ranges, settling as settling_by};
ghost use Rattle.sheet.specs.Views.{rows_of, terms_of};

use crate::call::Phase;
use crate::closing::{gross_of, label_of};
use crate::refusal::Refusal;
use crate::sheet::Sheet;
use categories::category::Category;
use kinds::kind::Kind;
use packages::list::PackageList;
use packages::package::Package;
use packages::reading::Reading;
use rounding::nearest;

fn is_opened<P: Package>(held: &P) -> bool
    ensures { result ≡ is_opened (P.Package.reading held.now) }
{
    held.read().tare().is_some()
}

fn all_opened<P: Package>(places: &[P]) -> bool
    ensures { result ≡ all_opened (map P.Package.reading places.now) }
{
    places.iter().all(|held| is_opened(held))
}

fn tare_of(reading: Reading) -> u32
    ensures { result ≡ tare_of reading }
{
    reading.tare().unwrap_or(0)
}

// The tares of some places together.
fn tare_sum<P: Package>(places: &[P]) -> u64
    requires { length places.now ≤ 48 }
    ensures is { result ≡ tare_sum (map P.Package.reading places.now) }
    ensures bound { result ≤ (2 ^ 32 - 1) * length places.now }
{
    // a loop, whose turns bound the sum
    let mut sum = 0;
    for held in places {
        sum += u64::from(tare_of(held.read()));
    }
    sum
}

// The average tare of some places, to the nearest division.
fn average_of<P: Package>(places: &[P]) -> u32
    requires { length places.now ≤ 48 }
    ensures { result ≡ average_of (length places.now) (map P.Package.reading places.now) }
{
    match nearest(tare_sum(places), places.len() as u64) {
        Some(average) => average as u32,
        // the rules have 0 where no package is opened
        None => 0,
    }
}

// Gross less own tare less label.
fn net_error(label: Option<u32>, reading: Reading) -> i64
    ensures is { result ≡ pos (gross_of reading) -ℤ pos (tare_of reading) -ℤ pos (label_by label reading) }
    ensures bound { unsigned_abs result ≤ 2 ^ 33 }
{
    i64::from(gross_of(reading)) - i64::from(tare_of(reading)) - i64::from(label_of(label, reading))
}

// The smallest and the largest of some numbers, met one by one: of a chain's `max` a proof knows only
// that none is larger.
#[derive(Clone, Copy)]
struct Span {
    least: i64,
    most: i64,
}

impl Span {
    fn of(value: i64) -> Span
        ensures { (result.least ≡ value) × (result.most ≡ value) }
    {
        Span {
            least: value,
            most: value,
        }
    }

    fn with(self, value: i64) -> Span
        ensures { (result.least ≡ int_min self.least value) × (result.most ≡ int_max self.most value) }
    {
        Span {
            least: self.least.min(value),
            most: self.most.max(value),
        }
    }

    fn width(self) -> u64
        ensures { result ≡ unsigned_abs (self.most -ℤ self.least) }
    {
        self.most.abs_diff(self.least)
    }
}

// The range of the net errors of some places, and that of their tares; none where there is no place.
fn ranges<P: Package>(places: &[P], label: Option<u32>) -> Option<(u64, u64)>
    ensures { Ranges label (map P.Package.reading places.now) result }
{
    let (first, rest) = places.split_first()?;
    let first = first.read();
    let mut errors = Span::of(net_error(label, first));
    let mut tares = Span::of(i64::from(tare_of(first)));
    for held in rest {
        let reading = held.read();
        errors = errors.with(net_error(label, reading));
        tares = tares.with(i64::from(tare_of(reading)));
    }
    Some((errors.width(), tares.width()))
}

impl<C: Category, K: Kind> Sheet<C, K> {
    // How many packages are opened in all to find the tare, by those that are opened first.
    fn total_for<P: Package>(&self, opened: &[P]) -> u32
        requires initial { length opened.now ≡ (terms_of C.Category K.Kind P.Package self.now).initial }
        requires few { length opened.now ≤ 48 }
        ensures { result ≡ total_for (terms_of C.Category K.Kind P.Package self.now)
            (map P.Package.reading opened.now) }
    {
        match ranges(opened, self.lot.label) {
            // the rules have 0 where none is opened first
            None => 0,
            Some((_, 0)) => opened.len() as u32,
            Some((errors, tares)) => {
                let ratio = 100 * errors / tares;
                self.category
                    .tare_total(self.lot.size, self.kind.word(), self.lot.units(), ratio)
            }
        }
    }

    // The phase that settling leads to, or the first question that fails.
    pub(crate) fn settling<P: Package>(&self, list: &PackageList<P>) -> Result<Phase, Refusal>
        requires { self.now.plan.sample ≤ length list.now.places.now }
        ensures { result ≡ settling_by (terms_of C.Category K.Kind P.Package self.now)
            (rows_of P.Package list.now) }
    {
        let initial = if self.kind.is_weighed() {
            self.plan.initial
        } else {
            0
        };
        let first = list.first(initial as usize).unwrap();
        if !all_opened(first) {
            return Err(Refusal::InitialUnopened);
        }
        let total = self.total_for(first);
        if total > self.plan.sample {
            return Err(Refusal::TotalAboveSample);
        }
        let opened = list.first(total as usize).unwrap();
        if !all_opened(opened) {
            return Err(Refusal::TotalUnopened { total });
        }
        Ok(Phase::Settled {
            total,
            average: average_of(opened),
        })
    }
}
