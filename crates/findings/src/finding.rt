ghost use Rattle.std.specs.Prelude.{◌≡◌, ◌≤◌, length};
ghost use Rattle.std.specs.Int.{saturate_signed, w32};
ghost use Rattle.findings.specs.Closed.{labels_of, errors_of, mavs_of, Finds};

use crate::closed::{Findings, HandbookStart};
use arrayvec::ArrayVec;
use categories::handbook::HandbookCategory;
use history::ending::Ending;
use kinds::handbook::HandbookKind;
use lots::lot::Lot;
use lots::planning::package_mav;
use packages::list::PackageList;
use packages::package::Package;
use sheet::closing::{label_of, package_error};

// The nearest that the rule for two takes. The errors of a closed sheet are all in range.
fn narrowed(error: i64) -> i32
    ensures { result ≡ saturate_signed w32 error }
{
    error.clamp(i64::from(i32::MIN), i64::from(i32::MAX)) as i32
}

fn labels_of<P: Package>(lot: Lot, sample: &[P]) -> ArrayVec<u32, 48>
    requires { length sample.now ≤ 48 }
    ensures { result.items ≡ labels_of P.Package lot sample.now }
{
    let mut labels = ArrayVec::new();
    for package in sample {
        labels.push(label_of(lot.label, package.read()));
    }
    labels
}

fn errors_of<P: Package>(lot: Lot, average: u32, sample: &[P]) -> ArrayVec<i32, 48>
    requires { length sample.now ≤ 48 }
    ensures { result.items ≡ errors_of P.Package lot average sample.now }
{
    let mut errors = ArrayVec::new();
    for package in sample {
        errors.push(narrowed(package_error(lot, average, package.read())));
    }
    errors
}

// A label that is out of range, as none of a closed sheet is, has no shortage that is unreasonable.
fn mavs_of(kind: HandbookKind, division: u32, labels: &[u32]) -> ArrayVec<(u64, u16), 48>
    requires { length labels.now ≤ 48 }
    ensures { result.items ≡ mavs_of kind division labels.now }
{
    let mut mavs = ArrayVec::new();
    for label in labels {
        mavs.push(package_mav(&kind, division, *label).unwrap_or((0, 1)));
    }
    mavs
}

impl Findings {
    // Of a sheet by how it ended and the list that it left: none where it was not closed, or the list has fewer places than the sample.
    pub fn of<P: Package>(
        start: HandbookStart,
        ending: Ending<HandbookCategory, HandbookKind>,
        list: &PackageList<P>,
    ) -> Option<Findings>
        ensures { Finds P.Package start ending list.now.places.now result }
    {
        let record = match ending {
            Ending::Closed(record) => record,
            Ending::Open(sheet) => {
                let _ = sheet.discard();
                return None;
            }
            Ending::Refused(_) => return None,
        };
        let sample = list.first(record.decision().figures.sample as usize)?;
        let labels = labels_of(start.lot, sample);
        let errors = errors_of(start.lot, record.average_tare(), sample);
        let mavs = mavs_of(start.kind, start.lot.division, labels.as_slice());
        Some(Findings {
            start,
            record,
            labels,
            errors,
            mavs,
        })
    }
}
