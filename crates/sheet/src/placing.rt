ghost use Rattle.std.specs.Prelude.{◌≡◌, ◌≤◌};
ghost use Rattle.packages.specs.Memory.{SameMemory};
ghost use Rattle.sheet.specs.Steps.{label_fits, weighed as weighed_by, corrected as corrected_by, struck as struck_by, opened as opened_by, held_at as held_by, Places};
ghost use Rattle.sheet.specs.Views.{rows_of};

use crate::refusal::Refusal;
use lots::lot::is_label as is_in_range;
use packages::list::PackageList;
use packages::package::Package;
use packages::reading::Reading;

// A label from 1 to 999999 is given exactly on a random sheet.
pub(crate) fn is_label(random: bool, label: Option<u32>) -> bool
    ensures { result ≡ label_fits random label }
{
    match label {
        Some(label) => random && is_in_range(label),
        None => !random,
    }
}

// Weighing fills an empty place.
pub(crate) fn weighed(held: Reading, gross: u32, label: Option<u32>) -> Result<Reading, Refusal>
    ensures { result ≡ weighed_by held gross label }
{
    match held {
        Reading::Empty => Ok(Reading::Weighed { gross, label }),
        _ => Err(Refusal::Unfit),
    }
}

// Correcting replaces gross and label, and drops the tare.
pub(crate) fn corrected(held: Reading, gross: u32, label: Option<u32>) -> Result<Reading, Refusal>
    ensures { result ≡ corrected_by held gross label }
{
    match held {
        Reading::Empty => Err(Refusal::Unfit),
        _ => Ok(Reading::Weighed { gross, label }),
    }
}

// Striking empties a place.
pub(crate) fn struck(held: Reading) -> Result<Reading, Refusal>
    ensures { result ≡ struck_by held }
{
    match held {
        Reading::Empty => Err(Refusal::Unfit),
        _ => Ok(Reading::Empty),
    }
}

// Opening records the tare of a weighed package, replacing an earlier one.
pub(crate) fn opened(held: Reading, tare: u32) -> Result<Reading, Refusal>
    ensures { result ≡ opened_by held tare }
{
    let gross = held.gross().ok_or(Refusal::Unfit)?;
    if tare > gross {
        return Err(Refusal::TareAboveGross);
    }
    let label = held.label();
    Ok(Reading::Opened { gross, label, tare })
}

pub(crate) fn held_at<P: Package>(list: &PackageList<P>, place: u32) -> Reading
    requires { 1 ≤ place }
    ensures { result ≡ held_by (rows_of P.Package list.now) place }
{
    list.at(place as usize - 1)
}

// Writes what a call made of the place, unless it is refused.
pub(crate) fn place_next<P: Package>(
    list: &mut PackageList<P>,
    place: u32,
    next: Result<Reading, Refusal>,
) -> Result<(), Refusal>
    requires { 1 ≤ place }
    ensures places { Places P.Package.labeled (rows_of P.Package list.old) place next
        result (rows_of P.Package list.new) }
    ensures memory { SameMemory list.old.places list.new.places }
{
    list.put(place as usize - 1, next?);
    Ok(())
}
