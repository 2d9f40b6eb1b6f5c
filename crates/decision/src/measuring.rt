ghost use Rattle.std.specs.Prelude.{◌≡◌, ℕ, ◌*◌, ◌<◌, ◌≤◌, length, ℤ, pos, ◌*ℤ◌, ◌≤ℤ◌, unsigned_abs};
ghost use Rattle.decision.specs.Sample.{is_short, is_unreasonable, short, unreasonable, figures, Small, Bounded};

use crate::outcome::Figures;

pub fn is_short(error: i32) -> bool
    ensures { result ≡ is_short error }
{
    error < 0
}

// Short by more than the maximum allowable variation (MAV), a fraction of base units, of which a division has so many.
pub fn is_unreasonable(error: i32, division: u32, mav: (u64, u16)) -> bool
    ensures { result ≡ is_unreasonable division mav error }
{
    let (numerator, denominator) = mav;
    -i128::from(error) * i128::from(division) * i128::from(denominator) > i128::from(numerator)
}

fn count_short(errors: &[i32]) -> usize
    ensures { result ≡ short errors.now }
{
    errors.iter().filter(|error| is_short(**error)).count()
}

// Each error is held against the MAV at its place.
fn count_unreasonable(errors: &[i32], mavs: &[(u64, u16)], division: u32) -> usize
    ensures { result ≡ unreasonable division mavs.now errors.now }
{
    mavs.iter()
        .zip(errors)
        .filter(|(mav, error)| is_unreasonable(**error, division, **mav))
        .count()
}

// The figures of a sample, each error with the MAV at its place.
pub(crate) fn measure(errors: &[i32], mavs: &[(u64, u16)], division: u32) -> Figures
    requires few { length errors.now ≤ 48 }
    requires small { Small errors.now }
    ensures are { result ≡ figures division mavs.now errors.now }
    ensures bounded { Bounded result }
{
    let mut total: i64 = 0;
    let mut squares: i64 = 0;
    // a loop, since of a chain's signed sum no bound is known
    for error in errors {
        let e = i64::from(*error);
        total += e;
        squares += e * e;
    }
    let short = count_short(errors) as u32;
    let unreasonable = count_unreasonable(errors, mavs, division) as u32;
    Figures {
        sample: errors.len() as u32,
        total,
        squares,
        short,
        unreasonable,
    }
}
