ghost use Rattle.std.specs.Prelude.{◌≡◌, ◌<◌, ◌↔◌, IsTrue, length, ◌-ℤ◌};
ghost use Rattle.comparison.specs.Rises.{Lower, Crosses, CrossedBy, Crossed};

// The errors of a package in the first list and in the second.
type Errors = (i32, i32);

// By how much an error rose.
fn rise(errors: Errors) -> i64
    ensures { result ≡ errors.1 -ℤ errors.0 }
{
    i64::from(errors.1) - i64::from(errors.0)
}

// One package stood lower than another, and rose by more.
fn crosses(low: Errors, high: Errors) -> bool
    ensures { IsTrue result ↔ Crosses low high }
{
    low.0 < high.0 && rise(high) < rise(low)
}

// Two lists of errors of the same packages.
#[derive(Drop)]
pub(crate) struct Pair<'a> {
    pub(crate) first: &'a [i32],
    pub(crate) second: &'a [i32],
    ghost same_length: { length second.now ≡ length first.now },
}

impl Pair<'_> {
    // The first place whose error is lower in the second list.
    pub(crate) fn first_lower(&self) -> Option<usize>
        ensures { Lower self.now.first.now self.now.second.now result }
    {
        self.first
            .iter()
            .zip(self.second)
            .position(|(first, second)| second < first)
    }

    // The first place that stood higher than a package and rose by less.
    fn crossed_with(&self, low: Errors) -> Option<usize>
        ensures { CrossedBy self.now.first.now self.now.second.now low result }
    {
        self.first
            .iter()
            .zip(self.second)
            .position(|(first, second)| crosses(low, (*first, *second)))
    }

    // The first two places of which the one that stood lower rose by more.
    pub(crate) fn first_crossed(&self) -> Option<(usize, usize)>
        ensures { Crossed self.now.first.now self.now.second.now result }
    {
        // a loop: with `find_map` the proof does not close
        for (j, (first, second)) in self.first.iter().zip(self.second).enumerate() {
            if let Some(k) = self.crossed_with((*first, *second)) {
                return Some((j, k));
            }
        }
        None
    }
}
