ghost use Rattle.std.specs.Prelude.{◌≡◌, ◌^◌, ◌≤◌, MatchOption};

// A label in base units, from 1 to 10^11.
#[derive(Clone, Copy, Debug, PartialEq, Eq)]
pub struct Label {
    units: u64,
    ghost range: { (1 ≤ units) × (units ≤ 10 ^ 11) },
}

impl Label {
    // None exactly where the units are out of range.
    pub fn new(units: u64) -> Option<Label>
        ensures { MatchOption result ((1 ≤ units) × (units ≤ 10 ^ 11) → ⊥) (λ label. label.units ≡ units) }
    {
        if (1..=100_000_000_000).contains(&units) {
            Some(Label { units })
        } else {
            None
        }
    }

    pub fn units(&self) -> u64
        ensures { result ≡ self.now.units }
    {
        self.units
    }
}
