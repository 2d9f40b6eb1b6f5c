ghost use Rattle.std.specs.Prelude.{◌≡◌, ℕ, ◌^◌, ◌≤◌};
ghost use Rattle.kinds.specs.Meaning.{Meaning, InBounds};

use crate::label::Label;

// What a label declares. The meaning is fixed: a word, whether packages are weighed with a tare, and for each label the
// maximum allowable variation (MAV) as a fraction, numerator and denominator.
pub trait Kind {
    ghost meaning: { Self → Meaning };

    fn word(&self) -> &str
        ensures { result.now ≡ (meaning self.now).word };

    fn is_weighed(&self) -> bool
        ensures { result ≡ (meaning self.now).weighed };

    fn mav(&self, label: Label) -> (u64, u16)
        ensures { result ≡ (meaning self.now).mav label.units };

    ghost bounds: { (kind : Self) (label : ℕ) → 1 ≤ label → label ≤ 10 ^ 11 → InBounds ((meaning kind).mav label) };
}
