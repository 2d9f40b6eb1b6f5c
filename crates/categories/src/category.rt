ghost use Rattle.std.specs.Prelude.{◌≡◌, ℕ, List, Option};
ghost use Rattle.std.specs.Option.{option_map};
ghost use Rattle.categories.specs.Meaning.{Sampling, InBounds, total_at};

use crate::plan::Plan;

// A category of inspection. The meaning is fixed: for the lot size, the word of the kind and the sheet's label in base units, which
// is 0 where each package has a label of its own, either no plan or a plan and, for each ratio in hundredths, how many packages
// are opened in all to find the tare.
//
// The three stay arguments: each of two callers would make a struct of them for one call, and each clause take it apart again.
pub trait Category {
    ghost meaning: { Self → ℕ → List ℕ → ℕ → Option Sampling };

    // None where the category does not take the lot.
    fn plan(&self, size: u32, word: &str, label: u64) -> Option<Plan>
        ensures { result ≡ option_map (λ sampling. sampling.plan) (meaning self.now size word.now label) };

    // 0 where the category does not take the lot: a number, since the sheet asks only of a lot that was taken.
    fn tare_total(&self, size: u32, word: &str, label: u64, ratio: u64) -> u32
        ensures { result ≡ total_at (meaning self.now size word.now label) ratio };

    ghost bounds: { (category : Self) (size : ℕ) (word : List ℕ) (label : ℕ) → InBounds size (meaning category size word label) };
}
