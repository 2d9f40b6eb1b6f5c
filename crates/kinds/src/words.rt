ghost use Rattle.std.specs.Prelude.{◌≡◌};
ghost use Rattle.kinds.specs.Handbook.{weight, count};

// The word of a weight.
pub fn is_weight(word: &str) -> bool
    ensures { result ≡ weight word.now }
{
    word == "msi" || word == "mus"
}

// The word of a count.
pub fn is_count(word: &str) -> bool
    ensures { result ≡ count word.now }
{
    word == "cnt"
}
