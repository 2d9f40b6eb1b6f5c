#![tactic(auto)]

ghost use Rattle.std.specs.Prelude.{◌≡◌, ℕ, ◌<◌, ◌≤◌, length, slice_index, find, nat_le};
ghost use Rattle.std.specs.Option.{option_copied};
ghost use Rattle.tables.specs.Rows.{rows, reached as reached_by};

// The first row that reaches the amount.
fn first_row<V: Copy>(rows: &[(u64, V)], amount: u64) -> Option<&(u64, V)>
    ensures { option_copied result ≡ find (λ row. nat_le amount row.0) rows.now }
{
    rows.iter().find(|(end, _)| amount <= *end)
}

// What a printed table has for an amount: the value of the first row that reaches it, and past the last row `past`.
#[tactic(auto, using(crate::proofs::Lookup::reached_found))]
pub fn reached_row<V: Copy>(rows: &[(u64, V)], past: V, amount: u64) -> V
    ensures { result ≡ reached_by rows.now past amount }
{
    first_row(rows, amount).map_or(past, |(_, value)| *value)
}

// The number of the first end that is not below the amount, or the count of ends where none is.
//
// A function of its own: its three clauses are what the proof of `reached` goes by.
fn first_end(ends: &[u64], amount: u64) -> usize
    ensures within { result ≤ length ends.now }
    ensures before { (k : ℕ) → k < result → slice_index ends.now k < amount }
    ensures found { result < length ends.now → amount ≤ slice_index ends.now result }
{
    ends.iter()
        .position(|end| amount <= *end)
        .unwrap_or(ends.len())
}

// The same of a table in two columns, its ends beside its values: it has as many rows as the shorter of them.
pub fn reached<V: Copy>(ends: &[u64], values: &[V], past: V, amount: u64) -> V
    ensures { result ≡ reached_by (rows ends.now values.now) past amount }
{
    let row = first_end(ends, amount);
    if row < values.len() && row < ends.len() {
        values[row]
    } else {
        past
    }
}
