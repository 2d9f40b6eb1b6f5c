ghost use Rattle.comparison.specs.Laws.{TwoLists, Wider, OrderNeeded};

// The rule for two lists, for all lists of errors, whatever their size, and all rules.
pub fn two_lists()
    ensures { TwoLists }
{}

// Rises that keep the order never narrow the spread.
pub fn never_narrower()
    ensures { Wider }
{}

// Without the order, a heavier package can fail a lot that passed.
pub fn order_is_needed()
    ensures { OrderNeeded }
{}
