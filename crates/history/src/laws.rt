ghost use Rattle.history.specs.Rule.{Remembers, TwoSheets};

// The record of the first accepted closing is decided from the errors that the events alone give.
pub fn remembers()
    ensures { Remembers }
{}

// The rule for two sheets, over all meanings of category and kind and all lists of calls.
pub fn two_sheets()
    ensures { TwoSheets }
{}
