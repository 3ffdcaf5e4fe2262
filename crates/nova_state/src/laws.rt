//! Laws of states and deltas of groups. Each is the contract of a function that does nothing.
ghost use Rattle.nova_state.specs.Statements as law;

/// What a plan over groups stores of a table: a row a group, as far as one is left.
pub fn rows_are_grouped()
    ensures { law.RowsAreGrouped }
{}

/// The delta of `advance` leads from the result over a table to that over the merged one.
pub fn groups_merge()
    ensures { law.GroupsMerge }
{}

/// The state of no rows is empty.
pub fn no_rows_no_state()
    ensures { law.NoRowsNoState }
{}

/// The state of a table of the plan's input is one of the plan's sorts.
pub fn states_fit()
    ensures { law.StatesFit }
{}

/// The state of a table, by its parts, is what the whole table gives.
pub fn states_are_whole()
    ensures { law.StatesAreWhole }
{}
