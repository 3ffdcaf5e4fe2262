//! Laws of states. Each is the contract of a function that does nothing.
ghost use Rattle.nova_groups.specs.Statements as law;

/// A delta's entries, one key's change after the other, lead from the state of a table to that of
/// the merged table.
pub fn states_follow_deltas()
    ensures { law.StatesFollowDeltas }
{}

/// Parts of a state change apart from each other.
pub fn parts_change_alone()
    ensures change { law.PartsChangeAlone }
    ensures others { law.OtherPartsStay }
{}
