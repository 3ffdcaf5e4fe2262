//! Laws of state parts. Each is the contract of a function that does nothing.
ghost use Rattle.nova_state_part.specs.Statements as law;

/// A file is one state's part, or damaged at one place.
pub fn parts_are_read_one_way()
    ensures some_way { law.PartsRead }
    ensures one_way { law.PartsReadOneWay }
{}
