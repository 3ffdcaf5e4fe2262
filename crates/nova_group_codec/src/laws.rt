//! Laws of spellings. Each is the contract of a function that does nothing.
ghost use Rattle.nova_group_codec.specs.Statements as law;

/// No two states of a task have one spelling, and bytes spell one state or have one first flaw at one
/// place.
pub fn states_are_spelled_once()
    ensures once { law.SpelledOnce }
    ensures some_way { law.StatesRead }
    ensures one_way { law.StatesReadOneWay }
{}
