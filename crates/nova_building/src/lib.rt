//! Which commands are built: what a line meets while only some are, the steps of a session's
//! commands, and the laws on them, each the contract of a function with an empty body.
#![tactic(auto)]

ghost use Rattle.nova_building.specs.Laws.{BuiltCommandsCompose, BuiltCommandsMakeSteps, BuiltSessionsReach, WordsAreBuilt};
ghost use Rattle.nova_building.specs.Sessions.{BuiltAlone, BuiltShown};

/// The steps of commands may be taken in two turns.
pub fn commands_compose()
    ensures { BuiltCommandsCompose }
{}

/// A line is refused as not built exactly where it is within the limit, has words, and they are
/// not those of a command that is built. One over the limit is told as too long, and a blank one
/// meets nothing.
pub fn words_are_built()
    ensures { WordsAreBuilt }
{}

/// The commands of any bytes make only steps that can be made, so a session leads from a reachable
/// state to a reachable one.
pub fn sessions_reach()
    ensures made { BuiltCommandsMakeSteps }
    ensures reach { BuiltSessionsReach }
{}

/// Sessions and their replies.
pub fn sessions_reply()
    ensures built_alone { BuiltAlone }
    ensures built_shown { BuiltShown }
{}
