//! Laws of the trigger's rule. Each is the contract of a function that does nothing.
ghost use Rattle.nova_trigger.specs.Laws.{CapturesAreTheMachines, DueIsTheMachines, FirstDueIsTheMachines, StandingGoesOn, StartsStand};

/// A task is due exactly where it is by the plain machine's rule, in each state that the workflow,
/// the catalog and the executions in flight stand for; the first that is due is the one that `work`
/// runs first there; and its execution captures what it captures there.
pub fn triggers_are_the_machines()
    ensures due { DueIsTheMachines }
    ensures first { FirstDueIsTheMachines }
    ensures captures { CapturesAreTheMachines }
{}

/// Before the first commit they stand for the machine's first state.
pub fn starts_stand()
    ensures { StartsStand }
{}

/// They go on to stand for the state behind a load, a tick and a run, and where an execution begins
/// or is dropped.
pub fn standing_goes_on()
    ensures { StandingGoesOn }
{}
