//! What follows from what an execution gives.
ghost use Rattle.nova_execution.specs.Laws.{ExecutionsAreRuns};

/// What a run makes of the blocks that files have is, in each state of which these are, the block of
/// the run's version: `execute` gives no other.
pub fn executions_are_runs()
    ensures { ExecutionsAreRuns }
{}
