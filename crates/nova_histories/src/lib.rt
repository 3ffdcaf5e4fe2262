//! Histories of the plain machine: what holds of the tables, the runs and the blocks of each state
//! that commands reach, where its workflow keeps what admission gives.
#![tactic(auto)]

ghost use Rattle.nova_histories.specs.NothingDue.{WorkLeavesNothingDue};
ghost use Rattle.nova_histories.specs.Planned.{AdmittedArePlanned};
ghost use Rattle.nova_histories.specs.Worked.{WorkedIsPlanned};
ghost use Rattle.nova_histories.specs.Statements.{BlocksAreDeltas, BlocksLead, CapturesRise, ChannelsKeep, GroupRunsWriteTheirDelta, GroupsAreKept, OutputsAreResults, PlannedReadsAreBlocks, PlannedRunsKeep, RowRunsTakeTables, RowRunsWriteTheirDelta, RunsFollow, VersionsAreTables, WrittenKeysFit};

/// What admission answers gives all that the laws below ask of a workflow.
pub fn admitted_are_planned()
    ensures admitted { AdmittedArePlanned }
    ensures worked { WorkedIsPlanned }
{}

/// Each version of a channel is a table of the channel's schema, the keys that it wrote fit, and
/// each block is a delta.
pub fn versions_are_tables()
    ensures tables { VersionsAreTables }
    ensures keys { WrittenKeysFit }
    ensures blocks { BlocksAreDeltas }
{}

/// Captured versions of an input never fall from one run to the next, and none is above the newest.
pub fn captures_rise()
    ensures captures { CapturesRise }
    ensures runs { RunsFollow }
{}

/// The newest version of a task's output is the result of its last run.
pub fn outputs_are_results()
    ensures { OutputsAreResults }
{}

/// A run of a stateless, of a lookup or of a grouping task makes the delta of its rule, and that is
/// the block of its version. `derive` and `advance` answer that delta.
pub fn runs_write_their_delta()
    ensures rows { RowRunsWriteTheirDelta }
    ensures groups { GroupRunsWriteTheirDelta }
{}

/// Runs that write deltas keep what they don't write, whatever their pattern, so the blocks of each
/// channel that isn't written anew compose in each state.
pub fn runs_keep()
    ensures runs { PlannedRunsKeep }
    ensures channels { ChannelsKeep }
    ensures reads { PlannedReadsAreBlocks }
{}

/// The block that a run reads leads from the table at its cursor to the one that it captured, and a
/// grouping task's output is what its plan stores of the table at its cursor. The tables of the
/// other inputs are such as `derive` takes.
pub fn blocks_lead()
    ensures inputs { BlocksLead }
    ensures lookups { RowRunsTakeTables }
    ensures groups { GroupsAreKept }
{}

/// After `work` no task is due.
pub fn work_leaves_nothing_due()
    ensures { WorkLeavesNothingDue }
{}
