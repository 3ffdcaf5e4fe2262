//! Laws of rules that go row by row. Each is the contract of a function that does nothing.
ghost use Rattle.nova_rowwise.specs.Runs.{DeltasAreWritten, LookupMerges, RunsCommitTheirDelta, StatelessRunsMerge};
ghost use Rattle.nova_rowwise.specs.Statements as law;
ghost use Rattle.nova_rowwise.specs.Worked.{CopyIsARowTask, JoinIsARowTask};

/// Over one table: the delta of a rule leads from what it made of a table to what it makes of the
/// merged one.
pub fn rules_merge()
    ensures { law.RulesMerge }
{}

/// The main input of a row plan, whose delta `derive` takes, is its task's one NEW input.
pub fn main_is_new()
    ensures { law.MainIsNew }
{}

/// What `derive` answers, key by key: an entry at each output key of each key, and no others.
pub fn derived_at_each_key()
    ensures { law.DerivedAtEachKey }
{}

/// Of a row plan: an output key comes from one key of the main input.
pub fn output_keys_tell()
    ensures { law.OutputKeysTell }
{}

/// Of a stateless plan: its delta leads from the result over a table to that over the merged one,
/// so on the plain machine from the result of a run to that of the next.
pub fn stateless_merges()
    ensures tables { law.StatelessMerges }
    ensures runs { StatelessRunsMerge }
{}

/// Of a stateless or of a lookup task on the plain machine: a run writes the keys of its delta, and
/// where results are kept by deltas the block that it makes is its delta.
pub fn deltas_are_written()
    ensures keys { DeltasAreWritten }
    ensures block { RunsCommitTheirDelta }
{}

/// Of a lookup task on the plain machine: its delta leads from the result of a run to that of the
/// next, though each row is joined as the run that took up its last write did.
pub fn lookup_merges()
    ensures { LookupMerges }
{}

/// Worked tasks: a stateless one and one with a lookup are such as the laws on runs speak of.
pub fn tasks_are_row_tasks()
    ensures copy { CopyIsARowTask }
    ensures join { JoinIsARowTask }
{}
