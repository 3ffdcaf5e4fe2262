//! Laws of patterns. Each is the contract of a function that does nothing.
ghost use Rattle.nova_pig_pattern.specs.Statements as law;
ghost use Rattle.nova_pig_pattern.specs.Worked as worked;

/// Each test of a tree says whether it has the shape.
pub fn tests_decide_shapes()
    ensures chain { law.ChainsAreTested }
    ensures stateless { law.StatelessIsTested }
    ensures lookup { law.LookupIsTested }
    ensures grouped { law.GroupedIsTested }
{}

/// The plan of a task of a pattern has the pattern's shape, and where the task is admitted the
/// output's key.
pub fn patterns_have_shapes()
    ensures shapes { law.PatternsHaveShapes }
    ensures admitted { law.AdmittedHaveShapes }
{}

/// The tests of patterns and of a task's first fault are the tables of both, each row in both
/// directions.
pub fn patterns_are_the_table()
    ensures patterns { law.PatternsAreTheTable }
    ensures admission { law.AdmissionIsTheTable }
{}

/// Output keys are those of the key alone, in the order of the output's key.
pub fn output_keys_are_worked()
    ensures filtered { worked.FilteredKey }
    ensures arms { worked.KeyOfEachArm }
    ensures joined { worked.JoinedKey }
    ensures order { worked.KeyInItsOrder }
{}
