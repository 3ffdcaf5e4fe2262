//! A law of admission, the contract of a function that does nothing.
ghost use Rattle.nova_admit.specs.Settled as law;

use nova_pig_parse::texts_are_settled;
use nova_pig_pattern::patterns_have_shapes;

/// Each task of each workflow has one pattern with one plan, or one first fault, and not both.
pub fn tasks_are_settled()
    ensures { law.TasksAreSettled }
{
    texts_are_settled();
    patterns_have_shapes();
}
