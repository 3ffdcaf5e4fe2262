//! What a run makes.
use nova_delta::Delta;
use nova_groups::State;

/// The block of a run's output and, of a grouping task, the state that it leaves to the next run.
#[derive(Drop)]
pub struct Made {
    pub block: Delta,
    pub state: Option<State>,
}
