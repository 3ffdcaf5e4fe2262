//! Executions in flight: which tasks are due, and executions that begin and are dropped.
ghost use Rattle.std.specs.Prelude.{◌≡◌, ◌<◌, length, true, false, Some, None};
ghost use Rattle.nova_machine.specs.Due as machine;
ghost use Rattle.nova_machine.specs.State.{is_in_flight};
ghost use Rattle.nova_machine.specs.Steps.{Begin, Drop};
ghost use Rattle.nova_trigger.specs.Due.{IsFirstDue, in_flight};
ghost use Rattle.nova_trigger.specs.Laws.{WorkBegins};
ghost use Rattle.nova_runner.specs.Beginning.{InEach, MovesAlone, captured_in, is_due_in, with_slot};
ghost use Rattle.nova_runner.specs.Flights.{flow_of};

use crate::store::Store;
use nova_trigger::{capture, due, first_due};

impl Store {
    /// Whether an execution of a task is in flight.
    pub fn in_flight(&self, task: u32) -> bool
        requires { task < length self.now.flow.tasks }
        ensures slot { result ≡ in_flight self.now.flight task }
        ensures state { InEach self.now (λ s. result ≡ is_in_flight s task) }
    {
        self.flight.is_in_flight(task)
    }

    /// The clock's last moment.
    pub fn moment(&self) -> u64
        ensures clock { result ≡ self.now.catalog.moment }
        ensures state { InEach self.now (λ s. result ≡ s.moment) }
    {
        self.catalog.moment()
    }

    /// Whether a task is due.
    pub fn due(&self, task: u32) -> bool
        requires { task < length self.now.flow.tasks }
        ensures rule { result ≡ is_due_in self.now task }
        ensures state { InEach self.now (λ s. result ≡ machine.is_due s task) }
    {
        due(self.flow.flow(), &self.catalog, &self.flight, task)
    }

    /// The least task that is due: the one that `work` runs first.
    pub fn first_due(&self) -> Option<u32>
        ensures rule { IsFirstDue (flow_of self.now.flow) self.now.catalog self.now.flight result }
        ensures state { InEach self.now (λ s. WorkBegins s result) }
    {
        first_due(self.flow.flow(), &self.catalog, &self.flight)
    }

    /// Begins an execution of a task: it captures what is newest now. No file has it.
    pub fn begin(&mut self, task: u32)
        requires in_range { task < length self.old.flow.tasks }
        requires idle { in_flight self.old.flight task ≡ false }
        ensures step { MovesAlone (Begin task) self.old self.new }
        ensures slot { self.new ≡ with_slot self.old task (Some (captured_in self.old task)) }
    {
        let captured = capture(self.flow.flow(), &self.catalog, &self.flight, task);
        self.flight.begin(task, captured);
    }

    /// Drops the execution of a task.
    pub fn drop_run(&mut self, task: u32)
        requires in_range { task < length self.old.flow.tasks }
        requires begun { in_flight self.old.flight task ≡ true }
        ensures step { MovesAlone (Drop task) self.old self.new }
        ensures slot { self.new ≡ with_slot self.old task None }
    {
        self.flight.end(task);
    }
}
