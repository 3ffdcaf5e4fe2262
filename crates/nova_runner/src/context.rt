//! What commands are refused by, as a store has it.
ghost use Rattle.std.specs.Prelude.{◌≡◌, ◌<◌, length};
ghost use Rattle.nova_machine.specs.Workflow.{channel_in, schema_in, task_in};
ghost use Rattle.nova_runner.specs.Around.{around_held};

use crate::store::Store;
use nova_script::Context;
use nova_value::{Name, Schema};

impl Context for Store {
    ghost around = { around_held };

    fn channel(&self, name: &Name) -> Option<u32> {
        self.flow.channel_named(name)
    }

    fn task(&self, name: &Name) -> Option<u32> {
        self.flow.task_named(name)
    }

    fn has_writer(&self, channel: u32) -> bool {
        self.flow.has_writer(channel)
    }

    fn is_in_flight(&self, task: u32) -> bool {
        self.flight.is_in_flight(task)
    }

    fn moment(&self) -> u64 {
        self.catalog.moment()
    }
}

impl Store {
    /// How many channels its workflow has.
    pub fn channel_count(&self) -> u32
        ensures { result ≡ length self.now.flow.channels }
    {
        self.flow.channel_count()
    }

    /// How many tasks its workflow has.
    pub fn task_count(&self) -> u32
        ensures { result ≡ length self.now.flow.tasks }
    {
        self.flow.task_count()
    }

    /// The name of a channel.
    pub fn channel_name(&self, channel: u32) -> &Name
        requires { channel < length self.now.flow.channels }
        ensures { result.now ≡ (channel_in self.now.flow channel).name }
    {
        self.flow.name(channel)
    }

    /// The name of a task.
    pub fn task_name(&self, task: u32) -> &Name
        requires { task < length self.now.flow.tasks }
        ensures { result.now ≡ (task_in self.now.flow task).name }
    {
        self.flow.task_name(task)
    }

    /// The schema of a channel.
    pub fn schema(&self, channel: u32) -> &Schema
        requires { channel < length self.now.flow.channels }
        ensures { result.now ≡ schema_in self.now.flow channel }
    {
        self.flow.schema(channel)
    }
}
