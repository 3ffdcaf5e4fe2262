//! The newest table of a channel.
ghost use Rattle.std.specs.Prelude.{◌≡◌, ◌+◌, ◌<◌, ◌≤◌, ℕ, List, length, IfOk, IfErr, IsErr, IsTrue};
ghost use Rattle.nova_outside.specs.History.{current};
ghost use Rattle.nova_channel.specs.Reading.{ReadCause, ReadTold, route_size};
ghost use Rattle.nova_machine.specs.Workflow.{schema_in};
ghost use Rattle.nova_meta.specs.Catalog.{shelf_at};
ghost use Rattle.nova_runner.specs.Reading.{GivesNewest, IsNewestDamage, IsNewestRead, ReadStops};
ghost use Rattle.nova_runner.specs.Steps.{AsksShow};

use crate::store::Store;
use nova_block::BlockFault;
use nova_channel::read_table;
use nova_delta::Table;
use nova_outside::Host;
use std::alloc::Global;

impl Store {
    /// The newest table of a channel, which `show` replies.
    pub fn table<H: Host>(
        &self,
        alloc: Global,
        host: &mut H,
        channel: u32,
    ) -> Result<Table, BlockFault>
        requires channel { channel < length self.now.flow.channels }
        ensures newest { IfOk result (λ t. GivesNewest H.is_honest self.now channel t (H.history host.old)) }
        ensures stops { IfErr result (λ fault. ReadStops fault H.is_honest (AsksShow channel) self.now (H.history host.old) (H.history host.new)) }
        ensures told { IsTrue H.is_honest → IfErr result (ReadTold (schema_in self.now.flow channel) (current (H.history host.old)) (shelf_at self.now.catalog channel).intervals 0 (shelf_at self.now.catalog channel).version) }
        ensures whole { IsTrue H.is_honest → (file at : ℕ) → IsNewestDamage self.now channel (current (H.history host.old)) file at → IsErr result }
        ensures read { IsTrue H.is_honest → IfOk result (IsNewestRead self.now channel (current (H.history host.old))) }
        ensures schema { IfOk result (λ t. t.schema ≡ schema_in self.now.flow channel) }
        ensures cause { IfErr result (ReadCause (H.disk_faults host.old) (H.disk_faults host.new)) }
        ensures same { IsTrue H.is_honest → H.history host.new ≡ H.history host.old }
        ensures later { H.disk_faults host.old ≤ H.disk_faults host.new }
        ensures reply_faults { H.reply_faults host.new ≡ H.reply_faults host.old }
        ensures bytes_read { H.bytes_read host.new ≤ H.bytes_read host.old + route_size (shelf_at self.now.catalog channel).intervals 0 (shelf_at self.now.catalog channel).version }
    {
        let version = self.catalog.version(channel);
        read_table(
            alloc,
            host,
            &self.catalog,
            self.flow.schema(channel),
            channel,
            version,
        )
    }
}
