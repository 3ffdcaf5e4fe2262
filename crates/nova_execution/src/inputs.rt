//! The tables of a run's inputs.
ghost use Rattle.std.specs.Prelude.{◌≡◌, ◌≤◌, ◌<◌, ◌+◌, ◌++◌, ◌∷◌, [], ℕ, length, map, IfOk, IfErr, OnOk, IsTrue};
ghost use Rattle.std.specs.List.{All};
ghost use Rattle.nova_workflow.specs.declared.flow.Input.{Input};
ghost use Rattle.nova_outside.specs.History.{current};
ghost use Rattle.nova_channel.specs.Reading.{ReadCause};
ghost use Rattle.nova_execution.specs.Reads as spec;

use nova_block::BlockFault;
use nova_channel::{read_table, reads_are_whole};
use nova_delta::Table;
use nova_meta::Catalog;
use nova_outside::Host;
use nova_value::Schema;
use nova_workflow::{Channel, Input};
use std::alloc::{AllocError, Global};

/// The schema of a channel.
pub(crate) fn schema_of(channels: &[Channel], channel: u32) -> &Schema
    requires { channel < length channels.now }
    ensures { result.now ≡ spec.schema_at channels.now channel }
{
    let channel = &channels[channel as usize];
    &channel.schema
}

/// The table of an input at a version.
fn read_input<H: Host>(
    alloc: Global,
    host: &mut H,
    channels: &[Channel],
    catalog: &Catalog,
    input: &Input,
    version: u64,
) -> Result<Table, BlockFault>
    requires within { input.now.channel < length channels.now }
    requires path { spec.HasRoute catalog.now (spec.whole input.now version) }
    ensures reads { IsTrue H.is_honest → IfOk result (λ t. spec.IsTable channels.now catalog.now (current (H.history host.old)) (spec.whole input.now version) t) }
    ensures undamaged { IsTrue H.is_honest → OnOk result ((file at : ℕ) → spec.IsDamaged channels.now catalog.now (current (H.history host.old)) (spec.whole input.now version) file at → ⊥) }
    ensures schema { IfOk result (λ t. t.schema ≡ spec.schema_at channels.now input.now.channel) }
    ensures told { IsTrue H.is_honest → IfErr result (spec.OneTold channels.now catalog.now (current (H.history host.old)) (spec.whole input.now version)) }
    ensures cause { IfErr result (ReadCause (H.disk_faults host.old) (H.disk_faults host.new)) }
    ensures same { IsTrue H.is_honest → H.history host.new ≡ H.history host.old }
    ensures later { H.disk_faults host.old ≤ H.disk_faults host.new }
    ensures reply_faults { H.reply_faults host.new ≡ H.reply_faults host.old }
    ensures bytes_read { H.bytes_read host.new ≤ H.bytes_read host.old + spec.read_size catalog.now (spec.whole input.now version) }
{
    reads_are_whole();
    let _intervals = catalog.intervals(input.channel);
    let schema = schema_of(channels, input.channel);
    read_table(alloc, host, catalog, schema, input.channel, version)
}

/// One table more.
pub(crate) fn add_table(tables: &mut Vec<Table>, table: Table) -> Result<(), AllocError>
    ensures { OnOk result (tables.new.items ≡ tables.old.items ++ table ∷ []) }
{
    tables.push(table)?;
    Ok(())
}

/// The tables of inputs at these versions, in the order of the inputs.
pub(crate) fn read_inputs<H: Host>(
    alloc: Global,
    host: &mut H,
    channels: &[Channel],
    catalog: &Catalog,
    inputs: &[Input],
    versions: &[u64],
) -> Result<Vec<Table>, BlockFault>
    requires each { length versions.now ≡ length inputs.now }
    requires within { All (λ (i : Input). i.channel < length channels.now) inputs.now }
    requires paths { All (spec.HasRoute catalog.now) (spec.whole_reads inputs.now versions.now) }
    ensures reads { IsTrue H.is_honest → IfOk result (λ ts. spec.AreTables channels.now catalog.now (current (H.history host.old)) (spec.whole_reads inputs.now versions.now) ts.items) }
    ensures undamaged { IsTrue H.is_honest → OnOk result ((file at : ℕ) → spec.IsReadDamage channels.now catalog.now (current (H.history host.old)) (spec.whole_reads inputs.now versions.now) file at → ⊥) }
    ensures schemas { IfOk result (λ ts. map (λ t. t.schema) ts.items ≡ map (λ (i : Input). spec.schema_at channels.now i.channel) inputs.now) }
    ensures told { IsTrue H.is_honest → IfErr result (spec.RunTold channels.now catalog.now (current (H.history host.old)) (spec.whole_reads inputs.now versions.now)) }
    ensures cause { IfErr result (ReadCause (H.disk_faults host.old) (H.disk_faults host.new)) }
    ensures same { IsTrue H.is_honest → H.history host.new ≡ H.history host.old }
    ensures later { H.disk_faults host.old ≤ H.disk_faults host.new }
    ensures reply_faults { H.reply_faults host.new ≡ H.reply_faults host.old }
    ensures bytes_read { H.bytes_read host.new ≤ H.bytes_read host.old + spec.reads_size catalog.now (spec.whole_reads inputs.now versions.now) }
{
    let mut tables = Vec::with_capacity(alloc, inputs.len())?;
    for at in 0..inputs.len() {
        let table = read_input(alloc, host, channels, catalog, &inputs[at], versions[at])?;
        add_table(&mut tables, table)?;
    }
    Ok(tables)
}
