//! The block of a task that goes row by row.
ghost use Rattle.std.specs.Prelude.{◌≡◌, ◌≤◌, ◌<◌, ◌+◌, ◌++◌, ℕ, suc, length, map, take, drop, slice_index_or, IfOk, IfErr, OnOk, IsTrue};
ghost use Rattle.std.specs.List.{All};
ghost use Rattle.nova_outside.specs.History.{current};
ghost use Rattle.nova_workflow.specs.declared.flow.Input.{Input};
ghost use Rattle.nova_channel.specs.Reading.{ReadCause};
ghost use Rattle.nova_machine.specs.Workflow.{no_input};
ghost use Rattle.nova_execution.specs.Reads as spec;
ghost use Rattle.nova_execution.specs.Rows.{AreRowInputs, IsNew, block_behind, row_reads, since};

use crate::inputs::{add_table, read_inputs, schema_of};
use nova_block::BlockFault;
use nova_channel::{read, reads_are_whole};
use nova_delta::{Delta, Table, without_removals};
use nova_meta::Catalog;
use nova_outside::Host;
use nova_workflow::{Channel, Input};
use std::alloc::{AllocError, Global};

/// What is new of an input between two versions.
pub(crate) fn read_new<H: Host>(
    alloc: Global,
    host: &mut H,
    channels: &[Channel],
    catalog: &Catalog,
    input: &Input,
    from: u64,
    version: u64,
) -> Result<Delta, BlockFault>
    requires within { input.now.channel < length channels.now }
    requires path { spec.HasRoute catalog.now (since input.now from version) }
    ensures reads { IsTrue H.is_honest → IfOk result (IsNew channels.now catalog.now (current (H.history host.old)) (since input.now from version)) }
    ensures undamaged { IsTrue H.is_honest → OnOk result ((file at : ℕ) → spec.IsDamaged channels.now catalog.now (current (H.history host.old)) (since input.now from version) file at → ⊥) }
    ensures schema { IfOk result (λ d. d.schema ≡ spec.schema_at channels.now input.now.channel) }
    ensures told { IsTrue H.is_honest → IfErr result (spec.OneTold channels.now catalog.now (current (H.history host.old)) (since input.now from version)) }
    ensures cause { IfErr result (ReadCause (H.disk_faults host.old) (H.disk_faults host.new)) }
    ensures same { IsTrue H.is_honest → H.history host.new ≡ H.history host.old }
    ensures later { H.disk_faults host.old ≤ H.disk_faults host.new }
    ensures reply_faults { H.reply_faults host.new ≡ H.reply_faults host.old }
    ensures bytes_read { H.bytes_read host.new ≤ H.bytes_read host.old + spec.read_size catalog.now (since input.now from version) }
{
    reads_are_whole();
    let _intervals = catalog.intervals(input.channel);
    let schema = schema_of(channels, input.channel);
    read(alloc, host, catalog, schema, input.channel, from, version)
}

/// What is new of a main input, and the tables of the others in their order.
#[derive(Drop)]
pub(crate) struct RowInputs {
    pub new: Delta,
    pub lookups: Vec<Table>,
}

/// More tables.
fn add_tables(tables: &mut Vec<Table>, more: Vec<Table>) -> Result<(), AllocError>
    ensures { OnOk result (tables.new.items ≡ tables.old.items ++ more.items) }
{
    for table in more {
        add_table(tables, table)?;
    }
    Ok(())
}

/// Reads the inputs of a task that goes row by row, in their order: the main one, whose place is
/// given, from a version on, and the others whole.
pub(crate) fn read_row_inputs<H: Host>(
    alloc: Global,
    host: &mut H,
    channels: &[Channel],
    catalog: &Catalog,
    inputs: &[Input],
    versions: &[u64],
    main: usize,
    from: u64,
) -> Result<RowInputs, BlockFault>
    requires main { main < length inputs.now }
    requires each { length versions.now ≡ length inputs.now }
    requires within { All (λ (i : Input). i.channel < length channels.now) inputs.now }
    requires paths { All (spec.HasRoute catalog.now) (row_reads main from inputs.now versions.now) }
    ensures reads { IsTrue H.is_honest → IfOk result (λ r. AreRowInputs channels.now catalog.now (current (H.history host.old)) main from inputs.now versions.now r.new r.lookups.items) }
    ensures undamaged { IsTrue H.is_honest → OnOk result ((file at : ℕ) → spec.IsReadDamage channels.now catalog.now (current (H.history host.old)) (row_reads main from inputs.now versions.now) file at → ⊥) }
    ensures schema { IfOk result (λ r. r.new.schema ≡ spec.schema_at channels.now (slice_index_or inputs.now main no_input).channel) }
    ensures schemas { IfOk result (λ r. map (λ t. t.schema) r.lookups.items ≡ map (λ (i : Input). spec.schema_at channels.now i.channel) (take main inputs.now ++ drop (suc main) inputs.now)) }
    ensures told { IsTrue H.is_honest → IfErr result (spec.RunTold channels.now catalog.now (current (H.history host.old)) (row_reads main from inputs.now versions.now)) }
    ensures cause { IfErr result (ReadCause (H.disk_faults host.old) (H.disk_faults host.new)) }
    ensures same { IsTrue H.is_honest → H.history host.new ≡ H.history host.old }
    ensures later { H.disk_faults host.old ≤ H.disk_faults host.new }
    ensures reply_faults { H.reply_faults host.new ≡ H.reply_faults host.old }
    ensures bytes_read { H.bytes_read host.new ≤ H.bytes_read host.old + spec.reads_size catalog.now (row_reads main from inputs.now versions.now) }
{
    let mut lookups = read_inputs(
        alloc,
        host,
        channels,
        catalog,
        &inputs[..main],
        &versions[..main],
    )?;
    let new = read_new(
        alloc,
        host,
        channels,
        catalog,
        &inputs[main],
        from,
        versions[main],
    )?;
    let behind = read_inputs(
        alloc,
        host,
        channels,
        catalog,
        &inputs[main + 1..],
        &versions[main + 1..],
    )?;
    add_tables(&mut lookups, behind)?;
    Ok(RowInputs { new, lookups })
}

/// The block of a delta that makes the version behind this one: the first has no removals.
pub(crate) fn block_of(version: u64, delta: Delta) -> Delta
    ensures { result ≡ block_behind version delta }
{
    if version == 0 {
        return without_removals(delta);
    }
    delta
}
