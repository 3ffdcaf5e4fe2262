//! A run of a grouping task.
ghost use Rattle.std.specs.Prelude.{◌≡◌, ◌≤◌, ◌<◌, ◌+◌, ◌^◌, ◌∷◌, [], ℕ, true, Some, is_some, length, IfOk, IfErr, IfSome, OnOk, IsTrue};
ghost use Rattle.nova_outside.specs.History.{current};
ghost use Rattle.nova_workflow.specs.Whole.{IsFlow};
ghost use Rattle.nova_pig_pattern.specs.declared.task.PatternKind.TheVariants.{Stateful};
ghost use Rattle.nova_admit.specs.Flows.{HasSchemas};
ghost use Rattle.nova_groups.specs.State.{StateValue};
ghost use Rattle.nova_meta.specs.Catalog.{shelf_at};
ghost use Rattle.nova_channel.specs.Reading.{ReadCause};
ghost use Rattle.nova_state.specs.Sorts.{plan_sorts};
ghost use Rattle.nova_trigger.specs.Due.{task_at};
ghost use Rattle.nova_execution.specs.Damage.{ExecutionTold, IsRunDamage};
ghost use Rattle.nova_execution.specs.Groups.{HasState, IsAdvanced, IsStateDamage, StateTold, file_size, group_read, part_file};
ghost use Rattle.nova_execution.specs.Made.{HasTask};
ghost use Rattle.nova_execution.specs.Reads.{HasRoute, read_size};

use crate::made::Made;
use crate::rows::{block_of, read_new};
use nova_admit::GroupPlan;
use nova_block::BlockFault;
use nova_groups::State;
use nova_meta::{Captured, Catalog};
use nova_outside::Host;
use nova_state::{advance, sorts};
use nova_state_part::get;
use nova_workflow::Flow;
use std::alloc::Global;

/// The state that the runs before left, of no rows before the first one.
fn read_state<H: Host>(
    alloc: Global,
    host: &mut H,
    catalog: &Catalog,
    task: u32,
    plan: &GroupPlan,
) -> Result<State, BlockFault>
    requires there { task < length catalog.now.tasks }
    requires numbered { IfSome (part_file catalog.now task) (λ f. f.block < 2 ^ 62) }
    ensures found { IsTrue H.is_honest → IfOk result (HasState (plan_sorts plan.now) (part_file catalog.now task) (current (H.history host.old))) }
    ensures undamaged { IsTrue H.is_honest → OnOk result ((file at : ℕ) → IsStateDamage (plan_sorts plan.now) (part_file catalog.now task) (current (H.history host.old)) file at → ⊥) }
    ensures told { IsTrue H.is_honest → IfErr result (StateTold (plan_sorts plan.now) (part_file catalog.now task) (current (H.history host.old))) }
    ensures cause { IfErr result (ReadCause (H.disk_faults host.old) (H.disk_faults host.new)) }
    ensures same { IsTrue H.is_honest → H.history host.new ≡ H.history host.old }
    ensures later { H.disk_faults host.old ≤ H.disk_faults host.new }
    ensures reply_faults { H.reply_faults host.new ≡ H.reply_faults host.old }
    ensures bytes_read { H.bytes_read host.new ≤ H.bytes_read host.old + file_size (part_file catalog.now task) }
{
    match catalog.state_part(task, 0) {
        Some((block, size)) => {
            let sorts = sorts(alloc, plan)?;
            get(alloc, host, 4 * block + 2, size, &sorts)
        }
        None => Ok(State::empty(alloc)),
    }
}

/// The block of a grouping task, and the state behind it: by what is new of its input and the state
/// that the runs before left.
pub(crate) fn advance_block<H: Host>(
    alloc: Global,
    host: &mut H,
    flow: &Flow,
    catalog: &Catalog,
    task: u32,
    plan: &GroupPlan,
    run: &Captured,
) -> Result<Made, BlockFault>
    requires whole { IsFlow flow.now }
    requires in_range { task < length flow.now.tasks }
    requires there { HasTask flow.now catalog.now task }
    requires one { length (task_at flow.now task).inputs ≡ 1 }
    requires each { length run.now.versions ≡ length (task_at flow.now task).inputs }
    requires path { HasRoute catalog.now (group_read catalog.now task (task_at flow.now task).inputs run.now.versions) }
    requires numbered { IfSome (part_file catalog.now task) (λ f. f.block < 2 ^ 62) }
    ensures made { IsTrue H.is_honest → IfOk result (λ x. (after : StateValue) × (x.state ≡ Some after) × IsAdvanced flow.now.channels catalog.now (current (H.history host.old)) task (task_at flow.now task).inputs run.now.versions plan.now (shelf_at catalog.now (task_at flow.now task).output).version x.block after) }
    ensures schema { IfOk result (λ x. x.block.schema ≡ plan.now.output) }
    ensures kept { IfOk result (λ x. is_some x.state ≡ true) }
    ensures told { IsTrue H.is_honest → IfErr result (ExecutionTold flow.now.channels (record { plan = plan.now; pattern = Stateful }) catalog.now (current (H.history host.old)) task (group_read catalog.now task (task_at flow.now task).inputs run.now.versions ∷ [])) }
    ensures undamaged { IsTrue H.is_honest → OnOk result ((file at : ℕ) → IsRunDamage flow.now.channels (record { plan = plan.now; pattern = Stateful }) catalog.now (current (H.history host.old)) task (group_read catalog.now task (task_at flow.now task).inputs run.now.versions ∷ []) file at → ⊥) }
    ensures cause { IfErr result (ReadCause (H.disk_faults host.old) (H.disk_faults host.new)) }
    ensures same { IsTrue H.is_honest → H.history host.new ≡ H.history host.old }
    ensures later { H.disk_faults host.old ≤ H.disk_faults host.new }
    ensures reply_faults { H.reply_faults host.new ≡ H.reply_faults host.old }
    ensures bytes_read { H.bytes_read host.new ≤ H.bytes_read host.old + (read_size catalog.now (group_read catalog.now task (task_at flow.now task).inputs run.now.versions) + file_size (part_file catalog.now task)) }
{
    let written = &flow.tasks.as_slice()[task as usize];
    let channels = flow.channels.as_slice();
    let input = &written.inputs.as_slice()[0];
    let from = catalog.cursor(task, 0);
    let version = run.versions.as_slice()[0];
    let new = read_new(alloc, host, channels, catalog, input, from, version)?;
    let before = read_state(alloc, host, catalog, task, plan)?;
    let (state, delta) = advance(alloc, plan, before, &new)?;
    let block = block_of(catalog.version(written.output), delta);
    Ok(Made {
        block,
        state: Some(state),
    })
}
