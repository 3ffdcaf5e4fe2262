//! A run of a task.
ghost use Rattle.std.specs.Prelude.{◌≡◌, ◌≤◌, ◌<◌, ◌+◌, ◌^◌, ℕ, None, is_some, length, IfOk, IfErr, IfSome, OnOk, IsTrue};
ghost use Rattle.std.specs.List.{All};
ghost use Rattle.nova_outside.specs.History.{current};
ghost use Rattle.nova_workflow.specs.Whole.{IsFlow};
ghost use Rattle.nova_pig_algebra.specs.Plan.{tree_of_plan};
ghost use Rattle.nova_meta.specs.Catalog.{shelf_at};
ghost use Rattle.nova_rowwise.specs.Derived.{main_of};
ghost use Rattle.nova_pig_pattern.specs.OutputKey.{HasOutputKey};
ghost use Rattle.nova_admit.specs.Flows.{HasSchemas};
ghost use Rattle.nova_channel.specs.Reading.{ReadCause};
ghost use Rattle.nova_machine.specs.State.{State};
ghost use Rattle.nova_trigger.specs.Due.{capture_in, task_at};
ghost use Rattle.nova_execution.specs.Base.{IsComputed};
ghost use Rattle.nova_execution.specs.Damage.{ExecutionTold, IsRunDamage};
ghost use Rattle.nova_execution.specs.Executed.{IsExecuted};
ghost use Rattle.nova_execution.specs.Groups.{file_size, keeps_state, part_file, plan_at, state_file};
ghost use Rattle.nova_execution.specs.Made.{HasTask, IsHeldFor, IsRunOf};
ghost use Rattle.nova_execution.specs.Reads.{HasRoute, IsReadDamage, RunTold, edges_of, reads_size, run_reads, schema_at, whole_reads};
ghost use Rattle.nova_execution.specs.Rows.{IsDerived, plan_reads};

use crate::base::base_block;
use crate::groups::advance_block;
use crate::inputs::read_inputs;
use crate::made::Made;
use crate::rows::{block_of, read_row_inputs};
use nova_admit::{Admitted, Pattern, RowPlan};
use nova_block::BlockFault;
use nova_meta::{Captured, Catalog};
use nova_outside::Host;
use nova_pig_algebra::Plan;
use nova_pig_eval::eval;
use nova_rowwise::{derive, main_place};
use nova_workflow::{Flow, Task};
use std::alloc::Global;

/// A task.
fn task_of(flow: &Flow, task: u32) -> &Task
    requires { task < length flow.now.tasks }
    ensures { result.now ≡ task_at flow.now task }
{
    let tasks = flow.tasks.as_slice();
    &tasks[task as usize]
}

/// The block of a task that computes everything: its plan over the whole tables of its inputs, and
/// a put of each row of the result.
fn compute<H: Host>(
    alloc: Global,
    host: &mut H,
    flow: &Flow,
    catalog: &Catalog,
    task: u32,
    plan: &Plan,
    run: &Captured,
) -> Result<Made, BlockFault>
    requires whole { IsFlow flow.now }
    requires in_range { task < length flow.now.tasks }
    requires key { HasOutputKey plan.now }
    requires schemas { HasSchemas flow.now (task_at flow.now task) plan.now }
    requires each { length run.now.versions ≡ length (task_at flow.now task).inputs }
    requires paths { All (HasRoute catalog.now) (whole_reads (task_at flow.now task).inputs run.now.versions) }
    ensures made { IsTrue H.is_honest → IfOk result (λ x. IsComputed flow.now.channels catalog.now (current (H.history host.old)) (whole_reads (task_at flow.now task).inputs run.now.versions) plan.now x.block × (x.state ≡ None)) }
    ensures schema { IfOk result (λ x. x.block.schema ≡ plan.now.output) }
    ensures kept { IfOk result (λ x. x.state ≡ None) }
    ensures told { IsTrue H.is_honest → IfErr result (RunTold flow.now.channels catalog.now (current (H.history host.old)) (whole_reads (task_at flow.now task).inputs run.now.versions)) }
    ensures undamaged { IsTrue H.is_honest → OnOk result ((file at : ℕ) → IsReadDamage flow.now.channels catalog.now (current (H.history host.old)) (whole_reads (task_at flow.now task).inputs run.now.versions) file at → ⊥) }
    ensures cause { IfErr result (ReadCause (H.disk_faults host.old) (H.disk_faults host.new)) }
    ensures same { IsTrue H.is_honest → H.history host.new ≡ H.history host.old }
    ensures later { H.disk_faults host.old ≤ H.disk_faults host.new }
    ensures reply_faults { H.reply_faults host.new ≡ H.reply_faults host.old }
    ensures bytes_read { H.bytes_read host.new ≤ H.bytes_read host.old + reads_size catalog.now (whole_reads (task_at flow.now task).inputs run.now.versions) }
{
    let written = task_of(flow, task);
    let channels = flow.channels.as_slice();
    let inputs = written.inputs.as_slice();
    let versions = run.versions.as_slice();
    let tables = read_inputs(alloc, host, channels, catalog, inputs, versions)?;
    let table = eval(alloc, plan, &tables)?;
    let block = base_block(alloc, &table)?;
    Ok(Made { block, state: None })
}

/// The block of a task that goes row by row: what its plan derives of what is new of its main input,
/// over the whole tables of the others.
fn derive_block<H: Host>(
    alloc: Global,
    host: &mut H,
    flow: &Flow,
    catalog: &Catalog,
    task: u32,
    plan: &RowPlan,
    run: &Captured,
) -> Result<Made, BlockFault>
    requires whole { IsFlow flow.now }
    requires in_range { task < length flow.now.tasks }
    requires there { HasTask flow.now catalog.now task }
    requires main { main_of (tree_of_plan plan.now) < length (task_at flow.now task).inputs }
    requires schemas { HasSchemas flow.now (task_at flow.now task) plan.now }
    requires each { length run.now.versions ≡ length (task_at flow.now task).inputs }
    requires paths { All (HasRoute catalog.now) (plan_reads catalog.now task plan.now (task_at flow.now task).inputs run.now.versions) }
    ensures made { IsTrue H.is_honest → IfOk result (λ x. IsDerived flow.now.channels catalog.now (current (H.history host.old)) task (task_at flow.now task).inputs run.now.versions plan.now (shelf_at catalog.now (task_at flow.now task).output).version x.block × (x.state ≡ None)) }
    ensures schema { IfOk result (λ x. x.block.schema ≡ plan.now.output) }
    ensures kept { IfOk result (λ x. x.state ≡ None) }
    ensures told { IsTrue H.is_honest → IfErr result (RunTold flow.now.channels catalog.now (current (H.history host.old)) (plan_reads catalog.now task plan.now (task_at flow.now task).inputs run.now.versions)) }
    ensures undamaged { IsTrue H.is_honest → OnOk result ((file at : ℕ) → IsReadDamage flow.now.channels catalog.now (current (H.history host.old)) (plan_reads catalog.now task plan.now (task_at flow.now task).inputs run.now.versions) file at → ⊥) }
    ensures cause { IfErr result (ReadCause (H.disk_faults host.old) (H.disk_faults host.new)) }
    ensures same { IsTrue H.is_honest → H.history host.new ≡ H.history host.old }
    ensures later { H.disk_faults host.old ≤ H.disk_faults host.new }
    ensures reply_faults { H.reply_faults host.new ≡ H.reply_faults host.old }
    ensures bytes_read { H.bytes_read host.new ≤ H.bytes_read host.old + reads_size catalog.now (plan_reads catalog.now task plan.now (task_at flow.now task).inputs run.now.versions) }
{
    let written = task_of(flow, task);
    let channels = flow.channels.as_slice();
    let inputs = written.inputs.as_slice();
    let versions = run.versions.as_slice();
    let main = main_place(plan);
    let from = catalog.cursor(task, main);
    let place = main as usize;
    let read = read_row_inputs(
        alloc, host, channels, catalog, inputs, versions, place, from,
    )?;
    let delta = derive(alloc, plan, &read.new, &read.lookups)?;
    let block = block_of(catalog.version(written.output), delta);
    Ok(Made { block, state: None })
}

/// The block that a run of a task makes which captured these versions, and the state that it leaves:
/// it reads the blocks of the chosen path of each input, a NEW one from its cursor on, and a grouping
/// task's state, and evaluates the task's script. It writes nothing.
pub fn execute<H: Host>(
    alloc: Global,
    host: &mut H,
    admitted: &Admitted,
    catalog: &Catalog,
    task: u32,
    run: &Captured,
) -> Result<Made, BlockFault>
    requires in_range { task < length admitted.now.flow.tasks }
    requires there { HasTask admitted.now.flow catalog.now task }
    requires each { length run.now.versions ≡ length (task_at admitted.now.flow task).inputs }
    requires paths { All (HasRoute catalog.now) (run_reads (edges_of (task_at admitted.now.flow task)) catalog.now task run.now.versions) }
    requires numbered { IfSome (part_file catalog.now task) (λ f. f.block < 2 ^ 62) }
    // From each state that the files have it is the block of the version that the run makes there, and the state that it leaves.
    ensures made { IsTrue H.is_honest → IfOk result (λ x. (s : State) → IsHeldFor admitted.now catalog.now (current (H.history host.old)) task run.now s → IsRunOf s task (capture_in run.now) x) }
    // Whatever the files stand for, it is what the task's pattern makes of the blocks and the state that they have.
    ensures given { IsTrue H.is_honest → IfOk result (IsExecuted admitted.now catalog.now (current (H.history host.old)) task run.now.versions) }
    ensures schema { IfOk result (λ x. x.block.schema ≡ schema_at admitted.now.flow.channels (task_at admitted.now.flow task).output) }
    ensures keeps { IfOk result (λ x. is_some x.state ≡ keeps_state (plan_at admitted.now task).pattern) }
    // Damaged exactly where a block on one of the paths is none, the first one of the first such path, or where all are and the state's file spells none.
    ensures told { IsTrue H.is_honest → IfErr result (ExecutionTold admitted.now.flow.channels (plan_at admitted.now task) catalog.now (current (H.history host.old)) task (run_reads (edges_of (task_at admitted.now.flow task)) catalog.now task run.now.versions)) }
    ensures undamaged { IsTrue H.is_honest → OnOk result ((file at : ℕ) → IsRunDamage admitted.now.flow.channels (plan_at admitted.now task) catalog.now (current (H.history host.old)) task (run_reads (edges_of (task_at admitted.now.flow task)) catalog.now task run.now.versions) file at → ⊥) }
    ensures cause { IfErr result (ReadCause (H.disk_faults host.old) (H.disk_faults host.new)) }
    ensures same { IsTrue H.is_honest → H.history host.new ≡ H.history host.old }
    ensures later { H.disk_faults host.old ≤ H.disk_faults host.new }
    ensures reply_faults { H.reply_faults host.new ≡ H.reply_faults host.old }
    ensures bytes_read { H.bytes_read host.new ≤ H.bytes_read host.old + (reads_size catalog.now (run_reads (edges_of (task_at admitted.now.flow task)) catalog.now task run.now.versions) + file_size (state_file (plan_at admitted.now task) catalog.now task)) }
{
    let flow = admitted.flow();
    match admitted.pattern(task) {
        Pattern::N(plan) => compute(alloc, host, flow, catalog, task, plan, run),
        Pattern::S(plan) => derive_block(alloc, host, flow, catalog, task, plan, run),
        Pattern::L(plan) => derive_block(alloc, host, flow, catalog, task, plan, run),
        Pattern::F(plan) => advance_block(alloc, host, flow, catalog, task, plan, run),
    }
}
