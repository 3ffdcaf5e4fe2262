//! The state of the changed table, and the delta of its groups.
ghost use Rattle.std.specs.Prelude.{◌≡◌, ◌++◌, ◌<◌, ◌^◌, map, IfOk, OnOk};
ghost use Rattle.std.specs.FinMap as fin;
ghost use Rattle.nova_value.specs.Rows.{IsShape, key_at};
ghost use Rattle.nova_delta.specs.Merge.{RowMap, TableValue, IsDelta, merged};
ghost use Rattle.nova_pig_algebra.specs.Plan.{IsPlan};
ghost use Rattle.nova_admit.specs.Shaped.{IsGroupPlan};
ghost use Rattle.nova_pig_rows.specs.Outcomes.{called};
ghost use Rattle.nova_groups.specs.State as steps;
ghost use Rattle.nova_state.specs.Plan.{rule_of};
ghost use Rattle.nova_state.specs.Rule as rule;
ghost use Rattle.nova_state.specs.Advance.{answered, answer_of, IsStateOf, IsInputTable, delta_of};

use crate::fit::fits_entry;
use crate::plan::{calls_of, kinds_of, places_of, row_of, share_of, values_at};
use nova_admit::GroupPlan;
use nova_delta::Delta;
use nova_groups::{Share, State, move_share};
use nova_pig_algebra::rows_fit_their_kinds;
use nova_pig_rows::Call;
use nova_pig_tree::CallKind;
use nova_value::{Entry, Key, Row};
use std::alloc::{AllocError, Global};

/// What the row that an entry puts gives.
fn new_share(
    alloc: Global,
    plan: &GroupPlan,
    calls: &[Call],
    entry: &Entry,
) -> Result<Option<Share>, AllocError>
    requires { map called calls.now ≡ (rule_of plan.now).calls }
    ensures { IfOk result (λ s. s ≡ steps.and_then (steps.row_put entry.now) (rule.share_of (rule_of plan.now))) }
{
    match entry {
        Entry::Put(row) => share_of(alloc, plan, calls, row),
        Entry::Removal(_) => Ok(None),
    }
}

/// One entry of a delta.
fn absorb_entry(
    alloc: Global,
    plan: &GroupPlan,
    calls: &[Call],
    kinds: &[CallKind],
    state: State,
    touched: &mut Vec<Key>,
    key: &Key,
    entry: &Entry,
) -> Result<State, AllocError>
    requires { map called calls.now ≡ (rule_of plan.now).calls }
    ensures state { IfOk result (λ s. s ≡ steps.moved kinds.now state key.now (steps.and_then (steps.row_put entry.now) (rule.share_of (rule_of plan.now)))) }
    ensures touched { OnOk result (touched.new.items ≡ (touched.old.items ++ steps.by_list (fin.get state.shares key.now)) ++ steps.by_list (steps.and_then (steps.row_put entry.now) (rule.share_of (rule_of plan.now)))) }
{
    let new = new_share(alloc, plan, calls, entry)?;
    move_share(alloc, kinds, state, touched, key, new)
}

/// All entries of a delta in turn, and the groups that they had or have.
fn absorb(
    alloc: Global,
    plan: &GroupPlan,
    calls: &[Call],
    kinds: &[CallKind],
    state: State,
    delta: &Delta,
) -> Result<(State, Vec<Key>), AllocError>
    requires { map called calls.now ≡ (rule_of plan.now).calls }
    ensures state { IfOk result (λ r. r.0 ≡ steps.moved_all (rule.share_of (rule_of plan.now)) kinds.now state (fin.entries delta.now.entries)) }
    ensures touched { IfOk result (λ r. r.1.items ≡ steps.touches (rule.share_of (rule_of plan.now)) kinds.now state (fin.entries delta.now.entries)) }
{
    let mut state = state;
    let mut touched = Vec::new(alloc);
    for (key, entry) in delta.keyed_entries() {
        state = absorb_entry(alloc, plan, calls, kinds, state, &mut touched, key, entry)?;
    }
    Ok((state, touched))
}

/// The row of a group, if it has members and passes.
fn row_at(
    alloc: Global,
    plan: &GroupPlan,
    calls: &[Call],
    state: &State,
    by: &Key,
) -> Result<Option<Row>, AllocError>
    requires { map called calls.now ≡ (rule_of plan.now).calls }
    ensures { IfOk result (λ r. r ≡ steps.and_then (fin.get state.now.groups by.now) (rule.row_from (rule_of plan.now) by.now)) }
{
    match state.group(by) {
        Some(group) => Ok(row_of(alloc, plan, calls, by, group)?),
        None => Ok(None),
    }
}

/// The output key of a group, of the places at which its BY values stand.
fn key_of_group(alloc: Global, places: &[u32], by: &Key) -> Result<Key, AllocError>
    ensures { IfOk result (λ k. k ≡ key_at places.now by.now) }
{
    Ok(Key::new(values_at(alloc, by.values(), places)?))
}

/// The entry of a group in the answer.
fn answer_entry(
    alloc: Global,
    plan: &GroupPlan,
    calls: &[Call],
    places: &[u32],
    state: &State,
    by: &Key,
) -> Result<Entry, AllocError>
    requires { map called calls.now ≡ (rule_of plan.now).calls }
    ensures { IfOk result (λ e. e ≡ rule.entry_of (key_at places.now by.now) (steps.and_then (fin.get state.now.groups by.now) (rule.row_from (rule_of plan.now) by.now))) }
{
    match row_at(alloc, plan, calls, state, by)? {
        Some(row) => Ok(Entry::Put(row)),
        None => Ok(Entry::Removal(key_of_group(alloc, places, by)?)),
    }
}

/// The entry, set where it fits. Each entry of the state of a table does.
fn set_answer(delta: &mut Delta, entry: Entry) -> Result<(), AllocError>
    ensures { OnOk result (delta.new ≡ answered delta.old entry) }
{
    if fits_entry(&entry, delta.schema()) {
        delta.set(entry)?;
    }
    Ok(())
}

/// The entries of these groups.
fn answer(
    alloc: Global,
    plan: &GroupPlan,
    calls: &[Call],
    places: &[u32],
    state: &State,
    touched: Vec<Key>,
) -> Result<Delta, AllocError>
    requires { map called calls.now ≡ (rule_of plan.now).calls }
    ensures { IfOk result (λ d. d ≡ answer_of plan.now.output (rule_of plan.now) (key_at places.now) state.now.groups touched.items) }
{
    let mut delta = Delta::empty(alloc, plan.output().copy(alloc)?);
    let mut touched = touched;
    while let Some(by) = touched.pop() {
        let entry = answer_entry(alloc, plan, calls, places, state, &by)?;
        set_answer(&mut delta, entry)?;
    }
    Ok(delta)
}

/// What is known of the plan, of the state and of the delta.
fn known(plan: &GroupPlan, state: &State, delta: &Delta)
    ensures plan { IsPlan plan.now }
    ensures shape { IsGroupPlan plan.now }
    ensures output { IsShape plan.now.output }
    ensures shares { fin.len state.now.shares < 2 ^ 63 }
    ensures delta { IsDelta delta.now }
    ensures entries { fin.len delta.now.entries < 2 ^ 63 }
{
    plan.plan().nodes();
    plan.output().key();
    state.share_count();
    delta.keyed_entries();
}

/// The state of the changed table, and the output's delta: at the output key of each group that a
/// key of the delta had or has, the group's new row, or a removal. It takes a logarithm of the
/// state's numbers of contributions, groups and distinct values for each entry, and never goes over
/// the members of a group. Where the state is no table's, such as a part of one, the share of each
/// key of the delta is replaced all the same, and of the output's delta nothing is said but its
/// schema. Where memory fails the state is gone.
pub fn advance(
    alloc: Global,
    plan: &GroupPlan,
    state: State,
    delta: &Delta,
) -> Result<(State, Delta), AllocError>
    ensures moved { IfOk result (λ r. r.0 ≡ steps.moved_all (rule.share_of (rule_of plan.now)) (rule.kepts (rule_of plan.now)) state (fin.entries delta.now.entries)) }
    ensures state { (m : RowMap) → IsStateOf plan.now state m → IfOk result (λ r. IsStateOf plan.now r.0 (merged m delta.now.entries)) }
    ensures delta { (m : TableValue) → IsStateOf plan.now state m.rows → IsInputTable plan.now m → delta.now.schema ≡ m.schema
        → IfOk result (λ r. r.1 ≡ delta_of plan.now m.rows delta.now.entries) }
    ensures schema { IfOk result (λ r. r.1.schema ≡ plan.now.output) }
{
    known(plan, &state, delta);
    rows_fit_their_kinds();
    let calls = calls_of(alloc, plan)?;
    let kinds = kinds_of(alloc, &calls)?;
    let places = places_of(alloc, plan)?;
    let (state, touched) = absorb(alloc, plan, &calls, &kinds, state, delta)?;
    let answer = answer(alloc, plan, &calls, &places, &state, touched)?;
    Ok((state, answer))
}
