//! What the steps answer: rows and tables of plans, and patterns of tasks.
ghost use Rattle.std.specs.Prelude.{◌≡◌, map, IfOk};
ghost use Rattle.nova_admit.specs.TaskPlans as spec;
ghost use Rattle.nova_pig_pattern.specs.OutputKey.{HasOutputKey};

use crate::channels::{NAMES, channels, input};
use crate::compared::{has_all, same_rows};
use crate::flows::letter;
use crate::tables::{add_row, table};
use crate::words::{Words, number_of, read_words};
use nova_admit::{Pattern, ScriptFault, admit_task, plan_of_text};
use nova_delta::Table;
use nova_pig_algebra::Plan;
use nova_pig_eval::{eval, eval_row};
use nova_pig_pattern::TaskFault;
use nova_pig_rows::{Relation, rows_of_nodes};
use nova_value::{Row, Schema, copy_row};
use std::alloc::{AllocError, Global};

/// The lines of the inputs, each at its number.
#[derive(Drop)]
pub struct Lines {
    all: Vec<String>,
}

impl Lines {
    /// No line.
    pub fn new(alloc: Global) -> Result<Lines, AllocError> {
        let mut all = Vec::new(alloc);
        for _ in NAMES {
            all.push(String::new(alloc))?;
        }
        Ok(Lines { all })
    }

    /// The lines of an input.
    fn of(&self, number: u32) -> &str {
        match self.all.get(number as usize) {
            Some(lines) => lines.as_str(),
            None => "",
        }
    }

    /// Sets the lines of an input, and answers how many rows they put.
    pub fn set(&mut self, alloc: Global, name: &str, lines: &str) -> Result<Vec<u8>, AllocError> {
        let Some(number) = number_of(name) else {
            return b"no such channel\n".to_vec(alloc);
        };
        let rows = table(alloc, &input(alloc, number)?, lines)?.len();
        if let Some(known) = self.all.get_mut(number as usize) {
            *known = String::from_str(alloc, lines)?;
        }
        count(alloc, rows)
    }

    /// The tables of inputs with these schemas and numbers.
    fn tables(
        &self,
        alloc: Global,
        schemas: &[Schema],
        words: &Words<'_>,
    ) -> Result<Vec<Table>, AllocError>
        ensures { IfOk result (λ ts. map (λ t. t.schema) ts.items ≡ schemas.now) }
    {
        let mut all = Vec::new(alloc);
        for schema in schemas {
            let lines = match words.inputs.get(all.len()) {
                Some(input) => self.of(input.channel),
                None => "",
            };
            all.push(table(alloc, schema, lines)?)?;
        }
        Ok(all)
    }
}

/// The rows of each table, lent.
fn lent<'a>(alloc: Global, tables: &'a [Table]) -> Result<Vec<Relation<'a>>, AllocError> {
    let mut all = Vec::new(alloc);
    for table in tables {
        let mut rows = Relation::new(alloc);
        for row in table.rows() {
            rows.push_lent(row)?;
        }
        all.push(rows)?;
    }
    Ok(all)
}

/// The rows of each table, copied.
fn copied(alloc: Global, tables: &[Table]) -> Result<Vec<Vec<Row>>, AllocError> {
    let mut all = Vec::new(alloc);
    for table in tables {
        let mut rows = Vec::new(alloc);
        for row in table.rows() {
            rows.push(copy_row(alloc, row)?)?;
        }
        all.push(rows)?;
    }
    Ok(all)
}

/// Rows as lines.
fn listed(alloc: Global, rows: &[Row]) -> Result<Vec<u8>, AllocError> {
    let mut out = Vec::new(alloc);
    for row in rows {
        add_row(alloc, &mut out, row)?;
    }
    Ok(out)
}

/// The rows of the stored node by plain loops over whole tables.
fn slow_rows(alloc: Global, plan: &Plan, tables: &[Table]) -> Result<Vec<Row>, AllocError> {
    nova_pig_slow::rows_of_nodes(alloc, &copied(alloc, tables)?, plan.nodes(), plan.stored())
}

/// The rows of the stored node, in their order; plain loops over all rows have to find the same.
fn rows(alloc: Global, plan: &Plan, tables: &[Table]) -> Result<Vec<u8>, AllocError> {
    let lent = lent(alloc, tables)?;
    let found = rows_of_nodes(alloc, &lent, plan.nodes(), plan.stored())?;
    let found = found.into_rows(alloc)?;
    if !same_rows(&slow_rows(alloc, plan, tables)?, &found) {
        return b"other rows by plain loops\n".to_vec(alloc);
    }
    listed(alloc, &found)
}

/// The rows of a table that is stored, in the order of their keys; plain loops over all rows have to
/// find these and no others.
fn table_rows(
    alloc: Global,
    plan: &Plan,
    tables: &[Table],
    table: &Table,
) -> Result<Vec<u8>, AllocError> {
    if !has_all(table, &slow_rows(alloc, plan, tables)?) {
        return b"other rows by plain loops\n".to_vec(alloc);
    }
    let mut out = Vec::new(alloc);
    for row in table.rows() {
        add_row(alloc, &mut out, row)?;
    }
    Ok(out)
}

/// What the stored node gives of each row of the first table, `-` where it gives none.
fn each(alloc: Global, plan: &Plan, tables: &[Table]) -> Result<Vec<u8>, AllocError> {
    let mut out = Vec::new(alloc);
    let Some(first) = tables.first() else {
        return Ok(out);
    };
    for row in first.rows() {
        match eval_row(alloc, plan, plan.stored(), row)? {
            Some(row) => add_row(alloc, &mut out, &row)?,
            None => out.extend_from_slice(b"-\n")?,
        }
    }
    Ok(out)
}

/// The plan of a pattern.
fn plan_of(pattern: &Pattern) -> &Plan
    ensures { result.now ≡ spec.plan_of pattern.now }
{
    match pattern {
        Pattern::N(plan) => plan,
        Pattern::S(plan) => plan.plan(),
        Pattern::L(plan) => plan.plan(),
        Pattern::F(plan) => plan.plan(),
    }
}

/// A number of rows.
fn count(alloc: Global, rows: usize) -> Result<Vec<u8>, AllocError> {
    let text = format!(in alloc; "rows {rows}\n")?;
    text.as_str().as_bytes().to_vec(alloc)
}

/// A task's fault.
fn told(alloc: Global, fault: TaskFault) -> Result<Vec<u8>, AllocError> {
    match fault {
        TaskFault::NoKey => b"no-key\n".to_vec(alloc),
        TaskFault::KeyDiffers => b"key-differs\n".to_vec(alloc),
        TaskFault::BaseReadAsNew { channel } => {
            let text = format!(in alloc; "base-read-as-new {channel}\n")?;
            text.as_str().as_bytes().to_vec(alloc)
        }
        TaskFault::NotAPattern => b"not-a-pattern\n".to_vec(alloc),
    }
}

/// What a step answers of a task that is admitted: its pattern, or the rows of the table that it
/// stores in the order of their keys, or their number.
fn of_pattern(
    alloc: Global,
    verb: &str,
    pattern: &Pattern,
    lines: &Lines,
    words: &Words<'_>,
) -> Result<Vec<u8>, AllocError>
    requires { HasOutputKey (spec.plan_of pattern.now) }
{
    if verb == "task" {
        let text = format!(in alloc; "{}\n", letter(pattern))?;
        return text.as_str().as_bytes().to_vec(alloc);
    }
    let plan = plan_of(pattern);
    let tables = lines.tables(alloc, plan.inputs(), words)?;
    let table = eval(alloc, plan, &tables)?;
    if verb == "count" {
        return count(alloc, table.len());
    }
    table_rows(alloc, plan, &tables, &table)
}

/// What a step answers of a task with this plan.
fn of_task(
    alloc: Global,
    verb: &str,
    plan: Plan,
    lines: &Lines,
    words: &Words<'_>,
) -> Result<Vec<u8>, AllocError> {
    match admit_task(alloc, plan, &words.inputs, words.based)? {
        Ok(pattern) => of_pattern(alloc, verb, &pattern, lines, words),
        Err(fault) => told(alloc, fault),
    }
}

/// What a step answers of the plan of its script.
fn of_plan(
    alloc: Global,
    verb: &str,
    plan: Plan,
    lines: &Lines,
    words: &Words<'_>,
) -> Result<Vec<u8>, AllocError> {
    match verb {
        "rows" => {
            let tables = lines.tables(alloc, plan.inputs(), words)?;
            rows(alloc, &plan, &tables)
        }
        "each" => {
            let tables = lines.tables(alloc, plan.inputs(), words)?;
            each(alloc, &plan, &tables)
        }
        "table" | "count" | "task" => of_task(alloc, verb, plan, lines, words),
        _ => b"no such step\n".to_vec(alloc),
    }
}

/// What a step answers of its script, which stores `o`; the words are those of a task.
pub fn answer(
    alloc: Global,
    verb: &str,
    text: &str,
    script: &str,
    lines: &Lines,
) -> Result<Vec<u8>, AllocError> {
    let words = read_words(alloc, text)?;
    let channels = channels(alloc, &words.numbers(alloc)?, words.kinds)?;
    let script = format!(in alloc; "{script} STORE o INTO 'out';")?;
    match plan_of_text(alloc, script.as_str(), &channels) {
        Ok(plan) => of_plan(alloc, verb, plan, lines, &words),
        Err(ScriptFault::Plan(fault)) => {
            let text = format!(in alloc; "{fault}\n")?;
            text.as_str().as_bytes().to_vec(alloc)
        }
        Err(ScriptFault::Parse(fault)) => {
            let text = format!(in alloc; "{fault}\n")?;
            text.as_str().as_bytes().to_vec(alloc)
        }
    }
}
