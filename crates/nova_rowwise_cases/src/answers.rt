//! The deltas that tasks make.
ghost use Rattle.std.specs.Prelude.{◌≡◌, ◌<◌, ◌++◌, Some, length, map, slice_get, IfOk, OnOk};
ghost use Rattle.nova_value.specs.Rows.{Shape};
ghost use Rattle.nova_rowwise.specs.Derived.{with_main_schema};

use crate::channels::{NAMES, channels, input};
use crate::tables::{delta, shown, table};
use crate::words::{Words, number_of, read_words};
use nova_admit::{Pattern, RowPlan, admit_task, plan_of_text};
use nova_delta::Table;
use nova_pig_algebra::Plan;
use nova_rowwise::{derive, main_place};
use nova_value::Schema;
use std::alloc::{AllocError, Global};

/// The lines of the inputs, each at its number.
#[derive(Drop)]
pub struct Lines {
    all: Vec<String>,
}

impl Lines {
    /// No line.
    pub fn new(alloc: Global) -> Result<Lines, AllocError> {
        let mut all = Vec::new(alloc);
        for _ in NAMES {
            all.push(String::new(alloc))?;
        }
        Ok(Lines { all })
    }

    /// The lines of an input.
    fn of(&self, number: u32) -> &str {
        match self.all.get(number as usize) {
            Some(lines) => lines.as_str(),
            None => "",
        }
    }

    /// Sets the lines of an input, and answers how many rows they put.
    pub fn set(&mut self, alloc: Global, name: &str, lines: &str) -> Result<Vec<u8>, AllocError> {
        let Some(number) = number_of(name) else {
            return b"no such channel\n".to_vec(alloc);
        };
        let rows = table(alloc, &input(alloc, number)?, lines)?.len();
        if let Some(known) = self.all.get_mut(number as usize) {
            *known = String::from_str(alloc, lines)?;
        }
        let text = format!(in alloc; "rows {rows}\n")?;
        text.as_str().as_bytes().to_vec(alloc)
    }

    /// Adds the tables of inputs with these schemas, the first of which stands at this place.
    fn add_tables(
        &self,
        alloc: Global,
        schemas: &[Schema],
        words: &Words<'_>,
        place: usize,
        all: &mut Vec<Table>,
    ) -> Result<(), AllocError>
        ensures { OnOk result (map (λ t. t.schema) all.new.items ≡ map (λ t. t.schema) all.old.items ++ schemas.now) }
    {
        let mut inputs = words.inputs.iter().skip(place);
        for schema in schemas {
            let lines = match inputs.next() {
                Some(input) => self.of(input.channel),
                None => "",
            };
            all.push(table(alloc, schema, lines)?)?;
        }
        Ok(())
    }
}

/// The plan of a task that goes row by row.
fn row_plan(pattern: Pattern) -> Option<RowPlan> {
    match pattern {
        Pattern::S(plan) => Some(plan),
        Pattern::L(plan) => Some(plan),
        _ => None,
    }
}

/// The tables of all inputs but the main one, which stands at this place.
#[tactic(auto, using(crate::proofs::Whole::whole))]
fn lookups(
    alloc: Global,
    lines: &Lines,
    words: &Words<'_>,
    schemas: &[Schema],
    main: usize,
) -> Result<Vec<Table>, AllocError>
    requires { main < length schemas.now }
    ensures { IfOk result (λ ts. (own : Shape) → slice_get schemas.now main ≡ Some own → with_main_schema main (map (λ t. t.schema) ts.items) own ≡ schemas.now) }
{
    let mut all = Vec::new(alloc);
    lines.add_tables(alloc, &schemas[..main], words, 0, &mut all)?;
    lines.add_tables(alloc, &schemas[main + 1..], words, main + 1, &mut all)?;
    Ok(all)
}

/// The entries that a plan makes of those of its main input, with the other inputs' tables.
fn derived(
    alloc: Global,
    plan: &RowPlan,
    lines: &Lines,
    words: &Words<'_>,
    entries: &str,
) -> Result<Vec<u8>, AllocError> {
    let schemas = plan.inputs();
    let main = main_place(plan) as usize;
    if main >= schemas.len() {
        return b"no main input\n".to_vec(alloc);
    }
    let lookups = lookups(alloc, lines, words, schemas, main)?;
    let input = delta(alloc, &schemas[main], entries)?;
    let found = derive(alloc, plan, &input, &lookups)?;
    shown(alloc, &found)
}

/// The pattern's plan, where the task is admitted and goes row by row.
fn of_plan(
    alloc: Global,
    plan: Plan,
    lines: &Lines,
    words: &Words<'_>,
    entries: &str,
) -> Result<Vec<u8>, AllocError> {
    let Ok(pattern) = admit_task(alloc, plan, &words.inputs, words.based)? else {
        return b"not admitted\n".to_vec(alloc);
    };
    match row_plan(pattern) {
        Some(plan) => derived(alloc, &plan, lines, words, entries),
        None => b"not row by row\n".to_vec(alloc),
    }
}

/// The lines that are entries, and the others.
fn parted(alloc: Global, text: &str) -> Result<(String, String), AllocError> {
    let mut entries = String::new(alloc);
    let mut script = String::new(alloc);
    for line in text.lines() {
        let part = if line.starts_with('+') || line.starts_with('-') {
            &mut entries
        } else {
            &mut script
        };
        part.push_str(line)?;
        part.push_str("\n")?;
    }
    Ok((entries, script))
}

/// What a task answers: its lines that begin with `+` or `-` are the entries of its NEW input, and
/// the others its script, which stores `o`; the words are those of a task.
pub fn answer(
    alloc: Global,
    words: &str,
    text: &str,
    lines: &Lines,
) -> Result<Vec<u8>, AllocError> {
    let words = read_words(alloc, words)?;
    let channels = channels(alloc, &words.numbers(alloc)?, words.kinds)?;
    let (entries, script) = parted(alloc, text)?;
    let script = format!(in alloc; "{script} STORE o INTO 'out';")?;
    match plan_of_text(alloc, script.as_str(), &channels) {
        Ok(plan) => of_plan(alloc, plan, lines, &words, entries.as_str()),
        Err(_) => b"no plan\n".to_vec(alloc),
    }
}
