//! A grouping task with its state.
use crate::lines::{delta, shown};
use nova_admit::{GroupPlan, Pattern, admit_task, plan_of_text};
use nova_pig_pattern::Input;
use nova_pig_plan::Channels;
use nova_state::{State, advance};
use nova_value::{Column, Kind, Name, Schema};
use sqlite_items::Items;
use std::alloc::{AllocError, Global};

macro_rules! schema {
    ($alloc:expr, $key:expr; $($name:literal $kind:ident),*) => {
        Schema::new($alloc, &[$(Column { name: Name::new($name), kind: Kind::$kind }),*], $key)
    };
}

/// The schema of an input with the key id.
pub fn by_id(alloc: Global) -> Result<Schema, AllocError> {
    schema!(alloc, &[0]; "id" Long, "tag" Text, "ms" Long)
}

/// The schema of an input with the key (tag, id).
pub fn by_tag(alloc: Global) -> Result<Schema, AllocError> {
    schema!(alloc, &[1, 0]; "id" Long, "tag" Text, "ms" Long)
}

/// An output by its kinds, with the places of its key behind a colon where that isn't the first
/// column: `L` for a long and `T` for a text. There is none of other kinds.
fn output(alloc: Global, kinds: &str) -> Result<Option<Schema>, AllocError> {
    let schema = match kinds {
        "TL" => schema!(alloc, &[0]; "a" Text, "b" Long)?,
        "TLL" => schema!(alloc, &[0]; "a" Text, "b" Long, "c" Long)?,
        "TLLL" => schema!(alloc, &[0]; "a" Text, "b" Long, "c" Long, "d" Long)?,
        "TLLL:0,1" => schema!(alloc, &[0, 1]; "a" Text, "b" Long, "c" Long, "d" Long)?,
        "LLTT" => schema!(alloc, &[0]; "a" Long, "b" Long, "c" Text, "d" Text)?,
        "LTL:1,0" => schema!(alloc, &[1, 0]; "a" Long, "b" Text, "c" Long)?,
        _ => return Ok(None),
    };
    Ok(Some(schema))
}

/// The plan of a script that stores `o`, over an input of this schema, where it is that of a
/// grouping task.
pub fn plan(
    alloc: Global,
    input: &Schema,
    kinds: &str,
    script: &str,
) -> Result<Option<GroupPlan>, AllocError> {
    let Some(output) = output(alloc, kinds)? else {
        return Ok(None);
    };
    let mut inputs = Items::new(alloc);
    inputs.push((Name::new("tagged"), input.copy(alloc)?))?;
    let channels = Channels {
        inputs,
        output: (Name::new("out"), output),
    };
    let text = format!(in alloc; "{script} STORE o INTO 'out';")?;
    let Ok(plan) = plan_of_text(alloc, text.as_str(), &channels) else {
        return Ok(None);
    };
    let new = Input {
        channel: 0,
        is_new: true,
        based: false,
    };
    match admit_task(alloc, plan, &[new], false)? {
        Ok(Pattern::F(plan)) => Ok(Some(plan)),
        Ok(Pattern::N(_)) => Ok(None),
        Ok(Pattern::S(_)) => Ok(None),
        Ok(Pattern::L(_)) => Ok(None),
        Err(_) => Ok(None),
    }
}

/// A task and what it keeps from one delta to the next.
#[derive(Drop)]
pub struct Task {
    plan: GroupPlan,
    input: Schema,
    state: State,
}

impl Task {
    /// A task of this plan over an input of this schema, whose state is that of no rows.
    pub fn new(alloc: Global, plan: GroupPlan, input: Schema) -> Task {
        let state = State::empty(alloc);
        Task { plan, input, state }
    }

    /// The task behind a delta of these lines, and the lines of its output's delta.
    pub fn advanced(
        self,
        alloc: Global,
        lines: &str,
    ) -> Result<(Option<Task>, Vec<u8>), AllocError> {
        let Task { plan, input, state } = self;
        let Some(entries) = delta(alloc, &input, lines)? else {
            return Ok((None, b"no entry\n".to_vec(alloc)?));
        };
        let (state, answer) = advance(alloc, &plan, state, &entries)?;
        let text = shown(alloc, &answer)?;
        Ok((Some(Task { plan, input, state }), text))
    }
}
