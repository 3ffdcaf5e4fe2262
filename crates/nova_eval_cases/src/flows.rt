//! Workflows with the patterns of their tasks, or their first faults, as lines of text.
use nova_admit::{AdmitFault, Admitted, Pattern, ScriptFault, admit};
use nova_flow::read_flow;
use nova_value::Name;
use std::alloc::{AllocError, Global};

/// The letter of a pattern.
pub fn letter(pattern: &Pattern) -> &'static str {
    match pattern {
        Pattern::N(_) => "N",
        Pattern::S(_) => "S",
        Pattern::L(_) => "L",
        Pattern::F(_) => "F",
    }
}

/// A line for each task, with its name and its pattern.
fn patterns(alloc: Global, admitted: &Admitted) -> Result<String, AllocError> {
    let mut out = String::new(alloc);
    for (number, task) in admitted.flow().tasks.as_slice().iter().enumerate() {
        let letter = letter(admitted.pattern(number as u32));
        out.push_str(format!(in alloc; "{} {letter}\n", task.name.text())?.as_str())?;
    }
    Ok(out)
}

/// The line of a script's fault.
fn of_script(alloc: Global, task: &Name, fault: &ScriptFault) -> Result<String, AllocError> {
    match fault {
        ScriptFault::Parse(fault) => format!(in alloc; "script {}: {fault}\n", task.text()),
        ScriptFault::Plan(fault) => format!(in alloc; "script {}: {fault}\n", task.text()),
    }
}

/// The line of a fault.
fn told(alloc: Global, fault: &AdmitFault) -> Result<String, AllocError> {
    match fault {
        AdmitFault::Script { task, fault } => of_script(alloc, task, fault),
        AdmitFault::NoKey { task } => format!(in alloc; "task 2 no-key {}\n", task.text()),
        AdmitFault::KeyDiffers { task } => {
            format!(in alloc; "task 3 key-differs {}\n", task.text())
        }
        AdmitFault::BaseReadAsNew { task, channel } => {
            format!(in alloc;
                "task 4 base-read-as-new {} {}\n",
                task.text(),
                channel.text()
            )
        }
        AdmitFault::NotAPattern { task } => {
            format!(in alloc; "task 5 not-a-pattern {}\n", task.text())
        }
        AdmitFault::NoMemory => Err(AllocError),
    }
}

/// The patterns of the tasks of a workflow's text, or the first fault.
pub fn answer(alloc: Global, text: &str) -> Result<Vec<u8>, AllocError> {
    let Ok(flow) = read_flow(alloc, text.as_bytes()) else {
        return b"no workflow\n".to_vec(alloc);
    };
    let shown = match admit(alloc, flow) {
        Ok(admitted) => patterns(alloc, &admitted)?,
        Err(fault) => told(alloc, &fault)?,
    };
    shown.as_str().as_bytes().to_vec(alloc)
}
