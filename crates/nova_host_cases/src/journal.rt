//! A journal in a host's files.
ghost use Rattle.std.specs.Prelude.{◌≡◌, false};

use crate::call::number;
use nova_case::Step;
use nova_journal::{Journal, LogFault, Payload, frame, frame_tick, marked};
use nova_outside::Host;
use std::alloc::{AllocError, Global};

/// Why a journal wasn't given.
fn fault(alloc: Global, fault: LogFault) -> Result<Vec<u8>, AllocError> {
    match fault {
        LogFault::Disk => b"disk\n".to_vec(alloc),
        LogFault::NoStore => b"no store\n".to_vec(alloc),
        LogFault::Damaged { file, at } => {
            Ok(format!(in alloc; "damaged {file} {at}\n")?.into_bytes())
        }
        LogFault::Full { length } => Ok(format!(in alloc; "full {length}\n")?.into_bytes()),
        LogFault::NoMemory => Err(AllocError),
    }
}

/// Keeps a journal, and tells its generation and its length.
fn keep(
    alloc: Global,
    journal: &mut Option<Journal>,
    made: Result<Journal, LogFault>,
) -> Result<Vec<u8>, AllocError> {
    match made {
        Ok(made) => {
            let text = format!(in alloc;
                "generation {}, length {}\n",
                made.generation(),
                made.length()
            )?;
            *journal = Some(made);
            Ok(text.into_bytes())
        }
        Err(reason) => fault(alloc, reason),
    }
}

/// Makes a journal of one record, where the generation isn't too great for one.
fn create<H: Host>(
    alloc: Global,
    host: &mut H,
    generation: u64,
    payload: &[u8],
) -> Result<Result<Journal, LogFault>, AllocError>
    requires { H.is_honest ≡ false }
{
    if generation >= 1 << 62 {
        return Ok(Err(LogFault::NoStore));
    }
    let framed = frame(alloc, payload)?;
    Ok(Journal::create(host, generation, &framed))
}

/// Adds a record to a journal.
fn append<H: Host>(
    alloc: Global,
    host: &mut H,
    journal: Journal,
    payload: &[u8],
) -> Result<Result<Journal, LogFault>, AllocError>
    requires { H.is_honest ≡ false }
{
    let framed = frame(alloc, payload)?;
    Ok(journal.append(host, &framed))
}

/// Adds a line for each payload: its place and its bytes.
fn add_payloads(alloc: Global, out: &mut Vec<u8>, payloads: &[Payload]) -> Result<(), AllocError> {
    for payload in payloads {
        let text = format!(in alloc; "at {}: ", payload.at)?;
        out.extend_from_slice(text.as_str().as_bytes())?;
        out.extend_from_slice(&payload.bytes)?;
        out.push(b'\n')?;
    }
    Ok(())
}

/// Opens the journal, and tells its payloads too.
fn reopen<H: Host>(
    alloc: Global,
    host: &mut H,
    journal: &mut Option<Journal>,
) -> Result<Vec<u8>, AllocError> {
    match Journal::reopen(alloc, host) {
        Ok((opened, payloads)) => {
            let mut out = keep(alloc, journal, Ok(opened))?;
            add_payloads(alloc, &mut out, &payloads)?;
            Ok(out)
        }
        Err(reason) => fault(alloc, reason),
    }
}

/// The generation of the newest mark.
fn newest<H: Host>(alloc: Global, host: &mut H) -> Result<Vec<u8>, AllocError> {
    match marked(host) {
        Ok(Some(generation)) => Ok(format!(in alloc; "{generation}\n")?.into_bytes()),
        Ok(None) => b"none\n".to_vec(alloc),
        Err(_) => b"failed\n".to_vec(alloc),
    }
}

/// The frame of a tick.
fn tick(alloc: Global, moment: u64) -> Result<Vec<u8>, AllocError> {
    let mut out = frame_tick(moment).as_slice().to_vec(alloc)?;
    out.push(b'\n')?;
    Ok(out)
}

/// What a step on a journal answers: `create GENERATION` and `append` with a payload as input,
/// `mark`, `reopen`, `marked`, `tick MOMENT`. A step that fails leaves no journal open.
pub fn answer<H: Host>(
    alloc: Global,
    host: &mut H,
    journal: &mut Option<Journal>,
    step: &Step,
) -> Result<Vec<u8>, AllocError>
    requires { H.is_honest ≡ false }
{
    let words = step.words.as_str();
    let (verb, rest) = words.split_once(' ').unwrap_or((words, ""));
    if verb == "marked" {
        return newest(alloc, host);
    }
    if verb == "tick" {
        return tick(alloc, number(Some(rest)));
    }
    match (verb, journal.take()) {
        ("create", _) => {
            let made = create(alloc, host, number(Some(rest)), &step.input)?;
            keep(alloc, journal, made)
        }
        ("append", Some(opened)) => {
            let made = append(alloc, host, opened, &step.input)?;
            keep(alloc, journal, made)
        }
        ("mark", Some(opened)) => {
            let made = opened.mark(host);
            keep(alloc, journal, made)
        }
        ("reopen", _) => reopen(alloc, host, journal),
        _ => b"no such step\n".to_vec(alloc),
    }
}
