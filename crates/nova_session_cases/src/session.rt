//! Sessions over the fixed workflow and state: what each command asks for, or its refusal.
ghost use Rattle.std.specs.Prelude.{◌≡◌};
ghost use Rattle.nova_value.specs.Text.{has_newline};

use crate::context::{asked, show_outcome};
use nova_script::{Refusal, Request, begins_load, end_load, ends_load, is_over_limit};
use nova_value::{Column, Kind, Name, RowFault, Schema, row_from_text};
use std::alloc::{AllocError, Global};

/// A load whose lines are being read.
#[derive(Drop)]
struct Pending {
    is_too_long: bool,
    met: Result<Request, Refusal>,
    lines: u64,
    bad_row: Option<u64>,
}

/// A session as far as it was read: its load, and what it answered.
#[derive(Drop)]
struct Session {
    alloc: Global,
    load: Option<Pending>,
    answer: Vec<u8>,
}

/// `id long, url chararray, ms long`, with `id` as its key.
fn schema(alloc: Global) -> Result<Schema, AllocError> {
    let columns = [
        Column {
            name: Name::new("id"),
            kind: Kind::Long,
        },
        Column {
            name: Name::new("url"),
            kind: Kind::Text,
        },
        Column {
            name: Name::new("ms"),
            kind: Kind::Long,
        },
    ];
    Schema::new(alloc, &columns, &[0])
}

fn holds_newline(line: &[u8]) -> bool
    ensures { result ≡ has_newline line.now }
{
    line.iter().any(|b| *b == b'\n')
}

/// Whether a line is a row's or a removal's.
fn is_row(alloc: Global, line: &[u8]) -> Result<bool, AllocError> {
    if holds_newline(line) {
        return Ok(false);
    }
    match row_from_text(alloc, line, &schema(alloc)?) {
        Ok(_) => Ok(true),
        Err(RowFault::NoMemory) => Err(AllocError),
        Err(_) => Ok(false),
    }
}

impl Pending {
    /// A load that begins with this line.
    fn new(line: &[u8]) -> Pending {
        let met = match asked(line) {
            Ok(Some(request)) => Ok(request),
            Ok(None) => Err(Refusal::UnknownCommand),
            Err(refusal) => Err(refusal),
        };
        Pending {
            is_too_long: false,
            met,
            lines: 0,
            bad_row: None,
        }
    }

    /// A line more.
    fn take(&mut self, alloc: Global, line: &[u8]) -> Result<(), AllocError> {
        self.lines = self.lines.saturating_add(1);
        self.is_too_long = self.is_too_long || is_over_limit(line);
        if self.bad_row.is_none() && !is_row(alloc, line)? {
            self.bad_row = Some(self.lines);
        }
        Ok(())
    }
}

impl Session {
    /// Adds what an outcome is shown as.
    fn answer(&mut self, outcome: Result<Request, Refusal>) -> Result<(), AllocError> {
        let shown = show_outcome(self.alloc, outcome)?;
        self.answer.extend_from_slice(&shown)
    }

    /// Ends the load, if there is one.
    fn end(&mut self, is_ended: bool) -> Result<(), AllocError> {
        match self.load.take() {
            Some(load) => self.answer(end_load(load.is_too_long, load.met, load.bad_row, is_ended)),
            None => Ok(()),
        }
    }

    /// A line outside a load.
    fn begin(&mut self, line: &[u8]) -> Result<(), AllocError> {
        if begins_load(line) {
            self.load = Some(Pending::new(line));
            return Ok(());
        }
        match asked(line) {
            Ok(Some(request)) => self.answer(Ok(request)),
            Ok(None) => Ok(()),
            Err(refusal) => self.answer(Err(refusal)),
        }
    }

    /// A line more.
    fn take(&mut self, line: &[u8]) -> Result<(), AllocError> {
        match &mut self.load {
            Some(_) if ends_load(line) => self.end(true),
            Some(load) => load.take(self.alloc, line),
            None => self.begin(line),
        }
    }
}

/// What the commands of a session ask for, or the lines of their refusals.
pub fn show(alloc: Global, text: &[u8]) -> Result<Vec<u8>, AllocError> {
    let Ok(text) = str::from_utf8(text) else {
        return b"no text\n".to_vec(alloc);
    };
    let mut session = Session {
        alloc,
        load: None,
        answer: Vec::new(alloc),
    };
    for line in text.split('\n') {
        session.take(line.as_bytes())?;
    }
    session.end(false)?;
    Ok(session.answer)
}
