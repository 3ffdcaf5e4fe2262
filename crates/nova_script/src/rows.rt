//! Rows on their way to a host, through a buffer that lasts over them.
ghost use Rattle.std.specs.Prelude.{◌≡◌, ◌++◌, [], OnOk, IsTrue, false, true};
ghost use Rattle.nova_value.specs.RowLine.{row_line, joined, tail_text, value_text};
ghost use Rattle.nova_script.specs.Replying.{Pushes, Replies};

use arrayvec::ArrayVec;
use itoa::Buffer;
use nova_outside::{Failed, Host};
use nova_value::{Row, Value};
use std::marker::Model;

/// Bytes that wait to be replied, up to 32,768. It is one call of the host where they don't fit any
/// more, so rows of ordinary length are some hundreds a call.
#[derive(Drop)]
pub struct ReplyBuffer {
    held: ArrayVec<u8, 32768>,
}

impl Model for ReplyBuffer {
    ghost use Rattle.std.specs.Prelude.{List, ℕ};

    ghost Value = { List ℕ };

    ghost view = { λ r. r.held.items };
}

/// Replies bytes in one call.
fn reply_bytes<H: Host>(host: &mut H, bytes: &[u8]) -> Result<(), Failed>
    ensures { Replies H.Host host.old host.new bytes.now result }
{
    host.reply(bytes)
}

impl ReplyBuffer {
    /// Nothing waits.
    pub fn new() -> ReplyBuffer
        ensures { result ≡ [] }
    {
        ReplyBuffer {
            held: ArrayVec::new(),
        }
    }

    /// Puts bytes behind those that wait, where they fit.
    fn hold(&mut self, bytes: &[u8]) -> bool
        ensures held { IsTrue result → self.new ≡ self.old ++ bytes.now }
        ensures same { result ≡ false → self.new ≡ self.old }
    {
        self.held.try_extend_from_slice(bytes).is_ok()
    }

    /// Whether nothing waits.
    fn is_empty(&self) -> bool
        ensures { result ≡ true → self.now ≡ [] }
    {
        self.held.as_slice().is_empty()
    }

    /// Replies what waits; where nothing does, no call is made.
    pub fn flush<H: Host>(&mut self, host: &mut H) -> Result<(), Failed>
        ensures replies { Replies H.Host host.old host.new self.old result }
        ensures empty { OnOk result (self.new ≡ []) }
    {
        if self.is_empty() {
            return Ok(());
        }
        reply_bytes(host, self.held.as_slice())?;
        self.held.clear();
        Ok(())
    }

    /// Puts bytes behind those that wait; those that don't fit go on to the host.
    pub fn push<H: Host>(&mut self, host: &mut H, bytes: &[u8]) -> Result<(), Failed>
        ensures { Pushes H.Host host.old host.new self.old self.new bytes.now result }
    {
        if self.hold(bytes) {
            return Ok(());
        }
        self.flush(host)?;
        if self.hold(bytes) {
            return Ok(());
        }
        reply_bytes(host, bytes)
    }

    /// A value as a field.
    fn push_value<H: Host>(&mut self, host: &mut H, value: &Value) -> Result<(), Failed>
        ensures { Pushes H.Host host.old host.new self.old self.new (value_text value.now) result }
    {
        match value {
            Value::Long(n) => {
                let mut digits = Buffer::new();
                self.push(host, digits.format(*n).as_bytes())
            }
            Value::Text(text) => self.push(host, text.bytes()),
        }
    }

    /// The further fields, each after a tab.
    fn push_tail<H: Host>(&mut self, host: &mut H, values: &[Value]) -> Result<(), Failed>
        ensures { Pushes H.Host host.old host.new self.old self.new (tail_text values.now) result }
    {
        for value in values {
            self.push(host, b"\t")?;
            self.push_value(host, value)?;
        }
        Ok(())
    }

    /// The fields of a row, joined by tabs.
    fn push_fields<H: Host>(&mut self, host: &mut H, values: &[Value]) -> Result<(), Failed>
        ensures { Pushes H.Host host.old host.new self.old self.new (joined values.now) result }
    {
        let Some((first, rest)) = values.split_first() else {
            return Ok(());
        };
        self.push_value(host, first)?;
        self.push_tail(host, rest)
    }

    /// The row line of a row.
    pub fn push_row<H: Host>(&mut self, host: &mut H, row: &Row) -> Result<(), Failed>
        ensures { Pushes H.Host host.old host.new self.old self.new (row_line row.now) result }
    {
        self.push(host, b"+")?;
        self.push_fields(host, row.values())?;
        self.push(host, b"\n")
    }
}

/// Replies the row line of a row: `+`, the fields joined by tabs, and a newline.
pub fn row_text<H: Host>(host: &mut H, row: &Row) -> Result<(), Failed>
    ensures { Replies H.Host host.old host.new (row_line row.now) result }
{
    let mut waiting = ReplyBuffer::new();
    waiting.push_row(host, row)?;
    waiting.flush(host)
}
