//! Showing a channel.
ghost use Rattle.std.specs.Prelude.{◌≡◌, ◌+◌, ◌<◌, ◌≤◌, ◌++◌, ℕ, length, IfErr, IsErr, IsTrue, MatchResult};
ghost use Rattle.nova_outside.specs.History.{current};
ghost use Rattle.nova_channel.specs.Reading.{route_size};
ghost use Rattle.nova_machine.specs.Replies.{reply_to, row_lines};
ghost use Rattle.nova_meta.specs.Catalog.{shelf_at};
ghost use Rattle.nova_runner.specs.Reading.{IsNewestDamage, ShowCause, ShownTold, ShowsNewest, UnshownGave, shown_text, unshown_by, why_unshown};
ghost use Rattle.nova_runner.specs.Steps.{AsksShow, Does, Stops};
ghost use Rattle.nova_script.specs.Replying.{Pushes, Replies};

use crate::store::Store;
use nova_block::BlockFault;
use nova_delta::Table;
use nova_outside::{Failed, Host};
use nova_script::{Reply, ReplyBuffer};
use nova_value::Name;
use std::alloc::Global;

/// Why a channel wasn't shown, or not whole.
#[derive(Clone, Copy, Debug, PartialEq, Eq)]
pub enum Unshown {
    /// A call on a file failed.
    Disk,
    /// The file with this number is damaged at this place.
    Damaged { file: u64, at: u64 },
    /// A reply failed.
    Reply,
    NoMemory,
}

/// A table that wasn't read isn't shown.
fn not_shown(fault: BlockFault) -> Unshown
    ensures { result ≡ unshown_by fault }
{
    match fault {
        BlockFault::Disk => Unshown::Disk,
        BlockFault::Damaged { file, at } => Unshown::Damaged { file, at },
        BlockFault::NoMemory => Unshown::NoMemory,
    }
}

/// Puts the row lines of a table into the buffer, in the order of their keys.
fn push_rows<H: Host>(waiting: &mut ReplyBuffer, host: &mut H, table: &Table) -> Result<(), Failed>
    ensures { Pushes H.Host host.old host.new waiting.old waiting.new (row_lines table.now) result }
{
    for row in table.rows() {
        waiting.push_row(host, row)?;
    }
    Ok(())
}

/// Replies the row lines of a table, in the order of their keys, and the line that counts them.
fn reply_table<H: Host>(
    host: &mut H,
    name: &Name,
    version: u64,
    table: &Table,
) -> Result<(), Failed>
    ensures { Replies H.Host host.old host.new (shown_text name.now version table.now) result }
{
    let mut waiting = ReplyBuffer::new();
    push_rows(&mut waiting, host, table)?;
    let line = Reply::shown(name, version, table.len() as u64);
    waiting.push(host, line.bytes())?;
    waiting.flush(host)
}

impl Store {
    /// Replies the rows of a channel's newest table, in the order of their keys, and a line that
    /// counts them.
    pub fn show<H: Host>(&self, alloc: Global, host: &mut H, channel: u32) -> Result<(), Unshown>
        requires channel { channel < length self.now.flow.channels }
        // From each state that the store stands for it is the machine's step, or stopped.
        ensures step { MatchResult result
            (λ _. Does H.is_honest (AsksShow channel) reply_to self.now self.now (H.history host.old) (H.history host.new))
            (λ why. Stops (why_unshown why) H.is_honest (AsksShow channel) self.now (H.history host.old) (H.history host.new)) }
        // Whatever the files stand for: the text of the table that its blocks read as is replied, or a front of it where a reply failed, and else nothing.
        ensures gave { IsTrue H.is_honest → MatchResult result
            (λ _. ShowsNewest self.now channel (H.history host.old) (H.history host.new))
            (UnshownGave self.now channel (H.history host.old) (H.history host.new)) }
        // Damage is told where a block on its path is none.
        ensures told { IsTrue H.is_honest → IfErr result (ShownTold self.now channel (current (H.history host.old))) }
        ensures whole { IsTrue H.is_honest → (file at : ℕ) → IsNewestDamage self.now channel (current (H.history host.old)) file at → IsErr result }
        ensures files { IsTrue H.is_honest → (n : ℕ) → current (H.history host.new) n ≡ current (H.history host.old) n }
        ensures cause { IfErr result (ShowCause (H.disk_faults host.old) (H.disk_faults host.new) (H.reply_faults host.old) (H.reply_faults host.new)) }
        ensures disk_later { H.disk_faults host.old ≤ H.disk_faults host.new }
        ensures reply_later { H.reply_faults host.old ≤ H.reply_faults host.new }
        ensures bytes_read { H.bytes_read host.new ≤ H.bytes_read host.old + route_size (shelf_at self.now.catalog channel).intervals 0 (shelf_at self.now.catalog channel).version }
    {
        let table = match self.table(alloc, host, channel) {
            Ok(table) => table,
            Err(fault) => return Err(not_shown(fault)),
        };
        let version = self.catalog.version(channel);
        match reply_table(host, self.flow.name(channel), version, &table) {
            Ok(()) => Ok(()),
            Err(_) => Err(Unshown::Reply),
        }
    }
}
