//! State parts in the files of a host.
ghost use Rattle.std.specs.Prelude.{◌≡◌, ◌≤◌, ◌+◌, length, IfOk, IfErr, IsTrue, Some};
ghost use Rattle.nova_outside.specs.History.{current};
ghost use Rattle.nova_block.specs.Files.{GetCause};
ghost use Rattle.nova_group_codec.specs.Written.{SpellsState};
ghost use Rattle.nova_state_part.specs.Files.{HoldsPart, PartTold, damage_of};

use nova_block::{BlockFault, file_bytes};
use nova_group_codec::{Sorts, StateFault, decode};
use nova_groups::State;
use nova_outside::Host;
use std::alloc::Global;

/// The answer for bytes that spell no state.
fn damage(fault: StateFault, file: u64) -> BlockFault
    ensures { result ≡ damage_of fault file }
{
    match fault {
        StateFault::Damaged { at } => BlockFault::Damaged {
            file,
            at: at as u64,
        },
        StateFault::NoMemory => BlockFault::NoMemory,
    }
}

/// The state that the bytes of a file spell.
fn decoded(alloc: Global, bytes: &[u8], file: u64, sorts: &Sorts) -> Result<State, BlockFault>
    ensures found { IfOk result (SpellsState sorts.now bytes.now) }
    ensures told { IfErr result (PartTold sorts.now (length bytes.now) (Some bytes.now)) }
    ensures cause { IfErr result (GetCause 0 0 file) }
{
    match decode(alloc, sorts, bytes) {
        Ok(state) => Ok(state),
        Err(fault) => Err(damage(fault, file)),
    }
}

/// The state of a task of these sorts that a file of `size` bytes spells. The file is read only
/// where it has that length, and then once and whole.
pub fn get<H: Host>(
    alloc: Global,
    host: &mut H,
    file: u64,
    size: u64,
    sorts: &Sorts,
) -> Result<State, BlockFault>
    ensures found { IsTrue H.is_honest → IfOk result (HoldsPart sorts.now size (current (H.history host.old) file)) }
    ensures told { IsTrue H.is_honest → IfErr result (PartTold sorts.now size (current (H.history host.old) file)) }
    ensures same { IsTrue H.is_honest → H.history host.new ≡ H.history host.old }
    ensures cause { IfErr result (GetCause (H.disk_faults host.old) (H.disk_faults host.new) file) }
    ensures later { H.disk_faults host.old ≤ H.disk_faults host.new }
    ensures reply_faults { H.reply_faults host.new ≡ H.reply_faults host.old }
    ensures bytes_read { H.bytes_read host.new ≤ H.bytes_read host.old + size }
{
    let bytes = file_bytes(alloc, host, file, size)?;
    decoded(alloc, &bytes, file, sorts)
}
