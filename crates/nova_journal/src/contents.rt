// Reads a whole file.
ghost use Rattle.std.specs.Prelude.{◌≡◌, ◌≤◌, ◌+◌, length, IfOk, IfErr, IsTrue, option_map, vec_items};
ghost use Rattle.nova_outside.specs.History.{current};
ghost use Rattle.nova_journal.specs.Fault.{ReadCause};
ghost use Rattle.nova_journal.specs.Log.{file_length};

use crate::fault::LogFault;
use nova_outside::Host;
use std::alloc::Global;

fn zeroes(alloc: Global, count: usize) -> Result<Vec<u8>, LogFault>
    ensures long { IfOk result (λ bytes. length bytes.items ≡ count) }
    ensures cause { IfErr result (ReadCause 0 0) }
{
    match vec![in alloc; 0; count] {
        Ok(bytes) => Ok(bytes),
        Err(_) => Err(LogFault::NoMemory),
    }
}

/// The bytes of a file, or None where it is absent. Each byte is read once.
pub fn whole<H: Host>(alloc: Global, host: &mut H, file: u64) -> Result<Option<Vec<u8>>, LogFault>
    ensures answer { IsTrue H.is_honest → IfOk result (λ found. option_map vec_items found ≡ current (H.history host.old) file) }
    ensures same { IsTrue H.is_honest → H.history host.new ≡ H.history host.old }
    ensures cause { IfErr result (ReadCause (H.disk_faults host.old) (H.disk_faults host.new)) }
    ensures later { H.disk_faults host.old ≤ H.disk_faults host.new }
    ensures reply_faults { H.reply_faults host.new ≡ H.reply_faults host.old }
    ensures bytes_read { IsTrue H.is_honest → H.bytes_read host.new ≤ H.bytes_read host.old + file_length (current (H.history host.old) file) }
{
    let Some(size) = host.size(file)? else {
        return Ok(None);
    };
    let mut bytes = zeroes(alloc, size as usize)?;
    let count = host.read(file, 0, &mut bytes)?;
    bytes.truncate(count);
    Ok(Some(bytes))
}
