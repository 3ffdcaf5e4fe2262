// The mark of the newest generation.
ghost use Rattle.std.specs.Prelude.{◌≡◌, ◌+◌, ◌*◌, ◌^◌, ◌<◌, ◌≤◌, ℕ, List, Option, Some, IfErr, IfOk, IfSome, IsTrue};
ghost use Rattle.nova_outside.specs.Causes.{HasCause};
ghost use Rattle.nova_outside.specs.Disk.{Only};
ghost use Rattle.nova_outside.specs.History.{LeftNow, Meanwhile, Outcome, current, replies};
ghost use Rattle.nova_journal.specs.Fault.{ReopenTold, UnmarkedCause};
ghost use Rattle.nova_journal.specs.Marks.{IsMark};

use crate::fault::LogFault;
use nova_outside::{Failed, Host};

/// The greatest generation whose mark is there.
pub fn marked<H: Host>(host: &mut H) -> Result<Option<u64>, Failed>
    ensures answer { IsTrue H.is_honest → IfOk result (IsMark (current (H.history host.old))) }
    ensures small { IfOk result (λ mark. IfSome mark (λ x. 4 * x + 1 < 2 ^ 64)) }
    ensures same { IsTrue H.is_honest → H.history host.new ≡ H.history host.old }
    ensures cause { HasCause (H.disk_faults host.old) (H.disk_faults host.new) result }
    ensures reply_faults { H.reply_faults host.new ≡ H.reply_faults host.old }
    ensures bytes_read { H.bytes_read host.new ≡ H.bytes_read host.old }
{
    let mut best = None;
    let mut after = None;
    while let Some(file) = host.next_file(after)? {
        if file % 4 == 1 {
            best = Some(file / 4);
        }
        after = Some(file);
    }
    Ok(best)
}

/// The greatest generation whose mark is there, once its mark and its journal are synced.
pub fn newest_synced<H: Host>(host: &mut H) -> Result<u64, LogFault>
    ensures found { IsTrue H.is_honest → IfOk result (λ x. IsMark (current (H.history host.old)) (Some x)) }
    ensures small { IfOk result (λ x. x < 2 ^ 62) }
    ensures settled { IsTrue H.is_honest → IfOk result (λ x. Only (current (H.history host.old) (4 * x)) (Outcome (H.history host.new) (4 * x))) }
    ensures mark_settled { IsTrue H.is_honest → IfOk result (λ x. Only (current (H.history host.old) (4 * x + 1)) (Outcome (H.history host.new) (4 * x + 1))) }
    ensures crash { IsTrue H.is_honest → (n : ℕ) (c : Option (List ℕ)) → Outcome (H.history host.new) n c → Outcome (H.history host.old) n c }
    ensures any_moment { IsTrue H.is_honest → Meanwhile (LeftNow (H.history host.old)) (H.history host.old) (H.history host.new) }
    ensures files { IsTrue H.is_honest → (n : ℕ) → current (H.history host.new) n ≡ current (H.history host.old) n }
    ensures replies { IsTrue H.is_honest → replies (H.history host.new) ≡ replies (H.history host.old) }
    ensures told { IsTrue H.is_honest → IfErr result (ReopenTold (current (H.history host.old))) }
    ensures cause { IfErr result (UnmarkedCause (H.disk_faults host.old) (H.disk_faults host.new)) }
    ensures later { H.disk_faults host.old ≤ H.disk_faults host.new }
    ensures reply_faults { H.reply_faults host.new ≡ H.reply_faults host.old }
    ensures bytes_read { H.bytes_read host.new ≡ H.bytes_read host.old }
{
    let Some(generation) = marked(host)? else {
        return Err(LogFault::NoStore);
    };
    host.sync(4 * generation + 1)?;
    host.sync(4 * generation)?;
    Ok(generation)
}
