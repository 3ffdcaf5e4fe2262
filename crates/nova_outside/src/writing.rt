// Runs of calls that write one file, and what a crash within them may leave.
ghost use Rattle.std.specs.Prelude.{◌≡◌, ◌≤◌, ℕ, List, length, Option, option_map, OnOk, IsTrue};
ghost use Rattle.nova_outside.specs.Causes.{HasCause};
ghost use Rattle.nova_outside.specs.Disk.{Reaches, overlaid, Only, SameBut, LeavesSameBut, OneChanges, TornFrom};
ghost use Rattle.nova_outside.specs.History.{Outcome, Meanwhile, current, replies};

use crate::{Failed, Host};

/// Makes a file of these bytes, in the place of any of this number, and syncs it. It makes three
/// calls; `Failed` is that of the first that failed.
pub fn put_file<H: Host>(host: &mut H, file: u64, bytes: &[u8]) -> Result<(), Failed>
    ensures current { IsTrue H.is_honest → OnOk result (current (H.history host.new) file ≡ Some bytes.now) }
    ensures settled { IsTrue H.is_honest → OnOk result (Only (current (H.history host.new) file) (Outcome (H.history host.new) file)) }
    ensures others { IsTrue H.is_honest → SameBut file (current (H.history host.old)) (current (H.history host.new)) }
    ensures replies { IsTrue H.is_honest → replies (H.history host.new) ≡ replies (H.history host.old) }
    ensures crash_others { IsTrue H.is_honest → LeavesSameBut file (Outcome (H.history host.old)) (Outcome (H.history host.new)) }
    ensures any_moment { IsTrue H.is_honest → Meanwhile (OneChanges file (λ _. Unit {0}) (Outcome (H.history host.old)) (replies (H.history host.old))) (H.history host.old) (H.history host.new) }
    ensures cause { HasCause (H.disk_faults host.old) (H.disk_faults host.new) result }
    ensures reply_faults { H.reply_faults host.new ≡ H.reply_faults host.old }
    ensures bytes_read { H.bytes_read host.new ≡ H.bytes_read host.old }
{
    host.create(file)?;
    write_through(host, file, 0, bytes)
}

/// Writes to a present file and syncs it. It makes two calls; `Failed` is that of the first that
/// failed.
pub fn write_through<H: Host>(host: &mut H, file: u64, at: u64, bytes: &[u8]) -> Result<(), Failed>
    requires { IsTrue H.is_honest → Reaches at (current (H.history host.old) file) }
    ensures written { IsTrue H.is_honest → OnOk result (current (H.history host.new) file ≡ option_map (overlaid at bytes.now) (current (H.history host.old) file)) }
    ensures settled { IsTrue H.is_honest → OnOk result (Only (current (H.history host.new) file) (Outcome (H.history host.new) file)) }
    ensures others { IsTrue H.is_honest → SameBut file (current (H.history host.old)) (current (H.history host.new)) }
    ensures replies { IsTrue H.is_honest → replies (H.history host.new) ≡ replies (H.history host.old) }
    ensures crash { IsTrue H.is_honest → (c : Option (List ℕ)) → Outcome (H.history host.new) file c → TornFrom at (length bytes.now) (Outcome (H.history host.old) file) c }
    ensures crash_others { IsTrue H.is_honest → LeavesSameBut file (Outcome (H.history host.old)) (Outcome (H.history host.new)) }
    ensures any_moment { IsTrue H.is_honest → Meanwhile (OneChanges file (TornFrom at (length bytes.now) (Outcome (H.history host.old) file)) (Outcome (H.history host.old)) (replies (H.history host.old))) (H.history host.old) (H.history host.new) }
    ensures cause { HasCause (H.disk_faults host.old) (H.disk_faults host.new) result }
    ensures reply_faults { H.reply_faults host.new ≡ H.reply_faults host.old }
    ensures bytes_read { H.bytes_read host.new ≡ H.bytes_read host.old }
{
    host.write(file, at, bytes)?;
    host.sync(file)
}
