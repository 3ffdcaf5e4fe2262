//! A tick.
ghost use Rattle.std.specs.Prelude.{◌≡◌, ◌^◌, ◌≤◌, IfOk, IfErr, IsTrue, MatchResult};
ghost use Rattle.nova_commit.specs.declared.commit.Commit.TheVariants as commit;
ghost use Rattle.nova_meta.specs.Catalog.{applied};
ghost use Rattle.nova_runner.specs.Acts.{IsFull};
ghost use Rattle.nova_runner.specs.Committing.{ReadsOn, Touched};
ghost use Rattle.nova_runner.specs.Steps.{AsksTick, Does, InHost, IsStopDamage, IsStopFull, StopCause, Stops, TakesNoMemory, append_stop, silent, why_of};

use crate::stop::Stopped;
use crate::store::Store;
use nova_journal::{LogFault, frame_tick};
use nova_outside::Host;

/// Why a command ends whose record wasn't appended.
fn stopped_by(fault: LogFault) -> Stopped
    ensures { result ≡ append_stop fault }
{
    match fault {
        LogFault::Full { length } => Stopped::Full { length },
        _ => Stopped::Disk,
    }
}

impl Store {
    /// Sets the clock to a moment that isn't below the last one. No memory is taken.
    pub fn tick<H: Host>(self, host: &mut H, moment: u64) -> Result<Store, Stopped>
        requires later { self.catalog.moment ≤ moment }
        requires low { moment ≤ 2 ^ 62 }
        requires in_host { InHost H.is_honest self (H.history host.old) }
        // From each state that the store stood for it is the machine's step, or stopped.
        ensures step { MatchResult result
            (λ new. Does H.is_honest (AsksTick moment) silent self new (H.history host.old) (H.history host.new))
            (λ stop. Stops (why_of stop) H.is_honest (AsksTick moment) self (H.history host.old) (H.history host.new)) }
        // Whatever the files stand for: it changes the journal alone, which has the commit.
        ensures read { IfOk result (λ new. ReadsOn H.is_honest self new (commit.Tick moment) (H.history host.old) (H.history host.new)) }
        ensures touched { IsTrue H.is_honest → Touched self (commit.Tick moment) (H.history host.old) (H.history host.new) }
        ensures in_host { IfOk result (λ new. InHost H.is_honest new (H.history host.new)) }
        ensures flow { IfOk result (λ new. new.flow ≡ self.flow) }
        ensures flight { IfOk result (λ new. new.flight ≡ self.flight) }
        ensures clock { IfOk result (λ new. new.catalog ≡ applied self.catalog (commit.Tick moment)) }
        // Full exactly where its commit has no room, before any file is called.
        ensures full { IfErr result (λ stop. IsStopFull stop → IsFull self.journal.length self.catalog (commit.Tick moment)) }
        ensures room { IsFull self.journal.length self.catalog (commit.Tick moment) → MatchResult result (λ made. ⊥) IsStopFull × (host.new ≡ host.old) }
        ensures memory { IfErr result TakesNoMemory }
        // A tick reads nothing, so it tells no damage.
        ensures no_damage { IfErr result (λ stop. IsStopDamage stop → ⊥) }
        ensures cause { IfErr result (StopCause self (H.disk_faults host.old) (H.disk_faults host.new)) }
        ensures later { H.disk_faults host.old ≤ H.disk_faults host.new }
        ensures reply_faults { H.reply_faults host.new ≡ H.reply_faults host.old }
        ensures bytes_read { H.bytes_read host.new ≡ H.bytes_read host.old }
    {
        let framed = frame_tick(moment);
        let Store {
            journal,
            flow,
            mut catalog,
            flight,
        } = self;
        match journal.append(host, framed.as_slice()) {
            Ok(journal) => {
                catalog.tick(moment);
                Ok(Store {
                    journal,
                    flow,
                    catalog,
                    flight,
                })
            }
            Err(fault) => Err(stopped_by(fault)),
        }
    }
}
