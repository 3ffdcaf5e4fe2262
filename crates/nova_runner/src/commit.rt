//! Writing: blocks, and then the commit that names them.
ghost use Rattle.std.specs.Prelude.{◌≡◌, ◌+◌, length, IfOk, IsTrue, MatchResult, OnOk, ◌<◌, ◌^◌};
ghost use Rattle.std.specs.List.{AllByRecursion};
ghost use Rattle.nova_outside.specs.Causes.{HasCause};
ghost use Rattle.nova_outside.specs.History.{current, replies};
ghost use Rattle.nova_path.specs.Lists.{IsOneOf};
ghost use Rattle.nova_meta.specs.Catalog.{applied};
ghost use Rattle.nova_commit.specs.Commits.{Fits};
ghost use Rattle.nova_commit.specs.declared.commit.Commit.{Commit};
ghost use Rattle.nova_runner.specs.Committing.{Adds, ArePut, AreSpare, Breaks, HaveBytes, IsReady, LeavesAllBut, ReadsOn, Touched};
ghost use Rattle.nova_runner.specs.Steps.{InHost};
ghost use Rattle.nova_runner.specs.declared.ready.Fresh.{Fresh};

use crate::ready::{Fresh, Ready};
use crate::store::Store;
use nova_outside::{Failed, Host, put_file};

/// Puts each of these blocks in its file.
fn put_all<H: Host>(host: &mut H, fresh: &[Fresh]) -> Result<(), Failed>
    requires low { AllByRecursion (λ (f : Fresh). f.block < 2 ^ 62) fresh.now }
    requires apart { (f g : Fresh) → IsOneOf fresh.now f → IsOneOf fresh.now g → f.block ≡ g.block → f ≡ g }
    ensures put { IsTrue H.is_honest → OnOk result (ArePut fresh.now (H.history host.new)) }
    ensures others { IsTrue H.is_honest → LeavesAllBut fresh.now (H.history host.old) (H.history host.new) }
    ensures replies { IsTrue H.is_honest → replies (H.history host.new) ≡ replies (H.history host.old) }
    ensures cause { HasCause (H.disk_faults host.old) (H.disk_faults host.new) result }
    ensures reply_faults { H.reply_faults host.new ≡ H.reply_faults host.old }
    ensures bytes_read { H.bytes_read host.new ≡ H.bytes_read host.old }
{
    for block in fresh {
        put_file(host, 4 * block.block + 2, &block.bytes)?;
    }
    Ok(())
}

impl Store {
    /// Puts the blocks that a commit brings in their files, appends the commit, and has it in the
    /// catalog. All commands write by this call, once all their memory is taken.
    pub(crate) fn commit<H: Host>(
        self,
        host: &mut H,
        fresh: &[Fresh],
        ready: Ready,
    ) -> Result<Store, Failed>
        requires in_host { InHost H.is_honest self (H.history host.old) }
        requires ready { (own : Commit) × IsReady self own ready × AreSpare self.catalog own fresh.now }
        ensures adds { MatchResult result
            (λ new. (own : Commit) → IsReady self own ready → AreSpare self.catalog own fresh.now → Adds H.is_honest self new own fresh.now (H.history host.old) (H.history host.new))
            (λ _. (own : Commit) → IsReady self own ready → AreSpare self.catalog own fresh.now → Breaks H.is_honest self own fresh.now (H.history host.old) (H.history host.new)) }
        ensures read { IfOk result (λ new. (own : Commit) → Fits own → IsReady self own ready → ReadsOn H.is_honest self new own (H.history host.old) (H.history host.new)) }
        ensures bytes { IfOk result (λ _. IsTrue H.is_honest → HaveBytes fresh.now (current (H.history host.new))) }
        ensures touched { IsTrue H.is_honest → (own : Commit) → IsReady self own ready → AreSpare self.catalog own fresh.now → Touched self own (H.history host.old) (H.history host.new) }
        ensures catalog { IfOk result (λ new. (own : Commit) → IsReady self own ready → new.catalog ≡ applied self.catalog own) }
        ensures flow { IfOk result (λ new. new.flow ≡ self.flow) }
        ensures flight { IfOk result (λ new. new.flight ≡ self.flight) }
        ensures journal { IfOk result (λ new. (new.journal.generation ≡ self.journal.generation) × (new.journal.length ≡ self.journal.length + length ready.framed.items)) }
        ensures in_host { IfOk result (λ new. InHost H.is_honest new (H.history host.new)) }
        ensures cause { HasCause (H.disk_faults host.old) (H.disk_faults host.new) result }
        ensures reply_faults { H.reply_faults host.new ≡ H.reply_faults host.old }
        ensures bytes_read { H.bytes_read host.new ≡ H.bytes_read host.old }
    {
        put_all(host, fresh)?;
        let Store {
            journal,
            flow,
            mut catalog,
            flight,
        } = self;
        let Ready { framed, prepared } = ready;
        match journal.append(host, &framed) {
            Ok(journal) => {
                catalog.apply(prepared);
                Ok(Store {
                    journal,
                    flow,
                    catalog,
                    flight,
                })
            }
            Err(_) => Err(Failed),
        }
    }
}
