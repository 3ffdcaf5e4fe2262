//! What holds of files and stores, whatever commands there are.
ghost use Rattle.nova_runner.specs.Laws.{CommitsLead, DecidingFilesDecide, IsBlockOrLost, IsPartOrLost, LoadsLead, NoLossIsKept, NoStepDamage, SettledImagesStand, StoredIsNotLost, TicksLead};
ghost use Rattle.nova_runner.specs.LoadLaws.{LoadsBring, LoadsDraw};
ghost use Rattle.nova_runner.specs.RunLaws.{RunsLead};

/// Only the files that decide count for what files stand for, so each image of a host on whose deciding
/// files nothing is pending stands for what its reading stands for.
pub fn deciding_files_decide()
    ensures files { DecidingFilesDecide }
    ensures images { SettledImagesStand }
{}

/// A commit behind the others leads to the state that it leads to, once its blocks are in their files.
pub fn commits_lead()
    ensures { CommitsLead }
{}

/// A load's catalog draws the state behind it, and its block is that of the new version.
pub fn loads_commit()
    ensures draw { LoadsDraw }
    ensures bring { LoadsBring }
    ensures lead { LoadsLead }
{}

/// A tick's catalog draws the state behind it, and no block comes with it.
pub fn ticks_commit()
    ensures { TicksLead }
{}

/// A run's catalog draws the state behind it, and its block is that of the new version.
pub fn runs_commit()
    ensures { RunsLead }
{}

/// Where files stand for a state that commands reach, no step tells damage.
pub fn no_step_tells_damage()
    ensures { NoStepDamage }
{}

/// A block or state part is stored or lost and not both, so files over which none is lost go on to
/// stand for a state; and where its file is none of its size it is lost.
pub fn what_stands_stays()
    ensures apart { StoredIsNotLost }
    ensures lost { IsBlockOrLost }
    ensures lost_part { IsPartOrLost }
    ensures kept { NoLossIsKept }
{}
