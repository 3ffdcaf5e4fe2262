//! Laws of commits. Each is the contract of a function that does nothing.
ghost use Rattle.nova_meta.specs.Named.{BlocksAreNumbered, CommitsCompose, ListsSpelledOnce, PartsAreKept, PartsAreWide, PartsHaveSlots};
ghost use Rattle.nova_meta.specs.Sound.{CatalogsAreSound};
ghost use Rattle.nova_meta.specs.Worked.{ClockAndCursors, CountersEnd};

/// Commits in order are told by their bytes: no two lists of them have one list of spellings.
pub fn lists_are_spelled_once()
    ensures { ListsSpelledOnce }
{}

/// The catalog of a list of commits is made one commit at a time.
pub fn commits_compose()
    ensures { CommitsCompose }
{}

/// A catalog of commits in order has the numbers of its workflow and intervals in order, no counter
/// of it is above its bound, and of each channel a path leads to the newest version from 0 and from
/// each cursor of an input that is read as new.
pub fn catalogs_are_sound()
    ensures { CatalogsAreSound }
{}

/// Each block that a catalog of commits in order names is before the next one, and it is named for
/// one interval of a channel or one state part of a task.
pub fn blocks_are_numbered()
    ensures { BlocksAreNumbered }
{}

/// A state part that a catalog of commits in order names is of a task that keeps state, and its size
/// has room in its field. Each task has a slot for each part.
pub fn parts_are_kept()
    ensures kept { PartsAreKept }
    ensures wide { PartsAreWide }
    ensures slots { PartsHaveSlots }
{}

/// What may come next where a counter stands at its bound or below, worked out; and a tick and a run
/// move the clock and a cursor.
pub fn counters_are_bounded()
    ensures bounds { CountersEnd }
    ensures clock { ClockAndCursors }
{}
