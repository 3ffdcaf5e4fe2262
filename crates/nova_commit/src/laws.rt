//! The law of commits and their bytes: the contract of a function that does nothing.
ghost use Rattle.nova_commit.specs.Laws.{SpelledOnce};

/// Commits are told by their bytes: no two commits that fit have one spelling.
pub fn commits_are_spelled_once()
    ensures { SpelledOnce }
{}
