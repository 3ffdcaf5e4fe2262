//! What reads give of files that hold a channel's blocks.
ghost use Rattle.nova_channel.specs.Laws.{BlocksAreNotBad, HoldersGive, OneBlock, OneDamage, ReadsAreBlocks, ReadsAreWhole, TablesAreVersions, TablesAreWhole};

/// A file is one delta's block.
pub fn files_are_one_block()
    ensures { OneBlock }
{}

/// Where no file of a shelf is another block than its own, a read gives the block of its ends and the
/// table of its end; where each is its block, no damage is told.
pub fn reads_are_blocks()
    ensures gives { HoldersGive }
    ensures block { ReadsAreBlocks }
    ensures table { TablesAreVersions }
    ensures sound { BlocksAreNotBad }
{}

/// Where a block on the chosen path is none, nothing is read along it, and the first such block is
/// what is told.
pub fn reads_are_whole()
    ensures read { ReadsAreWhole }
    ensures table { TablesAreWhole }
    ensures one { OneDamage }
{}
