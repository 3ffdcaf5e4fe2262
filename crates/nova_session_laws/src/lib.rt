//! Laws of the language of sessions over bytes: how bytes are cut into lines and commands, and what
//! a load makes of its lines. Each is the contract of a function that does nothing.
#![tactic(auto)]

ghost use Rattle.nova_session_laws.specs.Statements.{BytesAreCut, LinesJoin, LoadsWriteTheirKeys, RowsAreRead, RowsRead, WholeCommandsAreFirst};

/// Bytes are lines, each ended by a newline, and what stands behind the last newline; in one way.
pub fn lines_join()
    ensures cut { BytesAreCut }
    ensures lines { LinesJoin }
{}

/// The commands that have ended are the first of all, and at most one follows them.
pub fn whole_commands_are_first()
    ensures { WholeCommandsAreFirst }
{}

/// The lines of a load are the entries that they read as, one after the other, or the first line
/// that is no row is told by its number.
pub fn rows_are_read()
    ensures entries { RowsAreRead }
    ensures read { RowsRead }
{}

/// A load writes the keys of its entries, and no others.
pub fn loads_write_their_keys()
    ensures { LoadsWriteTheirKeys }
{}
