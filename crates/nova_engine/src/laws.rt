//! What follows of a call from what it tells.
ghost use Rattle.nova_engine.specs.Laws.{Completeness, LoadsHaveRoom, NoCommitsHaveRoom, NoDamageWhereFilesStand, RoomIsByTurns};
ghost use Rattle.nova_engine.specs.Taken.{TextsAreInputs};

/// Where the files stood for a state, no damage is told; and where no call failed and no bound was met
/// either, the whole text was replied, or memory ran out.
pub fn nothing_is_left_out()
    ensures damage { NoDamageWhereFilesStand }
    ensures complete { Completeness }
{}

/// Of a text that was read, what it says the whole input says: one that is too long is refused as
/// the input is.
pub fn texts_are_inputs()
    ensures { TextsAreInputs }
{}

/// When a session meets no bound: it is a matter of its steps, the commits before them and their
/// catalog, and of no file. Steps without commits have room, and a load has by four numbers.
pub fn sessions_have_room()
    ensures turns { RoomIsByTurns }
    ensures none { NoCommitsHaveRoom }
    ensures loads { LoadsHaveRoom }
{}
