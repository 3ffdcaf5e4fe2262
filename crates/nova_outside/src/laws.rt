// Laws of what a crash and a call that failed leave.
ghost use Rattle.nova_outside.specs.Laws.{AbsentStaysAbsent, AnyBytesAreTorn, AnyBytesMayBeMade, AnyFrontMayBeGiven, AnythingAfterMaking, AnythingAfterRemoval, EachChoiceIsLeft, EachFrontIsLeft, EachTearIsLeft, EachTearMayBeRead, FailedSyncSettlesNothing, NothingElseNow, NothingMayBeDone, NowIsSince, OthersKeepTheirOutcomes, PartsAreValid, ReadingIsImage, RemovalMayBePending, RepliesAreValid, RepliesKeepOutcomes, SinceOnlyGrows};

/// What is read now is an image; a crash now leaves what one since any earlier moment may have left,
/// and since now it leaves nothing else; and the more calls were made, the more may have been left.
/// What a call leaves pending may be left in each of its states, by any choice for each file.
pub fn crash_laws()
    ensures reading { ReadingIsImage }
    ensures now { NowIsSince }
    ensures only_now { NothingElseNow }
    ensures grows { SinceOnlyGrows }
    ensures making { AnythingAfterMaking }
    ensures removal { AnythingAfterRemoval }
    ensures write { EachTearIsLeft }
    ensures torn { AnyBytesAreTorn }
    ensures absent { AbsentStaysAbsent }
    ensures failed_sync { FailedSyncSettlesNothing }
    ensures others { OthersKeepTheirOutcomes }
    ensures after_reply { RepliesKeepOutcomes }
    ensures images { EachChoiceIsLeft }
    ensures reply { EachFrontIsLeft }
{}

/// What a call that failed may have done: nothing, or any part of its work.
pub fn failure_laws()
    ensures nothing { NothingMayBeDone }
    ensures making { AnyBytesMayBeMade }
    ensures write { EachTearMayBeRead }
    ensures removal { RemovalMayBePending }
    ensures reply { AnyFrontMayBeGiven }
    ensures valid { PartsAreValid }
    ensures valid_reply { RepliesAreValid }
{}
