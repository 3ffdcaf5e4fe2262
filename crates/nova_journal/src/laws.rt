// Laws of the format.
ghost use Rattle.nova_journal.specs.Laws.{OneFrame, OneLog, OnePlace, WholeOrDamaged};

/// A file is read in one way: it is the journal of at most one list of payloads, or damaged at one
/// place, and never both; and a frame is that of one payload.
pub fn format_laws()
    ensures one_log { OneLog }
    ensures one_place { OnePlace }
    ensures whole_or_damaged { WholeOrDamaged }
    ensures one_frame { OneFrame }
{}
