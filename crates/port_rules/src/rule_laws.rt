//! What holds of the history of a port, whatever judges it.
ghost use Rattle.port_rules.specs.Laws.{LegalBeginningIsLongest, LegalHistoryIsWhole, AnswersFollowRequests};

/// The rounds before the first broken one are the longest beginning of a history that breaks no
/// rule, and such rounds have no more answers than requests.
pub fn laws()
    ensures beginning { LegalBeginningIsLongest }
    ensures whole { LegalHistoryIsWhole }
    ensures answers { AnswersFollowRequests }
{}
