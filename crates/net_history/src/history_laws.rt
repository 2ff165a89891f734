//! What holds of the history of every network that can be run.

ghost use Rattle.net_history.specs.HistoryLaws.{RunsAreRight};

/// After any number of rounds the bytes of each transaction were accessed from the first on, each once,
/// in burst order, at the memory where its way ends, and all of them once it is answered; and each read
/// saw the latest write before it. Each transaction was issued once at most and answered once at most,
/// with the response that is due and the bytes that were read, and after those that it waits for; its
/// accesses are between its issue and its answer. For each manager, ID and direction all three come in
/// order, whatever ways the transactions go. Once the network is finished, each is answered.
pub fn runs_are_right()
    ensures right { RunsAreRight }
{}
