//! What is proved of all streams of requests. These functions do nothing: each clause is a law.
ghost use Rattle.tracker_http.specs.Laws.{OneReading, TakenIsFirst, EndIsTheirs, CutIsTheirs, RefusalIsTheirs};

/// Bytes hold one list of requests, which ends in one way.
pub fn requests_of_bytes()
    ensures { OneReading }
{}

/// What is read from a source that tells its bytes is the next of its requests, or their end.
pub fn requests_read()
    ensures taken { TakenIsFirst }
    ensures end { EndIsTheirs }
    ensures cut { CutIsTheirs }
    ensures refused { RefusalIsTheirs }
{}
