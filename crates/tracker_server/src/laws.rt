//! What is proved of all connections. These functions do nothing: each clause is a law.
ghost use Rattle.tracker_server.specs.Laws.{AreTheirs};

/// The requests of a connection behind which it is known how the bytes end are those of the whole stream.
pub fn requests_of_a_connection()
    ensures { AreTheirs }
{}
