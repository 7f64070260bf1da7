//! What is proved of all inputs. These functions do nothing: each clause is a law.
ghost use Rattle.issue_csv.specs.Laws.{CallsAreOfRecords, RecordsAreAll};

/// The calls of an input are those of its good records in order, up to the first bad one.
pub fn calls_of_records()
    ensures { CallsAreOfRecords }
{}

/// No record of an input is left out.
pub fn all_records()
    ensures { RecordsAreAll }
{}
