use crate::operations::{operation, over};
use keeper_told::ToldKeeper;
use sqlite::{Alter, Connection, MemStore};
use std::alloc::Global;
use tracker_keeper::{KeepFault, Keeper};

const MAKE: &str =
    "CREATE TABLE kept (kind INTEGER, no INTEGER, body TEXT, PRIMARY KEY (kind, no))";

/// Statements that leave a database with something else than the table, or with the table and more.
const FOREIGN: [&str; 9] = [
    "CREATE TABLE other (a)",
    "CREATE TABLE kept (kind INTEGER, no INTEGER, body TEXT, PRIMARY KEY (kind, no)); CREATE TABLE other (a)",
    "CREATE TABLE kept (kind INTEGER, no INTEGER, body TEXT)",
    "CREATE TABLE kept (kind INTEGER, no INTEGER, PRIMARY KEY (kind, no))",
    "CREATE TABLE kept (kind INTEGER, no INTEGER, body BLOB, PRIMARY KEY (kind, no))",
    "CREATE TABLE kept (kind INTEGER, no INTEGER, body TEXT NOT NULL, PRIMARY KEY (kind, no))",
    "CREATE TABLE kept (kind INTEGER, no INTEGER, body TEXT, PRIMARY KEY (no, kind))",
    "CREATE TABLE kept (kind INTEGER, no INTEGER, body TEXT, PRIMARY KEY (kind, no)); CREATE INDEX more ON kept (body)",
    "CREATE TABLE kept (kind INTEGER, no INTEGER, body TEXT, PRIMARY KEY (kind, no)); CREATE VIEW more AS SELECT 1",
];

/// Rows of the table that are none of a tracker's.
const BAD: [&str; 8] = [
    "INSERT INTO kept VALUES (1, 0, NULL)",
    "INSERT INTO kept VALUES (NULL, 0, 'a')",
    "INSERT INTO kept VALUES (1, NULL, 'a')",
    "INSERT INTO kept VALUES (256, 0, 'a')",
    "INSERT INTO kept VALUES (-1, 0, 'a')",
    "INSERT INTO kept VALUES (1, -1, 'a')",
    "INSERT INTO kept VALUES ('one', 0, 'a')",
    "INSERT INTO kept VALUES (1, 0, x'61')",
];

fn number<S: Alter>(conn: &mut Connection<S>, text: &str) -> Option<i64> {
    conn.query_row(text, &[]).ok()?.get(0).ok()
}

fn objects(keeper: ToldKeeper<MemStore>) -> Option<i64> {
    let mut conn = keeper.release();
    number(&mut conn, "SELECT count(*) FROM sqlite_schema")
}

fn opened(alloc: Global, first: &str, second: &str) -> Option<ToldKeeper<MemStore>> {
    let mut conn = Connection::open_in_memory(alloc).ok()?;
    conn.execute_batch(first).ok()?;
    conn.execute_batch(second).ok()?;
    over(alloc, conn)
}

fn commits<K: Keeper>(alloc: Global, keeper: &mut K) -> Option<Result<(), KeepFault>> {
    let op = operation(alloc, 1, 0, "a")?;
    Some(keeper.commit(&[op]))
}

/// Both calls fail, and there are as many objects as before.
fn is_refused(alloc: Global, text: &str) -> Option<bool> {
    let before = objects(opened(alloc, text, "")?)?;
    let mut keeper = opened(alloc, text, "")?;
    let told = matches!(keeper.rows(), Err(KeepFault::Failed));
    let done = commits(alloc, &mut keeper)? == Err(KeepFault::Failed);
    let same = objects(keeper)? == before;
    Some(told && done && same)
}

/// The rows aren't told, and each row is still there.
fn is_not_told(alloc: Global, text: &str) -> Option<bool> {
    let mut keeper = opened(alloc, MAKE, text)?;
    let failed = matches!(keeper.rows(), Err(KeepFault::Failed));
    let mut conn = keeper.release();
    let there = number(&mut conn, "SELECT count(*) FROM kept")?;
    Some(failed && there == 1)
}

fn all_are(alloc: Global, texts: &[&str], is_so: bool) -> bool {
    for &text in texts {
        let passes = if is_so {
            is_refused(alloc, text)
        } else {
            is_not_told(alloc, text)
        };
        if passes != Some(true) {
            return false;
        }
    }
    true
}

#[test]
fn any_other_schema_is_refused_and_stays(rt: HostRuntime) {
    let passes = all_are(rt.alloc(), &FOREIGN, true);
    assert!(rt; passes);
}

#[test]
fn rows_that_are_no_trackers_are_not_told(rt: HostRuntime) {
    let passes = all_are(rt.alloc(), &BAD, false);
    assert!(rt; passes);
}
