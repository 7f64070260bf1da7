use crate::fakes::{Fails, NOTHING, puts, tried};
use field_values::Text;
use std::test::Fail;
use tracker_keeper::{Row, RowOp};

const TICK: &[u8] = b"{\"user\":\"anna\",\"call\":\"tick\",\"to\":1709251200}\n";

const TICKED: &[u8] = b"{\"ok\":{\"moment\":1709251200}}\n";

/// Where the tracker stands behind the tick.
const STANDS: &str = "{\"balance\":[0],\"change\":0,\"format\":2,\"moment\":1709251200}";

const HALF: &[u8] = b"{\"user\":\"anna\",\"call\":\"create\",\"project\":\"OPS\",\"type\"";

// Whether the rows tell that the tracker stands behind the tick, with no issue.
fn stand_there(rows: &[Row]) -> bool {
    let mut there = false;
    for row in rows {
        if row.kind == 3 {
            return false;
        }
        if row.kind == 2 {
            there = row.body.as_str() == STANDS;
        }
    }
    there
}

#[test]
fn half_a_line_and_a_read_that_fails(rt: HostRuntime) -> Result<(), Fail> {
    let alloc = rt.alloc();
    let mut input = TICK.to_vec(alloc)?;
    input.extend_from_slice(HALF)?;
    let fails = Fails {
        read: 2,
        piece: 1_000,
        ..NOTHING
    };
    let ended = tried(alloc, &["exec"], &input, &[], fails)?;
    assert_eq!(rt; ended.status, 2);
    assert_eq!(rt; ended.out.as_slice(), TICKED);
    let kept = stand_there(&ended.rows);
    assert!(rt; kept);
    Ok(())
}

#[test]
fn a_call_whose_reply_is_not_written(rt: HostRuntime) -> Result<(), Fail> {
    let alloc = rt.alloc();
    let fails = Fails {
        write: 1,
        ..NOTHING
    };
    let ended = tried(alloc, &["exec"], TICK, &[], fails)?;
    assert_eq!(rt; ended.status, 3);
    assert!(rt; ended.out.is_empty());
    let kept = stand_there(&ended.rows);
    assert!(rt; kept);
    Ok(())
}

const SECOND: &str =
    r#"{"at":0,"author":"anna","change":1,"fields":{"points":"3","reporter":"anna","status":"Open","summary":"Fix login","type":"Task"},"key":"OPS-1"}"#;

#[test]
fn a_second_issue_without_a_first(rt: HostRuntime) -> Result<(), Fail> {
    let alloc = rt.alloc();
    let opened = tried(alloc, &["exec"], b"", &[], NOTHING)?;
    let mut before = puts(alloc, opened.rows)?;
    let Ok(body) = Text::copy_of(alloc, SECOND) else {
        return Err(Fail::new("there is no memory"));
    };
    before.push(RowOp::Put(Row {
        kind: 3,
        no: 2,
        body,
    }))?;
    let ended = tried(alloc, &["exec"], b"", &before, NOTHING)?;
    assert_eq!(rt; ended.status, 5);
    assert_eq!(rt; ended.out.as_slice(), b"kept 3 2\n".as_slice());
    Ok(())
}
