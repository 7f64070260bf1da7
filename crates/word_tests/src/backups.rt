use field_values::Text;
use request_lines::{MemorySink, MemorySource};
use std::alloc::{AllocError, Global};
use std::test::Fail;
use tracker_backup::back_up;
use tracker_cli::run;
use tracker_keeper::{MemoryKeeper, Row, RowOp};

/// The tracker that the lines make has a text with quotes, a backslash, a line feed and characters past ASCII, and rows of six kinds.
const CALLS: &[u8] =
    b"{\"user\":\"anna\",\"call\":\"tick\",\"to\":5}\n{\"user\":\"anna\",\"call\":\"create\",\"project\":\"OPS\",\"type\":\"Task\",\"summary\":\"A \\\"quoted\\\" \\\\ na\xc3\xafve \xe6\x97\xa5\",\"set\":{\"description\":\"two\\nlines\"}}\n{\"user\":\"anna\",\"call\":\"save_filter\",\"name\":\"f\",\"jql\":\"key = OPS-1\"}\n";

const USAGE: &[u8] = b"usage: exec, check, init, import USER, export, generate N\n";

fn words_of(alloc: Global, list: &[&str]) -> Result<Vec<String>, AllocError> {
    let mut words = Vec::new(alloc);
    for word in list {
        words.push(String::from_str(alloc, word)?)?;
    }
    Ok(words)
}

// A keeper in memory that has no row, and fails at these calls, counted from 1.
fn failing_keeper(alloc: Global, failing: &[u64]) -> Result<MemoryKeeper, AllocError> {
    match MemoryKeeper::new(alloc, &[], failing.to_vec(alloc)?) {
        Ok(keeper) => Ok(keeper),
        Err(_) => Err(AllocError),
    }
}

fn keeper(alloc: Global) -> Result<MemoryKeeper, AllocError> {
    failing_keeper(alloc, &[])
}

// A keeper that has the rows of the tracker that the calls make.
fn kept(alloc: Global) -> Result<MemoryKeeper, AllocError> {
    let mut source = MemorySource::new(CALLS.to_vec(alloc)?, Vec::new(alloc), Vec::new(alloc));
    let mut sink = MemorySink::new(alloc, 10_000, Vec::new(alloc))?;
    let (_, keeper) = run(
        alloc,
        &words_of(alloc, &["exec"])?,
        &mut source,
        &mut sink,
        keeper(alloc)?,
    );
    Ok(keeper)
}

// The status and the output of the words over an input, a sink with room for so many bytes, and a keeper, which is handed back.
fn backed_up(
    alloc: Global,
    list: &[&str],
    input: &[u8],
    room: usize,
    keeper: MemoryKeeper,
) -> Result<(u8, Vec<u8>, MemoryKeeper), AllocError> {
    let mut source = MemorySource::new(input.to_vec(alloc)?, Vec::new(alloc), Vec::new(alloc));
    let mut sink = MemorySink::new(alloc, room, Vec::new(alloc))?;
    let words = words_of(alloc, list)?;
    let (status, keeper) = back_up(alloc, &words, &mut source, &mut sink, keeper);
    Ok((status, sink.taken().to_vec(alloc)?, keeper))
}

// The dump of a keeper.
fn dump_of(alloc: Global, keeper: MemoryKeeper) -> Result<(Vec<u8>, MemoryKeeper), AllocError> {
    let (status, dump, keeper) = backed_up(alloc, &["dump"], b"", 100_000, keeper)?;
    if status == 0 {
        Ok((dump, keeper))
    } else {
        Err(AllocError)
    }
}

#[test]
fn what_restores_a_dump_has_the_same_dump(rt: HostRuntime) -> Result<(), Fail> {
    let alloc = rt.alloc();
    let (dump, _) = dump_of(alloc, kept(alloc)?)?;
    assert!(rt; dump.starts_with(b"{\"body\":\""));
    let (status, out, restored) = backed_up(alloc, &["restore"], &dump, 100, keeper(alloc)?)?;
    assert_eq!(rt; status, 0);
    assert!(rt; out.is_empty());
    let (again, restored) = dump_of(alloc, restored)?;
    assert!(rt; again.as_slice() == dump.as_slice());
    // What has rows keeps them.
    let (status, out, restored) = backed_up(alloc, &["restore"], &dump, 100, restored)?;
    assert_eq!(rt; status, 9);
    assert_eq!(rt; out.as_slice(), b"held\n".as_slice());
    let (again, _) = dump_of(alloc, restored)?;
    assert!(rt; again.as_slice() == dump.as_slice());
    Ok(())
}

// The first so many bytes, or all.
fn front_of(bytes: &[u8], count: usize) -> &[u8] {
    if count < bytes.len() {
        &bytes[..count]
    } else {
        bytes
    }
}

// The places behind each line feed.
fn line_ends(alloc: Global, bytes: &[u8]) -> Result<Vec<usize>, AllocError> {
    let mut ends = Vec::new(alloc);
    for place in 0..bytes.len() {
        if bytes[place] == b'\n' {
            ends.push(place + 1)?;
        }
    }
    Ok(ends)
}

#[test]
fn a_cut_dump_is_told_by_its_last_line(rt: HostRuntime) -> Result<(), Fail> {
    let alloc = rt.alloc();
    let (dump, _) = dump_of(alloc, kept(alloc)?)?;
    let ends = line_ends(alloc, &dump)?;
    let mut right = true;
    for place in 0..ends.len() {
        let front = front_of(&dump, ends[place].saturating_sub(2));
        let due = format!(in alloc; "row {}\n", place + 1)?;
        let (status, out, kept) = backed_up(alloc, &["restore"], front, 100, keeper(alloc)?)?;
        right = right && status == 8 && out.as_slice() == due.as_str().as_bytes();
        let (none, _) = dump_of(alloc, kept)?;
        right = right && none.is_empty();
    }
    assert!(rt; right);
    Ok(())
}

// Inputs that are no dump of a tracker, with their statuses and texts.
const NO_DUMPS: [(&[u8], u8, &[u8]); 22] = [
    (b"", 5, b"kept 1 0\n"),
    (b"\n", 8, b"row 1\n"),
    (b"nonsense\n", 8, b"row 1\n"),
    (b"[]\n", 8, b"row 1\n"),
    (b"{\"body\":\"\",\"kind\":1}\n", 8, b"row 1\n"),
    (
        b"{\"body\":\"\",\"kind\":1,\"no\":0,\"x\":0}\n",
        8,
        b"row 1\n",
    ),
    (
        b"{\"body\":\"\",\"kind\":1,\"kind\":1,\"no\":0}\n",
        8,
        b"row 1\n",
    ),
    (b"{\"body\":\"\",\"kind\":1,\"kind\":1}\n", 8, b"row 1\n"),
    (b"{\"Body\":\"\",\"kind\":1,\"no\":0}\n", 8, b"row 1\n"),
    (b"{\"body\":0,\"kind\":1,\"no\":0}\n", 8, b"row 1\n"),
    (b"{\"body\":\"\",\"kind\":256,\"no\":0}\n", 8, b"row 1\n"),
    (b"{\"body\":\"\",\"kind\":-1,\"no\":0}\n", 8, b"row 1\n"),
    (b"{\"body\":\"\",\"kind\":1.0,\"no\":0}\n", 8, b"row 1\n"),
    (b"{\"body\":\"\",\"kind\":1e0,\"no\":0}\n", 8, b"row 1\n"),
    (b"{\"body\":\"\",\"kind\":\"1\",\"no\":0}\n", 8, b"row 1\n"),
    (
        b"{\"body\":\"\",\"kind\":1,\"no\":9223372036854775807}\n",
        5,
        b"kept 1 0\n",
    ),
    (
        b"{\"body\":\"\",\"kind\":1,\"no\":9223372036854775808}\n",
        8,
        b"row 1\n",
    ),
    (b"{\"body\":\"\xff\",\"kind\":1,\"no\":0}\n", 8, b"row 1\n"),
    (b"{\"body\":\"\",\"kind\":1,\"no\":0}{}\n", 8, b"row 1\n"),
    (
        b"{\"body\":\"\",\"kind\":1,\"no\":0}\n{\"body\":\"\",\"kind\":1,\"no\":0}\n",
        8,
        b"row 2\n",
    ),
    (
        b" {\"no\": 7 , \"kind\":1,\t\"body\":\"\"}\r\n{\"body\":\"\",\"kind\":1,\"no\":6}",
        8,
        b"row 2\n",
    ),
    (b"{\"body\":\"x\",\"kind\":11,\"no\":1}\n", 5, b"kept 1 0\n"),
];

#[test]
fn what_is_no_dump_is_told_and_not_kept(rt: HostRuntime) -> Result<(), Fail> {
    let alloc = rt.alloc();
    let mut right = true;
    for &(input, due, text) in &NO_DUMPS {
        let (status, out, kept) = backed_up(alloc, &["restore"], input, 100, keeper(alloc)?)?;
        right = right && status == due && out.as_slice() == text;
        let (none, _) = dump_of(alloc, kept)?;
        right = right && none.is_empty();
    }
    assert!(rt; right);
    Ok(())
}

#[test]
fn rows_that_are_no_trackers_are_dumped(rt: HostRuntime) -> Result<(), Fail> {
    let alloc = rt.alloc();
    let Ok(body) = Text::copy_of(alloc, "x\t\"") else {
        return Err(Fail::new("there is no memory"));
    };
    let mut ops = Vec::new(alloc);
    ops.push(RowOp::Put(Row {
        kind: 200,
        no: 7,
        body,
    }))?;
    let Ok(odd) = MemoryKeeper::new(alloc, &ops, Vec::new(alloc)) else {
        return Err(Fail::new("there is no memory"));
    };
    let (dump, _) = dump_of(alloc, odd)?;
    assert_eq!(rt;
        dump.as_slice(),
        b"{\"body\":\"x\\t\\\"\",\"kind\":200,\"no\":7}\n".as_slice()
    );
    Ok(())
}

#[test]
fn what_fails_outside_is_told(rt: HostRuntime) -> Result<(), Fail> {
    let alloc = rt.alloc();
    let (dump, _) = dump_of(alloc, kept(alloc)?)?;
    // A sink that takes a front.
    let mut right = true;
    for room in 0..60 {
        let (status, out, _) = backed_up(alloc, &["dump"], b"", room, kept(alloc)?)?;
        right = right && status == 3 && out.as_slice() == front_of(&dump, room);
    }
    assert!(rt; right);
    // A keeper that can't tell its rows, or take them.
    let (status, out, _) = backed_up(alloc, &["dump"], b"", 100, failing_keeper(alloc, &[1])?)?;
    assert!(rt; status == 4 && out.is_empty());
    for failing in [1, 2] {
        let fails = failing_keeper(alloc, &[failing])?;
        let (status, out, kept) = backed_up(alloc, &["restore"], &dump, 100, fails)?;
        assert!(rt; status == 4 && out.is_empty());
        let (none, _) = dump_of(alloc, kept)?;
        assert!(rt; none.is_empty());
    }
    // A source that fails.
    let mut source = MemorySource::new(dump, Vec::new(alloc), [1].to_vec(alloc)?);
    let mut sink = MemorySink::new(alloc, 100, Vec::new(alloc))?;
    let (status, _) = back_up(
        alloc,
        &words_of(alloc, &["restore"])?,
        &mut source,
        &mut sink,
        keeper(alloc)?,
    );
    assert_eq!(rt; status, 2);
    Ok(())
}

// Words that are neither's.
const NO_WORDS: [&[&str]; 6] = [
    &[],
    &["Dump"],
    &["dump", ""],
    &["dump", "restore"],
    &["restore", "dump"],
    &["restored"],
];

#[test]
fn other_words_have_the_usage_line(rt: HostRuntime) -> Result<(), Fail> {
    let alloc = rt.alloc();
    let mut right = true;
    for &list in &NO_WORDS {
        let (status, out, _) = backed_up(alloc, list, b"", 100, keeper(alloc)?)?;
        right = right && status == 1 && out.as_slice() == USAGE;
    }
    assert!(rt; right);
    Ok(())
}
