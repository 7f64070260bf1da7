use field_values::Text;
use fields::BUILT_IN;
use request_lines::{MemorySink, MemorySource};
use std::alloc::{AllocError, Global};
use std::test::Fail;
use tracker_cli::run;
use tracker_keeper::{Keeper, MemoryKeeper, Row, RowOp};

const TICKS: &[u8] =
    b"{\"user\":\"anna\",\"call\":\"tick\",\"to\":5}\n \t\n{\"user\":\"bo\",\"call\":\"tick\",\"to\":4}\n{}\n{\"user\":\"zed\",\"call\":\"tick\",\"to\":9}";

const REPLIES: &[u8] =
    b"{\"ok\":{\"moment\":5}}\n{\"refused\":{\"kept\":5,\"no\":11}}\n{\"refused\":{\"member\":\"user\",\"no\":1}}\n{\"refused\":{\"kind\":\"user\",\"name\":\"zed\",\"no\":2}}\n";

/// The bytes of the first reply, of the first two, and of the first three, with their line feeds.
const ENDS: [usize; 3] = [20, 51, 88];

const CSV: &[u8] =
    b"external,project,type,summary,assignee,reporter,priority,points,due\nX-1,OPS,Task,Move desks,,,,,\nX-1,OPS,Task,Move desks,,,,,\nX-2\n";

const IMPORTED: &[u8] =
    b"{\"ok\":{\"already\":false,\"change\":1,\"issue\":\"OPS-1\"}}\n{\"ok\":{\"already\":true,\"change\":1,\"issue\":\"OPS-1\"}}\ncsv 3\n";

const EXPORTED: &[u8] =
    b"key,external,project,type,summary,status,assignee,reporter,priority,resolution,points,due\nOPS-1,X-1,OPS,Task,Move desks,";

fn words(alloc: Global, word: &str) -> Result<Vec<String>, AllocError> {
    let mut words = Vec::new(alloc);
    words.push(String::from_str(alloc, word)?)?;
    Ok(words)
}

fn text(alloc: Global, text: &str) -> Result<Text, AllocError> {
    match Text::copy_of(alloc, text) {
        Ok(text) => Ok(text),
        Err(_) => Err(AllocError),
    }
}

// A keeper in memory that has no row and never fails.
fn keeper(alloc: Global) -> Result<MemoryKeeper, AllocError> {
    failing_keeper(alloc, Vec::new(alloc))
}

// One that fails at these calls, counted from 1.
fn failing_keeper(alloc: Global, failing: Vec<u64>) -> Result<MemoryKeeper, AllocError> {
    match MemoryKeeper::new(alloc, &[], failing) {
        Ok(keeper) => Ok(keeper),
        Err(_) => Err(AllocError),
    }
}

// The status and the output of a run over the ticks, read in pieces of that length.
fn played(
    alloc: Global,
    piece: usize,
    bad_reads: Vec<u64>,
    room: usize,
    bad_writes: Vec<u64>,
) -> Result<(u8, Vec<u8>), AllocError> {
    let mut pieces = Vec::new(alloc);
    for _ in 0..TICKS.len() {
        pieces.push(piece)?;
    }
    let mut source = MemorySource::new(TICKS.to_vec(alloc)?, pieces, bad_reads);
    let mut sink = MemorySink::new(alloc, room, bad_writes)?;
    let (status, _) = run(
        alloc,
        &words(alloc, "exec")?,
        &mut source,
        &mut sink,
        keeper(alloc)?,
    );
    Ok((status, sink.taken().to_vec(alloc)?))
}

#[test]
fn an_input_is_answered_however_it_is_cut(rt: HostRuntime) -> Result<(), Fail> {
    let alloc = rt.alloc();
    for piece in 1..40 {
        let (status, out) = played(alloc, piece, Vec::new(alloc), 1_000, Vec::new(alloc))?;
        assert_eq!(rt; status, 0);
        assert_eq!(rt; out.as_slice(), REPLIES);
    }
    Ok(())
}

#[test]
fn a_read_that_fails_leaves_the_whole_lines_before(rt: HostRuntime) -> Result<(), Fail> {
    let alloc = rt.alloc();
    // The first request ends in the third read of 16 bytes, the second and third in the fifth; the last
    // line's end is seen by the ninth alone.
    let shown = [0, 0, 0, 20, 20, 88, 88, 88, 88];
    for place in 0..shown.len() {
        let bad_reads = [place as u64 + 1].to_vec(alloc)?;
        let (status, out) = played(alloc, 16, bad_reads, 1_000, Vec::new(alloc))?;
        assert_eq!(rt; status, 2);
        assert_eq!(rt; out.len(), shown[place]);
        assert!(rt; REPLIES.starts_with(&out));
    }
    Ok(())
}

#[test]
fn a_write_that_fails_leaves_a_front(rt: HostRuntime) -> Result<(), Fail> {
    let alloc = rt.alloc();
    for place in 0..ENDS.len() {
        let bad_writes = [place as u64 + 2].to_vec(alloc)?;
        let (status, out) = played(alloc, 100, Vec::new(alloc), 1_000, bad_writes)?;
        assert_eq!(rt; status, 3);
        assert_eq!(rt; out.len(), ENDS[place]);
    }
    for room in 0..REPLIES.len() {
        let (status, out) = played(alloc, 100, Vec::new(alloc), room, Vec::new(alloc))?;
        assert_eq!(rt; status, 3);
        assert_eq!(rt; out.as_slice(), &REPLIES[..room]);
    }
    Ok(())
}

// The status and the output of a run over these bytes, which come at once, where the writes of these numbers fail.
fn answered(
    alloc: Global,
    bytes: &[u8],
    bad_writes: Vec<u64>,
) -> Result<(u8, Vec<u8>), AllocError> {
    let mut source = MemorySource::new(bytes.to_vec(alloc)?, Vec::new(alloc), Vec::new(alloc));
    let mut sink = MemorySink::new(alloc, 20_000, bad_writes)?;
    let (status, _) = run(
        alloc,
        &words(alloc, "exec")?,
        &mut source,
        &mut sink,
        keeper(alloc)?,
    );
    Ok((status, sink.taken().to_vec(alloc)?))
}

#[test]
fn replies_that_change_nothing_are_written_together(rt: HostRuntime) -> Result<(), Fail> {
    let alloc = rt.alloc();
    let lines =
        b"{\"user\":\"anna\",\"call\":\"tick\",\"to\":5}\n{}\n{}\n{\"user\":\"anna\",\"call\":\"tick\",\"to\":6}\n{}\n";
    // The replies to each tick, to the two lines between them, and to the last one.
    let ends = [0, 20, 94, 114, 151];
    for place in 0..ends.len() {
        let bad_writes = [place as u64 + 1].to_vec(alloc)?;
        let (status, out) = answered(alloc, lines, bad_writes)?;
        assert_eq!(rt; status, if place < 4 { 3 } else { 0 });
        assert_eq!(rt; out.len(), ends[place]);
    }
    Ok(())
}

#[test]
fn more_replies_than_may_wait_are_all_written(rt: HostRuntime) -> Result<(), Fail> {
    let alloc = rt.alloc();
    let mut lines = Vec::new(alloc);
    let mut replies = Vec::new(alloc);
    for _ in 0..500 {
        lines.extend_from_slice(b"{}\n")?;
        replies.extend_from_slice(b"{\"refused\":{\"member\":\"user\",\"no\":1}}\n")?;
    }
    let (status, out) = answered(alloc, &lines, Vec::new(alloc))?;
    assert_eq!(rt; status, 0);
    assert_eq!(rt; out.as_slice(), replies.as_slice());
    Ok(())
}

// `import` and this word.
fn import_words(alloc: Global, user: &str) -> Result<Vec<String>, AllocError> {
    let mut words = words(alloc, "import")?;
    words.push(String::from_str(alloc, user)?)?;
    Ok(words)
}

#[test]
fn what_is_imported_up_to_a_bad_record_is_exported(rt: HostRuntime) -> Result<(), Fail> {
    let alloc = rt.alloc();
    let mut source = MemorySource::new(CSV.to_vec(alloc)?, Vec::new(alloc), Vec::new(alloc));
    let mut sink = MemorySink::new(alloc, 1_000, Vec::new(alloc))?;
    let (status, keeper) = run(
        alloc,
        &import_words(alloc, "anna")?,
        &mut source,
        &mut sink,
        keeper(alloc)?,
    );
    assert_eq!(rt; status, 8);
    assert_eq!(rt; sink.taken(), IMPORTED);
    let mut sink = MemorySink::new(alloc, 1_000, Vec::new(alloc))?;
    let (status, _) = run(
        alloc,
        &words(alloc, "export")?,
        &mut source,
        &mut sink,
        keeper,
    );
    assert_eq!(rt; status, 0);
    assert!(rt; sink.taken().starts_with(EXPORTED));
    Ok(())
}

#[test]
fn import_takes_a_user_that_is_no_option(rt: HostRuntime) -> Result<(), Fail> {
    let alloc = rt.alloc();
    for (user, due) in [("-h", 1), ("-", 1), ("", 8), ("anna", 8)] {
        let mut source = MemorySource::new(Vec::new(alloc), Vec::new(alloc), Vec::new(alloc));
        let mut sink = MemorySink::new(alloc, 100, Vec::new(alloc))?;
        let (status, _) = run(
            alloc,
            &import_words(alloc, user)?,
            &mut source,
            &mut sink,
            keeper(alloc)?,
        );
        assert_eq!(rt; status, due);
    }
    Ok(())
}

// Words that are no command's.
const NO_COMMANDS: [&[&str]; 24] = [
    &[],
    &[""],
    &["Exec"],
    &["exec "],
    &["Check"],
    &["help"],
    &["help", "exec"],
    &["-h"],
    &["exec", "-h"],
    &["exec", "--"],
    &["exec", "exec"],
    &["export", ""],
    &["Export"],
    &["import"],
    &["import", "-"],
    &["import", "anna", "bo"],
    &["generate"],
    &["generate", "0"],
    &["generate", "007"],
    &["generate", "+5"],
    &["generate", "20001"],
    &["generate", "5 "],
    &["generate", "five"],
    &["generate", "5", "6"],
];

const USAGE: &[u8] = b"usage: exec, check, init, import USER, export, generate N\n";

fn words_of(alloc: Global, list: &[&str]) -> Result<Vec<String>, AllocError> {
    let mut words = Vec::new(alloc);
    for word in list {
        words.push(String::from_str(alloc, word)?)?;
    }
    Ok(words)
}

// The status and the output of a run without input over a sink with room for so many bytes, and its keeper.
fn ran_in_room(
    alloc: Global,
    list: &[&str],
    room: usize,
    keeper: MemoryKeeper,
) -> Result<(u8, Vec<u8>, MemoryKeeper), AllocError> {
    let mut source = MemorySource::new(Vec::new(alloc), Vec::new(alloc), Vec::new(alloc));
    let mut sink = MemorySink::new(alloc, room, Vec::new(alloc))?;
    let (status, keeper) = run(
        alloc,
        &words_of(alloc, list)?,
        &mut source,
        &mut sink,
        keeper,
    );
    Ok((status, sink.taken().to_vec(alloc)?, keeper))
}

#[test]
fn words_that_are_no_command_are_a_usage_error(rt: HostRuntime) -> Result<(), Fail> {
    let alloc = rt.alloc();
    let mut right = true;
    for &list in &NO_COMMANDS {
        let (status, out, _) = ran_in_room(alloc, list, 100, keeper(alloc)?)?;
        right = right && status == 1 && out.as_slice() == USAGE;
    }
    assert!(rt; right);
    Ok(())
}

/// What the load of four issues comes to.
const FOUR: &[u8] = b"calls 20 refused 0 members 1 left 3000 bucket 1\n";

// Loads by their numbers, and what they come to.
const LOADS: [(&str, &[u8]); 3] = [
    ("4", FOUR),
    ("20", b"calls 81 refused 0 members 3 left 19000 bucket 1\n"),
    (
        "1000",
        b"calls 3789 refused 0 members 125 left 1001000 bucket 1\n",
    ),
];

#[test]
fn a_load_is_made_in_an_empty_keeper_alone(rt: HostRuntime) -> Result<(), Fail> {
    let alloc = rt.alloc();
    let mut right = true;
    for &(number, text) in &LOADS {
        let list = ["generate", number];
        let (status, out, keeper) = ran_in_room(alloc, &list, 100, keeper(alloc)?)?;
        right = right && status == 0 && out.as_slice() == text;
        let (status, out, _) = ran_in_room(alloc, &list, 100, keeper)?;
        right = right && status == 9 && out.as_slice() == b"held\n".as_slice();
    }
    assert!(rt; right);
    Ok(())
}

// At which call the keeper fails, and the kinds of the rows that are kept then. Its calls: to ask for rows, to keep the opening rows,
// and those of the load, of which the first is a tick and the second makes an issue.
const FAILING_LOADS: [(u64, &[u8]); 5] = [
    (1, b""),
    (2, b""),
    (3, b"\x01\x02\x0a\x0a\x0a"),
    (4, b"\x01\x02\x0a\x0a\x0a"),
    (5, b"\x01\x02\x03\x05\x0a\x0a\x0a"),
];

#[test]
fn a_load_ends_where_the_keeper_fails(rt: HostRuntime) -> Result<(), Fail> {
    let alloc = rt.alloc();
    let mut right = true;
    for &(failing, kinds) in &FAILING_LOADS {
        let keeper = failing_keeper(alloc, [failing].to_vec(alloc)?)?;
        let (status, out, mut kept) = ran_in_room(alloc, &["generate", "4"], 100, keeper)?;
        right = right && status == 4 && out.is_empty();
        right = right && kinds_of(alloc, &mut kept)?.as_slice() == kinds;
    }
    assert!(rt; right);
    Ok(())
}

#[test]
fn a_sink_takes_a_front_of_what_a_load_comes_to(rt: HostRuntime) -> Result<(), Fail> {
    let alloc = rt.alloc();
    let mut right = true;
    for room in 0..FOUR.len() {
        let (status, out, kept) = ran_in_room(alloc, &["generate", "4"], room, keeper(alloc)?)?;
        right = right && status == 3 && out.as_slice() == &FOUR[..room];
        let (status, out, _) = ran_in_room(alloc, &["generate", "4"], 3, kept)?;
        right = right && status == 3 && out.as_slice() == b"hel".as_slice();
    }
    assert!(rt; right);
    Ok(())
}

// The status and the output of a run over one line of that many bytes after a tick.
fn long_line(alloc: Global, len: usize) -> Result<(u8, Vec<u8>), AllocError> {
    let mut bytes = b"{\"user\":\"anna\",\"call\":\"tick\",\"to\":5}\n".to_vec(alloc)?;
    for _ in 0..len {
        bytes.push(b'x')?;
    }
    let mut source = MemorySource::new(bytes, Vec::new(alloc), Vec::new(alloc));
    let mut sink = MemorySink::new(alloc, 100, Vec::new(alloc))?;
    let (status, _) = run(
        alloc,
        &words(alloc, "exec")?,
        &mut source,
        &mut sink,
        keeper(alloc)?,
    );
    Ok((status, sink.taken().to_vec(alloc)?))
}

#[test]
fn a_line_passes_its_limit_by_one_byte(rt: HostRuntime) -> Result<(), Fail> {
    let alloc = rt.alloc();
    let (status, out) = long_line(alloc, 65_536)?;
    assert_eq!(rt; status, 0);
    assert_eq!(rt;
        out.as_slice(),
        b"{\"ok\":{\"moment\":5}}\n{\"refused\":{\"member\":\"line\",\"no\":1}}\n".as_slice()
    );
    let (status, out) = long_line(alloc, 65_537)?;
    assert_eq!(rt; status, 7);
    assert_eq!(rt;
        out.as_slice(),
        b"{\"ok\":{\"moment\":5}}\nlimit line\n".as_slice()
    );
    Ok(())
}

// The status and the output of a run over that many blank lines.
fn many_lines(alloc: Global, count: usize) -> Result<(u8, Vec<u8>), AllocError> {
    let mut bytes = Vec::with_capacity(alloc, count)?;
    for _ in 0..count {
        bytes.push(b'\n')?;
    }
    let mut source = MemorySource::new(bytes, Vec::new(alloc), Vec::new(alloc));
    let mut sink = MemorySink::new(alloc, 100, Vec::new(alloc))?;
    let (status, _) = run(
        alloc,
        &words(alloc, "exec")?,
        &mut source,
        &mut sink,
        keeper(alloc)?,
    );
    Ok((status, sink.taken().to_vec(alloc)?))
}

#[test]
fn the_lines_pass_their_limit_by_one(rt: HostRuntime) -> Result<(), Fail> {
    let alloc = rt.alloc();
    let (status, out) = many_lines(alloc, 1_000_000)?;
    assert_eq!(rt; status, 0);
    assert_eq!(rt; out.as_slice(), b"".as_slice());
    let (status, out) = many_lines(alloc, 1_000_001)?;
    assert_eq!(rt; status, 7);
    assert_eq!(rt; out.as_slice(), b"limit lines\n".as_slice());
    Ok(())
}

// The status and the output of `check` over the bytes, read in pieces of that length.
fn checked(
    alloc: Global,
    bytes: &[u8],
    piece: usize,
    bad_reads: Vec<u64>,
) -> Result<(u8, Vec<u8>), AllocError> {
    let mut pieces = Vec::new(alloc);
    for _ in 0..bytes.len() {
        pieces.push(piece)?;
    }
    let mut source = MemorySource::new(bytes.to_vec(alloc)?, pieces, bad_reads);
    let mut sink = MemorySink::new(alloc, 1_000, Vec::new(alloc))?;
    let (status, _) = run(
        alloc,
        &words(alloc, "check")?,
        &mut source,
        &mut sink,
        keeper(alloc)?,
    );
    Ok((status, sink.taken().to_vec(alloc)?))
}

#[test]
fn each_line_is_checked(rt: HostRuntime) -> Result<(), Fail> {
    let alloc = rt.alloc();
    let mut bytes = b"a=b\n\na = \xff\nstatus =\n".to_vec(alloc)?;
    for _ in 0..4_097 {
        bytes.push(b' ')?;
    }
    let replies = b"ok a = \"b\"\nok\nfault 4 1\nfault 8 3\nfault 4096 5\n";
    for piece in [1, 7, 5_000] {
        let (status, out) = checked(alloc, &bytes, piece, Vec::new(alloc))?;
        assert_eq!(rt; status, 0);
        assert_eq!(rt; out.as_slice(), replies.as_slice());
    }
    // The second read fails: the first line alone was whole.
    let (status, out) = checked(alloc, &bytes, 4, [2].to_vec(alloc)?)?;
    assert_eq!(rt; status, 2);
    assert_eq!(rt; out.as_slice(), b"ok a = \"b\"\n".as_slice());
    for _ in 0..65_536 {
        bytes.push(b' ')?;
    }
    let (status, out) = checked(alloc, &bytes, 5_000, Vec::new(alloc))?;
    assert_eq!(rt; status, 7);
    assert_eq!(rt;
        out.as_slice(),
        b"ok a = \"b\"\nok\nfault 4 1\nfault 8 3\nlimit line\n".as_slice()
    );
    Ok(())
}

const CREATE: &[u8] =
    b"{\"user\":\"anna\",\"call\":\"create\",\"project\":\"OPS\",\"type\":\"Task\",\"summary\":\"Fix login\"}\n";

// The status and the output of a run over three creates, and the kinds of the rows that are kept then.
fn three_creates(
    alloc: Global,
    keeper: MemoryKeeper,
) -> Result<(u8, Vec<u8>, Vec<u8>), AllocError> {
    let mut bytes = Vec::new(alloc);
    for _ in 0..3 {
        bytes.extend_from_slice(CREATE)?;
    }
    let mut source = MemorySource::new(bytes, Vec::new(alloc), Vec::new(alloc));
    let mut sink = MemorySink::new(alloc, 1_000, Vec::new(alloc))?;
    let (status, mut keeper) = run(
        alloc,
        &words(alloc, "exec")?,
        &mut source,
        &mut sink,
        keeper,
    );
    let kinds = kinds_of(alloc, &mut keeper)?;
    Ok((status, sink.taken().to_vec(alloc)?, kinds))
}

// The kinds of the rows that are kept; none where these aren't told.
fn kinds_of(alloc: Global, keeper: &mut MemoryKeeper) -> Result<Vec<u8>, AllocError> {
    let mut kinds = Vec::new(alloc);
    if let Ok(rows) = keeper.rows() {
        for row in &rows {
            kinds.push(row.kind)?;
        }
    }
    Ok(kinds)
}

#[test]
fn a_keeper_that_fails_once_refuses_one_call(rt: HostRuntime) -> Result<(), Fail> {
    let alloc = rt.alloc();
    // Its calls: to ask for rows, to keep the opening rows, and one a create.
    let (status, out, kinds) = three_creates(alloc, failing_keeper(alloc, [4].to_vec(alloc)?)?)?;
    assert_eq!(rt; status, 0);
    assert_eq!(rt;
        out.as_slice(),
        b"{\"ok\":{\"already\":false,\"change\":1,\"issue\":\"OPS-1\"}}\n{\"refused\":{\"no\":14}}\n{\"ok\":{\"already\":false,\"change\":2,\"issue\":\"OPS-2\"}}\n".as_slice()
    );
    // Setup and moment, then the two issues, the rank of each, and the members of three groups.
    assert_eq!(rt;
        kinds.as_slice(),
        b"\x01\x02\x03\x03\x05\x05\x0a\x0a\x0a".as_slice()
    );
    Ok(())
}

#[test]
fn a_keeper_that_fails_at_first_leaves_nothing(rt: HostRuntime) -> Result<(), Fail> {
    let alloc = rt.alloc();
    for call in [1, 2] {
        let (status, out, kinds) = three_creates(
            alloc,
            failing_keeper(alloc, [call].to_vec(alloc)?)?,
        )?;
        assert_eq!(rt; status, 4);
        assert!(rt; out.is_empty());
        assert!(rt; kinds.is_empty());
    }
    Ok(())
}

// Keeps a row.
fn keep(
    alloc: Global,
    keeper: &mut MemoryKeeper,
    kind: u8,
    no: u32,
    body: &str,
) -> Result<(), AllocError> {
    let body = text(alloc, body)?;
    let mut ops = Vec::new(alloc);
    ops.push(RowOp::Put(Row {
        kind,
        no: u64::from(no),
        body,
    }))?;
    let _ = keeper.commit(&ops);
    Ok(())
}

// Where a new tracker stands, in the first format.
const FIRST: &str = "{\"balance\":[0],\"change\":0,\"format\":1,\"moment\":0}";

// At which call the keeper fails, with which status the run ends, and the kinds of the rows that are kept then. Its calls: to keep the
// two rows of the first format, to tell them, to keep those of the second, and to tell these.
const MIGRATIONS: [(u64, u8, &[u8]); 2] = [(9, 0, b"\x01\x02\x0a\x0a\x0a"), (4, 4, b"\x01\x02")];

#[test]
fn rows_of_the_first_format_are_migrated_at_once(rt: HostRuntime) -> Result<(), Fail> {
    let alloc = rt.alloc();
    let mut right = true;
    for &(failing, status, kinds) in &MIGRATIONS {
        let mut keeper = failing_keeper(alloc, [failing].to_vec(alloc)?)?;
        keep(alloc, &mut keeper, 1, 0, BUILT_IN)?;
        keep(alloc, &mut keeper, 2, 0, FIRST)?;
        let (ended, out, mut kept) = ran(alloc, "exec", "", keeper)?;
        right = right && ended == status && out.is_empty();
        right = right && kinds_of(alloc, &mut kept)?.as_slice() == kinds;
    }
    assert!(rt; right);
    Ok(())
}

#[test]
fn rows_that_are_no_trackers_are_left(rt: HostRuntime) -> Result<(), Fail> {
    let alloc = rt.alloc();
    let mut keeper = keeper(alloc)?;
    keep(alloc, &mut keeper, 6, 1, "OPS-1")?;
    let (status, out, kinds) = three_creates(alloc, keeper)?;
    assert_eq!(rt; status, 5);
    assert_eq!(rt; out.as_slice(), b"kept 1 0\n".as_slice());
    assert_eq!(rt; kinds.as_slice(), b"\x06".as_slice());
    Ok(())
}

/// A line that makes an issue.
const ONE: &str =
    "{\"user\":\"anna\",\"call\":\"create\",\"project\":\"OPS\",\"type\":\"Task\",\"summary\":\"Fix login\"}";

// Words, an input, the status and what is written, one run after another over one keeper.
const STEPS: [(&str, &str, u8, &str); 10] = [
    ("init", "users = 3", 8, "setup 2 utc_offset_minutes\n"),
    ("init", BUILT_IN, 0, ""),
    ("init", BUILT_IN, 9, "held\n"),
    (
        "exec",
        ONE,
        0,
        "{\"ok\":{\"already\":false,\"change\":1,\"issue\":\"OPS-1\"}}\n",
    ),
    (
        "exec",
        ONE,
        0,
        "{\"ok\":{\"already\":false,\"change\":2,\"issue\":\"OPS-2\"}}\n",
    ),
    (
        "exec",
        "{\"user\":\"cy\",\"call\":\"search\",\"jql\":\"\"}",
        0,
        "{\"ok\":{\"issues\":[\"OPS-1\",\"OPS-2\"],\"total\":2}}\n",
    ),
    ("exec", SPRINT, 0, SPRINTED),
    ("exec", BURNDOWN, 0, BURNED),
    ("exec", REGROUP, 0, REGROUPED),
    ("exec", AGAIN, 0, TOLD),
];

// A sprint with an issue of 3 points, from before its start to after its close.
const SPRINT: &str = r#"{"user":"anna","call":"make_sprint","name":"March"}
{"user":"anna","call":"edit","issue":"OPS-1","set":{"sprint":1,"points":"3"}}
{"user":"anna","call":"start_sprint","sprint":1}
{"user":"anna","call":"edit","issue":"OPS-1","set":{"points":"5"}}
{"user":"anna","call":"transition","issue":"OPS-1","transition":"Start"}
{"user":"anna","call":"transition","issue":"OPS-1","transition":"Finish"}
{"user":"anna","call":"transition","issue":"OPS-1","transition":"Reopen"}
{"user":"anna","call":"close_sprint","sprint":1}
{"user":"anna","call":"edit","issue":"OPS-1","set":{"points":"1"}}"#;

const SPRINTED: &str = r#"{"ok":{"sprint":1}}
{"ok":{"change":3,"issue":"OPS-1"}}
{"ok":{"sprint":1,"state":"active"}}
{"ok":{"change":4,"issue":"OPS-1"}}
{"ok":{"change":5,"issue":"OPS-1"}}
{"ok":{"change":6,"issue":"OPS-1"}}
{"ok":{"change":7,"issue":"OPS-1"}}
{"ok":{"sprint":1,"state":"closed"}}
{"ok":{"change":8,"issue":"OPS-1"}}
"#;

// The next run tells the same of it.
const BURNDOWN: &str = r#"{"user":"anna","call":"burndown","sprint":1}"#;

const BURNED: &str =
    r#"{"ok":{"left":5000,"rows":[{"at":0,"by":2000,"change":4,"issue":"OPS-1","left":5000},{"at":0,"by":-5000,"change":6,"issue":"OPS-1","left":0},{"at":0,"by":5000,"change":7,"issue":"OPS-1","left":5000}],"start":3000,"state":"closed","total":3}}
"#;

// An issue with an external id, and a group that Bo leaves.
const REGROUP: &str =
    r#"{"user":"bo","call":"create","project":"OPS","type":"Bug","summary":"Crash","external":"J-1"}
{"user":"anna","call":"set_group","group":"team","members":["root","anna"]}"#;

const REGROUPED: &str = r#"{"ok":{"already":false,"change":9,"issue":"OPS-3"}}
{"ok":{"group":"team","members":2}}
"#;

// The next run knows both.
const AGAIN: &str = r#"{"user":"bo","call":"show","issue":"OPS-3"}
{"user":"anna","call":"create","project":"ops","type":"bug","summary":"Crash","external":"J-1"}
{"user":"anna","call":"create","project":"OPS","type":"Bug","summary":"crash","external":"J-1"}"#;

const TOLD: &str = r#"{"refused":{"no":3,"permission":"browse","project":"OPS"}}
{"ok":{"already":true,"change":9,"issue":"OPS-3"}}
{"refused":{"external":"J-1","kept":"OPS-3","no":13}}
"#;

// The status and the output of a run, and its keeper.
fn ran(
    alloc: Global,
    word: &str,
    input: &str,
    keeper: MemoryKeeper,
) -> Result<(u8, Vec<u8>, MemoryKeeper), AllocError> {
    let mut source = MemorySource::new(
        input.as_bytes().to_vec(alloc)?,
        Vec::new(alloc),
        Vec::new(alloc),
    );
    let mut sink = MemorySink::new(alloc, 1_000, Vec::new(alloc))?;
    let (status, keeper) = run(alloc, &words(alloc, word)?, &mut source, &mut sink, keeper);
    Ok((status, sink.taken().to_vec(alloc)?, keeper))
}

#[test]
fn a_tracker_is_made_once_and_goes_on(rt: HostRuntime) -> Result<(), Fail> {
    let alloc = rt.alloc();
    let mut keeper = keeper(alloc)?;
    let mut right = true;
    for &(word, input, status, text) in &STEPS {
        let (ended, out, kept) = ran(alloc, word, input, keeper)?;
        keeper = kept;
        right = right && ended == status && out.as_slice() == text.as_bytes();
    }
    assert!(rt; right);
    Ok(())
}
