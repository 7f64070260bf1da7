use request_lines::{MemorySink, MemorySource};
use std::alloc::{AllocError, Global};
use std::test::Fail;
use tracker_amend::{amend_setup, is_amend};
use tracker_cli::run;
use tracker_keeper::{Keeper, MemoryKeeper};

const HEAD: &str = r#"utc_offset_minutes = 0
week_starts = "monday"
rebalancer = "ann"
priorities = ["High"]
resolutions = ["Done"]
first_status = "Open"
plan = []
administer = []
"#;

const TAIL: &str = r#"
[[project]]
key = "OPS"
lead = "ann"
browse = ["team"]
create = ["team"]
edit = ["team"]
transition = ["team"]
rank = ["team"]
[[status]]
name = "Open"
category = "todo"
"#;

// A setup with these users, who are all in its one group, and with these types.
fn setup_of(alloc: Global, users: &str, types: &str) -> Result<String, AllocError> {
    format!(in alloc;
        "{}users = [{}]\ntypes = [{}]\n[[group]]\nname = \"team\"\nmembers = [{}]{}",
        HEAD, users, types, users, TAIL
    )
}

fn words(alloc: Global, list: &[&str]) -> Result<Vec<String>, AllocError> {
    let mut words = Vec::new(alloc);
    for word in list {
        words.push(String::from_str(alloc, word)?)?;
    }
    Ok(words)
}

// A keeper in memory that has no row, and fails at these calls, counted from 1.
fn failing_keeper(alloc: Global, failing: &[u64]) -> Result<MemoryKeeper, AllocError> {
    match MemoryKeeper::new(alloc, &[], failing.to_vec(alloc)?) {
        Ok(keeper) => Ok(keeper),
        Err(_) => Err(AllocError),
    }
}

fn source(alloc: Global, input: &[u8]) -> Result<MemorySource, AllocError> {
    Ok(MemorySource::new(input.to_vec(alloc)?, Vec::new(alloc), Vec::new(alloc)))
}

// The status and the output of `amend` over an input, and a sink with room for so many bytes.
fn amended(
    alloc: Global,
    input: &[u8],
    room: usize,
    keeper: &mut MemoryKeeper,
) -> Result<(u8, Vec<u8>), AllocError> {
    let mut source = source(alloc, input)?;
    let mut sink = MemorySink::new(alloc, room, Vec::new(alloc))?;
    let status = amend_setup(alloc, &mut source, &mut sink, keeper);
    Ok((status, sink.taken().to_vec(alloc)?))
}

// The same of a run of `exec`.
fn answered(
    alloc: Global,
    input: &[u8],
    keeper: MemoryKeeper,
) -> Result<(u8, Vec<u8>, MemoryKeeper), AllocError> {
    let mut source = source(alloc, input)?;
    let mut sink = MemorySink::new(alloc, 1_000, Vec::new(alloc))?;
    let words = words(alloc, &["exec"])?;
    let (status, keeper) = run(alloc, &words, &mut source, &mut sink, keeper);
    Ok((status, sink.taken().to_vec(alloc)?, keeper))
}

const CREATE: &str =
    r#"{"user":"ann","call":"create","project":"OPS","type":"Task","summary":"Fix login"}"#;

const CREATED: &str = "{\"ok\":{\"already\":false,\"change\":1,\"issue\":\"OPS-1\"}}\n";

const HAND_OVER: &str = r#"{"user":"ann","call":"edit","issue":"OPS-1","set":{"assignee":"bo"}}"#;

const NO_USER: &str = "{\"refused\":{\"field\":\"assignee\",\"no\":6}}\n";

const HANDED_OVER: &str = "{\"ok\":{\"change\":2,\"issue\":\"OPS-1\"}}\n";

const BY_BO: &str = r#"{"user":"bo","call":"show","issue":"OPS-1"}"#;

const NOT_FOR_BO: &str = "{\"refused\":{\"no\":3,\"permission\":\"browse\",\"project\":\"OPS\"}}\n";

// Setups by their users and types, lines between them, the status and what is written: one after another over one keeper.
const STEPS: [(&str, &str, u8, &str); 11] = [
    // There are no rows yet.
    (r#""ann""#, r#""Task""#, 0, ""),
    (CREATE, "", 0, CREATED),
    (HAND_OVER, "", 0, NO_USER),
    // Bo comes, and a type; the group keeps its one member.
    (r#""ann", "bo""#, r#""Bug", "Task""#, 0, ""),
    (HAND_OVER, "", 0, HANDED_OVER),
    (BY_BO, "", 0, NOT_FOR_BO),
    // The issue's type, its maker and its assignee may not go.
    (r#""ann", "bo""#, r#""Bug""#, 5, "kept 3 1\n"),
    (r#""ann""#, r#""Task""#, 5, "kept 4 2\n"),
    // These are no setups.
    (r#""ann", "ann""#, r#""Task""#, 8, "setup 3 ann\n"),
    (r#""ann"#, r#""Task""#, 8, "setup 1\n"),
    (BY_BO, "", 0, NOT_FOR_BO),
];

#[test]
fn setups_come_one_after_another(rt: HostRuntime) -> Result<(), Fail> {
    let alloc = rt.alloc();
    let mut keeper = failing_keeper(alloc, &[])?;
    let mut right = true;
    for &(first, types, status, text) in &STEPS {
        let (ended, out) = if types.is_empty() {
            let (ended, out, kept) = answered(alloc, first.as_bytes(), keeper)?;
            keeper = kept;
            (ended, out)
        } else {
            let setup = setup_of(alloc, first, types)?;
            amended(alloc, setup.as_bytes(), 100, &mut keeper)?
        };
        right = right && ended == status && out.as_slice() == text.as_bytes();
    }
    assert!(rt; right);
    Ok(())
}

// Whether the keeper has as many rows.
fn has_rows(keeper: &mut MemoryKeeper, count: usize) -> bool {
    match keeper.rows() {
        Ok(rows) => rows.len() == count,
        Err(_) => false,
    }
}

#[test]
fn what_fails_outside_changes_no_row(rt: HostRuntime) -> Result<(), Fail> {
    let alloc = rt.alloc();
    let setup = setup_of(alloc, r#""ann""#, r#""Task""#)?;
    // A keeper that can't tell its rows, or take them.
    for failing in [1, 2] {
        let mut keeper = failing_keeper(alloc, &[failing])?;
        let (status, out) = amended(alloc, setup.as_bytes(), 100, &mut keeper)?;
        assert!(rt; status == 4 && out.is_empty());
        assert!(rt; has_rows(&mut keeper, 0));
    }
    // A sink that takes a front.
    let mut keeper = failing_keeper(alloc, &[])?;
    let (status, out) = amended(alloc, b"=", 3, &mut keeper)?;
    assert!(rt; status == 3 && out.as_slice() == b"set".as_slice());
    // A source that fails.
    let mut source = MemorySource::new(
        setup.as_bytes().to_vec(alloc)?,
        Vec::new(alloc),
        [1].to_vec(alloc)?,
    );
    let mut sink = MemorySink::new(alloc, 100, Vec::new(alloc))?;
    let status = amend_setup(alloc, &mut source, &mut sink, &mut keeper);
    assert_eq!(rt; status, 2);
    assert!(rt; has_rows(&mut keeper, 0));
    Ok(())
}

#[test]
fn an_input_that_is_too_long_is_no_setup(rt: HostRuntime) -> Result<(), Fail> {
    let alloc = rt.alloc();
    let mut keeper = failing_keeper(alloc, &[])?;
    let mut input = Vec::with_capacity(alloc, 1_048_577)?;
    input.push(b'#')?;
    for _ in 1..1_048_576 {
        input.push(b' ')?;
    }
    let (status, out) = amended(alloc, &input, 100, &mut keeper)?;
    assert_eq!(rt; status, 8);
    assert_eq!(rt; out.as_slice(), b"setup 2 utc_offset_minutes\n".as_slice());
    input.push(b' ')?;
    let (status, out) = amended(alloc, &input, 100, &mut keeper)?;
    assert_eq!(rt; status, 7);
    assert_eq!(rt; out.as_slice(), b"limit input\n".as_slice());
    Ok(())
}

// Lists of words, and whether they are the command's.
const WORDS: [(&[&str], bool); 5] = [
    (&["amend"], true),
    (&[], false),
    (&["Amend"], false),
    (&["amend", "amend"], false),
    (&["amends"], false),
];

#[test]
fn one_word_is_the_command(rt: HostRuntime) -> Result<(), Fail> {
    let alloc = rt.alloc();
    let mut right = true;
    for &(list, is) in &WORDS {
        right = right && is_amend(&words(alloc, list)?) == is;
    }
    assert!(rt; right);
    Ok(())
}
