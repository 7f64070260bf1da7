//! Edits of the text of a new tracker's setup, one list of them a line: a part of the text, and what stands there in its place, with
//! ` | ` between, and more edits after ` & `. A `;` ends a line of the setup's text. `COUNT times` a text stands for it so many times,
//! with `#` for the number in three digits from 001 and `^` for the letter.
//!
//! The reply is `none` where what the edits make is a setup, and otherwise its first fault: the kind and what it names. `no edit` says that
//! an edit changes nothing.
use fields::{BUILT_IN, Setup, SetupFault};
use std::alloc::{AllocError, Global};
use std::str;

/// What the setup that a line's edits make reads to.
pub fn setup_reply(alloc: Global, line: &[u8]) -> Option<String> {
    let edits = str::from_utf8(line).ok()?;
    match edited_by(alloc, edits)? {
        Some(text) => reading(alloc, text.as_str()),
        None => String::from_str(alloc, "no edit").ok(),
    }
}

// What the text reads to.
fn reading(alloc: Global, text: &str) -> Option<String> {
    match Setup::read(alloc, text.as_bytes()) {
        Ok(_) => String::from_str(alloc, "none").ok(),
        Err(fault) => told(alloc, &fault),
    }
}

// `None` where there was not enough memory.
fn told(alloc: Global, fault: &SetupFault) -> Option<String> {
    let kind = fault.kind();
    match fault.name() {
        Some(name) => format!(in alloc; "{kind} {name}").ok(),
        None if kind == 0 => None,
        None => format!(in alloc; "{kind}").ok(),
    }
}

// The text after each of the edits. `None` inside where one changes nothing.
fn edited_by(alloc: Global, edits: &str) -> Option<Option<String>> {
    let mut text = String::from_str(alloc, BUILT_IN).ok()?;
    for edit in edits.split(" & ") {
        let new = edited(alloc, text.as_str(), edit)?;
        if new.as_str() == text.as_str() {
            return Some(None);
        }
        text = new;
    }
    Some(Some(text))
}

// The text with another part in the place of one.
fn edited(alloc: Global, text: &str, edit: &str) -> Option<String> {
    let edit = edit.replace(alloc, ";", "\n").ok()?;
    let (part, new) = edit.as_str().split_once(" | ")?;
    let new = instead(alloc, new).ok()?;
    text.replace(alloc, part, new.as_str()).ok()
}

// What an edit puts in the place of a part.
fn instead(alloc: Global, text: &str) -> Result<String, AllocError> {
    match text.split_once(" times ") {
        Some((count, part)) => repeated(alloc, count.parse::<u32>().unwrap_or(0), part),
        None => String::from_str(alloc, text),
    }
}

const LETTERS: [&str; 26] = [
    "A", "B", "C", "D", "E", "F", "G", "H", "I", "J", "K", "L", "M", "N", "O", "P", "Q", "R", "S",
    "T", "U", "V", "W", "X", "Y", "Z",
];

// The part so many times, each with its number and letter.
fn repeated(alloc: Global, count: u32, part: &str) -> Result<String, AllocError> {
    let mut text = String::new(alloc);
    for before in 0..count {
        let letter = LETTERS[(before % 26) as usize];
        let piece = piece(alloc, part, before + 1, letter)?;
        text.push_str(piece.as_str())?;
    }
    Ok(text)
}

fn piece(alloc: Global, part: &str, number: u32, letter: &str) -> Result<String, AllocError> {
    let digits = format!(in alloc; "{number:03}")?;
    let lettered = part.replace(alloc, "^", letter)?;
    lettered.as_str().replace(alloc, "#", digits.as_str())
}
