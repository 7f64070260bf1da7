use civil_dates::{date_text, day_of};
use std::alloc::Global;

/// Texts and the days that they write, from `date -u -d @seconds`, and texts that write no day of these years.
const ROWS: [(&str, Option<i32>); 26] = [
    ("1970-01-01", Some(0)),
    ("1970-02-28", Some(58)),
    ("1970-03-01", Some(59)),
    ("1970-12-31", Some(364)),
    ("1971-01-01", Some(365)),
    ("1972-02-29", Some(789)),
    ("2000-02-29", Some(11_016)),
    ("2023-12-31", Some(19_722)),
    ("2024-02-29", Some(19_782)),
    ("2024-03-01", Some(19_783)),
    ("2081-02-14", Some(40_587)),
    ("2099-12-31", Some(47_481)),
    ("", None),
    ("1969-12-31", None),
    ("2100-01-01", None),
    ("2023-02-29", None),
    ("2024-02-30", None),
    ("2024-04-31", None),
    ("2024-00-10", None),
    ("2024-13-01", None),
    ("2024-04-00", None),
    ("2024-4-01", None),
    ("2024-04/01", None),
    ("2024-04-01 ", None),
    ("2024-04-+1", None),
    ("2024-04-1:", None),
];

/// Whether the text writes that day, which is written so.
fn is_read(alloc: Global, text: &str, day: Option<i32>) -> Option<bool> {
    let Some(found) = day_of(text) else {
        return Some(day.is_none());
    };
    let written = date_text(alloc, found).ok()?;
    Some(day == Some(found) && written.as_str() == text)
}

fn are_read(alloc: Global) -> bool {
    for &(text, day) in &ROWS {
        if is_read(alloc, text, day) != Some(true) {
            return false;
        }
    }
    true
}

#[test]
fn reads_each_row_and_writes_its_day(rt: HostRuntime) {
    let passes = are_read(rt.alloc());
    assert!(rt; passes);
}
