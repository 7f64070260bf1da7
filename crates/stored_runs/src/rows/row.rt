// The parts of a row.

/// A row's parts, as texts.
#[derive(Clone, Copy)]
pub struct Row<'a> {
    /// The issue's key.
    pub key: &'a str,
    /// The steps of its history.
    pub story: &'a str,
    /// The present moment.
    pub at: &'a str,
    /// Who asks.
    pub user: &'a str,
    pub query: &'a str,
}

/// The parts of a row.
pub fn row_of(line: &str) -> Option<Row<'_>> {
    let (key, rest) = line.split_once(": ")?;
    let (told, query) = rest.split_once(" asks")?;
    let (story, asker) = told.rsplit_once(" | ")?;
    let (at, user) = asker.split_once(' ')?;
    Some(Row {
        key,
        story,
        at,
        user,
        query: query.strip_prefix(' ').unwrap_or(query),
    })
}

/// A creation's or a change group's parts, as texts.
#[derive(Clone, Copy)]
pub struct Step<'a> {
    pub at: &'a str,
    pub user: &'a str,
    pub values: &'a str,
}

/// The parts of a step.
pub fn step_of(text: &str) -> Option<Step<'_>> {
    let (at, rest) = text.split_once(' ')?;
    let (user, values) = rest.split_once(' ').unwrap_or((rest, ""));
    Some(Step { at, user, values })
}
