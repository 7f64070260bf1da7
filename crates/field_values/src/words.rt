// The words that the setup has for a few things.
ghost use Rattle.std.specs.Prelude.{◌≡◌, ◌≤◌};
ghost use Rattle.field_values.specs.Words.{day_number, weekday_of, category_of, field_kind_of};

/// A day of the week.
#[derive(Clone, Copy, PartialEq, Eq)]
pub enum Weekday {
    Monday,
    Tuesday,
    Wednesday,
    Thursday,
    Friday,
    Saturday,
    Sunday,
}

impl Weekday {
    /// 1 for Monday to 7 for Sunday.
    pub fn number(self) -> u8
        ensures number { result ≡ day_number self }
        ensures monday_or_later { 1 ≤ result }
        ensures sunday_or_earlier { result ≤ 7 }
    {
        match self {
            Weekday::Monday => 1,
            Weekday::Tuesday => 2,
            Weekday::Wednesday => 3,
            Weekday::Thursday => 4,
            Weekday::Friday => 5,
            Weekday::Saturday => 6,
            Weekday::Sunday => 7,
        }
    }
}

/// What a status says of how far an issue is.
#[derive(Clone, Copy, PartialEq, Eq)]
pub enum Category {
    ToDo,
    InProgress,
    Done,
}

/// What a field of the setup's own holds.
#[derive(Clone, Copy, PartialEq, Eq)]
pub enum FieldKind {
    Text,
    Number,
    Choice,
    User,
    Date,
}

/// The day of the week of that name.
pub fn weekday_of(word: &str) -> Option<Weekday>
    ensures { result ≡ weekday_of word.now }
{
    if word == "monday" {
        Some(Weekday::Monday)
    } else if word == "tuesday" {
        Some(Weekday::Tuesday)
    } else if word == "wednesday" {
        Some(Weekday::Wednesday)
    } else if word == "thursday" {
        Some(Weekday::Thursday)
    } else if word == "friday" {
        Some(Weekday::Friday)
    } else if word == "saturday" {
        Some(Weekday::Saturday)
    } else if word == "sunday" {
        Some(Weekday::Sunday)
    } else {
        None
    }
}

/// The category of that name.
pub fn category_of(word: &str) -> Option<Category>
    ensures { result ≡ category_of word.now }
{
    if word == "todo" {
        Some(Category::ToDo)
    } else if word == "progress" {
        Some(Category::InProgress)
    } else if word == "done" {
        Some(Category::Done)
    } else {
        None
    }
}

/// The kind of field of that name.
pub fn field_kind_of(word: &str) -> Option<FieldKind>
    ensures { result ≡ field_kind_of word.now }
{
    if word == "text" {
        Some(FieldKind::Text)
    } else if word == "number" {
        Some(FieldKind::Number)
    } else if word == "choice" {
        Some(FieldKind::Choice)
    } else if word == "user" {
        Some(FieldKind::User)
    } else if word == "date" {
        Some(FieldKind::Date)
    } else {
        None
    }
}
