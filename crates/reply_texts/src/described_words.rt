// The words by which replies name what the setup says.
ghost use Rattle.std.specs.Prelude.{◌≡◌};
ghost use Rattle.reply_texts.specs.Described.{weekday_name, category_name, kind_name};

use field_values::{Category, Weekday};
use tracker_calls::ToldKind;

/// The word by which the setup names a day of the week.
pub fn weekday_name(day: Weekday) -> &'static str
    ensures { result.now ≡ weekday_name day }
{
    match day {
        Weekday::Monday => "monday",
        Weekday::Tuesday => "tuesday",
        Weekday::Wednesday => "wednesday",
        Weekday::Thursday => "thursday",
        Weekday::Friday => "friday",
        Weekday::Saturday => "saturday",
        Weekday::Sunday => "sunday",
    }
}

/// The word by which the setup names a category of statuses.
pub fn category_name(category: Category) -> &'static str
    ensures { result.now ≡ category_name category }
{
    match category {
        Category::ToDo => "todo",
        Category::InProgress => "progress",
        Category::Done => "done",
    }
}

/// The word by which replies tell what a field holds.
pub fn kind_name(kind: ToldKind) -> &'static str
    ensures { result.now ≡ kind_name kind }
{
    match kind {
        ToldKind::Choice => "choice",
        ToldKind::Date => "date",
        ToldKind::Labels => "labels",
        ToldKind::Number => "number",
        ToldKind::Set => "set",
        ToldKind::Sprint => "sprint",
        ToldKind::Text => "text",
        ToldKind::User => "user",
    }
}
