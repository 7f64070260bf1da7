// Texts that stand for values by their form alone.
ghost use Rattle.std.specs.Prelude.{◌≡◌, ◌<◌, option_map};
ghost use Rattle.std.specs.Int.{is_in_range};
ghost use Rattle.std.specs.List.{list_all};
ghost use Rattle.field_forms.specs.Cuts.{cut_at};
ghost use Rattle.field_forms.specs.Names.{is_project_key};
ghost use Rattle.jql_grammar.specs.Forms.{is_issue_number, is_issue_key, category_named, is_same_category};

use crate::digits::number_in;
use crate::field_name::is_named;
use fields::Category;

fn has_capitals(bytes: &[u8]) -> bool
    ensures { result ≡ list_all (λ byte. is_in_range 65 90 byte) bytes.now }
{
    bytes.iter().all(|byte| 65 <= *byte && *byte <= 90)
}

fn is_project_key(text: &str) -> bool
    ensures { result ≡ is_project_key text.now }
{
    2 <= text.len() && text.len() <= 10 && has_capitals(text.as_bytes())
}

fn is_issue_number(text: &str) -> bool
    ensures { result ≡ is_issue_number text.now }
{
    let digits = text.as_bytes();
    match number_in(digits) {
        Some(_) => !matches!(digits, [b'0', ..]),
        None => false,
    }
}

fn cut_at(text: &str, mark: char) -> Option<(&str, &str)>
    requires { mark < 128 }
    ensures { option_map (λ parts. (parts.0.now, parts.1.now)) result ≡ cut_at mark text.now }
{
    text.split_once(mark)
}

/// Whether the text has the form of an issue's key, as OPS-7.
#[tactic(auto, unfolding(crate::specs::Forms::is_issue_key))]
pub(crate) fn is_issue_key(text: &str) -> bool
    ensures { result ≡ is_issue_key text.now }
{
    match cut_at(text, '-') {
        Some((project, number)) => is_project_key(project) && is_issue_number(number),
        None => false,
    }
}

/// The category of that name, ASCII case ignored.
#[tactic(auto, unfolding(crate::specs::Forms::category_named))]
pub(crate) fn category_named(name: &str) -> Option<Category>
    ensures { result ≡ category_named name.now }
{
    if is_named(name, "To Do") {
        Some(Category::ToDo)
    } else if is_named(name, "In Progress") {
        Some(Category::InProgress)
    } else if is_named(name, "Done") {
        Some(Category::Done)
    } else {
        None
    }
}

pub(crate) fn is_same_category(one: Category, other: Category) -> bool
    ensures { result ≡ is_same_category one other }
{
    match (one, other) {
        (Category::ToDo, Category::ToDo) => true,
        (Category::InProgress, Category::InProgress) => true,
        (Category::Done, Category::Done) => true,
        _ => false,
    }
}
