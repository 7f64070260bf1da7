// The texts of conditions.
ghost use Rattle.std.specs.Prelude.{◌≡◌, ◌++◌, ◌-◌, IfOk, OnOk, string_bytes};
ghost use Rattle.fields.specs.SetupParts.{names};
ghost use Rattle.fields.specs.Naming.{name_at};
ghost use Rattle.rule_texts.specs.RuleTexts.{test_text, more_tests_text, tests_text, condition_text};

use field_forms::rule_text::permission_name;
use field_values::memory::Memory;
use field_values::numbers::GroupNo;
use field_values::rules::{CallerTest, Condition};
use field_values::text::Text;
use fields::Setup;
use std::alloc::{AllocError, Global};

/// The name of a group as the setup spells it; an empty text where there is none of that number.
fn group_name(setup: &Setup, group: GroupNo) -> &str
    ensures { result.now ≡ name_at (names setup.now).groups (group.0 - 1) }
{
    match setup
        .group
        .as_slice()
        .get(usize::from(group.0.saturating_sub(1)))
    {
        Some(group) => group.name.as_str(),
        None => "",
    }
}

/// Puts a word and a name behind what is there.
fn put_named(text: &mut String, word: &str, name: &str) -> Result<(), AllocError>
    ensures { OnOk result (string_bytes text.new
        ≡ string_bytes text.old ++ (word.now ++ name.now)) }
{
    write!(text, "{word}{name}")
}

/// Puts the text of a test behind what is there.
fn put_test(text: &mut String, setup: &Setup, test: CallerTest) -> Result<(), AllocError>
    ensures { OnOk result (string_bytes text.new
        ≡ string_bytes text.old ++ test_text (names setup.now) test) }
{
    match test {
        CallerTest::IsAssignee => write!(text, "assignee"),
        CallerTest::IsReporter => write!(text, "reporter"),
        CallerTest::InGroup(group) => put_named(text, "group:", group_name(setup, group)),
        CallerTest::HasPermission(permission) => {
            put_named(text, "permission:", permission_name(permission))
        }
    }
}

/// Puts the texts of tests behind what is there, each behind a `|`.
fn put_more_tests(text: &mut String, setup: &Setup, tests: &[CallerTest]) -> Result<(), AllocError>
    ensures { OnOk result (string_bytes text.new
        ≡ string_bytes text.old ++ more_tests_text (names setup.now) tests.now) }
{
    for test in tests {
        text.push('|')?;
        put_test(text, setup, *test)?;
    }
    Ok(())
}

/// Puts the texts of tests behind what is there, with `|` between them.
fn put_tests(text: &mut String, setup: &Setup, tests: &[CallerTest]) -> Result<(), AllocError>
    ensures { OnOk result (string_bytes text.new
        ≡ string_bytes text.old ++ tests_text (names setup.now) tests.now) }
{
    let Some((first, more)) = tests.split_first() else {
        return Ok(());
    };
    put_test(text, setup, *first)?;
    put_more_tests(text, setup, more)
}

#[tactic(auto, unfolding(crate::specs::RuleTexts::condition_text))]
fn put_condition(text: &mut String, setup: &Setup, condition: &Condition) -> Result<(), AllocError>
    ensures { OnOk result (string_bytes text.new
        ≡ string_bytes text.old ++ condition_text (names setup.now) condition.now) }
{
    match condition {
        Condition::Test(test) => put_test(text, setup, *test),
        Condition::AnyOf(tests) => {
            write!(text, "any:")?;
            put_tests(text, setup, tests.as_slice())
        }
    }
}

/// The text of a condition, which states it.
pub fn condition_text(alloc: Global, setup: &Setup, condition: &Condition) -> Result<Text, Memory>
    ensures { IfOk result (λ text. text ≡ condition_text (names setup.now) condition.now) }
{
    let mut text = String::new(alloc);
    put_condition(&mut text, setup, condition)?;
    Ok(Text::of(text))
}
