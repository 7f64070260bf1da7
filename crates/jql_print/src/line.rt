// A text that grows token by token.
ghost use Rattle.std.specs.Prelude.{◌≡◌, ◌∷◌, ◌++◌, [], true, false, ◌||◌, if◌then◌else◌, OnOk, string_bytes, encode_utf8_all, chars, List, IfOk};
ghost use Rattle.jql_print.specs.Print.{is_bare, name_token};
ghost use Rattle.jql_print.specs.Spelling.{mark_spelling, escaped, is_tight, closes, Writes};
ghost use Rattle.jql_syntax.specs.Tokens.{begins_with};
ghost use Rattle.std.specs.List.{list_all};
ghost use Rattle.std.specs.Char.{is_ascii_alphabetic, is_ascii_alphanumeric};
ghost use Rattle.jql_syntax.specs.declared.token.Token.TheVariants.{Marked, Word, Name as NameToken, Quoted, Custom};

use field_values::{Memory, Text};
use jql_syntax::{Mark, keyword};
use std::alloc::Global;

/// The text so far, and whether no space stands before the next token.
#[derive(Drop)]
pub(crate) struct Line {
    pub text: String,
    pub is_tight: bool,
}

// The spelling of a sign or of a keyword.
fn spelling(mark: Mark) -> &'static str
    ensures { result.now ≡ mark_spelling mark }
{
    match mark {
        Mark::Equals => "=",
        Mark::NotEquals => "!=",
        Mark::Greater => ">",
        Mark::GreaterOrEqual => ">=",
        Mark::Less => "<",
        Mark::LessOrEqual => "<=",
        Mark::Contains => "~",
        Mark::Lacks => "!~",
        Mark::Open => "(",
        Mark::Close => ")",
        Mark::Comma => ",",
        Mark::And => "AND",
        Mark::Or => "OR",
        Mark::Not => "NOT",
        Mark::Empty => "EMPTY",
        Mark::In => "IN",
        Mark::Is => "IS",
        Mark::Was => "WAS",
        Mark::Changed => "CHANGED",
        Mark::Order => "ORDER",
        Mark::By => "BY",
        Mark::Ascending => "ASC",
        Mark::Descending => "DESC",
        Mark::After => "AFTER",
        Mark::Before => "BEFORE",
        Mark::On => "ON",
        Mark::During => "DURING",
        Mark::From => "FROM",
        Mark::To => "TO",
    }
}

// A space, where one stands before the next token.
fn space(line: &mut Line, closes: bool) -> Result<(), Memory>
    ensures { OnOk result (string_bytes line.new.text
        ≡ string_bytes line.old.text ++ (if line.old.is_tight || closes then [] else 32 ∷ [])) }
{
    if line.is_tight || closes {
        return Ok(());
    }
    line.text.push(' ')?;
    Ok(())
}

// Whether no space stands behind the sign, and whether none stands before it.
fn is_tight(mark: Mark) -> bool
    ensures { result ≡ is_tight (Marked mark) }
{
    matches!(mark, Mark::Open)
}

fn closes(mark: Mark) -> bool
    ensures { result ≡ closes (Marked mark) }
{
    matches!(mark, Mark::Close | Mark::Comma)
}

/// A sign or a keyword.
pub(crate) fn put(line: &mut Line, mark: Mark) -> Result<(), Memory>
    ensures { OnOk result (Writes line.old line.new (λ rest. Marked mark ∷ rest)) }
{
    space(line, closes(mark))?;
    line.text.push_str(spelling(mark))?;
    line.is_tight = is_tight(mark);
    Ok(())
}

/// A function's name.
pub(crate) fn put_name(line: &mut Line, name: &Text) -> Result<(), Memory>
    ensures { OnOk result (Writes line.old line.new (λ rest. NameToken name.now ∷ rest)) }
{
    space(line, false)?;
    line.text.push_str(name.as_str())?;
    line.is_tight = true;
    Ok(())
}

// A character in quotes, behind a backslash where it wants one.
fn escape(out: &mut String, c: char) -> Result<(), Memory>
    ensures { OnOk result (string_bytes out.new
        ≡ string_bytes out.old ++ encode_utf8_all (escaped (c ∷ []))) }
{
    if c == '"' || c == '\\' {
        out.push('\\')?;
    }
    out.push(c)?;
    Ok(())
}

// A text in quotes, with its escapes.
fn quote(out: &mut String, text: &str) -> Result<(), Memory>
    ensures { OnOk result (string_bytes out.new
        ≡ string_bytes out.old ++ encode_utf8_all (34 ∷ (escaped (chars text.now) ++ 34 ∷ []))) }
{
    out.push('"')?;
    for c in text.chars() {
        escape(out, c)?;
    }
    out.push('"')?;
    Ok(())
}

/// A quoted text.
pub(crate) fn put_quoted(line: &mut Line, text: &Text) -> Result<(), Memory>
    ensures { OnOk result (Writes line.old line.new (λ rest. Quoted text.now ∷ rest)) }
{
    space(line, false)?;
    quote(&mut line.text, text.as_str())?;
    line.is_tight = false;
    Ok(())
}

fn starts_with_letter(text: &[u8]) -> bool
    ensures { result ≡ begins_with is_ascii_alphabetic text.now }
{
    match text {
        [] => false,
        [first, ..] => first.is_ascii_alphabetic(),
    }
}

fn are_alphanumeric(text: &[u8]) -> bool
    ensures { result ≡ list_all is_ascii_alphanumeric text.now }
{
    text.iter().all(|byte| byte.is_ascii_alphanumeric())
}

// Whether a field's name stands without quotes.
fn is_bare(text: &str) -> bool
    ensures { result ≡ is_bare text.now }
{
    starts_with_letter(text.as_bytes())
        && are_alphanumeric(text.as_bytes())
        && keyword(text).is_none()
}

// A word.
fn put_word(line: &mut Line, word: &Text) -> Result<(), Memory>
    ensures { OnOk result (Writes line.old line.new (λ rest. Word word.now ∷ rest)) }
{
    space(line, false)?;
    line.text.push_str(word.as_str())?;
    line.is_tight = false;
    Ok(())
}

/// A field by its name.
pub(crate) fn put_field_name(line: &mut Line, name: &Text) -> Result<(), Memory>
    ensures { OnOk result (Writes line.old line.new (λ rest. name_token name.now ∷ rest)) }
{
    if is_bare(name.as_str()) {
        put_word(line, name)
    } else {
        put_quoted(line, name)
    }
}

/// A field by its number.
pub(crate) fn put_field_number(alloc: Global, line: &mut Line, number: u32) -> Result<(), Memory>
    ensures { OnOk result (Writes line.old line.new (λ rest. Custom number ∷ rest)) }
{
    space(line, false)?;
    let text = format!(in alloc; "cf[{number}]")?;
    line.text.push_str(text.as_str())?;
    line.is_tight = false;
    Ok(())
}
