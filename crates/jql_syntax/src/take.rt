// Single tokens at the front of a list.
ghost use Rattle.std.specs.Prelude.{◌≡◌, ◌||◌, ◌∷◌, [], length, true, false, IfSome, IfNone, IfOk, IfErr};
ghost use Rattle.jql_syntax.specs.declared.token.Kind.TheVariants.{BadDate};
ghost use Rattle.jql_syntax.specs.Node.{text, number};
ghost use Rattle.jql_syntax.specs.Form.{IsOf, one, sign, plain_text, date_text, function_name, bare_word, any_text, field_number};
ghost use Rattle.jql_syntax.specs.Grammar.{key, value};
ghost use Rattle.jql_syntax.specs.Machine.{first, look, look_of, looks, plain_kind};
ghost use Rattle.jql_syntax.specs.Reader.{words, Goes, Stops};
ghost use Rattle.jql_syntax.specs.declared.take.Stop.TheVariants.{Memory as StopMemory};

use crate::token::{Kind, Mark, Placed, Token};
use field_values::{Memory, Text};
use relative_dates::Term;
use std::alloc::{AllocError, AllocFailed};

/// Why a form was not read, with the number of tokens from the fault on.
#[derive(Clone, Copy)]
pub(crate) enum Stop {
    Memory,
    At(Kind, usize),
}

impl From<Memory> for Stop {
    ghost from_gives = { λ _ e. e ≡ StopMemory };

    fn from(_: Memory) -> Stop {
        Stop::Memory
    }
}

impl From<AllocError> for Stop {
    ghost from_gives = { λ _ e. e ≡ StopMemory };

    fn from(_: AllocError) -> Stop {
        Stop::Memory
    }
}

impl<T: Drop> From<AllocFailed<T>> for Stop {
    ghost from_gives = { λ _ e. e ≡ StopMemory };

    fn from(_: AllocFailed<T>) -> Stop {
        Stop::Memory
    }
}

/// The first token, and what is behind it.
fn head(ts: &[Placed]) -> Option<(&Token, &[Placed])>
    ensures some { IfSome result (λ x. words ts.now ≡ x.0.now ∷ words x.1.now) }
    ensures none { IfNone result (words ts.now ≡ []) }
{
    match ts {
        [] => None,
        [first, rest @ ..] => Some((&first.token, rest)),
    }
}

fn kind_of(token: &Token) -> Kind
    ensures { result ≡ plain_kind (token.now ∷ []) }
{
    match token {
        Token::Bad(kind) => *kind,
        _ => Kind::Expected,
    }
}

/// The fault of something else than what may stand here.
pub(crate) fn fault(ts: &[Placed]) -> Stop
    ensures { result ≡ Stop.At (plain_kind (words ts.now)) (length ts.now) }
{
    match head(ts) {
        Some((token, _)) => Stop::At(kind_of(token), ts.len()),
        None => Stop::At(Kind::Expected, ts.len()),
    }
}

fn is_mark(mark: Mark, token: &Token) -> bool
    ensures { result ≡ looks (sign mark) (look_of token.now) }
{
    match token {
        Token::Marked(other) => *other == mark,
        _ => false,
    }
}

/// Whether the sign or keyword stands first.
pub(crate) fn starts(mark: Mark, ts: &[Placed]) -> bool
    ensures { result ≡ looks (sign mark) (look (words ts.now)) }
{
    match head(ts) {
        Some((token, _)) => is_mark(mark, token),
        None => false,
    }
}

/// What is behind the sign or keyword, where it stands first.
pub(crate) fn take(mark: Mark, ts: &[Placed]) -> Option<&[Placed]>
    ensures some { IfSome result (λ rest. Goes (key mark) ts.now rest.now []) }
    ensures none { IfNone result (looks (sign mark) (look (words ts.now)) ≡ false) }
{
    match head(ts) {
        None => None,
        Some((token, rest)) => {
            if is_mark(mark, token) {
                Some(rest)
            } else {
                None
            }
        }
    }
}

fn plain_of(token: &Token) -> Option<&Text>
    ensures some { IfSome result (λ x. IsOf plain_text token.now (text x.now ∷ [])) }
    ensures none { IfNone result (looks plain_text (look_of token.now) ≡ false) }
{
    match token {
        Token::Word(text) => Some(text),
        Token::Quoted(text) => Some(text),
        _ => None,
    }
}

/// A text, where it stands first and no parenthesis follows it.
pub(crate) fn take_plain(ts: &[Placed]) -> Option<(&Text, &[Placed])>
    ensures some { IfSome result (λ x. Goes (one plain_text) ts.now x.1.now (text x.0.now ∷ [])) }
    ensures none { IfNone result (looks plain_text (look (words ts.now)) ≡ false) }
{
    match head(ts) {
        None => None,
        Some((token, rest)) => match plain_of(token) {
            Some(text) => Some((text, rest)),
            None => None,
        },
    }
}

fn any_of(token: &Token) -> Option<&Text>
    ensures some { IfSome result (λ x. IsOf any_text token.now (text x.now ∷ [])) }
    ensures none { IfNone result (looks any_text (look_of token.now) ≡ false) }
{
    match token {
        Token::Word(text) => Some(text),
        Token::Name(text) => Some(text),
        Token::Quoted(text) => Some(text),
        _ => None,
    }
}

/// A text, where it stands first.
pub(crate) fn take_text(ts: &[Placed]) -> Option<(&Text, &[Placed])>
    ensures some { IfSome result (λ x. Goes (one any_text) ts.now x.1.now (text x.0.now ∷ [])) }
    ensures none { IfNone result (looks any_text (look (words ts.now)) ≡ false) }
{
    match head(ts) {
        None => None,
        Some((token, rest)) => match any_of(token) {
            Some(text) => Some((text, rest)),
            None => None,
        },
    }
}

fn name_of(token: &Token) -> Option<&Text>
    ensures some { IfSome result (λ x. IsOf function_name token.now (text x.now ∷ [])) }
    ensures none { IfNone result (looks function_name (look_of token.now) ≡ false) }
{
    match token {
        Token::Name(text) => Some(text),
        _ => None,
    }
}

/// A function's name, where it stands first.
pub(crate) fn take_name(ts: &[Placed]) -> Option<(&Text, &[Placed])>
    ensures some { IfSome result (λ x. Goes (one function_name) ts.now x.1.now
        (text x.0.now ∷ [])) }
    ensures none { IfNone result (looks function_name (look (words ts.now)) ≡ false) }
{
    match head(ts) {
        None => None,
        Some((token, rest)) => match name_of(token) {
            Some(text) => Some((text, rest)),
            None => None,
        },
    }
}

fn word_of(token: &Token) -> Option<&Text>
    ensures some { IfSome result (λ x. IsOf bare_word token.now (text x.now ∷ [])) }
    ensures none { IfNone result (looks bare_word (look_of token.now) ≡ false) }
{
    match token {
        Token::Word(text) => Some(text),
        Token::Name(text) => Some(text),
        _ => None,
    }
}

/// A word, where it stands first.
pub(crate) fn take_word(ts: &[Placed]) -> Option<(&Text, &[Placed])>
    ensures some { IfSome result (λ x. Goes (one bare_word) ts.now x.1.now (text x.0.now ∷ [])) }
    ensures none { IfNone result (looks bare_word (look (words ts.now)) ≡ false) }
{
    match head(ts) {
        None => None,
        Some((token, rest)) => match word_of(token) {
            Some(text) => Some((text, rest)),
            None => None,
        },
    }
}

fn number_of(token: &Token) -> Option<u32>
    ensures some { IfSome result (λ x. IsOf field_number token.now (number x ∷ [])) }
    ensures none { IfNone result (looks field_number (look_of token.now) ≡ false) }
{
    match token {
        Token::Custom(number) => Some(*number),
        _ => None,
    }
}

/// A field's number, where it stands first.
pub(crate) fn take_number(ts: &[Placed]) -> Option<(u32, &[Placed])>
    ensures some { IfSome result (λ x. Goes (one field_number) ts.now x.1.now (number x.0 ∷ [])) }
    ensures none { IfNone result (looks field_number (look (words ts.now)) ≡ false) }
{
    match head(ts) {
        None => None,
        Some((token, rest)) => match number_of(token) {
            Some(number) => Some((number, rest)),
            None => None,
        },
    }
}

fn is_text(token: &Token) -> bool
    ensures { result ≡ looks any_text (look_of token.now) }
{
    matches!(token, Token::Word(_) | Token::Name(_) | Token::Quoted(_))
}

/// Whether a value may begin with what stands first.
pub(crate) fn starts_value(ts: &[Placed]) -> bool
    ensures { result ≡ first value (look (words ts.now)) }
{
    match head(ts) {
        Some((token, _)) => is_text(token),
        None => false,
    }
}

/// A text of a date, where a text stands first that no parenthesis follows. It is a fault where it is none.
pub(crate) fn take_date(ts: &[Placed]) -> Result<Option<(&Text, &[Placed])>, Stop>
    ensures some { IfOk result (λ o. IfSome o
        (λ x. Goes (one date_text) ts.now x.1.now (text x.0.now ∷ []))) }
    ensures none { IfOk result (λ o. IfNone o (looks date_text (look (words ts.now)) ≡ false)) }
    ensures err { IfErr result (λ s. (s ≡ Stop.At BadDate (length ts.now))
        × (looks date_text (look (words ts.now)) ≡ true) × Stops (one date_text) ts.now s) }
{
    match head(ts) {
        None => Ok(None),
        Some((token, rest)) => match plain_of(token) {
            None => Ok(None),
            Some(text) => {
                if Term::read(text.as_str()).is_some() {
                    Ok(Some((text, rest)))
                } else {
                    Err(Stop::At(Kind::BadDate, ts.len()))
                }
            }
        },
    }
}

fn is_field(token: &Token) -> bool
    ensures { result
        ≡ (looks any_text (look_of token.now) || looks field_number (look_of token.now)) }
{
    matches!(
        token,
        Token::Word(_) | Token::Name(_) | Token::Quoted(_) | Token::Custom(_)
    )
}

/// Whether a field stands first.
pub(crate) fn starts_field(ts: &[Placed]) -> bool
    ensures { result
        ≡ (looks any_text (look (words ts.now)) || looks field_number (look (words ts.now))) }
{
    match head(ts) {
        Some((token, _)) => is_field(token),
        None => false,
    }
}
