// Tokens of a text, one by one.
ghost use Rattle.std.specs.Prelude.{◌≡◌, ◌≤◌, ◌<◌, ◌∷◌, length, chars, option_map, Result, Ok, Err, IfOk, IfSome, string_bytes, encode_utf8_all};
ghost use Rattle.std.specs.Result.{result_map_both};
ghost use Rattle.std.specs.Char.{is_ascii_digit};
ghost use Rattle.relative_dates.specs.Reading.{number_of};
ghost use Rattle.jql_syntax.specs.Tokens.{begins_with, front, past, is_word_char, sign_at, numbered, bracketed, field_number_at, keyword_of, word_at, word_or, run_of, piece_at, quote_at, quoted, rest_of, tokens, unescaped, or_longer, or_lacks, after_char, number_or_word, signed_or, later_keyword_of, predicate_keyword_of};

use crate::characters::{
    after_char, first, is_banned, is_quote, is_white, is_word_char, opens_next,
};
use crate::token::{Kind, Mark, Placed, Token};
use field_values::Text;
use std::alloc::{AllocError, Global};

// The sign that begins with the character.
#[tactic(auto, unfolding(crate::specs::Tokens::sign_at))]
fn sign(c: char, rest: &str) -> Option<(Mark, &str)>
    ensures value { option_map (λ x. (x.0, chars x.1.now)) result ≡ sign_at c (chars rest.now) }
    ensures shorter { IfSome result (λ x. length x.1.now ≤ length rest.now) }
{
    match c {
        '=' => Some((Mark::Equals, rest)),
        '!' => Some(negated_sign(rest)),
        '<' => Some(or_longer('=', Mark::LessOrEqual, Mark::Less, rest)),
        '>' => Some(or_longer('=', Mark::GreaterOrEqual, Mark::Greater, rest)),
        '~' => Some((Mark::Contains, rest)),
        '&' => Some(or_longer('&', Mark::And, Mark::And, rest)),
        '|' => Some(or_longer('|', Mark::Or, Mark::Or, rest)),
        '(' => Some((Mark::Open, rest)),
        ')' => Some((Mark::Close, rest)),
        ',' => Some((Mark::Comma, rest)),
        _ => None,
    }
}

// The longer of two signs, where it stands.
fn or_longer(next: char, longer: Mark, short: Mark, rest: &str) -> (Mark, &str)
    ensures value { (result.0, chars result.1.now) ≡ or_longer next longer short (chars rest.now) }
    ensures shorter { length result.1.now ≤ length rest.now }
{
    match after_char(next, rest) {
        Some(after) => (longer, after),
        None => (short, rest),
    }
}

// The signs that begin with an exclamation mark.
fn negated_sign(rest: &str) -> (Mark, &str)
    ensures value { (result.0, chars result.1.now)
        ≡ or_lacks (chars rest.now) (after_char 61 (chars rest.now)) }
    ensures shorter { length result.1.now ≤ length rest.now }
{
    match after_char('=', rest) {
        Some(after) => (Mark::NotEquals, after),
        None => or_longer('~', Mark::Lacks, Mark::Not, rest),
    }
}

// A number in digits, at most one digit past its greatest value, and what is behind it.
fn number(text: &str) -> (u32, &str)
    ensures value { numbered result.0
        ≡ numbered (number_of (front is_ascii_digit (chars text.now))) }
    ensures rest { chars result.1.now ≡ past is_ascii_digit (chars text.now) }
    ensures shorter { length result.1.now ≤ length text.now }
{
    let mut number = 0;
    let mut rest = text;
    while let Some((c, after)) = first(rest) {
        if !c.is_ascii_digit() {
            break;
        }
        if number <= 19_999 {
            number = 10 * number + (u32::from(c) - 48);
        }
        rest = after;
    }
    (number, rest)
}

// The field of that number.
fn numbered(number: u32) -> Token
    ensures { result ≡ numbered number }
{
    if 10_000 <= number && number <= 19_999 {
        Token::Custom(number)
    } else {
        Token::Bad(Kind::BadNumber)
    }
}

fn starts_with_digit(text: &str) -> bool
    ensures { result ≡ begins_with is_ascii_digit (chars text.now) }
{
    match first(text) {
        Some((c, _)) => c.is_ascii_digit(),
        None => false,
    }
}

// Digits and a bracket.
fn bracketed(text: &str) -> Option<(Token, &str)>
    ensures value { option_map (λ x. (x.0, chars x.1.now)) result ≡ bracketed (chars text.now) }
    ensures shorter { IfSome result (λ x. length x.1.now ≤ length text.now) }
{
    if !starts_with_digit(text) {
        return None;
    }
    let (number, rest) = number(text);
    match after_char(']', rest) {
        Some(after) => Some((numbered(number), after)),
        None => None,
    }
}

// A field by its number, as `cf[10001]`, behind its first character.
#[tactic(auto, unfolding(crate::specs::Tokens::field_number_at))]
fn field_number(c: char, rest: &str) -> Option<(Token, &str)>
    ensures value { option_map (λ x. (x.0, chars x.1.now)) result
        ≡ field_number_at c (chars rest.now) }
    ensures shorter { IfSome result (λ x. length x.1.now ≤ length rest.now) }
{
    if c != 'c' {
        return None;
    }
    let rest = after_char('f', rest)?;
    let rest = after_char('[', rest)?;
    bracketed(rest)
}

// The longest word that begins with the character, and what is behind it.
fn word(alloc: Global, c: char, text: &str) -> Result<(String, &str), AllocError>
    ensures word { IfOk result (λ x. string_bytes x.0 ≡ run_of c (chars text.now)) }
    ensures rest { IfOk result (λ x. chars x.1.now ≡ past is_word_char (chars text.now)) }
    ensures shorter { IfOk result (λ x. length x.1.now ≤ length text.now) }
{
    let mut word = String::new(alloc);
    word.push(c)?;
    let mut rest = text;
    while let Some((d, after)) = first(rest) {
        if !is_word_char(d) {
            break;
        }
        word.push(d)?;
        rest = after;
    }
    Ok((word, rest))
}

/// The keyword that the word is, in letters of either case.
#[tactic(auto, unfolding(crate::specs::Tokens::keyword_of))]
pub fn keyword(word: &str) -> Option<Mark>
    ensures { result ≡ keyword_of word.now }
{
    if word.eq_ignore_ascii_case("AND") {
        return Some(Mark::And);
    }
    if word.eq_ignore_ascii_case("OR") {
        return Some(Mark::Or);
    }
    if word.eq_ignore_ascii_case("NOT") {
        return Some(Mark::Not);
    }
    if word.eq_ignore_ascii_case("EMPTY") {
        return Some(Mark::Empty);
    }
    if word.eq_ignore_ascii_case("NULL") {
        return Some(Mark::Empty);
    }
    if word.eq_ignore_ascii_case("IN") {
        return Some(Mark::In);
    }
    if word.eq_ignore_ascii_case("IS") {
        return Some(Mark::Is);
    }
    if word.eq_ignore_ascii_case("WAS") {
        return Some(Mark::Was);
    }
    later_keyword(word)
}

#[tactic(auto, unfolding(crate::specs::Tokens::later_keyword_of))]
fn later_keyword(word: &str) -> Option<Mark>
    ensures { result ≡ later_keyword_of word.now }
{
    if word.eq_ignore_ascii_case("CHANGED") {
        return Some(Mark::Changed);
    }
    if word.eq_ignore_ascii_case("ORDER") {
        return Some(Mark::Order);
    }
    if word.eq_ignore_ascii_case("BY") {
        return Some(Mark::By);
    }
    if word.eq_ignore_ascii_case("ASC") {
        return Some(Mark::Ascending);
    }
    if word.eq_ignore_ascii_case("DESC") {
        return Some(Mark::Descending);
    }
    predicate_keyword(word)
}

#[tactic(auto, unfolding(crate::specs::Tokens::predicate_keyword_of))]
fn predicate_keyword(word: &str) -> Option<Mark>
    ensures { result ≡ predicate_keyword_of word.now }
{
    if word.eq_ignore_ascii_case("AFTER") {
        return Some(Mark::After);
    }
    if word.eq_ignore_ascii_case("BEFORE") {
        return Some(Mark::Before);
    }
    if word.eq_ignore_ascii_case("ON") {
        return Some(Mark::On);
    }
    if word.eq_ignore_ascii_case("DURING") {
        return Some(Mark::During);
    }
    if word.eq_ignore_ascii_case("FROM") {
        return Some(Mark::From);
    }
    if word.eq_ignore_ascii_case("TO") {
        return Some(Mark::To);
    }
    None
}

// The token of a word, by what is behind it.
fn word_token(word: String, rest: &str) -> Token
    ensures { result
        ≡ word_or (string_bytes word) (chars rest.now) (keyword_of (string_bytes word)) }
{
    if let Some(mark) = keyword(word.as_str()) {
        return Token::Marked(mark);
    }
    if opens_next(rest) {
        Token::Name(Text::of(word))
    } else {
        Token::Word(Text::of(word))
    }
}

// A keyword, a field by number or a word.
fn word_piece(alloc: Global, c: char, rest: &str) -> Result<(Token, &str), AllocError>
    ensures value { IfOk result (λ x. (x.0, chars x.1.now)
        ≡ number_or_word c (chars rest.now) (field_number_at c (chars rest.now))) }
    ensures shorter { IfOk result (λ x. length x.1.now ≤ length rest.now) }
{
    if let Some(piece) = field_number(c, rest) {
        return Ok(piece);
    }
    let (word, rest) = word(alloc, c, rest)?;
    Ok((word_token(word, rest), rest))
}

// A character in quotes, maybe behind a backslash, and what is behind it.
fn unescaped(c: char, rest: &str) -> Result<(char, &str), Kind>
    ensures value { result_map_both (λ x. (x.0, chars x.1.now)) (λ k. k) result
        ≡ unescaped c (chars rest.now) }
    ensures shorter { IfOk result (λ x. length x.1.now ≤ length rest.now) }
{
    if c != '\\' {
        return Ok((c, rest));
    }
    match first(rest) {
        None => Err(Kind::Unclosed),
        Some((d, after)) => {
            if is_quote(d) || d == '\\' {
                Ok((d, after))
            } else {
                Err(Kind::Character)
            }
        }
    }
}

// A quoted text, behind its opening quote.
fn quoted(alloc: Global, quote: char, text: &str) -> Result<(Token, &str), AllocError>
    ensures value { IfOk result (λ x. (x.0, chars x.1.now)
        ≡ quoted (quote_at quote (chars text.now))) }
    ensures shorter { IfOk result (λ x. length x.1.now ≤ length text.now) }
{
    let mut string = String::new(alloc);
    let mut rest = text;
    while let Some((c, after)) = first(rest) {
        if c == quote {
            return Ok((Token::Quoted(Text::of(string)), after));
        }
        let (c, after) = match unescaped(c, after) {
            Ok(x) => x,
            Err(kind) => return Ok((Token::Bad(kind), "")),
        };
        string.push(c)?;
        rest = after;
    }
    Ok((Token::Bad(Kind::Unclosed), ""))
}

// The token that begins with the character, which is no white space.
#[tactic(auto, unfolding(crate::specs::Tokens::piece_at))]
fn piece(alloc: Global, c: char, rest: &str) -> Result<(Token, &str), AllocError>
    ensures value { IfOk result (λ x. (x.0, chars x.1.now) ≡ piece_at c (chars rest.now)) }
    ensures shorter { IfOk result (λ x. length x.1.now ≤ length rest.now) }
{
    if let Some((mark, after)) = sign(c, rest) {
        return Ok((Token::Marked(mark), after));
    }
    if is_quote(c) {
        return quoted(alloc, c, rest);
    }
    if is_banned(c) {
        return Ok((Token::Bad(Kind::Character), ""));
    }
    word_piece(alloc, c, rest)
}

// What is behind the token, where it can be read.
fn behind<'a>(token: &Token, rest: &'a str) -> &'a str
    ensures value { chars result.now ≡ rest_of (token.now, chars rest.now) }
    ensures shorter { length result.now ≤ length rest.now }
{
    match token {
        Token::Bad(_) => "",
        _ => rest,
    }
}

/// The tokens of a text.
pub(crate) fn tokens(alloc: Global, text: &str) -> Result<Vec<Placed>, AllocError>
    ensures { IfOk result (λ v. v.items ≡ tokens text.now) }
{
    let mut tokens = Vec::new(alloc);
    let mut rest = text;
    'tokens: while let Some((c, after)) = first(rest) {
        if is_white(c) {
            rest = after;
            continue;
        }
        let place = text.len() - rest.len();
        let (token, after) = piece(alloc, c, after)?;
        rest = behind(&token, after);
        tokens.push(Placed { place, token })?;
    }
    Ok(tokens)
}
