// The characters at the front of a text.
ghost use Rattle.std.specs.Prelude.{◌≡◌, ◌==◌, ◌+◌, ◌∷◌, [], length, chars, option_map, IfSome, IfNone, ◌<◌};
ghost use Rattle.std.specs.Char.{len_utf8};
ghost use Rattle.jql_syntax.specs.Tokens.{is_white, is_quote, is_banned, is_word_char, is_sign, after_char, opens_next};

/// The first character, and what is behind it.
pub(crate) fn first(text: &str) -> Option<(char, &str)>
    ensures some { IfSome result (λ x. chars text.now ≡ x.0 ∷ chars x.1.now) }
    ensures shorter { IfSome result (λ x. length x.1.now < length text.now) }
    ensures none { IfNone result (chars text.now ≡ []) }
{
    let mut characters = text.chars();
    match characters.next() {
        Some(c) => Some((c, characters.as_str())),
        None => None,
    }
}

/// What is behind the character, where it stands first.
pub(crate) fn after_char(c: char, text: &str) -> Option<&str>
    ensures value { option_map (λ rest. chars rest.now) result ≡ after_char c (chars text.now) }
    ensures shorter { IfSome result (λ rest. length rest.now < length text.now) }
{
    match first(text) {
        Some((d, rest)) => { if d == c { Some(rest) } else { None } }
        None => None,
    }
}

pub(crate) fn is_white(c: char) -> bool
    ensures { result ≡ is_white c }
{
    c == ' ' || c == '\t' || c == '\n' || c == '\r'
}

pub(crate) fn is_quote(c: char) -> bool
    ensures { result ≡ is_quote c }
{
    c == '"' || c == '\''
}

/// Whether the character stands in no token, outside of quotes.
pub(crate) fn is_banned(c: char) -> bool
    ensures { result ≡ is_banned c }
{
    c.is_control() || c == '\\' || c == '[' || c == ']'
}

fn is_sign(c: char) -> bool
    ensures { result ≡ is_sign c }
{
    c == '='
        || c == '!'
        || c == '<'
        || c == '>'
        || c == '~'
        || c == '&'
        || c == '|'
        || c == '('
        || c == ')'
        || c == ','
}

pub(crate) fn is_word_char(c: char) -> bool
    ensures { result ≡ is_word_char c }
{
    !(is_white(c) || is_quote(c) || is_sign(c) || is_banned(c))
}

/// Whether a parenthesis is the next token.
pub(crate) fn opens_next(text: &str) -> bool
    ensures { result ≡ opens_next (chars text.now) }
{
    let mut rest = text;
    while let Some((c, after)) = first(rest) {
        if !is_white(c) {
            return c == '(';
        }
        rest = after;
    }
    false
}
