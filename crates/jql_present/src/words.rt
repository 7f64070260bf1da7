// Words that are looked for in a text.
ghost use Rattle.std.specs.Prelude.{◌≡◌, length, take, if◌then◌else◌};
ghost use Rattle.jql_bound.specs.Words.{is_word_byte};
ghost use Rattle.jql_meaning.specs.Words.{is_word, has_word, has_words};

use jql_bound::Word;

/// Whether the text has each of the words.
pub fn has_words(words: &[Word], text: &str) -> bool
    ensures { result ≡ has_words words.now text.now }
{
    words.iter().all(|word| has_word(text.as_bytes(), word))
}

// Whether the text has the word. Whatever begins past the last place with room for it is too short.
fn has_word(text: &[u8], wanted: &Word) -> bool
    ensures { result ≡ has_word text.now wanted.now }
{
    let Some(last) = text.len().checked_sub(wanted.text.as_str().len()) else {
        return false;
    };
    let mut begin = 0;
    for (at, byte) in text.iter().enumerate() {
        if !is_word_byte(*byte) {
            if begin < at && is_word(&text[begin..at], wanted) {
                return true;
            }
            begin = at + 1;
            if begin > last {
                return false;
            }
        }
    }
    begin < text.len() && is_word(&text[begin..], wanted)
}

// A letter or a digit of ASCII, or a byte of a character past ASCII. Most bytes are small letters, and most
// others spaces, so these are told first.
fn is_word_byte(byte: u8) -> bool
    ensures { result ≡ is_word_byte byte }
{
    byte.is_ascii_lowercase() || byte != b' ' && (byte.is_ascii_alphanumeric() || byte >= 128)
}

// Whether a word of a text is the one that is looked for.
fn is_word(word: &[u8], wanted: &Word) -> bool
    ensures { result ≡ is_word wanted.now word.now }
{
    let sought = wanted.text.as_str().as_bytes();
    let Some((front, rest)) = word.split_at_checked(sought.len()) else {
        return false;
    };
    if !rest.is_empty() && !wanted.prefix {
        return false;
    }
    for (one, other) in sought.iter().zip(front) {
        if one != other && !one.eq_ignore_ascii_case(other) {
            return false;
        }
    }
    true
}
