// Words of texts.
ghost use Rattle.std.specs.Prelude.{◌≡◌, ◌++◌, IfOk, OnOk};
ghost use Rattle.jql_bound.specs.Words.{words_of, ended, is_word_byte};

use fields::{Memory, Sequence, Text};
use jql_bound::Word;
use std::alloc::Global;

fn is_word_byte(byte: u8) -> bool
    ensures { result ≡ is_word_byte byte }
{
    (48 <= byte && byte <= 57)
        || (65 <= byte && byte <= 90)
        || (97 <= byte && byte <= 122)
        || 128 <= byte
}

// Puts a run that has come to its end behind the words.
fn put_word(
    alloc: Global,
    words: &mut Sequence<Word>,
    run: &str,
    prefix: bool,
) -> Result<(), Memory>
    ensures { OnOk result (words.new ≡ words.old ++ ended run.now prefix) }
{
    if run.is_empty() {
        return Ok(());
    }
    let text = Text::copy_of(alloc, run)?;
    words.push(Word { text, prefix })?;
    Ok(())
}

/// The words of a text: longest runs of ASCII letters, ASCII digits and characters past ASCII. One directly before an
/// asterisk is marked as a prefix.
pub(crate) fn words_of(alloc: Global, text: &str) -> Result<Sequence<Word>, Memory>
    ensures { IfOk result (λ words. words ≡ words_of text.now) }
{
    let mut words = Sequence::new(alloc);
    let mut start = 0;
    for (place, byte) in text.as_bytes().iter().enumerate() {
        if is_word_byte(*byte) {
            continue;
        }
        put_word(alloc, &mut words, &text[start..place], *byte == b'*')?;
        start = place + 1;
    }
    put_word(alloc, &mut words, &text[start..], false)?;
    Ok(words)
}
