//! How a line falls into words.
ghost use Rattle.std.specs.Prelude.{
  ◌≡◌,
  ◌++◌,
  ◌-◌,
  ◌<◌,
  ◌≤◌,
  ◌∷◌,
  length,
  take,
  drop,
  slice_index,
  true,
  IfOk,
};
ghost use Rattle.plain_model.specs.Blanks.{is_blank};
ghost use Rattle.script_lines.specs.Words.{
  head_of,
  after_head,
  begins_plain,
  begins_word,
  ends_word,
  without_blanks,
  words_of,
};

use crate::script_text::ScriptText;
use crate::word::{Word, WordList};
use plain_model::{Items, NoMemory};
use std::alloc::Global;

fn is_blank(byte: u8) -> bool
    ensures { result ≡ is_blank byte }
{
    byte == b' ' || byte == b'\t'
}

// Where the first byte is that is no blank, or the end.
#[tactic(auto, unfolding(crate::specs::Words::words_of))]
fn blanks_end(bytes: &[u8]) -> usize
    ensures within { result ≤ length bytes.now }
    ensures front { drop result bytes.now ≡ without_blanks bytes.now }
    ensures same { words_of (drop result bytes.now) ≡ words_of bytes.now }
    ensures at_word { result < length bytes.now → begins_word (drop result bytes.now) ≡ true }
    ensures ascii { 0 < result → slice_index bytes.now (result - 1) < 128 }
{
    for (i, b) in bytes.iter().enumerate() {
        if !is_blank(*b) {
            return i;
        }
    }
    bytes.len()
}

// Where the first blank is, or the end.
fn head_end(bytes: &[u8]) -> usize
    ensures within { result ≤ length bytes.now }
    ensures head { take result bytes.now ≡ head_of bytes.now }
    ensures rest { drop result bytes.now ≡ after_head bytes.now }
    ensures ascii { result < length bytes.now → slice_index bytes.now result < 128 }
{
    for (i, b) in bytes.iter().enumerate() {
        if is_blank(*b) {
            return i;
        }
    }
    bytes.len()
}

/// What is before the first blank, and what follows from it on.
pub fn cut_head(text: &str) -> (&str, &str)
    ensures head { result.0.now ≡ head_of text.now }
    ensures rest { result.1.now ≡ after_head text.now }
{
    text.split_at(head_end(text.as_bytes()))
}

/// The text without the blanks at its front.
pub fn skip_blanks(text: &str) -> &str
    ensures front { result.now ≡ without_blanks text.now }
    ensures same { words_of result.now ≡ words_of text.now }
    ensures at_word { 0 < length result.now → begins_word result.now ≡ true }
    ensures shorter { length result.now ≤ length text.now }
{
    &text[blanks_end(text.as_bytes())..]
}

// Takes a word without quotes off the front of a text.
fn take_plain<'a>(alloc: Global, words: &mut WordList, text: &'a str) -> Result<&'a str, NoMemory>
    requires { begins_plain text.now ≡ true }
    ensures words { IfOk result
        (λ rest. words.new ++ words_of rest.now ≡ words.old ++ words_of text.now) }
    ensures shorter { IfOk result (λ rest. length rest.now < length text.now) }
{
    let (word, rest) = cut_head(text);
    words.push(Word::Plain(ScriptText::of(alloc, word)?))?;
    Ok(rest)
}

fn ends_word(bytes: &[u8]) -> bool
    ensures { result ≡ ends_word bytes.now }
{
    match bytes {
        [] => true,
        [b, ..] => is_blank(*b),
    }
}

// Takes a word off the front of a text that begins with a quote, after which this follows.
fn take_quoted<'a>(
    alloc: Global,
    words: &mut WordList,
    text: &'a str,
    after: &'a str,
) -> Result<&'a str, NoMemory>
    requires { text.now ≡ 34 ∷ after.now }
    ensures words { IfOk result
        (λ rest. words.new ++ words_of rest.now ≡ words.old ++ words_of text.now) }
    ensures shorter { IfOk result (λ rest. length rest.now < length text.now) }
{
    match after.split_once('"') {
        Some((word, rest)) if ends_word(rest.as_bytes()) => {
            words.push(Word::Quoted(ScriptText::of(alloc, word)?))?;
            Ok(rest)
        }
        _ => {
            words.push(Word::Broken(ScriptText::of(alloc, text)?))?;
            Ok("")
        }
    }
}

// Takes the first word off the front of a text, if there is one.
fn take_word<'a>(alloc: Global, words: &mut WordList, text: &'a str) -> Result<&'a str, NoMemory>
    ensures words { IfOk result
        (λ rest. words.new ++ words_of rest.now ≡ words.old ++ words_of text.now) }
    ensures shorter { IfOk result
        (λ rest. 0 < length text.now → length rest.now < length text.now) }
{
    let word = skip_blanks(text);
    if word.is_empty() {
        return Ok(word);
    }
    match word.strip_prefix('"') {
        Some(after) => take_quoted(alloc, words, word, after),
        None => take_plain(alloc, words, word),
    }
}

/// The words of a text.
pub fn words_in(alloc: Global, text: &str) -> Result<WordList, NoMemory>
    ensures { IfOk result (λ words. words ≡ words_of text.now) }
{
    let mut words = Items::new(alloc)?;
    let mut rest = text;
    while !rest.is_empty() {
        rest = take_word(alloc, &mut words, rest)?;
    }
    Ok(words)
}
