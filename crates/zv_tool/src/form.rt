// The forms of a command line.
ghost use Rattle.std.specs.Prelude.{◌≡◌, IfOk, IsTrue, MatchOption, None, OnErr, Some, codes};
ghost use Rattle.zv_input.specs.Input.{three_words, two_words};
ghost use Rattle.zv_tool.specs.Forms.{form_of, is_word, keyed_of, make_of, names_form, two_keys};

use crate::words::Words;
use std::alloc::Global;
use zv_edit::Look;
use zv_frozen::Ask;
use zv_input::{KeyText, read_key, read_number};
use zv_make::MAX_PUTS;
use zv_ule::NoMemory;

/// What the words of the command line ask for.
#[derive(Drop)]
pub(crate) enum Form {
    /// Commands are run on an image.
    Edit,
    /// A pair of keys is looked up in an image.
    Look(Look),
    /// Images are laid one over another.
    Layers,
    /// An image is asked for the data of locales.
    Locale,
    /// A table of code point ranges is asked and changed.
    Props,
    /// A table is made by so many puts.
    Make(u16),
    /// The map of an image is frozen.
    Freeze,
    /// A pair of keys is looked up in a frozen image.
    Ask(Ask),
    /// A frozen image is thawed.
    Thaw,
}

// Whether the words are this one.
fn is_word(words: &Words, word: &str) -> bool
    ensures { result ≡ is_word word.now words.now }
{
    words.len() == 1 && words.get(0) == Some(word)
}

// The words, where there are two.
fn two_words(words: &Words) -> Option<(&str, &str)>
    ensures { MatchOption result (two_words words.now ≡ None)
        (λ pair. two_words words.now ≡ Some (pair.0.now, pair.1.now)) }
{
    if words.len() != 2 {
        return None;
    }
    Some((words.get(0)?, words.get(1)?))
}

// The words, where there are three.
fn three_words(words: &Words) -> Option<(&str, &str, &str)>
    ensures { MatchOption result (three_words words.now ≡ None)
        (λ triple. three_words words.now
        ≡ Some (triple.0.now, triple.1.now, triple.2.now)) }
{
    if words.len() != 3 {
        return None;
    }
    Some((words.get(0)?, words.get(1)?, words.get(2)?))
}

// The keys that two words are.
fn read_keys(alloc: Global, a: &str, b: &str) -> Result<Option<(KeyText, KeyText)>, NoMemory>
    ensures { IfOk result (λ keys. keys ≡ two_keys a.now b.now) }
{
    let Some(key0) = read_key(alloc, a.as_bytes())? else {
        return Ok(None);
    };
    match read_key(alloc, b.as_bytes())? {
        Some(key1) => Ok(Some((key0, key1))),
        None => Ok(None),
    }
}

// The form of words that are `look` or `ask` and two keys.
fn read_keyed(alloc: Global, words: &Words) -> Result<Option<Form>, NoMemory>
    ensures form { IfOk result (λ form. form ≡ keyed_of words.now) }
    ensures named { OnErr result (IsTrue (names_form words.now)) }
{
    let Some((word, a, b)) = three_words(words) else {
        return Ok(None);
    };
    let looks = word == "look";
    if !looks && word != "ask" {
        return Ok(None);
    }
    let Some((key0, key1)) = read_keys(alloc, a, b)? else {
        return Ok(None);
    };
    if looks {
        Ok(Some(Form::Look(Look { key0, key1 })))
    } else {
        Ok(Some(Form::Ask(Ask { key0, key1 })))
    }
}

// The form of words that are `make` and a number.
fn read_make(words: &Words) -> Option<Form>
    ensures { result ≡ make_of words.now }
{
    let (word, number) = two_words(words)?;
    if word != "make" {
        return None;
    }
    let count = read_number(number.as_bytes(), u32::from(MAX_PUTS))?;
    Some(Form::Make(count as u16))
}

/// The form that the words are, or `None` where they are none.
pub(crate) fn read_form(alloc: Global, words: &Words) -> Result<Option<Form>, NoMemory>
    ensures form { IfOk result (λ form. form ≡ form_of words.now) }
    ensures named { OnErr result (IsTrue (names_form words.now)) }
{
    if is_word(words, "edit") {
        return Ok(Some(Form::Edit));
    }
    if is_word(words, "layers") {
        return Ok(Some(Form::Layers));
    }
    if is_word(words, "props") {
        return Ok(Some(Form::Props));
    }
    if is_word(words, "locale") {
        return Ok(Some(Form::Locale));
    }
    if is_word(words, "freeze") {
        return Ok(Some(Form::Freeze));
    }
    if is_word(words, "thaw") {
        return Ok(Some(Form::Thaw));
    }
    if let Some(form) = read_make(words) {
        return Ok(Some(form));
    }
    read_keyed(alloc, words)
}
