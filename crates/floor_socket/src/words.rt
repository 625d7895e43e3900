//! The words that are kept beside a conference.

ghost use Rattle.std.specs.Prelude.{◌≡◌, ◌-◌, ◌<◌, ◌^◌, [], false, IfOk, length, min, OnErr, OnOk, slice_set, sum_by, vec_len};
ghost use Rattle.std.specs.List.{slice_get};
ghost use Rattle.std.specs.Option.{option_map_or};
ghost use Rattle.floor_socket.specs.Words.{before, fits, is_before, is_same, noted, others, with_word, word_len, words_of};

use floor_config::Text;
use floor_control::Octets;
use floor_keep::{Entry, Note};
use std::alloc::{AllocError, Global};
use std::marker::Model;

/// How many words a conference has at most: our choice, four for each user that it may have.
pub const MAX_WORDS: usize = 1_024;

/// How many bytes the keys and words of a conference have at most together: our choice, so that all of them are one
/// answer of the control socket.
pub const MAX_WORDS_LEN: usize = 65_536;

/// Words by their keys, in ascending order. The server doesn't read them.
#[derive(Drop)]
pub struct Words {
    items: Vec<Word>,
}

impl Model for Words {
    ghost use Rattle.std.specs.Prelude.{IsTrue, List};
    ghost use Rattle.floor_socket.specs.declared.words.Word.{Word};
    ghost use Rattle.floor_socket.specs.Words.{ascend};

    ghost Value = { List Word };

    ghost view = { λ w. w.items.items };

    ghost invariant = { λ w. IsTrue (ascend w.items.items) };
}

/// A word.
#[derive(Drop)]
pub struct Word {
    pub key: Text,
    pub value: Octets,
}

impl Word {
    /// How many bytes it and its key have.
    fn len(&self) -> usize
        ensures value { result ≡ word_len self.now }
    {
        self.key.as_str().len() + self.value.as_slice().len()
    }

    /// Whether its key stands before another.
    fn is_before(&self, key: &str) -> bool
        ensures value { result ≡ is_before self.now.key key.now }
    {
        self.key.as_str() < key
    }

    /// Whether it is kept under a key.
    fn is_under(&self, key: &str) -> bool
        ensures value { result ≡ is_same self.now.key key.now }
    {
        self.key.as_str() == key
    }
}

impl Words {
    /// No word. Takes no memory.
    pub fn new(alloc: Global) -> Words
        ensures value { result ≡ [] }
    {
        Words {
            items: Vec::new(alloc),
        }
    }

    /// The words in ascending order of their keys.
    pub fn items(&self) -> &[Word]
        ensures value { result.now ≡ self.now }
    {
        self.items.as_slice()
    }

    /// Whether a word may be kept under a key, in place of the one that is there.
    pub fn fits(&self, key: &str, value: &[u8]) -> bool
        ensures value { result ≡ fits key.now value.now self.now }
    {
        let len = others_len(&self.items, key).saturating_add(key.len() + value.len());
        others(&self.items, key) < MAX_WORDS && len <= MAX_WORDS_LEN
    }

    /// Keeps a word under its key, in place of the one that is there. After an error nothing has changed.
    pub fn keep(&mut self, key: Text, value: Octets) -> Result<(), AllocError>
        ensures took { OnOk result (self.new ≡ with_word key value self.old) }
        ensures left { OnErr result (self.new ≡ self.old) }
    {
        let place = place_of(&self.items, key.as_str());
        if is_at(&self.items, place, key.as_str()) {
            put_at(&mut self.items, place, Word { key, value });
            return Ok(());
        }
        self.items.insert(place, Word { key, value })?;
        Ok(())
    }

    /// Takes the word under a key away, where there is one.
    pub fn remove(&mut self, key: &str)
        ensures value { self.new ≡ others key.now self.old }
    {
        take_out(&mut self.items, key);
    }
}

/// The words that a conference's file says beside its events.
pub fn words_of(alloc: Global, notes: Vec<Note>) -> Result<Words, AllocError>
    ensures value { IfOk result (λ words. words ≡ words_of notes.items) }
{
    let mut words = Words::new(alloc);
    for note in notes {
        take_note(&mut words, note)?;
    }
    Ok(words)
}

/// Takes what a file says beside the events; a port is no word.
fn take_note(words: &mut Words, note: Note) -> Result<(), AllocError>
    ensures next { OnOk result (words.new ≡ noted words.old note) }
{
    match note.entry {
        Entry::Word { key, value } => match value {
            Some(value) => words.keep(key, value),
            None => {
                words.remove(key.as_str());
                Ok(())
            }
        },
        Entry::Happened(_event) => Ok(()),
        Entry::Port { user: _, port: _ } | Entry::End => Ok(()),
    }
}

/// How many words are kept by other keys.
fn others(words: &[Word], key: &str) -> usize
    ensures value { result ≡ length (others key.now words.now) }
{
    words.iter().filter(|word| !word.is_under(key)).count()
}

/// How many bytes the words by other keys have, and these keys; the greatest number where they have more.
fn others_len(words: &[Word], key: &str) -> usize
    ensures value { result ≡ min (sum_by word_len (others key.now words.now)) (2 ^ 64 - 1) }
{
    let mut len = 0usize;
    for word in words {
        if !word.is_under(key) {
            len = len.saturating_add(word.len());
        }
    }
    len
}

/// Where a key stands, or would: behind those that are below it.
fn place_of(words: &[Word], key: &str) -> usize
    ensures value { result ≡ length (before key.now words.now) }
{
    words.iter().filter(|word| word.is_before(key)).count()
}

/// Puts a word in the place of another.
fn put_at(words: &mut Vec<Word>, place: usize, word: Word)
    requires { place < vec_len words.old }
    ensures value { words.new.items ≡ slice_set words.old.items place word }
{
    words[place] = word;
}

/// Takes the word under a key out, where there is one.
fn take_out(words: &mut Vec<Word>, key: &str)
    ensures value { words.new.items ≡ others key.now words.old.items }
{
    words.retain(|word| !word.is_under(key));
}

/// Whether a key stands there.
fn is_at(words: &[Word], place: usize, key: &str) -> bool
    ensures value { result ≡ option_map_or (λ word. is_same word.key key.now) (slice_get words.now place) false }
{
    match words.get(place) {
        Some(word) => word.is_under(key),
        None => false,
    }
}
