//! The words that are kept beside a conference.

use crate::texts::{front_of, text};
use floor_rpc::{Text, Word};
use std::alloc::{AllocError, Global};

/// How many words a conference has at most: our choice, four for each user that it may have.
const MAX_WORDS: usize = 1_024;

/// How many bytes the keys and words of a conference have at most together: our choice.
const MAX_WORDS_LEN: usize = 65_536;

/// How many bytes of a title are shown: our choice.
const MAX_TITLE: usize = 200;

/// Words by their keys, ascending. Of them a server reads titles alone.
#[derive(Drop)]
pub struct Words {
    items: Vec<Word>,
}

impl Words {
    /// No word. Takes no memory.
    pub fn new(alloc: Global) -> Words {
        Words {
            items: Vec::new(alloc),
        }
    }

    /// The word under a key.
    pub fn get(&self, key: &str) -> Option<&str> {
        match self.items.iter().find(|word| word.key.as_str() == key) {
            Some(word) => Some(word.text.as_str()),
            None => None,
        }
    }

    /// Whether a word may be kept under a key, in place of the one that is there.
    pub fn fits(&self, key: &str, text: &str) -> bool {
        let mut count = 0usize;
        let mut len = key.len().saturating_add(text.len());
        for word in &self.items {
            if word.key.as_str() != key {
                count = count.saturating_add(1);
                len = len.saturating_add(len_of(word));
            }
        }
        count < MAX_WORDS && len <= MAX_WORDS_LEN
    }

    /// Keeps a word under its key, in place of the one that is there. After an error nothing has changed.
    pub fn keep(&mut self, key: Text, text: Text) -> Result<(), AllocError> {
        self.items.reserve(1)?;
        self.remove(key.as_str());
        let place = self
            .items
            .iter()
            .filter(|word| word.key.as_str() < key.as_str())
            .count();
        if place <= self.items.len() {
            let _kept = self.items.insert(place, Word { key, text });
        }
        Ok(())
    }

    /// Takes the word under a key away, where there is one.
    pub fn remove(&mut self, key: &str) {
        self.items.retain(|word| word.key.as_str() != key);
    }

    /// The title under a key, as it is shown: 200 bytes of it at most.
    pub fn title(&self, alloc: Global, key: &str) -> Result<Option<Text>, AllocError> {
        match self.get(key) {
            Some(title) => Ok(Some(text(alloc, front_of(title, MAX_TITLE))?)),
            None => Ok(None),
        }
    }

    /// Copies of the words, or of the one under a key.
    pub fn copies(&self, alloc: Global, key: Option<&str>) -> Result<Vec<Word>, AllocError> {
        let mut copies = Vec::new(alloc);
        for word in &self.items {
            if is_asked(word, key) {
                copies.push(Word {
                    key: word.key.copy(alloc)?,
                    text: word.text.copy(alloc)?,
                })?;
            }
        }
        Ok(copies)
    }
}

/// How many bytes a word has with its key.
fn len_of(word: &Word) -> usize {
    word.key
        .as_str()
        .len()
        .saturating_add(word.text.as_str().len())
}

/// Whether a word is asked for: by its key, or with all.
fn is_asked(word: &Word, key: Option<&str>) -> bool {
    match key {
        Some(key) => word.key.as_str() == key,
        None => true,
    }
}
