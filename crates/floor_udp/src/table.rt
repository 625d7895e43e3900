//! Who may come from where: the users of the file, and those of words beside conferences.

use crate::origin::{NOWHERE, Origin};
use floor_sessions::User;
use std::alloc::{AllocError, AllocFailed, Global};

/// The users, each at a place of its own, where it stays while it may come or has a session.
///
/// A word counts before the file.
#[derive(Drop)]
pub struct Table {
    alloc: Global,
    users: Vec<User>,
    /// Whether the place beside is nobody's.
    free: Vec<bool>,
    file: Vec<User>,
    words: Vec<User>,
}

impl Table {
    /// The users of a file.
    pub fn new(alloc: Global, file: Vec<User>) -> Result<Table, AllocError> {
        let mut table = Table {
            alloc,
            users: Vec::new(alloc),
            free: Vec::new(alloc),
            file,
            words: Vec::new(alloc),
        };
        for index in 0..table.file.len() {
            if let Some(user) = table.file.get(index).copied() {
                table.add(user)?;
            }
        }
        Ok(table)
    }

    /// The users, each at its place.
    pub fn users(&self) -> &[User] {
        self.users.as_slice()
    }

    /// How many places there are.
    pub fn len(&self) -> usize {
        self.users.len()
    }

    /// Whether other users may come by these words than by those before.
    pub fn is_changed_by(&self, words: &[User]) -> bool {
        self.words.len() != words.len()
            || self
                .words
                .iter()
                .zip(words)
                .any(|(before, word)| !is_same(before, word))
    }

    /// Takes the users of the words, and gives the places of the users who may not come any more as they did. After an
    /// error some of it may be done, and no words are taken.
    pub fn take_words(&mut self, words: Vec<User>) -> Result<Vec<usize>, AllocError> {
        self.words = words;
        let changed = self.renew_all();
        if changed.is_err() {
            self.words.clear();
        }
        changed
    }

    fn renew_all(&mut self) -> Result<Vec<usize>, AllocError> {
        for index in 0..self.words.len() {
            let user = self.words.get(index).copied();
            self.add_missing(user)?;
        }
        for index in 0..self.file.len() {
            let user = self.file.get(index).copied();
            self.add_missing(user)?;
        }
        let mut changed = Vec::new(self.alloc);
        for place in 0..self.users.len() {
            if self.renew(place) {
                changed.push(place)?;
            }
        }
        Ok(changed)
    }

    /// Gives a user a place who may come and has none.
    fn add_missing(&mut self, user: Option<User>) -> Result<(), AllocError> {
        let Some(user) = user else {
            return Ok(());
        };
        let origin = self.origin_of(&user);
        if origin == NOWHERE || self.place_of(&user).is_some() {
            return Ok(());
        }
        self.add(origin.user(user.conference, user.user))
    }

    /// The session of a place is forgotten: where its user may not come any more the place is nobody's.
    pub fn clear(&mut self, place: usize) {
        let is_nowhere = match self.users.get(place) {
            Some(user) => Origin::of(user) == NOWHERE,
            None => false,
        };
        if let Some(free) = self.free.get_mut(place) {
            *free = *free || is_nowhere;
        }
    }

    /// Has a user come as the words and the file say. Tells whether that is otherwise than before.
    fn renew(&mut self, place: usize) -> bool {
        let Some(user) = self.users.get(place).copied() else {
            return false;
        };
        let origin = self.origin_of(&user);
        if origin == Origin::of(&user) || self.is_free(place) {
            return false;
        }
        if let Some(stands) = self.users.get_mut(place) {
            *stands = origin.user(user.conference, user.user);
        }
        true
    }

    /// From where a user may come, by a word or else by the file.
    fn origin_of(&self, user: &User) -> Origin {
        match find(self.words.as_slice(), user).or(find(self.file.as_slice(), user)) {
            Some(found) => Origin::of(&found),
            None => NOWHERE,
        }
    }

    fn is_free(&self, place: usize) -> bool {
        self.free.get(place).copied().unwrap_or(false)
    }

    /// The place of a user.
    fn place_of(&self, user: &User) -> Option<usize> {
        for (place, other) in self.users.iter().enumerate() {
            if is_one(other, user) && !self.is_free(place) {
                return Some(place);
            }
        }
        None
    }

    /// Gives a user a place: one that is nobody's, or a new one.
    fn add(&mut self, user: User) -> Result<(), AllocError> {
        let place = self.free.iter().position(|free| *free);
        if let Some(place) = place {
            if let (Some(stands), Some(free)) = (
                self.users.get_mut(place),
                self.free.get_mut(place),
            ) {
                *stands = user;
                *free = false;
                return Ok(());
            }
        }
        match (self.users.push(user), self.free.push(false)) {
            (Ok(()), Ok(())) => Ok(()),
            (Err(AllocFailed { value: _ }), _) | (_, Err(AllocFailed { value: _ })) => {
                Err(AllocError)
            }
        }
    }
}

/// The entry of a user among others.
fn find(users: &[User], user: &User) -> Option<User> {
    users.iter().copied().find(|other| is_one(other, user))
}

/// Whether both are one user.
fn is_one(one: &User, other: &User) -> bool {
    one.conference == other.conference && one.user == other.user
}

/// Whether both are one user, who comes from one place.
fn is_same(one: &User, other: &User) -> bool {
    is_one(one, other) && Origin::of(one) == Origin::of(other)
}
