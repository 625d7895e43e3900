//! What an administrator's lines are about: the conferences of the value.

use crate::shell::Shell;
use floor_config::{Config, Floor, Text, User};
use floor_console::{Board, BoardRefusal, StopRefusal, Stopped};
use floor_machine::AddedUser;
use floor_program::{done_by, refused_by};
use floor_room::Status;
use floor_server::{Reason, configurations, read_text};
use floor_service::{Words, titles_of};
use floor_turn::{Act, HubRefusal};
use std::fs;

impl Shell {
    /// Opens the conferences of a file, and says how many.
    pub fn open_file(&mut self, path: &str) -> Result<usize, BoardRefusal> {
        let (system, alloc) = (&self.system, self.system.alloc);
        let text = system.checked(read_text(&system.rt, alloc, path))?;
        let configs = system.checked(configurations(alloc, path, text.as_str()))?;
        let count = configs.len();
        let titles = titles_of(alloc, text.as_str())?;
        let mut titles = titles.unwrap_or(Vec::new(alloc)).into_iter();
        for config in configs {
            self.open_one(config, titles.next().unwrap_or(Words::new(alloc)))?;
        }
        Ok(count)
    }

    /// Opens a conference, once its ports are had.
    fn open_one(&mut self, config: Config, titles: Words) -> Result<(), BoardRefusal> {
        match self.server.hub().status(config.conference()) {
            Err(HubRefusal::NoConference) => {}
            _ => return Err(BoardRefusal::Used),
        }
        self.system.bind_all(&config)?;
        self.server.open(config, titles).map_err(refused_by)?;
        let _is_done = self.settle();
        Ok(())
    }

    /// Does what an administrator does, and tells the log.
    fn act(&mut self, conference: u32, act: Act) -> Result<(), BoardRefusal> {
        let alloc = self.system.alloc;
        let done = done_by(alloc, &act)?;
        self.server
            .act(conference, act, self.now)
            .map_err(refused_by)?;
        if let Some(done) = done {
            let place = self.status(conference)?.events;
            let told = format!(in alloc; "conference {conference} {} at {place}", done.as_str());
            self.note(told);
        }
        Ok(())
    }

    /// Adds a user, once its port is had where it has one.
    fn add(&mut self, conference: u32, user: User) -> Result<(), BoardRefusal> {
        let (id, port) = (user.id, user.port);
        if let Some(port) = port {
            self.system.bind_for(conference, id, port)?;
        }
        let user = AddedUser::new(self.system.alloc, User { port: None, ..user })?;
        self.act(conference, Act::AddUser(user))?;
        match port {
            Some(port) => self.server.port(conference, id, port).map_err(refused_by),
            None => Ok(()),
        }
    }

    /// What the server had.
    pub fn report(&self) -> Result<Stopped, StopRefusal> {
        if let Some(conference) = self.server.broken() {
            return Err(StopRefusal::Broken { conference });
        }
        let totals = self.server.totals();
        Ok(Stopped {
            seats: totals.seats as usize,
            events: u128::from(totals.events),
        })
    }
}

impl Board for Shell {
    ghost opens = { λ _ _ _ _. Unit {0} };

    ghost closes = { λ _ _ _ _. Unit {0} };

    ghost revokes = { λ _ _ _ _ _. Unit {0} };

    ghost adds_user = { λ _ _ _ _ _. Unit {0} };

    ghost adds_floor = { λ _ _ _ _ _. Unit {0} };

    ghost sets_chair = { λ _ _ _ _ _ _. Unit {0} };

    ghost stands = { λ _ _ _ _. Unit {0} };

    ghost lists = { λ _ _ _ _. Unit {0} };

    ghost stops = { λ _ _ _. Unit {0} };

    /// Of what isn't a file, as a pipe, nothing is read: it may keep all waiting.
    fn open(&mut self, path: &str) -> Result<usize, BoardRefusal> {
        let system = &self.system;
        match fs::metadata(&system.rt, path) {
            Ok(found) if !found.is_file() => {
                let line = format!(in system.alloc; "{path}: not a file").ok();
                let refusal = BoardRefusal::CannotRead;
                system.checked(Err(Reason { refusal, line }))
            }
            _ => self.open_file(path),
        }
    }

    fn close(&mut self, conference: u32) -> Result<(), BoardRefusal> {
        self.act(conference, Act::Close)
    }

    fn revoke(&mut self, conference: u32, request: u16) -> Result<(), BoardRefusal> {
        self.act(conference, Act::Revoke(request))
    }

    fn add_user(&mut self, conference: u32, user: User) -> Result<(), BoardRefusal> {
        let _status = self.status(conference)?;
        self.add(conference, user)
    }

    fn add_floor(&mut self, conference: u32, floor: Floor) -> Result<(), BoardRefusal> {
        self.act(conference, Act::AddFloor(floor))
    }

    fn set_chair(
        &mut self,
        conference: u32,
        floor: u16,
        chair: Option<u16>,
    ) -> Result<(), BoardRefusal> {
        self.act(conference, Act::SetChair(floor, chair))
    }

    fn status(&mut self, conference: u32) -> Result<Status, BoardRefusal> {
        self.server.hub().status(conference).map_err(refused_by)
    }

    /// No line of it yet: the console is told it by pieces, so that whoever asks for a long one holds nobody up.
    fn journal(&mut self, conference: u32) -> Result<Text, BoardRefusal> {
        let events = self.server.hub().journal(conference).map_err(refused_by)?;
        self.console.answer_journal(conference, events.len());
        Ok(Text::from_string(String::new(self.system.alloc)))
    }

    /// It has stopped by now.
    fn stop(&mut self) -> Result<Stopped, StopRefusal> {
        self.report()
    }
}
