//! The conferences that the folder has go on.

use crate::mailbox::{Answer, Asked, Resumed, Unresumed};
use crate::port::Port;
use crate::refusals::board_refusal;
use crate::server::Server;
use floor_console::BoardRefusal;
use floor_keep::{Entry as Line, KeepFault, KeepReason, NotAJournal, list_folder};
use floor_server::{Entry, Reason, ServerFault, fault_of_keeping, fault_of_opening};
use std::fs::File;
use std::net::Net;
use std::rt::Files;
use std::sync::Wait;
use std::thread::Threads;
use std::time::Clock;

impl<R> Server<R>
where
    R: Net + Files<File = File> + AllocGlobal + Clock + Threads + Wait + Drop,
{
    /// The server is ready: the time of who is away in a conference of the folder counts from now on.
    pub fn begin(&mut self) -> Result<(), ServerFault> {
        for place in 0..self.loops() {
            match self.ask_at(place, Asked::Begin) {
                Some(Answer::Done(_)) => {}
                Some(Answer::Lost(fault)) => return Err(fault_of_keeping(fault)),
                _ => return Err(ServerFault::Memory),
            }
        }
        Ok(())
    }

    /// Looks at what the folder has, where conferences are kept.
    pub fn list_kept(&mut self) -> Result<(), ServerFault> {
        let Some(folder) = &self.lasting.folder else {
            return Ok(());
        };
        match list_folder(&self.rt, self.alloc, folder) {
            Ok(listing) => {
                self.listing = Some(listing);
                Ok(())
            }
            Err(reason) => Err(self.refuse_kept(reason)),
        }
    }

    /// Lets the next conferences of the folder go on, one in each loop beside each other, and gives those that do;
    /// none is left where `None` is given. Where a file is no journal, or can't be had, it stays as it is, its conference
    /// is left out, and the log is told.
    pub fn resume_next(&mut self) -> Result<Option<Vec<Resumed>>, ServerFault> {
        let mut asked = Vec::with_capacity(self.alloc, self.loops())?;
        for place in 0..self.loops() {
            let Some(conference) = self.next_kept() else {
                break;
            };
            let place = self.next_loop(place);
            self.ask_to_resume(place, conference);
            asked.push((place, conference))?;
        }
        if asked.is_empty() {
            return Ok(None);
        }
        let mut all = Vec::with_capacity(self.alloc, asked.len())?;
        for (place, conference) in asked {
            let answer = self.last_answer(place);
            if let Some(resumed) = self.take_resumed(conference, place, answer)? {
                all.push(resumed)?;
            }
        }
        Ok(Some(all))
    }

    /// The next conference of the folder.
    fn next_kept(&mut self) -> Option<u32> {
        let listing = self.listing.as_ref()?;
        let conference = listing.journals().get(self.looked).copied()?;
        self.looked = self.looked.saturating_add(1);
        Some(conference)
    }

    /// Takes what a loop answers that was to let a conference go on.
    fn take_resumed(
        &mut self,
        conference: u32,
        place: usize,
        answer: Option<Answer>,
    ) -> Result<Option<Resumed>, ServerFault> {
        match answer {
            Some(Answer::Resumed(Ok(Some(resumed)))) => {
                self.take_owned(conference, place, &resumed)?;
                Ok(Some(resumed))
            }
            Some(Answer::Resumed(Ok(None))) => Ok(None),
            Some(Answer::Resumed(Err(unresumed))) => self.leave_out(conference, unresumed),
            Some(Answer::Lost(fault)) => Err(fault_of_keeping(fault)),
            _ => Err(ServerFault::Memory),
        }
    }

    /// Leaves a conference out that doesn't go on, where that is for its file alone; else the server ends by the fault.
    fn leave_out(
        &mut self,
        conference: u32,
        unresumed: Unresumed,
    ) -> Result<Option<Resumed>, ServerFault> {
        match unresumed {
            Unresumed::NotAJournal(at) => self.tell_not_a_journal(at),
            Unresumed::Unkept(reason) if reason.fault == KeepFault::CannotKeep => {
                if let Some(log) = &self.log {
                    log.tell_unopened(&self.rt, conference, &reason);
                }
            }
            Unresumed::Unkept(reason) => return Err(self.refuse_kept(reason)),
            Unresumed::Refused(refusal) => return Err(fault_of_opening(board_refusal(refusal))),
        }
        self.left_out.push(conference)?;
        Ok(None)
    }

    /// Takes it that a loop has a conference that goes on, and gives it the ports of its users.
    fn take_owned(
        &mut self,
        conference: u32,
        place: usize,
        resumed: &Resumed,
    ) -> Result<(), ServerFault> {
        match self.take_opened(conference, place) {
            Ok(()) => {}
            Err(refusal) => return Err(fault_of_opening(refusal)),
        }
        let ports = match self.ports_of(resumed) {
            Ok(ports) => ports,
            Err(reason) => return Err(fault_of_opening(self.refuse(reason))),
        };
        match self.ask_at(place, Asked::Ports { conference, ports }) {
            Some(Answer::Done(Ok(_))) => Ok(()),
            Some(Answer::Done(Err(refusal))) => Err(fault_of_opening(board_refusal(refusal))),
            Some(Answer::Lost(fault)) => Err(fault_of_keeping(fault)),
            _ => Err(ServerFault::Memory),
        }
    }

    fn tell_not_a_journal(&self, at: NotAJournal) {
        let NotAJournal {
            conference,
            place,
            line,
        } = at;
        self.tell(&Entry::NotAJournal {
            conference,
            place,
            line,
        });
    }

    /// Listens on the ports of the users that a conference was opened with, and of those who were added.
    fn ports_of(&self, resumed: &Resumed) -> Result<Vec<Port>, Reason> {
        let mut ports = self.listen_all(&resumed.config)?;
        for note in resumed.notes.iter() {
            if let Line::Port { user, port } = &note.entry {
                let opened = self.listen(resumed.config.conference(), *user, *port)?;
                if ports.push(opened).is_err() {
                    return Err(Reason {
                        refusal: BoardRefusal::Memory,
                        line: None,
                    });
                }
            }
        }
        Ok(ports)
    }

    /// Whether a conference of the first configuration isn't opened, since the folder has or had it. The log is told.
    pub fn is_passed(&self, conference: u32) -> bool {
        let Some(listing) = &self.listing else {
            return false;
        };
        if !listing.has_journal(conference) && !listing.is_closed(conference) {
            return false;
        }
        self.tell(&self.passed(conference));
        true
    }

    /// What became of a conference that the folder has or had.
    fn passed(&self, conference: u32) -> Entry {
        if self.owner(conference).is_some() {
            Entry::FromFile { conference }
        } else if self.left_out.contains(&conference) {
            Entry::NotOpened { conference }
        } else {
            Entry::WasClosed { conference }
        }
    }

    /// Keeps what a person is to be told, and gives the fault.
    fn refuse_kept(&mut self, reason: KeepReason) -> ServerFault {
        let KeepReason { fault, line } = reason;
        self.told = line;
        fault_of_keeping(fault)
    }
}
