//! The text of each refusal.

use crate::cases::assert_told;
use floor_console::{
    Board, BoardRefusal, ConfigFault, Floor, Refusal, RoomRefusal, Status, StopRefusal, Stopped,
    Text, User, run_line,
};
use std::alloc::{AllocError, Global};

/// A board that refuses everything.
#[derive(Drop)]
struct Refusing {
    refusal: BoardRefusal,
    fault: StopRefusal,
}

impl Board for Refusing {
    ghost opens = { λ _ _ _ _. Unit {0} };

    ghost closes = { λ _ _ _ _. Unit {0} };

    ghost revokes = { λ _ _ _ _ _. Unit {0} };

    ghost adds_user = { λ _ _ _ _ _. Unit {0} };

    ghost adds_floor = { λ _ _ _ _ _. Unit {0} };

    ghost sets_chair = { λ _ _ _ _ _ _. Unit {0} };

    ghost stands = { λ _ _ _ _. Unit {0} };

    ghost lists = { λ _ _ _ _. Unit {0} };

    ghost stops = { λ _ _ _. Unit {0} };

    fn open(&mut self, _path: &str) -> Result<usize, BoardRefusal> {
        Err(self.refusal)
    }

    fn close(&mut self, _conference: u32) -> Result<(), BoardRefusal> {
        Err(self.refusal)
    }

    fn revoke(&mut self, _conference: u32, _request: u16) -> Result<(), BoardRefusal> {
        Err(self.refusal)
    }

    fn add_user(&mut self, _conference: u32, _user: User) -> Result<(), BoardRefusal> {
        Err(self.refusal)
    }

    fn add_floor(&mut self, _conference: u32, _floor: Floor) -> Result<(), BoardRefusal> {
        Err(self.refusal)
    }

    fn set_chair(
        &mut self,
        _conference: u32,
        _floor: u16,
        _chair: Option<u16>,
    ) -> Result<(), BoardRefusal> {
        Err(self.refusal)
    }

    fn status(&mut self, _conference: u32) -> Result<Status, BoardRefusal> {
        Err(self.refusal)
    }

    fn journal(&mut self, _conference: u32) -> Result<Text, BoardRefusal> {
        Err(self.refusal)
    }

    fn stop(&mut self) -> Result<Stopped, StopRefusal> {
        Err(self.fault)
    }
}

#[test]
fn each_refusal_is_told_by_name(rt: HostRuntime) {
    let wanted = "error NoConference
error CannotRead
error CannotListen
error Used
error DoubleUser
error JournalFull
error Broken
";
    assert_told(&rt, refusals_told(rt.alloc()), wanted);
}

/// What is told of each refusal.
fn refusals_told(alloc: Global) -> Result<String, AllocError> {
    let mut told = String::new(alloc);
    for refusal in [
        BoardRefusal::NoConference,
        BoardRefusal::CannotRead,
        BoardRefusal::CannotListen,
        BoardRefusal::Used,
        BoardRefusal::ByConfiguration(ConfigFault::DoubleUser),
        BoardRefusal::ByRoom(RoomRefusal::JournalFull),
        BoardRefusal::ByRoom(RoomRefusal::Refused(Refusal::Broken)),
    ] {
        told.push_str(&refusal_told(alloc, refusal)?)?;
    }
    Ok(told)
}

/// What is told of a refusal, once where each line is answered alike.
fn refusal_told(alloc: Global, refusal: BoardRefusal) -> Result<String, AllocError> {
    let fault = StopRefusal::Broken {
        conference: 4_294_967_295,
    };
    let mut board = Refusing { refusal, fault };
    let mut told = run_line(alloc, &mut board, "open a")?;
    for line in [
        "close 1",
        "revoke 1 1",
        "user 1 13",
        "floor 1 5",
        "chair 1 5",
        "status 1",
        "journal 1",
    ] {
        let other = run_line(alloc, &mut board, line)?;
        if other.as_str() != told.as_str() {
            told.push_str(line)?;
            told.push_str(&other)?;
        }
    }
    Ok(told)
}

#[test]
fn a_fault_of_the_stop_is_told(rt: HostRuntime) {
    let broken = StopRefusal::Broken { conference: 7 };
    assert_told(&rt, fault_told(rt.alloc(), broken), "error Broken 7\n");
    let mismatch = StopRefusal::Mismatch {
        conference: 7,
        n: 12,
    };
    assert_told(
        &rt,
        fault_told(rt.alloc(), mismatch),
        "error Mismatch 7 12\n",
    );
}

fn fault_told(alloc: Global, fault: StopRefusal) -> Result<String, AllocError> {
    let mut board = Refusing {
        refusal: BoardRefusal::Used,
        fault,
    };
    run_line(alloc, &mut board, "stop")
}

#[test]
fn want_of_memory_is_no_answer(rt: HostRuntime) {
    for refusal in [
        BoardRefusal::Memory,
        BoardRefusal::ByConfiguration(ConfigFault::Memory),
        BoardRefusal::ByRoom(RoomRefusal::Refused(Refusal::Memory)),
    ] {
        let fault = StopRefusal::Broken { conference: 1 };
        let mut board = Refusing { refusal, fault };
        let told = run_line(rt.alloc(), &mut board, "close 1");
        assert!(rt; told.is_err() && refusal.name() == "Memory");
    }
}
