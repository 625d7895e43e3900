//! A board that holds one room.

use crate::cases::{assert_told, barred, differing};
use crate::hexadecimal::frame;
use floor_config::Config;
use floor_console::{
    Board, BoardRefusal, Floor, Status, StopRefusal, Stopped, Text, User, run_line,
};
use floor_room::{Act, AddedUser, Effects, Room, journal_text};
use std::alloc::{AllocError, Global};

/// The conference 1, which is all that there is.
#[derive(Drop)]
struct OneRoom {
    alloc: Global,
    room: Room,
}

impl Board for OneRoom {
    ghost opens = { λ _ _ _ _. Unit {0} };

    ghost closes = { λ _ _ _ _. Unit {0} };

    ghost revokes = { λ _ _ _ _ _. Unit {0} };

    ghost adds_user = { λ _ _ _ _ _. Unit {0} };

    ghost adds_floor = { λ _ _ _ _ _. Unit {0} };

    ghost sets_chair = { λ _ _ _ _ _ _. Unit {0} };

    ghost stands = { λ _ _ _ _. Unit {0} };

    ghost lists = { λ _ _ _ _. Unit {0} };

    ghost stops = { λ _ _ _. Unit {0} };

    fn open(&mut self, _path: &str) -> Result<usize, BoardRefusal> {
        Err(BoardRefusal::CannotRead)
    }

    fn close(&mut self, conference: u32) -> Result<(), BoardRefusal> {
        self.act(conference, Act::Close)
    }

    fn revoke(&mut self, conference: u32, request: u16) -> Result<(), BoardRefusal> {
        self.act(conference, Act::Revoke(request))
    }

    fn add_user(&mut self, conference: u32, user: User) -> Result<(), BoardRefusal> {
        // Nobody listens here: the room drops the port.
        let user = AddedUser::new(self.alloc, user)?;
        self.act(conference, Act::AddUser(user))
    }

    fn add_floor(&mut self, conference: u32, floor: Floor) -> Result<(), BoardRefusal> {
        self.act(conference, Act::AddFloor(floor))
    }

    fn set_chair(
        &mut self,
        conference: u32,
        floor: u16,
        chair: Option<u16>,
    ) -> Result<(), BoardRefusal> {
        self.act(conference, Act::SetChair(floor, chair))
    }

    fn status(&mut self, conference: u32) -> Result<Status, BoardRefusal> {
        if conference != 1 {
            return Err(BoardRefusal::NoConference);
        }
        Ok(self.room.status())
    }

    fn journal(&mut self, conference: u32) -> Result<Text, BoardRefusal> {
        if conference != 1 {
            return Err(BoardRefusal::NoConference);
        }
        match journal_text(self.alloc, self.room.journal()) {
            Ok(text) => Ok(Text::from_string(text)),
            Err(_) => Err(BoardRefusal::Memory),
        }
    }

    fn stop(&mut self) -> Result<Stopped, StopRefusal> {
        let Status { events, .. } = self.room.status();
        Ok(Stopped {
            seats: 2,
            events: u128::from(events),
        })
    }
}

impl OneRoom {
    fn act(&mut self, conference: u32, act: Act) -> Result<(), BoardRefusal> {
        if conference != 1 {
            return Err(BoardRefusal::NoConference);
        }
        match self.room.admin(act, &mut Effects::new(self.alloc)) {
            Ok(()) => Ok(()),
            Err(refusal) => Err(BoardRefusal::ByRoom(refusal)),
        }
    }
}

/// The conference after floor 1 was asked for twice and given back once.
fn board(alloc: Global) -> Result<OneRoom, AllocError> {
    let mut room = Room::new(alloc, Config::demonstration(alloc)?)?;
    serve_three(alloc, &mut room)?;
    Ok(OneRoom { alloc, room })
}

fn serve_three(alloc: Global, room: &mut Room) -> Result<(), AllocError> {
    let _first = room.join(10, &mut Effects::new(alloc));
    let _second = room.join(11, &mut Effects::new(alloc));
    serve(alloc, room, 1, "20010001 00000001 0002000a 04040001")?;
    serve(alloc, room, 2, "20010001 00000001 0001000b 04040001")?;
    serve(alloc, room, 1, "20020001 00000001 0003000a 06040001")
}

fn serve(alloc: Global, room: &mut Room, n: u32, message: &str) -> Result<(), AllocError> {
    if let Some(frame) = frame(alloc, message)? {
        let _place = room.serve(n, frame, &mut Effects::new(alloc));
    }
    Ok(())
}

/// A line, and the lines that answer it, with a bar behind each.
const EXCHANGE: &str = "\
status 1=conference 1 members 2 ongoing 1 events 5 open|
journal 1=1 join 10|2 join 11|3 message 1 20010001000000010002000a04040001|4 message 2 20010001000000010001000b04040001|5 message 1 20020001000000010003000a06040001|end 5|
revoke 1 9=error NoRequest|
close 7=error NoConference|
revoke 7 1=error NoConference|
status 7=error NoConference|
journal 7=error NoConference|
close x=error BadNumber|
halt=error UnknownCommand|
open a.toml=error CannotRead|
revoke 1 2=ok revoked 1 2|
status 1=conference 1 members 2 ongoing 0 events 6 open|
user 1 13 name Ann=ok user 1 13|
floor 1 5 room 2 chair 12=ok floor 1 5|
chair 1 5=ok chair 1 5|
chair 1 5 99=error UnknownChair|
user 9 13=error NoConference|
floor 9 6=error NoConference|
chair 9 5=error NoConference|
user 1 14 port 0=error BadNumber|
user 1 14 port 7010 name  Ann  Lee =ok user 1 14|
user 1 10 port 7011=error DoubleUser|
user 1 15 uri a=error UnknownCommand|
floor 1 5=error DoubleFloor|
floor 1 6 room 0 chair 99=error OutOfRange|
chair 1 9 99=error NoFloor|
status 1=conference 1 members 2 ongoing 0 events 10 open|
close 1=ok closed 1|
close 1=error Ended|
revoke 1 2=error Ended|
user 1 16=error Ended|
floor 1 6=error Ended|
chair 1 5 10=error Ended|
status 1=conference 1 members 2 ongoing 0 events 11 ended|
stop=ok stopped seats 2 events 11|
=";

#[test]
fn a_board_of_one_room_answers(rt: HostRuntime) {
    assert_told(&rt, exchanged(rt.alloc()), "36 cases");
}

fn exchanged(alloc: Global) -> Result<String, AllocError> {
    let mut board = board(alloc)?;
    differing(alloc, EXCHANGE, "\n", "=", |alloc, line| {
        barred(alloc, &run_line(alloc, &mut board, line)?)
    })
}
