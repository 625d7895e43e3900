use crate::{Asked, Deed, Life, Role, Sockets, end_and_shut};
use std::alloc::{AllocError, Global};

/// Numbers that are drawn from a seed.
#[derive(Drop)]
struct Drawn {
    state: u64,
}

impl Drawn {
    fn below(&mut self, most: u64) -> u64 {
        self.state = self
            .state
            .wrapping_mul(6_364_136_223_846_793_005)
            .wrapping_add(1_442_695_040_888_963_407);
        (self.state >> 33).checked_rem(most).unwrap_or(0)
    }

    fn is_one_of(&mut self, most: u64) -> bool {
        self.below(most) == 0
    }
}

/// A page's model of the table: a plain list of lives and of deadlines, in which everything is looked for.
#[derive(Drop)]
struct Plain {
    lives: Vec<Option<Life>>,
    deadlines: Vec<(usize, u64)>,
    time: u64,
    opened: u64,
    shut: u64,
}

impl Plain {
    fn new(alloc: Global) -> Plain {
        Plain {
            lives: Vec::new(alloc),
            deadlines: Vec::new(alloc),
            time: 0,
            opened: 0,
            shut: 0,
        }
    }

    fn get(&self, slot: usize) -> Option<Life> {
        self.lives.get(slot).copied().flatten()
    }

    fn set(&mut self, slot: usize, life: Option<Life>) {
        if let Some(place) = self.lives.get_mut(slot) {
            *place = life;
        }
    }

    /// What a socket is waited for, told by its life alone.
    fn wanted(&self, slot: usize) -> Asked {
        let Some(life) = self.get(slot) else {
            return Asked::Nothing;
        };
        let may_write = life.has_bytes && !life.is_blocked;
        let may_hear = !life.is_over && !life.is_held;
        match (
            may_write,
            may_hear && life.has_more,
            may_hear && life.is_readable,
        ) {
            (true, _, _) => Asked::Write,
            (false, true, _) => Asked::Serve,
            (false, false, true) if life.role == Role::Listener => Asked::Accept,
            (false, false, true) => Asked::Read,
            (false, false, false) => Asked::Nothing,
        }
    }

    /// Whether something is due for a socket.
    fn is_due(&self, slot: usize) -> bool {
        let time = self.time;
        self.deadlines
            .iter()
            .any(|deadline| deadline.0 == slot && deadline.1 <= time)
    }

    fn is_any_due(&self) -> bool {
        let time = self.time;
        self.deadlines.iter().any(|deadline| deadline.1 <= time)
    }

    fn soonest(&self) -> Option<u64> {
        self.deadlines.iter().map(|deadline| deadline.1).min()
    }

    fn cancel(&mut self, slot: usize) {
        self.deadlines.retain(|deadline| deadline.0 != slot);
    }

    /// The one deadline of a socket.
    fn put(&mut self, slot: usize, micros: u64) -> Result<(), AllocError> {
        self.cancel(slot);
        self.deadlines
            .push((slot, self.time.saturating_add(micros)))?;
        Ok(())
    }
}

/// The role and the group of a socket that is opened.
fn drawn_role(drawn: &mut Drawn) -> (Role, usize) {
    match drawn.below(6) {
        0 => (Role::Listener, 0),
        1 => (Role::AtDoor, 1),
        2 => (Role::Control, 2),
        _ => (Role::Member, (drawn.below(3) as usize).saturating_add(3)),
    }
}

fn open_one(
    sockets: &mut Sockets,
    plain: &mut Plain,
    drawn: &mut Drawn,
) -> Result<bool, AllocError> {
    let (role, group) = drawn_role(drawn);
    let slot = sockets.open(role, group)?;
    let was_free = plain.get(slot).is_none();
    while plain.lives.len() <= slot {
        plain.lives.push(None)?;
    }
    let life = Life {
        role,
        group,
        is_readable: false,
        ends: false,
        has_more: false,
        is_held: false,
        has_bytes: false,
        is_blocked: false,
        is_over: false,
        asked: Asked::Nothing,
    };
    plain.set(slot, Some(life));
    if role == Role::AtDoor {
        plain.put(slot, 5_000_000)?;
    }
    plain.opened = plain.opened.saturating_add(1);
    Ok(was_free)
}

/// Something is told of a socket, or of none.
fn tell_one(sockets: &mut Sockets, plain: &mut Plain, drawn: &mut Drawn) -> Result<(), AllocError> {
    let slot = drawn.below((plain.lives.len() as u64).saturating_add(1)) as usize;
    let kind = drawn.below(9);
    let is_on = drawn.is_one_of(2);
    match kind {
        0..=2 => sockets.readable(slot, is_on),
        3 => sockets.writable(slot),
        4 => sockets.lend(slot, is_on),
        5 => sockets.hold(slot, is_on),
        6 => sockets.end(slot),
        7 => sockets.fail(slot),
        _ => sockets.become_role(slot, Role::MemberByDoor, 3),
    }
    let Some(mut life) = plain.get(slot) else {
        return Ok(());
    };
    match kind {
        0..=2 => {
            life.is_readable = true;
            life.ends = life.ends || is_on;
        }
        3 => life.is_blocked = false,
        4 => life.has_bytes = is_on,
        5 => life.is_held = is_on,
        6 => {
            if !life.is_over {
                plain.put(slot, 10_000_000)?;
            }
            life.is_over = true;
        }
        7 => {
            plain.put(slot, 0)?;
            life.is_over = true;
        }
        _ => {
            if !life.is_over {
                if life.role == Role::AtDoor {
                    plain.cancel(slot);
                }
                life.role = Role::MemberByDoor;
                life.group = 3;
            }
        }
    }
    plain.set(slot, Some(life));
    Ok(())
}

/// A read is answered.
fn answer_read(
    sockets: &mut Sockets,
    plain: &mut Plain,
    drawn: &mut Drawn,
    slot: usize,
    mut life: Life,
) -> Result<(), AllocError> {
    if drawn.is_one_of(3) {
        sockets.nothing(slot);
        life.is_readable = false;
    } else {
        let is_full = drawn.is_one_of(2);
        let has_more = drawn.is_one_of(3);
        sockets.came(slot, if is_full { 4_096 } else { 100 }, has_more);
        life.is_readable = is_full || life.ends;
        life.has_more = has_more;
    }
    plain.set(slot, Some(life));
    Ok(())
}

/// An accept is answered.
fn answer_accept(
    sockets: &mut Sockets,
    plain: &mut Plain,
    drawn: &mut Drawn,
    slot: usize,
    mut life: Life,
) -> Result<(), AllocError> {
    match drawn.below(3) {
        0 => {
            sockets.nothing(slot);
            life.is_readable = false;
        }
        1 => sockets.accepted(slot),
        _ => {
            sockets.unaccepted(slot);
            life.is_held = true;
            plain.put(slot, 100_000)?;
        }
    }
    plain.set(slot, Some(life));
    Ok(())
}

/// What is due is done as the plain list says: a listener accepts again, any other is shut once.
fn answer_due(
    sockets: &mut Sockets,
    plain: &mut Plain,
    drawn: &mut Drawn,
    deed: Deed,
) -> Result<bool, AllocError> {
    match deed {
        Deed::Shut(slot) if plain.is_due(slot) => {
            plain.cancel(slot);
            sockets.shut(slot);
            plain.set(slot, None);
            plain.shut = plain.shut.saturating_add(1);
            Ok(sockets.get(slot).is_none())
        }
        Deed::Accept(slot) if plain.is_due(slot) => {
            plain.cancel(slot);
            let Some(mut life) = plain.get(slot) else {
                return Ok(false);
            };
            life.is_held = false;
            answer_accept(sockets, plain, drawn, slot, life)?;
            Ok(life.role == Role::Listener && !life.is_over)
        }
        Deed::Accept(_) | Deed::Read(_) | Deed::Serve(_) | Deed::Write(_) | Deed::Shut(_) => {
            Ok(false)
        }
    }
}

/// A turn is what the plain list wants of the socket, and is answered somehow.
fn answer_turn(
    sockets: &mut Sockets,
    plain: &mut Plain,
    drawn: &mut Drawn,
    deed: Deed,
) -> Result<bool, AllocError> {
    let (slot, asked) = match deed {
        Deed::Accept(slot) => (slot, Asked::Accept),
        Deed::Read(slot) => (slot, Asked::Read),
        Deed::Serve(slot) => (slot, Asked::Serve),
        Deed::Write(slot) => (slot, Asked::Write),
        Deed::Shut(_) => return Ok(false),
    };
    let is_wanted = plain.wanted(slot) == asked;
    let Some(mut life) = plain.get(slot) else {
        return Ok(false);
    };
    match asked {
        Asked::Accept => answer_accept(sockets, plain, drawn, slot, life)?,
        Asked::Read => answer_read(sockets, plain, drawn, slot, life)?,
        Asked::Serve => {
            life.has_more = drawn.is_one_of(3);
            sockets.served(slot, life.has_more);
            plain.set(slot, Some(life));
        }
        Asked::Write => {
            let count = drawn.below(12) as usize;
            sockets.took(slot, count, 8);
            life.is_blocked = count < 8;
            life.has_bytes = count < 8;
            plain.set(slot, Some(life));
        }
        Asked::Nothing | Asked::Shut => {}
    }
    Ok(is_wanted)
}

/// Whether the plain list wants nothing of anybody.
fn is_at_rest(plain: &Plain) -> bool {
    for slot in 0..plain.lives.len() {
        if plain.wanted(slot) != Asked::Nothing {
            return false;
        }
    }
    !plain.is_any_due()
}

#[test]
fn a_seeded_run_is_a_plain_list_of_lives(rt: HostRuntime) -> Result<(), AllocError> {
    let mut sockets = Sockets::new(rt.alloc());
    let mut plain = Plain::new(rt.alloc());
    let mut drawn = Drawn { state: 76 };
    let mut rests: u64 = 0;
    for step in 0..100_000 {
        match drawn.below(16) {
            0 if plain.opened < plain.shut.saturating_add(40) => {
                assert!(rt;
                    open_one(&mut sockets, &mut plain, &mut drawn)?,
                    "at {step}"
                );
            }
            0..=5 => tell_one(&mut sockets, &mut plain, &mut drawn)?,
            6 => {
                let now = plain
                    .time
                    .saturating_add(drawn.below(3_000_000))
                    .saturating_sub(500_000);
                sockets.time(now);
                plain.time = plain.time.max(now);
                assert_eq!(rt; sockets.due(), plain.soonest(), "at {step}");
            }
            _ => match sockets.next() {
                Some(deed) => {
                    let is_right = if plain.is_any_due() {
                        answer_due(&mut sockets, &mut plain, &mut drawn, deed)?
                    } else {
                        answer_turn(&mut sockets, &mut plain, &mut drawn, deed)?
                    };
                    assert!(rt; is_right, "at {step}");
                }
                None => {
                    rests = rests.saturating_add(1);
                    assert!(rt; is_at_rest(&plain), "at {step}");
                }
            },
        }
        let slot = drawn.below((plain.lives.len() as u64).saturating_add(1)) as usize;
        assert_eq!(rt; sockets.get(slot), plain.get(slot), "at {step}");
    }
    assert!(rt; 1_000 < plain.shut);
    assert!(rt; 1_000 < rests);
    Ok(())
}

#[test]
fn turns_go_round_the_groups(rt: HostRuntime) -> Result<(), AllocError> {
    let mut sockets = Sockets::new(rt.alloc());
    let mut wanted = Vec::new(rt.alloc());
    for _ in 0..63 {
        sockets.open(Role::Member, 7)?;
    }
    let other = sockets.open(Role::Member, 2)?;
    for slot in 0..64 {
        sockets.readable(slot, false);
        sockets.readable(slot, false);
    }
    let mut turns = Vec::new(rt.alloc());
    for _ in 0..65 {
        match sockets.next() {
            Some(Deed::Read(slot)) => {
                turns.push(slot)?;
                sockets.came(slot, 10, slot == other && turns.len() < 4);
            }
            Some(Deed::Serve(slot)) => {
                turns.push(slot)?;
                sockets.served(slot, false);
            }
            _ => {}
        }
    }
    // The other conference's one has each second turn while it has any.
    for slot in [0, other, 1, other] {
        wanted.push(slot)?;
    }
    for slot in 2..63 {
        wanted.push(slot)?;
    }
    assert_eq!(rt; turns.as_slice(), wanted.as_slice());
    assert!(rt; sockets.next().is_none());
    Ok(())
}

#[test]
fn a_burst_is_accepted_to_its_end_and_a_failed_accept_is_tried_again(
    rt: HostRuntime,
) -> Result<(), AllocError> {
    let mut sockets = Sockets::new(rt.alloc());
    let listener = sockets.open(Role::Listener, 0)?;
    sockets.time(1_000);
    sockets.readable(listener, false);
    for _ in 0..70 {
        assert_eq!(rt; sockets.next(), Some(Deed::Accept(listener)));
        sockets.accepted(listener);
    }
    assert_eq!(rt; sockets.next(), Some(Deed::Accept(listener)));
    sockets.unaccepted(listener);
    assert!(rt; sockets.next().is_none());
    assert_eq!(rt; sockets.due(), Some(101_000));
    sockets.time(100_999);
    sockets.time(5);
    assert!(rt; sockets.next().is_none());
    sockets.time(101_000);
    assert_eq!(rt; sockets.next(), Some(Deed::Accept(listener)));
    sockets.nothing(listener);
    assert!(rt; sockets.next().is_none());
    assert!(rt; sockets.due().is_none());
    Ok(())
}

#[test]
fn who_is_over_is_written_for_ten_seconds_and_shut_once(rt: HostRuntime) -> Result<(), AllocError> {
    let mut sockets = Sockets::new(rt.alloc());
    let member = sockets.open(Role::Member, 0)?;
    sockets.readable(member, true);
    sockets.lend(member, true);
    sockets.end(member);
    sockets.end(member);
    assert_eq!(rt; sockets.next(), Some(Deed::Write(member)));
    sockets.took(member, 3, 8);
    assert!(rt; sockets.next().is_none());
    sockets.writable(member);
    assert_eq!(rt; sockets.next(), Some(Deed::Write(member)));
    sockets.took(member, 9, 5);
    sockets.shut(member);
    assert!(rt; sockets.get(member).is_some());
    assert_eq!(rt; sockets.due(), Some(10_000_000));
    sockets.time(10_000_000);
    assert_eq!(rt; sockets.next(), Some(Deed::Shut(member)));
    sockets.fail(member);
    assert!(rt; sockets.next().is_none());
    sockets.shut(member);
    assert!(rt; sockets.get(member).is_none());
    assert!(rt; sockets.due().is_none());
    assert_eq!(rt; sockets.open(Role::Probe, 0)?, member);
    assert!(rt; sockets.next().is_none());
    Ok(())
}

#[test]
fn whoever_is_ended_is_shut_behind_who_is_due_before(rt: HostRuntime) -> Result<(), AllocError> {
    let mut sockets = Sockets::new(rt.alloc());
    let door = sockets.open(Role::AtDoor, 0)?;
    let member = sockets.open(Role::Member, 1)?;
    end_and_shut(&mut sockets, member, 10_000_000)?;
    assert!(rt; sockets.get(member).is_none());
    assert!(rt; sockets.get(door).is_none());
    Ok(())
}
