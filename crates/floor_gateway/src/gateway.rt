//! What all connections share: who has which token, the page, and the connections that run.

use crate::entry::Entry;
use crate::fault::GatewayFault;
use crate::listener::{Changed, Listener};
use crate::pair::Pair;
use crate::under_way::{MAX_UNDER_WAY, UnderWay};
use crate::words::Words;
use floor_follow::{Conference, Fact, FollowFault, Follower, Phase, Question, Told};
use floor_listen::{Capacity, Granted, Taken};
use floor_log::Log;
use floor_web::{
    Admission, File, Holder, NoPlace, Order, OrderFault, Origins, Pages, Participants,
    ParticipantsFault, Places, Titles, admission_of, bearer, guest_of, is_invitation,
    is_strong_token, join, kind_of, put_out, read_participants, read_titles, refusal_of,
};
use slab::Slab;
use std::alloc::{AllocError, AllocFailed, Global};
use std::fs;
use std::io::Write;
use std::net::TcpStream;
use std::path::Path;
use std::rt::Files;
use std::sync::atomic::{AtomicBool, Ordering};
use std::sync::{Arc, Mutex, Wait};
use std::time::Clock;

/// How many connections the operator's pages may have at once, and orders be done: they have places of their own.
const OPERATORS: usize = 16;

/// How many orders of users may be done at once.
const ORDERS: usize = 16;

/// How many tokens that nobody has are looked up at once, until they may be known.
const LOOK_UPS: usize = 64;

/// What all connections share.
#[derive(Drop)]
pub struct Gateway {
    alloc: Global,
    participants: Participants,
    /// What the configuration's file calls conferences and floors.
    pub titles: Titles,
    /// The server's control socket, where it is followed.
    pub control: Option<String>,
    /// The operator's token, where there is an operator's page.
    operator: Option<String>,
    /// The token of whoever sees the operator's page and orders nothing, where there is one.
    observer: Option<String>,
    /// What is known by the control socket, once it was heard: it stays while the socket is lost.
    pub picture: Mutex<Option<Follower>>,
    is_lost: AtomicBool,
    listening: Mutex<Slab<Arc<Listener, Global>>>,
    pub pages: Pages,
    pub origins: Origins,
    /// The server's door by id, where all come by it.
    pub door: Option<u16>,
    log: Option<Arc<Log, Global>>,
    /// The field of a request's head in which a proxy names the client's address.
    pub client_address: Option<String>,
    /// All connections.
    connections: Mutex<Capacity>,
    /// Those whose request is read or answered.
    under_way: Mutex<UnderWay>,
    /// Those of participants that go on.
    places: Mutex<Places>,
    /// Those of the operator.
    operators: Mutex<Capacity>,
    /// Orders of users that are being done.
    orders: Mutex<Capacity>,
    look_ups: Mutex<Capacity>,
    is_ending: AtomicBool,
    pairs: Mutex<Slab<Arc<Pair, Global>>>,
}

/// Whom a token stands for.
#[derive(Clone, Copy, Debug)]
pub struct Seat {
    pub conference: u32,
    pub user: u16,
    /// The user's port of the server, where there is one.
    pub port: Option<u16>,
    /// Whether the conference is known to run no more.
    pub is_ended: bool,
    /// Whether the user is let in.
    pub admission: Admission,
}

/// Whom a token stands for, be it a user's or that of a link for guests.
#[derive(Clone, Copy, Debug)]
pub enum Whom {
    User(Seat),
    /// Whoever has the link may join this conference.
    Guest(u32),
}

/// A connection to the server that is to be ended, since its user was shown out.
#[derive(Clone, Copy, Debug)]
pub struct Leaving {
    pub conference: u32,
    pub user: u16,
    pub n: u32,
}

/// What somebody may do at the operator's page.
#[derive(Clone, Copy, Debug, PartialEq, Eq)]
pub enum Role {
    /// To see how all conferences stand, and to order.
    Operates,
    /// To see alone.
    Observes,
}

impl Gateway {
    /// The gateway of these words, to which nobody has connected, with the log that it tells, if there
    /// is one. Whatever is wrong is told on `errors`, with its place.
    pub fn open<R, E: Write>(
        rt: &R,
        alloc: Global,
        words: Words,
        log: Option<Arc<Log, Global>>,
        errors: &mut E,
    ) -> Result<Gateway, GatewayFault>
    where
        R: Files + AllocGlobal + Clone + Drop,
    {
        let Words {
            address: _,
            config,
            folder,
            origins,
            door,
            control,
            operator,
            observer,
            connections,
            client_address,
            has_log: _,
        } = words;
        let text = text_of(rt, config.as_str(), errors)?;
        let is_followed = control.is_some();
        let participants = participants_of(
            alloc,
            config.as_str(),
            text.as_str(),
            is_followed,
            errors,
        )?;
        let titles = read_titles(alloc, text.as_str())?;
        if door.is_none() && !is_followed {
            check_ports(&participants, config.as_str(), errors)?;
        }
        let operator = operator_token(rt, alloc, operator, is_followed, errors)?;
        let observer = operator_token(rt, alloc, observer, is_followed, errors)?;
        let pages = read_pages(rt, alloc, folder.as_str(), errors)?;
        if pages.find(b"index.html").is_none() {
            let _outcome = writeln!(errors, "{folder}: there is no index.html in it");
            return Err(GatewayFault::NoPage);
        }
        // As many requests that were ended to make room may be about to end.
        let most = usize::from(connections) + OPERATORS + 2 * MAX_UNDER_WAY;
        Ok(Gateway {
            alloc,
            participants,
            titles,
            control,
            operator,
            observer,
            picture: Mutex::new(None),
            is_lost: AtomicBool::new(false),
            listening: Mutex::new(Slab::new(alloc)),
            pages,
            origins: Origins { listed: origins },
            door,
            log,
            client_address,
            connections: Mutex::new(Capacity::new(most)),
            under_way: Mutex::new(UnderWay::new(alloc)),
            places: Mutex::new(Places::new(alloc, usize::from(connections))),
            operators: Mutex::new(Capacity::new(OPERATORS)),
            orders: Mutex::new(Capacity::new(ORDERS)),
            look_ups: Mutex::new(Capacity::new(LOOK_UPS)),
            is_ending: AtomicBool::new(false),
            pairs: Mutex::new(Slab::new(alloc)),
        })
    }

    /// Tells the log, where there is one, what became of a connection.
    pub fn tell<R: Clock + Wait>(&self, rt: &R, entry: &Entry<'_>) {
        match &self.log {
            None => {}
            Some(log) => log.tell(rt, entry.text(self.alloc)),
        }
    }

    /// Ends the log, where there is one, once nothing more is to be told.
    pub fn end_log<R: Wait>(&self, rt: &R) {
        match &self.log {
            None => {}
            Some(log) => log.end(rt),
        }
    }

    /// Takes in a connection, if there may be one more.
    pub fn enter<R: Wait>(&self, rt: &R) -> Option<Granted> {
        self.connections.lock(rt).take()
    }

    /// The connection has ended.
    pub fn leave<R: Wait>(&self, rt: &R, connection: Taken) {
        self.connections.lock(rt).give_back(connection);
    }

    /// Whether no connection runs.
    pub fn is_idle<R: Wait>(&self, rt: &R) -> bool {
        self.connections.lock(rt).is_idle()
    }

    /// Begins a request, by a second handle of its socket, and gives its number.
    pub fn begin_request<R: Wait>(&self, rt: &R, socket: TcpStream) -> Result<u64, AllocError> {
        self.under_way.lock(rt).begin(socket)
    }

    /// A request is under way no more.
    pub fn end_request<R: Wait>(&self, rt: &R, number: u64) {
        self.under_way.lock(rt).end(number);
    }

    /// Grants a place to a participant's connection that goes on.
    pub fn take_place<R: Wait>(&self, rt: &R, holder: Holder) -> Result<(), NoPlace> {
        self.places.lock(rt).take(holder)
    }

    /// Gives it back.
    pub fn give_place_back<R: Wait>(&self, rt: &R, holder: Holder) {
        self.places.lock(rt).give_back(holder);
    }

    /// Takes one of the operator's places, if one is free.
    pub fn enter_operator<R: Wait>(&self, rt: &R) -> Option<Granted> {
        self.operators.lock(rt).take()
    }

    /// Gives it back.
    pub fn leave_operator<R: Wait>(&self, rt: &R, place: Taken) {
        self.operators.lock(rt).give_back(place);
    }

    /// Lets an order of a user's be done, if one more may be.
    pub fn enter_order<R: Wait>(&self, rt: &R) -> Option<Granted> {
        self.orders.lock(rt).take()
    }

    /// It is done.
    pub fn leave_order<R: Wait>(&self, rt: &R, place: Taken) {
        self.orders.lock(rt).give_back(place);
    }

    /// Lets a token be looked up that nobody has yet, if one more may be.
    pub fn begin_look_up<R: Wait>(&self, rt: &R) -> Option<Granted> {
        self.look_ups.lock(rt).take()
    }

    /// It is looked up no more.
    pub fn end_look_up<R: Wait>(&self, rt: &R, look_up: Taken) {
        self.look_ups.lock(rt).give_back(look_up);
    }

    /// Takes up a pair, so that it ends where the gateway does.
    pub fn add<R: Wait>(&self, rt: &R, pair: &Arc<Pair, Global>) -> Result<usize, AllocError> {
        let ours = Arc::try_clone(pair)?;
        match self.pairs.lock(rt).insert(ours) {
            Ok(key) => Ok(key),
            Err(AllocFailed { value: _ }) => Err(AllocError),
        }
    }

    /// Gives a pair up.
    pub fn remove<R: Wait>(&self, rt: &R, key: usize) {
        let pair = self.pairs.lock(rt).try_remove(key);
        // Without the lock.
        drop(pair);
    }

    /// Lets no further connection begin, and hangs up for all that run.
    pub fn end<R: Wait>(&self, rt: &R) {
        self.is_ending.store(true, Ordering::SeqCst);
        for (_key, pair) in self.pairs.lock(rt).iter() {
            pair.hang_up();
        }
        for (_key, listener) in self.listening.lock(rt).iter() {
            listener.hang_up();
        }
    }

    /// Takes up a page that is told what changes.
    pub fn listen<R: Wait>(
        &self,
        rt: &R,
        listener: &Arc<Listener, Global>,
    ) -> Result<usize, AllocError> {
        let ours = Arc::try_clone(listener)?;
        match self.listening.lock(rt).insert(ours) {
            Ok(key) => Ok(key),
            Err(AllocFailed { value: _ }) => Err(AllocError),
        }
    }

    /// Gives it up.
    pub fn unlisten<R: Wait>(&self, rt: &R, key: usize) {
        let listener = self.listening.lock(rt).try_remove(key);
        // Without the lock.
        drop(listener);
    }

    /// The pages that are told what changes; none where there is no memory for them, who hear it by the next
    /// round.
    pub fn listeners<R: Wait>(&self, rt: &R) -> Vec<Arc<Listener, Global>> {
        let mut all = Vec::new(self.alloc);
        for (_key, listener) in self.listening.lock(rt).iter() {
            if let Ok(ours) = Arc::try_clone(listener) {
                let _outcome = all.push(ours);
            }
        }
        all
    }

    /// Shows what is known of the server now.
    pub fn show<R: Wait>(&self, rt: &R, follower: Follower) {
        let before = self.picture.lock(rt).replace(follower);
        self.is_lost.store(false, Ordering::SeqCst);
        // Without the lock.
        drop(before);
    }

    /// The control socket is lost.
    pub fn lose(&self) {
        self.is_lost.store(true, Ordering::SeqCst);
    }

    /// Whether the control socket is lost, and what is known of the server may be old.
    pub fn is_lost(&self) -> bool {
        self.is_lost.load(Ordering::SeqCst)
    }

    /// What is to be asked next of the server that is shown.
    pub fn ask<R: Wait>(&self, rt: &R) -> Option<Question> {
        match &mut *self.picture.lock(rt) {
            Some(follower) => follower.ask(),
            None => None,
        }
    }

    /// Takes what a line tells of the server that is shown.
    pub fn hear<R: Wait>(&self, rt: &R, told: Told) -> Result<(), FollowFault> {
        match &mut *self.picture.lock(rt) {
            Some(follower) => follower.hear(told),
            None => Ok(()),
        }
    }

    /// Has the list and the words asked for again.
    pub fn begin_round<R: Wait>(&self, rt: &R) {
        match &mut *self.picture.lock(rt) {
            Some(follower) => follower.begin_round(),
            None => {}
        }
    }

    /// What whoever has this token may do at the operator's page, if anything.
    pub fn role(&self, token: &[u8]) -> Option<Role> {
        if is_token(&self.operator, token) {
            return Some(Role::Operates);
        }
        if is_token(&self.observer, token) {
            return Some(Role::Observes);
        }
        None
    }

    /// Whom a token stands for: by a word at the control socket, else by the file.
    pub fn seat<R: Wait>(&self, rt: &R, token: &[u8]) -> Option<Seat> {
        let picture = self.picture.lock(rt);
        if let Some(follower) = &*picture {
            for conference in follower.conferences() {
                if let Some(user) = bearer(conference, token) {
                    return Some(self.seat_in(follower, conference.number, user, None));
                }
            }
        }
        let participant = self.participants.find(token)?;
        let (conference, user, port) = (participant.conference, participant.user, participant.port);
        match &*picture {
            Some(follower) => Some(self.seat_in(follower, conference, user, port)),
            None => Some(Seat {
                conference,
                user,
                port,
                is_ended: false,
                admission: Admission::Admitted,
            }),
        }
    }

    /// Whom a token stands for: a user, else whoever may join by it.
    pub fn whom<R: Wait>(&self, rt: &R, token: &[u8]) -> Option<Whom> {
        if let Some(seat) = self.seat(rt, token) {
            return Some(Whom::User(seat));
        }
        let picture = self.picture.lock(rt);
        let Some(follower) = &*picture else {
            return None;
        };
        for conference in follower.conferences() {
            if is_invitation(conference, token) {
                return Some(Whom::Guest(conference.number));
            }
        }
        None
    }

    /// What the page of whoever may join a conference is told; `None` where nothing is known of it.
    pub fn welcome<R: Wait>(&self, rt: &R, number: u32) -> Result<Option<String>, AllocError> {
        let picture = self.picture.lock(rt);
        let Some(follower) = &*picture else {
            return Ok(None);
        };
        match follower.conference(number) {
            Some(conference) => Ok(Some(guest_of(self.alloc, conference, &self.titles)?)),
            None => Ok(None),
        }
    }

    /// Whether a token stands for anybody.
    pub fn is_taken<R: Wait>(&self, rt: &R, token: &[u8]) -> bool {
        self.role(token).is_some() || self.whom(rt, token).is_some()
    }

    /// Why a user's order isn't followed, by what is known of the conference.
    pub fn refusal<R: Wait>(&self, rt: &R, seat: &Seat, order: Order<'_>) -> Option<OrderFault> {
        // What is known may be of a server that is there no more.
        if self.is_lost() {
            return Some(OrderFault::NoAnswer);
        }
        match &*self.picture.lock(rt) {
            Some(follower) => match follower.conference(seat.conference) {
                Some(conference) => refusal_of(conference, seat.user, order),
                None => Some(OrderFault::NotChair),
            },
            None => Some(OrderFault::NotChair),
        }
    }

    /// The User ID by which somebody with this token is added first to a conference, or why nobody is.
    pub fn first_guest<R: Wait>(
        &self,
        rt: &R,
        number: u32,
        token: &[u8],
    ) -> Result<u16, OrderFault> {
        if self.is_lost() {
            return Err(OrderFault::NoAnswer);
        }
        match &*self.picture.lock(rt) {
            Some(follower) => match follower.conference(number) {
                Some(conference) => join(conference, token),
                None => Err(OrderFault::Locked),
            },
            None => Err(OrderFault::Locked),
        }
    }

    /// The connections of users who were shown out, of conferences that may have changed.
    pub fn leaving<R: Wait>(&self, rt: &R, changed: &Changed) -> Result<Vec<Leaving>, AllocError> {
        let mut all = Vec::new(self.alloc);
        let picture = self.picture.lock(rt);
        let Some(follower) = &*picture else {
            return Ok(all);
        };
        for conference in follower.conferences() {
            if changed.has(conference.number) {
                add_leaving(&mut all, conference)?;
            }
        }
        Ok(all)
    }

    /// A user's seat by what is known of the conference. While the control socket is lost none is known to
    /// have ended.
    fn seat_in(&self, follower: &Follower, number: u32, user: u16, port: Option<u16>) -> Seat {
        let mut seat = Seat {
            conference: number,
            user,
            port,
            is_ended: !self.is_lost(),
            admission: Admission::Admitted,
        };
        let Some(conference) = follower.conference(number) else {
            return seat;
        };
        if conference.phase == Phase::Running {
            seat.is_ended = false;
        }
        seat.admission = admission_of(conference, user);
        for fact in conference.facts.as_slice() {
            match fact {
                Fact::User(person) if person.id == user && seat.port.is_none() => {
                    seat.port = person.port;
                }
                _ => {}
            }
        }
        seat
    }

    /// What the page of a user of the file is told by the file.
    pub fn meeting_in_file(&self, token: &[u8]) -> Option<&str> {
        match self.participants.find(token) {
            Some(participant) => Some(participant.meeting.as_str()),
            None => None,
        }
    }

    /// Whether no further connection is to begin.
    pub fn is_ending(&self) -> bool {
        self.is_ending.load(Ordering::SeqCst)
    }
}

/// Adds the connections of users of a conference who were shown out.
fn add_leaving(all: &mut Vec<Leaving>, conference: &Conference) -> Result<(), AllocError> {
    for fact in conference.facts.as_slice() {
        match fact {
            Fact::Member(member) => {
                if let Some(n) = put_out(conference, fact) {
                    all.push(Leaving {
                        conference: conference.number,
                        user: member.user,
                        n,
                    })?;
                }
            }
            _ => {}
        }
    }
    Ok(())
}

/// Whether this is the token, where there is one.
fn is_token(token: &Option<String>, told: &[u8]) -> bool {
    match token {
        Some(token) => token.as_bytes() == told,
        None => false,
    }
}

/// The text of a file.
fn text_of<R, E: Write>(rt: &R, path: &str, errors: &mut E) -> Result<String, GatewayFault>
where
    R: Files + AllocGlobal + Clone + Drop,
{
    match fs::read_to_string(rt, path) {
        Ok(text) => Ok(text),
        Err(error) => {
            let _outcome = writeln!(errors, "{path}: {error}");
            Err(GatewayFault::CannotRead)
        }
    }
}

/// A token of the operator's page, which a file has, where one is named.
fn operator_token<R, E: Write>(
    rt: &R,
    alloc: Global,
    path: Option<String>,
    is_followed: bool,
    errors: &mut E,
) -> Result<Option<String>, GatewayFault>
where
    R: Files + AllocGlobal + Clone + Drop,
{
    let Some(path) = path else {
        return Ok(None);
    };
    if !is_followed {
        let _outcome = writeln!(errors, "an operator's page needs --control");
        return Err(GatewayFault::NoControl);
    }
    let text = text_of(rt, path.as_str(), errors)?;
    let token = text.as_str().trim();
    if !is_strong_token(token.as_bytes()) {
        let _outcome = writeln!(
            errors,
            "{}: a token is a text of at least 22 letters, digits, - and _",
            path.as_str()
        );
        return Err(GatewayFault::WeakToken);
    }
    Ok(Some(String::from_str(alloc, token)?))
}

/// The participants of a configuration's text: there may be none where others come by the control socket.
fn participants_of<E: Write>(
    alloc: Global,
    path: &str,
    text: &str,
    is_followed: bool,
    errors: &mut E,
) -> Result<Participants, GatewayFault> {
    match read_participants(alloc, text) {
        Ok(participants) => Ok(participants),
        Err(ParticipantsFault::NoToken) if is_followed => Ok(Participants::none(alloc)),
        Err(ParticipantsFault::Memory) => Err(GatewayFault::Memory),
        Err(fault) => {
            tell_place(errors, path, fault);
            Err(GatewayFault::Participants(fault))
        }
    }
}

/// Whether each participant has a port. The first who has none is told.
fn check_ports<E: Write>(
    participants: &Participants,
    path: &str,
    errors: &mut E,
) -> Result<(), GatewayFault> {
    match participants.first_without_port() {
        None => Ok(()),
        Some(found) => {
            let (conference, user) = (found.conference, found.user);
            let _outcome = writeln!(
                errors,
                "{path}: conference {conference}, user {user}: who has a token needs a port"
            );
            Err(GatewayFault::MissingPort)
        }
    }
}

/// Tells what is wrong with a configuration, and where.
fn tell_place<E: Write>(errors: &mut E, path: &str, fault: ParticipantsFault) {
    let _outcome = match fault {
        ParticipantsFault::Config(_) => {
            writeln!(errors, "{path}: the floor control server refuses it, too")
        }
        ParticipantsFault::WeakToken { conference, user } => writeln!(
            errors,
            "{path}: conference {conference}, user {user}: a token is a text of at least 22 letters, digits, - and _"
        ),
        ParticipantsFault::DoubleToken { conference, user } => writeln!(
            errors,
            "{path}: conference {conference}, user {user}: another user has the same token"
        ),
        ParticipantsFault::NoToken => writeln!(errors, "{path}: no user has a token"),
        ParticipantsFault::Memory => Ok(()),
    };
}

/// The files of a folder whose names end as those that are served.
fn read_pages<R, E: Write>(
    rt: &R,
    alloc: Global,
    folder: &str,
    errors: &mut E,
) -> Result<Pages, GatewayFault>
where
    R: Files + AllocGlobal + Clone + Drop,
{
    let mut pages = Pages::new(alloc);
    let entries = match fs::read_dir(rt, folder) {
        Ok(entries) => entries,
        Err(error) => {
            let _outcome = writeln!(errors, "{folder}: {error}");
            return Err(GatewayFault::CannotRead);
        }
    };
    for entry in entries {
        let Ok(entry) = entry else {
            let _outcome = writeln!(errors, "{folder}: it can't be read to its end");
            return Err(GatewayFault::CannotRead);
        };
        let name = entry.file_name();
        if let Some(kind) = kind_of(end_of(name)) {
            let path: Path<'_> = entry.path();
            let bytes = match fs::read(rt, path) {
                Ok(bytes) => bytes,
                Err(error) => {
                    let _outcome = writeln!(errors, "{folder}/{name}: {error}");
                    return Err(GatewayFault::CannotRead);
                }
            };
            let name = String::from_str(alloc, name)?;
            pages.add(File { name, kind, bytes })?;
        }
    }
    Ok(pages)
}

/// What stands behind the last dot of a name.
fn end_of(name: &str) -> &str {
    match name.rsplit_once('.') {
        Some((_, end)) => end,
        None => "",
    }
}
