//! What is known of a conference, fact by fact.

ghost use Rattle.std.specs.Prelude.{◌≡◌, ◌++◌, ◌∷◌, [], filter, not, OnErr, OnOk, IfOk};
ghost use Rattle.floor_follow.specs.Facts.{is_about};
ghost use Rattle.floor_follow.specs.Facts as spec;

use crate::change::Subject;
use floor_config::{Floor, Text};
use floor_message::RequestStatus;
use floor_wire::Octets;
use std::alloc::{AllocError, AllocFailed, Global};
use std::marker::Model;

/// A user of a conference.
#[derive(Drop)]
pub struct Person {
    /// The User ID (RFC 8855, section 5.1).
    pub id: u16,
    /// Whether the user may ask for floors on behalf of others.
    pub proxy: bool,
    /// The port that leads to the user, if one does.
    pub port: Option<u16>,
    /// The name, in UTF-8 where the server says so, if the user has one.
    pub name: Option<Octets>,
}

/// How a floor request stands at one of its floors.
#[derive(Clone, Copy)]
pub struct RequestedFloor {
    /// The Floor Request ID.
    pub request: u16,
    /// The Floor ID.
    pub floor: u16,
    /// Whom the request is for, its beneficiary, if anybody.
    pub user: Option<u16>,
    /// Who asked, where it was another.
    pub requester: Option<u16>,
    /// Its status at the floor.
    pub status: RequestStatus,
    /// Its queue position; 0 where it has none.
    pub position: u16,
}

/// What is said of a floor request.
#[derive(Drop)]
pub struct Reason {
    /// The Floor Request ID.
    pub request: u16,
    /// The text, in UTF-8 where whoever said it keeps to that.
    pub text: Octets,
}

/// A live member of a conference: a connection of a user's.
#[derive(Clone, Copy)]
pub struct Member {
    /// The number of the member.
    pub n: u32,
    /// The User ID.
    pub user: u16,
    /// Whether its connection is lost, and may come back.
    pub is_away: bool,
}

/// What somebody keeps beside a conference.
#[derive(Drop)]
pub struct Word {
    /// What it is kept by.
    pub key: Text,
    /// The octets.
    pub value: Octets,
}

/// What is known of a conference.
#[derive(Drop)]
pub enum Fact {
    User(Person),
    Floor(Floor),
    Request(RequestedFloor),
    Reason(Reason),
    Member(Member),
    Word(Word),
}

impl Fact {
    /// Whether it is about this.
    pub fn is_about(&self, subject: Subject) -> bool
        ensures value { result ≡ is_about subject self.now }
    {
        match (self, subject) {
            (Fact::User(_), Subject::Users) => true,
            (Fact::User(person), Subject::User(id)) => person.id == id,
            (Fact::Floor(_), Subject::Floors) => true,
            (Fact::Floor(floor), Subject::Floor(id)) => floor.id == id,
            (Fact::Request(_), Subject::Floors) => true,
            (Fact::Request(_), Subject::Live) => true,
            (Fact::Request(requested), Subject::Request(number)) => requested.request == number,
            (Fact::Reason(_), Subject::Floors) => true,
            (Fact::Reason(_), Subject::Live) => true,
            (Fact::Reason(reason), Subject::Request(number)) => reason.request == number,
            (Fact::Member(_), Subject::Members) => true,
            (Fact::Member(_), Subject::Live) => true,
            (Fact::Member(member), Subject::Member(n)) => member.n == n,
            (Fact::Word(_), Subject::Words) => true,
            _ => false,
        }
    }
}

/// Facts, in the order in which they were told.
#[derive(Drop)]
pub struct Facts {
    items: Vec<Fact>,
}

impl Model for Facts {
    ghost use Rattle.std.specs.Prelude.{List};
    ghost use Rattle.floor_follow.specs.declared.fact.Fact.{Fact};

    ghost Value = { List Fact };

    ghost view = { λ f. f.items.items };
}

impl Facts {
    /// None. Takes no memory.
    pub fn new(alloc: Global) -> Facts
        ensures value { result ≡ [] }
    {
        Facts {
            items: Vec::new(alloc),
        }
    }

    /// One.
    pub(crate) fn one(alloc: Global, fact: Fact) -> Result<Facts, AllocError>
        ensures value { IfOk result (λ facts. facts ≡ fact ∷ []) }
    {
        let mut facts = Facts::new(alloc);
        facts.push(fact)?;
        Ok(facts)
    }

    /// The facts, in order.
    pub fn as_slice(&self) -> &[Fact]
        ensures value { result.now ≡ self.now }
    {
        self.items.as_slice()
    }

    /// Puts one behind the others. After an error nothing has changed.
    pub(crate) fn push(&mut self, fact: Fact) -> Result<(), AllocError>
        ensures next { OnOk result (self.new ≡ self.old ++ fact ∷ []) }
        ensures left { OnErr result (self.new ≡ self.old) }
    {
        match self.items.push(fact) {
            Ok(()) => Ok(()),
            Err(AllocFailed { value: _ }) => Err(AllocError),
        }
    }

    /// Puts these behind the others.
    pub(crate) fn extend(&mut self, facts: Facts) -> Result<(), AllocError>
        ensures next { OnOk result (self.new ≡ self.old ++ facts) }
    {
        let mut added = facts.items;
        self.items.append(&mut added)
    }

    /// Puts these in the stead of those that are about the subject. After an error those may be gone.
    pub(crate) fn replace(&mut self, subject: Subject, facts: Facts) -> Result<(), AllocError>
        ensures next { OnOk result (self.new ≡ spec.replaced subject facts self.old) }
    {
        self.drop_about(subject);
        self.extend(facts)
    }

    /// Drops those that are about the subject.
    pub(crate) fn drop_about(&mut self, subject: Subject)
        ensures next { self.new ≡ filter (λ fact. not (is_about subject fact)) self.old }
    {
        self.items.retain(|fact| !fact.is_about(subject));
    }

    /// Gives the floor with this id this chair, or none.
    pub(crate) fn put_chair(&mut self, id: u16, chair: Option<u16>)
        ensures next { self.new ≡ spec.chaired id chair self.old }
    {
        for fact in self.items.iter_mut() {
            give_chair(fact, id, chair);
        }
    }
}

/// Gives a floor this chair, or none, if it is the one with this id.
fn give_chair(fact: &mut Fact, id: u16, chair: Option<u16>)
    ensures { fact.new ≡ spec.with_chair id chair fact.old }
{
    match fact {
        Fact::Floor(floor) if floor.id == id => floor.chair = chair,
        _ => {}
    }
}
