//! What is shown of users and of floor requests (RFC 8855, sections 5.2.14 to 5.2.16), copies of it,
//! and whether it is the same.

ghost use Rattle.std.specs.Prelude.{◌≡◌, ◌↔◌, IfOk, IsTrue, Some};

use crate::floor_statuses::FloorStatuses;
use floor_wire::Octets;
use std::alloc::{AllocError, Global};

/// A user as shown (sections 5.2.14 and 5.2.16).
#[derive(Debug, Drop)]
pub struct Who {
    /// The User ID.
    pub user: u16,
    /// The display name.
    pub name: Option<Octets>,
    /// The URI.
    pub uri: Option<Octets>,
}

impl Who {
    /// An equal user.
    pub fn copy(&self, alloc: Global) -> Result<Who, AllocError>
        ensures value { IfOk result (λ copy. copy ≡ self.now) }
    {
        let name = copied_octets(alloc, &self.name)?;
        let uri = copied_octets(alloc, &self.uri)?;
        Ok(Who {
            user: self.user,
            name,
            uri,
        })
    }

    /// Whether the same is shown of both.
    pub fn is_same(&self, other: &Who) -> bool
        ensures value { IsTrue result ↔ (self.now ≡ other.now) }
    {
        self.user == other.user
            && is_same_text(&self.name, &other.name)
            && is_same_text(&self.uri, &other.uri)
    }
}

/// A floor request as shown: what FLOOR-REQUEST-INFORMATION tells (section 5.2.15).
#[derive(Debug, Drop)]
pub struct Info {
    /// The Floor Request ID.
    pub request: u16,
    /// The status and the queue position of the whole request.
    pub overall: Option<(u8, u8)>,
    /// Why a chair decided so, in its own words (section 5.2.9).
    pub reason: Option<Octets>,
    /// The floors, in the request's order, each with its status and queue position.
    pub floors: FloorStatuses,
    /// Whom the request is for.
    pub beneficiary: Option<Who>,
    /// Who made it.
    pub requester: Option<Who>,
    /// 0 Lowest to 4 Highest.
    pub priority: Option<u8>,
    /// What the requester said of it.
    pub info: Option<Octets>,
}

impl Info {
    /// An equal floor request.
    pub fn copy(&self, alloc: Global) -> Result<Info, AllocError>
        ensures value { IfOk result (λ copy. copy ≡ self.now) }
    {
        let reason = copied_octets(alloc, &self.reason)?;
        let floors = Vec::from_slice(alloc, self.floors.as_slice())?;
        let beneficiary = copied_who(alloc, &self.beneficiary)?;
        let requester = copied_who(alloc, &self.requester)?;
        let info = copied_octets(alloc, &self.info)?;
        Ok(Info {
            request: self.request,
            overall: self.overall,
            reason,
            floors: FloorStatuses::from_vec(floors),
            beneficiary,
            requester,
            priority: self.priority,
            info,
        })
    }

    /// Whether the same is shown of both.
    pub fn is_same(&self, other: &Info) -> bool
        ensures value { IsTrue result ↔ (self.now ≡ other.now) }
    {
        self.request == other.request
            && is_same_status(self.overall, other.overall)
            && is_same_text(&self.reason, &other.reason)
            && is_same_floors(self.floors.as_slice(), other.floors.as_slice())
            && is_same_who(&self.beneficiary, &other.beneficiary)
            && is_same_who(&self.requester, &other.requester)
            && is_same_priority(self.priority, other.priority)
            && is_same_text(&self.info, &other.info)
    }

    /// Whether it is shown with this status and queue position, and with these floors.
    pub fn has_statuses(&self, overall: (u8, u8), floors: &[(u16, Option<(u8, u8)>)]) -> bool
        ensures value { IsTrue result
            ↔ ((self.now.overall ≡ Some overall) × (self.now.floors ≡ floors.now)) }
    {
        is_same_status(self.overall, Some(overall))
            && is_same_floors(self.floors.as_slice(), floors)
    }
}

fn copied_who(alloc: Global, who: &Option<Who>) -> Result<Option<Who>, AllocError>
    ensures { IfOk result (λ copy. copy ≡ who.now) }
{
    match who {
        Some(who) => Ok(Some(who.copy(alloc)?)),
        None => Ok(None),
    }
}

fn copied_octets(alloc: Global, octets: &Option<Octets>) -> Result<Option<Octets>, AllocError>
    ensures { IfOk result (λ copy. copy ≡ octets.now) }
{
    match octets {
        Some(octets) => Ok(Some(octets.copy(alloc)?)),
        None => Ok(None),
    }
}

fn is_same_who(a: &Option<Who>, b: &Option<Who>) -> bool
    ensures { IsTrue result ↔ (a.now ≡ b.now) }
{
    match (a, b) {
        (None, None) => true,
        (Some(a), Some(b)) => a.is_same(b),
        (None, Some(_)) => false,
        (Some(_), None) => false,
    }
}

/// Whether both are the same text, or there is neither.
pub fn is_same_text(a: &Option<Octets>, b: &Option<Octets>) -> bool
    ensures value { IsTrue result ↔ (a.now ≡ b.now) }
{
    match (a, b) {
        (None, None) => true,
        (Some(a), Some(b)) => a.as_slice() == b.as_slice(),
        (None, Some(_)) => false,
        (Some(_), None) => false,
    }
}

fn is_same_status(a: Option<(u8, u8)>, b: Option<(u8, u8)>) -> bool
    ensures { IsTrue result ↔ (a ≡ b) }
{
    a == b
}

fn is_same_priority(a: Option<u8>, b: Option<u8>) -> bool
    ensures { IsTrue result ↔ (a ≡ b) }
{
    a == b
}

fn is_same_floors(a: &[(u16, Option<(u8, u8)>)], b: &[(u16, Option<(u8, u8)>)]) -> bool
    ensures { IsTrue result ↔ (a.now ≡ b.now) }
{
    a == b
}
