//! The answer to a request.

use crate::answer::Answer;
use crate::failure::Failure;
use crate::id::Id;

/// The answer to a request.
#[derive(Drop)]
pub struct Response {
    /// The request's id.
    pub id: Id,
    /// What the request came to.
    pub outcome: Result<Answer, Failure>,
}
