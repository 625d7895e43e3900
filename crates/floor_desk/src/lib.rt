//! The control clients of a floor control server, with what each awaits and watches, and what is known of the
//! conferences besides their rooms.
//!
//! RFC 8855 leaves open how a server is administered (section 3.1). Here is what a server keeps for its control clients: who
//! is at which socket (`floor_clients`), what is answered by looking (`floor_shown`), what is kept beside conferences, and
//! whoever watches is told what their events show. The conferences are read by the loop that has them, and nothing is
//! changed there: that is the caller's, who has the sockets too.
#![tactic(auto)]

mod act;
mod answering;
mod caller;
mod callers;
mod catching_up;
mod desk;
mod drawing;
mod meeting;
mod standing;
mod telling;
mod watching;
mod wording;

pub use act::{Act, Named, Outcome};
pub use answering::Lending;
pub use caller::{Awaiting, Caller, ClientId, Done, Lack, PlaceOf, Task};
pub use callers::Callers;
pub use catching_up::{queue_or_close, tell_all, tell_next};
pub use desk::{Desk, Now, Wanted};
pub use drawing::Drawing;
pub use meeting::Meeting;
pub use standing::{answer_stop, drain, standing_now, status, stop};
pub use telling::{note, tell_happened};
pub use watching::{begin_showing, places_of, unwatch, watch};
pub use wording::set_word;
