//! The end: of one session since its user may not come any more, and of all.

use crate::gate::Gate;
use floor_datagram::End;
use std::net::Net;
use std::sync::Wait;
use std::time::Clock;

/// How long the gateway goes on behind the end of its input at most, in milliseconds: a Goodbye is given up 7.5 seconds
/// after it was sent first, where nothing was measured.
const STOP_MILLIS: u64 = 7_800;

impl<R> Gate<R>
where
    R: Net + Clock + Wait + Copy + Drop,
{
    /// Ends the session at a place: its peer is sent a Goodbye, and the server takes its member as lost.
    pub fn shut_out(&mut self, place: usize, end: End) {
        let Some(mut seat) = self.take_seat(place) else {
            return;
        };
        let mut up = self.lend_up(place);
        let _memory = seat
            .session
            .shut_out(end, self.now, &mut up, &mut self.down);
        self.give_up_back(place, up);
        self.put_seat(place, seat);
        self.settle(place, None);
    }

    /// The input has ended: each peer is told.
    pub fn begin_stop(&mut self) {
        if self.stops_by.is_some() {
            return;
        }
        self.stops_by = Some(self.now.saturating_add(STOP_MILLIS));
        for place in 0..self.places.len() {
            self.shut_out(place, End::Stopped);
        }
    }

    /// Whether all were told of the end, or the time for it is over.
    pub fn is_over(&self) -> bool {
        match self.stops_by {
            None => false,
            Some(stops_by) if stops_by <= self.now => true,
            Some(_) => self.links.is_empty() && self.places.iter().all(|beside| !beside.awaits),
        }
    }
}
