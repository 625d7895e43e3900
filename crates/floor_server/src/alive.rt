//! What the system is asked of an accepted socket, so that a link that is cut without a word is lost before long,
//! and a peer that is slow never.

use libc::net::{
    IPPROTO_TCP, SO_KEEPALIVE, SOL_SOCKET, TCP_KEEPCNT, TCP_KEEPIDLE, TCP_KEEPINTVL,
    TCP_USER_TIMEOUT, setsockopt,
};
use std::os::fd::AsRawFd;

/// How long a connection is idle before the peer is asked whether it lives, in seconds.
const IDLE_SECONDS: u32 = 15;

/// How long it is between two such questions, in seconds.
const INTERVAL_SECONDS: u32 = 5;

/// After how many unanswered questions the connection is lost.
const QUESTIONS: u32 = 3;

/// Linux's TCP_RTO_MAX_MS, of version 6.15 and later.
const TCP_RTO_MAX_MS: i32 = 44;

/// How long the system waits at most until it sends again what isn't acknowledged, or asks again for a window, in
/// milliseconds. It gives a connection up once 15 of these in turn have no answer (`net.ipv4.tcp_retries2`): 33 seconds
/// after the first, the first of them being closer together. A peer that reads nothing answers each.
const MAX_RETRANSMISSION_MILLIS: u32 = 2_500;

/// Where the system has no such bound: how long what was sent may stay unacknowledged, or the peer's window closed,
/// in milliseconds. Otherwise a peer that is gone would be lost after a quarter of an hour.
const UNACKNOWLEDGED_MILLIS: u32 = 30_000;

/// Has the system find out within a minute that an accepted connection's peer is gone, and says whether it takes all
/// of that. A socket that isn't of TCP is left as it was.
pub fn keep_alive<S: AsRawFd>(socket: &S) -> bool {
    let socket = socket.as_raw_fd();
    set(socket, Asked::Idle)
        && set(socket, Asked::Interval)
        && set(socket, Asked::Questions)
        && (set(socket, Asked::Retransmission) || set(socket, Asked::Unacknowledged))
        && set(socket, Asked::Alive)
}

/// What is asked.
#[derive(Clone, Copy, Debug)]
enum Asked {
    Idle,
    Interval,
    Questions,
    Retransmission,
    Unacknowledged,
    Alive,
}

/// Asks the system for one of these, and says whether it takes it.
fn set(socket: i32, asked: Asked) -> bool {
    let status = match asked {
        Asked::Idle => {
            let value = four(IDLE_SECONDS);
            unsafe { setsockopt(socket, IPPROTO_TCP, TCP_KEEPIDLE, &value, 4) }
        }
        Asked::Interval => {
            let value = four(INTERVAL_SECONDS);
            unsafe { setsockopt(socket, IPPROTO_TCP, TCP_KEEPINTVL, &value, 4) }
        }
        Asked::Questions => {
            let value = four(QUESTIONS);
            unsafe { setsockopt(socket, IPPROTO_TCP, TCP_KEEPCNT, &value, 4) }
        }
        Asked::Retransmission => {
            let value = four(MAX_RETRANSMISSION_MILLIS);
            unsafe { setsockopt(socket, IPPROTO_TCP, TCP_RTO_MAX_MS, &value, 4) }
        }
        Asked::Unacknowledged => {
            let value = four(UNACKNOWLEDGED_MILLIS);
            unsafe { setsockopt(socket, IPPROTO_TCP, TCP_USER_TIMEOUT, &value, 4) }
        }
        Asked::Alive => {
            let value = four(1);
            unsafe { setsockopt(socket, SOL_SOCKET, SO_KEEPALIVE, &value, 4) }
        }
    };
    status == 0
}

/// An option's value: a C int in the first four bytes.
fn four(value: u32) -> [u8; 16] {
    let [a, b, c, d] = value.to_ne_bytes();
    [a, b, c, d, 0, 0, 0, 0, 0, 0, 0, 0, 0, 0, 0, 0]
}
