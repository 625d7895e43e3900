//! What follows from the definitions, over whole runs. No code runs here.

ghost use Rattle.std.specs.Prelude.{◌≡◌, ◌↔◌, ℕ, Bool, ◌+◌, ◌%◌, ◌<◌, ◌≤◌, [], ◌∷◌, ◌++◌, length, List, Option, None, Some, true};
ghost use Rattle.floor_datagram.specs.Holding.{HasRoom, Holds};
ghost use Rattle.floor_datagram.specs.Fragments.{joined, payload_of, placed_in, range_of, whole_of};
ghost use Rattle.floor_datagram.specs.Losing.{Loses};
ghost use Rattle.floor_datagram.specs.declared.end.End.TheVariants.{Lost};
ghost use Rattle.floor_datagram.specs.Newest.{IsNewest, beginning, begun_behind};
ghost use Rattle.floor_datagram.specs.Notices.{Notices, acknowledged, fresh_id, is_out, put, told, waits};
ghost use Rattle.floor_datagram.specs.NoticeIds.{IsLastId, Own};
ghost use Rattle.floor_datagram.specs.Numbering.{age_of};
ghost use Rattle.floor_datagram.specs.Order.{come, Comes, Follow};
ghost use Rattle.floor_datagram.specs.Run.{Input, run, step, came, AreWhole, Serves};
ghost use Rattle.floor_datagram.specs.Sending.{Sends, said};
ghost use Rattle.floor_wire.specs.Message.{messages};
ghost use Rattle.floor_datagram.specs.Session.{Session, Terms, begins, datagram};
ghost use Rattle.floor_datagram.specs.declared.fragments.Range.{Range};
ghost use Rattle.floor_datagram.specs.declared.numbering.Age.TheVariants.{Older};

/// Whatever comes, is lost, repeated and reordered: each request is taken once, in order, and the server
/// is sent what they ask and nothing else, but for one byte where the session has ended (RFC 8855, sections
/// 6.2.3, 8.1 and 8.3).
pub fn each_request_is_taken_once()
    ensures { (terms : Terms) (first now : ℕ) (inputs : List Input) → AreWhole inputs
        → Serves (came inputs) (run (begins terms first now) inputs).up
        (run (begins terms first now) inputs).after }
{}

/// A copy of a request that was taken 1 to 32,768 steps of Transaction IDs ago is older than the last, so
/// that it isn't taken again (RFC 8855, section 8.1).
pub fn a_late_copy_is_older()
    ensures { (id steps : ℕ) → id < 65536 → 0 < steps → steps ≤ 32768
        → age_of (Some ((id + steps) % 65536)) id ≡ Older }
{}

/// Of each subject the newest message that the server said waits, or is the last that the peer was told:
/// it stays so where a message is told, where an answer crosses the notice that is out, where one is sent
/// while none is out, and where a notice is acknowledged (RFC 8855, sections 6.2, 13.1.2 and 13.5.2).
pub fn the_newest_is_told()
    ensures told { (said earlier : List (List ℕ)) (n : Notices) (last : Option ℕ)
        (limit now : ℕ) (m : List ℕ) → IsNewest said earlier n
        → IsNewest (said ++ m ∷ []) (earlier ++ beginning n.out (put m n.waiting))
        (told n last limit now m).after }
    ensures crossed { (said earlier : List (List ℕ)) (n : Notices) (m : List ℕ)
        → is_out n.out ≡ true → IsNewest said earlier n
        → IsNewest (said ++ m ∷ []) earlier (waits n m) }
    ensures answered { (said earlier : List (List ℕ)) (n : Notices) (m : List ℕ)
        → n.out ≡ None → IsNewest said earlier n
        → IsNewest (said ++ m ∷ []) (earlier ++ m ∷ []) n }
    ensures acknowledged { (said earlier : List (List ℕ)) (n : Notices) (last : Option ℕ)
        (limit now id : ℕ) → IsNewest said earlier n
        → IsNewest said (earlier ++ begun_behind id n) (acknowledged n last limit now id).after }
{}

/// The Transaction ID of a notice isn't 0, is newer than that of the notice before, and is not 0 to 1,023
/// steps ahead of that of the request taken last: some peers take for the answer whatever has the ID of
/// their request (RFC 8855, section 8.2).
pub fn a_notice_has_an_id_of_its_own()
    ensures { (last : Option ℕ) (before : ℕ) → IsLastId last → before < 65536
        → Own last before (fresh_id last ((before + 1) % 65536)) }
{}

/// Of the fragments of one message, which follow one another, each is held in its place in whatever order
/// they come, and the message is whole once all have come (RFC 8855, section 6.2.3).
pub fn fragments_come_in_any_order()
    ensures { (fragment : List ℕ) (since : ℕ) (ranges : List Range) (before after : List Bool)
        → Follow 0 ranges → Comes (range_of fragment) ranges before after
        → placed_in fragment since (come before ranges)
        ≡ whole_of fragment since (joined 0 (payload_of fragment) (come after ranges))
        (come after ranges) }
{}

/// What a session holds at most, whatever comes: of fragments no more bytes than came, and 8,180 at most; the
/// datagrams of one answer and of one notice; of each subject one message that waits, and of each own request
/// one that tells of it; and of the server's stream no whole message.
pub fn what_a_session_holds_is_bounded()
    ensures { (terms : Terms) (first now : ℕ) (inputs : List Input)
        → Holds (came inputs) (run (begins terms first now) inputs).after }
{}

/// What a datagram adds to what waits for the server makes that no more than 65,536 bytes.
pub fn what_waits_for_the_server_is_bounded()
    ensures { (s : Session) (waiting now : ℕ) (d : List ℕ) → 12 ≤ length d
        → HasRoom waiting (datagram s waiting now d).up }
{}

/// Of any run: a session that goes on is lost by the next input exactly where a notice is out that was sent four
/// times and 15 times the retransmission timer has passed since it was sent first, or where the caller says so
/// (RFC 8855, section 8.3.1).
pub fn a_peer_is_lost_that_does_not_acknowledge()
    ensures { (terms : Terms) (first now : ℕ) (inputs : List Input) (next : Input)
        → (run (begins terms first now) inputs).after.end ≡ None
        → ((step (run (begins terms first now) inputs).after next).after.end ≡ Some Lost)
        ↔ Loses (run (begins terms first now) inputs).after next }
{}

/// Of any run: the peer is sent each answer of the server's, once for the first time, in their order; notices,
/// each a message of the server's or the session's Goodbye; what the session itself answers; and what was sent
/// before once more. It is sent nothing else (RFC 8855, sections 6.2, 8.2 and 8.3). The server's messages are
/// those of all that it said while the session went on, however that was cut.
pub fn nothing_else_is_sent()
    ensures { (terms : Terms) (first now : ℕ) (inputs : List Input)
        → Sends terms (messages (said (begins terms first now) inputs))
        (run (begins terms first now) inputs).down }
{}
