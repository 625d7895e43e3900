//! The fault of each key.

use super::told_of_case;
use crate::cases::{assert_told, differing};

/// Texts and their faults, key by key.
const FAULTS: &str = r#"== an empty text

=> MissingKey
== two users 10
[[conference]]
id = 1
[[conference.user]]
id = 10
[[conference.user]]
id = 10
=> DoubleUser
== a room of 256
[[conference]]
id = 1
[[conference.floor]]
id = 1
room = 256
=> OutOfRange
== no TOML
a = 
=> Syntax
== an integer beyond 64 bits
conference = [{id = 9223372036854775808}]
=> Syntax
== an integer beyond 64 bits at an unknown key
x = 9223372036854775808
conference = 1
=> Syntax
== a key that stands twice
conference = [{id = 1, id = 1}]
=> Syntax
== other keys alone
conferences = []
=> MissingKey
== a number for conference
conference = 1
=> WrongType
== a table for conference
[conference]
id = 1
=> WrongType
== a number among the conferences
conference = [{id = 1}, 1]
=> WrongType
== an array among the conferences
conference = [{id = 1}, []]
=> WrongType
== no conference id
conference = [{}]
=> MissingKey
== a float for a conference id
conference = [{id = 1.0}]
=> WrongType
== a text for a conference id
conference = [{id = "1"}]
=> WrongType
== a date for a conference id
conference = [{id = 2024-01-01}]
=> WrongType
== an array for a conference id
conference = [{id = [1]}]
=> WrongType
== a table for a conference id
conference = [{id = {}}]
=> WrongType
== true for a conference id
conference = [{id = true}]
=> WrongType
== conference -1
conference = [{id = -1}]
=> OutOfRange
== conference 4294967296
conference = [{id = 4294967296}]
=> OutOfRange
== the least integer for a conference id
conference = [{id = -9223372036854775808}]
=> OutOfRange
== a text for a limit
conference = [{id = 1, limit = "4"}]
=> WrongType
== a limit of 0
conference = [{id = 1, limit = 0}]
=> OutOfRange
== a limit of 17
conference = [{id = 1, limit = 17}]
=> OutOfRange
== a limit of 65537
conference = [{id = 1, limit = 65537}]
=> OutOfRange
== a table for the users
conference = [{id = 1, user = {id = 10}}]
=> WrongType
== a number among the users
conference = [{id = 1, user = [{id = 10}, 11]}]
=> WrongType
== no user id
conference = [{id = 1, user = [{}]}]
=> MissingKey
== a float for a user id
conference = [{id = 1, user = [{id = 10.0}]}]
=> WrongType
== user -1
conference = [{id = 1, user = [{id = -1}]}]
=> OutOfRange
== user 65536
conference = [{id = 1, user = [{id = 65536}]}]
=> OutOfRange
== a number for a name
conference = [{id = 1, user = [{id = 10, name = 1}]}]
=> WrongType
== an array for a name
conference = [{id = 1, user = [{id = 10, name = ["Ann"]}]}]
=> WrongType
== a name of 31 bytes
conference = [{id = 1, user = [{id = 10, name = "nnnnnnnnnnnnnnnnnnnnnnnnnnnnnnn"}]}]
=> OutOfRange
== a name of 31 bytes in 16 characters
conference = [{id = 1, user = [{id = 10, name = "ééééééééééééééén"}]}]
=> OutOfRange
== a date for a URI
conference = [{id = 1, user = [{id = 10, uri = 2024-01-01}]}]
=> WrongType
== a URI of 63 bytes
conference = [{id = 1, user = [{id = 10, uri = "uuuuuuuuuuuuuuuuuuuuuuuuuuuuuuuuuuuuuuuuuuuuuuuuuuuuuuuuuuuuuuu"}]}]
=> OutOfRange
== a URI of 64 bytes in 16 characters
conference = [{id = 1, user = [{id = 10, uri = "𝄞𝄞𝄞𝄞𝄞𝄞𝄞𝄞𝄞𝄞𝄞𝄞𝄞𝄞𝄞𝄞"}]}]
=> OutOfRange
== a number for a proxy mark
conference = [{id = 1, user = [{id = 10, proxy = 1}]}]
=> WrongType
== a text for a proxy mark
conference = [{id = 1, user = [{id = 10, proxy = "true"}]}]
=> WrongType
== a text for a port
conference = [{id = 1, user = [{id = 10, port = "7010"}]}]
=> WrongType
== port 0
conference = [{id = 1, user = [{id = 10, port = 0}]}]
=> OutOfRange
== port 65536
conference = [{id = 1, user = [{id = 10, port = 65536}]}]
=> OutOfRange
== three users, of whom two have one id
conference = [{id = 1, user = [{id = 10}, {id = 11}, {id = 10}]}]
=> DoubleUser
== a text for the floors
conference = [{id = 1, floor = "1"}]
=> WrongType
== a float among the floors
conference = [{id = 1, user = [{id = 10}], floor = [{id = 1}, 1.5]}]
=> WrongType
== no floor id
conference = [{id = 1, user = [{id = 10}], floor = [{room = 1}]}]
=> MissingKey
== true for a floor id
conference = [{id = 1, user = [{id = 10}], floor = [{id = true}]}]
=> WrongType
== floor -1
conference = [{id = 1, user = [{id = 10}], floor = [{id = -1}]}]
=> OutOfRange
== floor 65536
conference = [{id = 1, user = [{id = 10}], floor = [{id = 65536}]}]
=> OutOfRange
== a float for a room
conference = [{id = 1, user = [{id = 10}], floor = [{id = 1, room = 1.0}]}]
=> WrongType
== a room of 0
conference = [{id = 1, user = [{id = 10}], floor = [{id = 1, room = 0}]}]
=> OutOfRange
== a room of 257
conference = [{id = 1, user = [{id = 10}], floor = [{id = 1, room = 257}]}]
=> OutOfRange
== an array for a chair
conference = [{id = 1, user = [{id = 10}], floor = [{id = 1, chair = [10]}]}]
=> WrongType
== chair -1
conference = [{id = 1, user = [{id = 10}], floor = [{id = 1, chair = -1}]}]
=> OutOfRange
== chair 65536
conference = [{id = 1, user = [{id = 10}], floor = [{id = 1, chair = 65536}]}]
=> OutOfRange
== two floors 1
conference = [{id = 1, user = [{id = 10}], floor = [{id = 1}, {id = 2}, {id = 1}]}]
=> DoubleFloor
== a chair that is no user
conference = [{id = 1, user = [{id = 10}], floor = [{id = 1, chair = 11}]}]
=> UnknownChair
== a chair where there are no users
conference = [{id = 1, floor = [{id = 1, chair = 10}]}]
=> UnknownChair
== a chair that is a user of another conference
conference = [{id = 1, user = [{id = 10}]}, {id = 2, floor = [{id = 1, chair = 10}]}]
=> UnknownChair
== two conferences 1
conference = [{id = 1}, {id = 2}, {id = 1}]
=> DoubleConference
== two users of one conference with one port
conference = [{id = 1, user = [{id = 10, port = 7010}, {id = 11}, {id = 12, port = 7010}]}]
=> DoublePort
== two users of two conferences with one port
conference = [{id = 1, user = [{id = 10, port = 7010}]}, {id = 2, user = [{id = 10, port = 7010}]}]
=> DoublePort"#;

#[test]
fn a_fault_of_each_key_is_told(rt: HostRuntime) {
    let told = differing(rt.alloc(), FAULTS, "\n== ", "\n=>", told_of_case);
    assert_told(&rt, told, "64 cases");
}
