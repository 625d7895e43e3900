//! Command lines, and the bytes that they send.

use super::peer::bytes;
use crate::command::{Command, LineFault, parse_line};
use floor_client::Client;
use std::alloc::Global;
use std::test::Fail;

/// A line, `|`, and the message that it sends: its first four bytes and its payload, without the
/// eight bytes 00000001 0001 000a between them.
const LINES: &str = "
hello|200b0000
  hello  |200b0000
hello 1|error
Hello|error
HELLO|error
|error
 |error
fly|error
#hello|error
\thello|error
request 1|20010002 04040001 08044000
request  1   2 |20010003 04040001 04040002 08044000
request 2 1 3|20010004 04040002 04040001 04040003 08044000
request 0|20010002 04040000 08044000
request 65535|20010002 0404ffff 08044000
request 65536|error
request 0000000001|20010002 04040001 08044000
request 00000000001|error
request 1 1|error
request 1 x|error
request -1|error
request +1|error
request|error
request for 11|error
request 1 for 11|20010003 04040001 0204000b 08044000
request 1 for 65536|error
request 1 for|error
request 1 for 11 12|error
request 1 for 11 for 12|error
request 1 priority 0|20010002 04040001 08040000
request 1 priority 1|20010002 04040001 08042000
request 1 priority 3|20010002 04040001 08046000
request 1 priority 4|20010002 04040001 08048000
request 1 priority 004|20010002 04040001 08048000
request 1 priority 00000000003|error
request 1 priority 5|error
request 1 priority 256|error
request 1 priority high|error
request 1 priority|error
request 1 priority 3 for 11|error
request 1 for 11 priority 3|20010003 04040001 0204000b 08046000
request 1 for 0 priority 2|20010003 04040001 02040000 08044000
request 1 for 65535|20010003 04040001 0204ffff 08044000
request 1 info hi!|20010004 04040001 1005 686921 000000 08044000
request 1 info  two  spaces |20010006 04040001 100f 2074776f2020737061636573 20 00 08044000
request 1 info info x|20010004 04040001 1008 696e666f2078 08044000
request 1 info priority 3|20010005 04040001 100c 7072696f726974792033 08044000
request 1 info h\u{e9}|20010004 04040001 1005 68c3a9 000000 08044000
request 1 priority 3 info x|20010003 04040001 1003 78 00 08046000
request 1 info \"\\|20010003 04040001 1004 225c 08044000
request 1 info 12345678901234567890123456789012345678901234567890123456789012|20010012 04040001 1040 3132333435363738393031323334353637383930313233343536373839303132333435363738393031323334353637383930313233343536373839303132 08044000
request 1 info 123456789012345678901234567890123456789012345678901234567890123|error
request 1 info|error
request 1 info |error
request info hi|error
request 1 for 11 priority 4 info a b|20010005 04040001 0204000b 1005 612062 000000 08048000
request 1 for 11 info a priority 4|20010007 04040001 0204000b 100e 61207072696f726974792034 0000 08044000
information 1|error
release 1|20020001 06040001
release 65535|20020001 0604ffff
release 0|20020001 06040000
release 65536|error
release 1 info x|error
release|error
release 1 2|error
release x|error
query 7|20030001 06040007
query 65535|20030001 0604ffff
query 1 2|error
query|error
query 99999|error
user|20050000
user 11|20050001 0204000b
user 65535|20050001 0204ffff
user 65536|error
user 11 12|error
user x|error
watch|20070000
watch 2 1|20070002 04040002 04040001
watch 65535|20070001 0404ffff
watch 65536|error
watch 2 1 2|error
watch x|error
watch 1 info 2|error
chair 1 2 accept|20090003 1e0c0001 22080002 0a040200
chair 1 2 grant|20090003 1e0c0001 22080002 0a040300
chair 65535 0 deny|20090003 1e0cffff 22080000 0a040400
chair 1 2 revoke|20090003 1e0c0001 22080002 0a040700
chair 1 2 granted|error
chair 1 2|error
chair 1 2 grant 3|error
chair 1 x grant|error
chair 65536 1 grant|error
chair 1 65536 grant|error
chair 0 65535 accept|20090003 1e0c0000 2208ffff 0a040200
chair 1 2 GRANT|error
chair 1 4 deny reason No|20090005 1e140001 24080001 1204 4e6f 22080004 0a040400
chair 1 4 deny reason see info x|20090007 1e1c0001 24100001 120c 7365 6520696e 666f2078 22080004 0a040400
chair 1 4 deny reason see reason x|20090008 1e200001 24140001 120e 7365652072 6561736f 6e2078 0000 22080004 0a040400
chair 1 4 deny reason 123456789012345678901234567890|2009000c 1e300001 24240001 1220 313233343536373839303132333435363738393031323334353637383930 22080004 0a040400
chair 1 4 deny reason 1234567890123456789012345678901|error
chair 1 4 deny reason|error
chair 1 4 deny reason |error
chair 1 4 reason x|error
chair reason x|error
chair 1 4 deny reasons x|error
chair 1 4 deny info x|error
request 4 info the reason is x|20010007 04040004 1011 746865 20726561 736f6e20 69732078 000000 08044000
request 4 reason x|error
release 1 reason x|error
listen 0|listen 0
listen 9999999999|listen 9999999999
listen 0000000001|listen 1
listen 00000000001|error
listen 10000000000|error
listen x|error
listen|error
listen 1 2|error
quit|quit
quit now|error
 quit|quit";

#[test]
fn a_line_sends_its_message(rt: HostRuntime) -> Result<(), Fail> {
    let alloc = rt.alloc();
    let mut rows = 0u32;
    for row in LINES.lines() {
        let Some((line, wanted)) = row.split_once('|') else {
            continue;
        };
        let wanted = if wanted.starts_with('2') {
            let (head, payload) = wanted.split_once(' ').unwrap_or((wanted, ""));
            let message = format!(in alloc; "{head} 00000001 0001 000a {payload}")?;
            let message = bytes(alloc, message.as_str())?;
            format!(in alloc; "{:?}", message.as_slice())?
        } else {
            String::from_str(alloc, wanted)?
        };
        let found = found(alloc, line)?;
        assert_eq!(rt; found.as_str(), wanted.as_str(), "{line}");
        rows = rows.saturating_add(1);
    }
    assert_eq!(rt; rows, 121);
    Ok(())
}

/// What a line comes to, for user 10 of conference 1.
fn found(alloc: Global, line: &str) -> Result<String, Fail> {
    let text = match parse_line(alloc, line) {
        Ok(Command::Send(ask)) => {
            let frame = Client::new(alloc, 1, 10).ask(ask).ok().ok_or("refused")?;
            format!(in alloc; "{:?}", frame.bytes())?
        }
        Ok(Command::Listen(count)) => format!(in alloc; "listen {count}")?,
        Ok(Command::Quit) => String::from_str(alloc, "quit")?,
        Err(LineFault::BadLine) => String::from_str(alloc, "error")?,
        Err(LineFault::Memory) => String::from_str(alloc, "no memory")?,
    };
    Ok(text)
}
