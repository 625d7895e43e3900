//! Lines by hand, each with what is written of it.

use crate::{
    Failure, Id, MAX_LINE, Received, Request, Response, Scratch, read_request, write_line,
};
use std::alloc::{AllocError, Global};
use std::rt::HostRuntime;

/// Lines, and below each `=` where what it asks for is written as that line, or that other line, the error
/// that answers it, or `unanswered`.
const LINES: &str =
    r#"{"jsonrpc":"2.0","id":1,"method":"conference.open","params":{"users":[],"floors":[]}}
=
{"jsonrpc":"2.0","id":1,"method":"conference.open","params":{"id":4294967295,"title":"T\u0001\"","limit":65535,"connections":0,"users":[{"id":1,"name":"Ä","uri":"sip:a","proxy":true,"port":7001},{}],"floors":[{"id":2,"room":3,"chair":1,"title":"Mic"},{}]}}
=
{"jsonrpc":"2.0","id":1,"method":"conference.open","params":{"toml":"a = 1\n"}}
=
{"jsonrpc":"2.0","id":1,"method":"conference.list","params":{}}
=
{"jsonrpc":"2.0","id":1,"method":"conference.list","params":{"conference":7}}
=
{"jsonrpc":"2.0","id":1,"method":"conference.list","params":{"after":7}}
=
{"jsonrpc":"2.0","id":1,"method":"conference.get","params":{"conference":7}}
=
{"jsonrpc":"2.0","id":1,"method":"conference.close","params":{"conference":7}}
=
{"jsonrpc":"2.0","id":1,"method":"conference.forget","params":{"conference":7}}
=
{"jsonrpc":"2.0","id":1,"method":"user.add","params":{"conference":7,"id":5,"name":"Eva","uri":"sip:e","proxy":true,"port":7005}}
=
{"jsonrpc":"2.0","id":1,"method":"floor.add","params":{"conference":7,"id":5,"room":2,"chair":1,"title":"Slides"}}
=
{"jsonrpc":"2.0","id":1,"method":"floor.chair","params":{"conference":7,"floor":5,"chair":1}}
=
{"jsonrpc":"2.0","id":1,"method":"floor.chair","params":{"conference":7,"floor":5,"chair":null}}
=
{"jsonrpc":"2.0","id":1,"method":"member.remove","params":{"conference":7,"member":3}}
=
{"jsonrpc":"2.0","id":1,"method":"member.remove","params":{"conference":7,"user":3}}
=
{"jsonrpc":"2.0","id":1,"method":"user.admit","params":{"conference":7,"user":3}}
=
{"jsonrpc":"2.0","id":1,"method":"request.create","params":{"conference":7,"for":3,"floors":[1,2]}}
=
{"jsonrpc":"2.0","id":1,"method":"request.create","params":{"conference":7,"for":3,"floors":[1],"priority":4,"info":"Budget","by":2}}
=
{"jsonrpc":"2.0","id":1,"method":"request.release","params":{"conference":7,"request":9}}
=
{"jsonrpc":"2.0","id":1,"method":"request.accept","params":{"conference":7,"request":9,"floors":[1],"reason":"yes","by":4}}
=
{"jsonrpc":"2.0","id":1,"method":"request.grant","params":{"conference":7,"request":9}}
=
{"jsonrpc":"2.0","id":1,"method":"request.deny","params":{"conference":7,"request":9,"reason":"no"}}
=
{"jsonrpc":"2.0","id":1,"method":"request.revoke","params":{"conference":7,"request":9}}
=
{"jsonrpc":"2.0","id":1,"method":"word.set","params":{"conference":7,"key":"token.1","text":"s"}}
=
{"jsonrpc":"2.0","id":1,"method":"word.set","params":{"conference":7,"key":"token.1","text":null}}
=
{"jsonrpc":"2.0","id":1,"method":"word.get","params":{"conference":7,"key":"title"}}
=
{"jsonrpc":"2.0","id":1,"method":"watch","params":{"conferences":[{"conference":7,"from":9999999999},{"conference":8}],"all":true}}
=
{"jsonrpc":"2.0","id":1,"method":"unwatch","params":{"conferences":[{"conference":7}]}}
=
{"jsonrpc":"2.0","id":1,"method":"journal","params":{"conference":7,"from":1,"count":100}}
=
{"jsonrpc":"2.0","id":1,"method":"server.status","params":{}}
=
{"jsonrpc":"2.0","id":1,"method":"server.drain","params":{}}
=
{"jsonrpc":"2.0","id":1,"method":"server.stop","params":{}}
=
{"jsonrpc":"2.0","id":1,"method":"help","params":{}}
=
 { "params" : [] , "id" : "\u0041" , "method" : "help" }
{"jsonrpc":"2.0","id":"A","method":"help","params":{}}
{"method":"watch"}
{"jsonrpc":"2.0","method":"watch","params":{"conferences":[]}}
{"id":-1.50e+2,"method":"help"}
{"jsonrpc":"2.0","id":-1.50e+2,"method":"help","params":{}}
{"id":null,"method":"help"}
{"jsonrpc":"2.0","id":null,"method":"help","params":{}}
{"id":1,"method":"user.add","params":{"conference":7,"proxy":false}}
{"jsonrpc":"2.0","id":1,"method":"user.add","params":{"conference":7}}
{
{"jsonrpc":"2.0","id":null,"error":{"code":-32700,"message":"Parse error","data":null}}
{"id":1,"method":"help"} x
{"jsonrpc":"2.0","id":null,"error":{"code":-32700,"message":"Parse error","data":null}}
[{"id":1,"method":"help"}]
{"jsonrpc":"2.0","id":null,"error":{"code":-32600,"message":"Invalid Request","data":null}}
7
{"jsonrpc":"2.0","id":null,"error":{"code":-32600,"message":"Invalid Request","data":null}}
{"id":1,"id":1,"method":"help"}
{"jsonrpc":"2.0","id":null,"error":{"code":-32600,"message":"Invalid Request","data":null}}
{"id":1,"method":"user.admit","params":{"conference":7,"user":3,"\u0075ser":3}}
{"jsonrpc":"2.0","id":null,"error":{"code":-32600,"message":"Invalid Request","data":null}}
{"id":1}
{"jsonrpc":"2.0","id":1,"error":{"code":-32600,"message":"Invalid Request","data":null}}
{"id":1,"method":7}
{"jsonrpc":"2.0","id":1,"error":{"code":-32600,"message":"Invalid Request","data":null}}
{"id":1,"method":"help","extra":1}
{"jsonrpc":"2.0","id":1,"error":{"code":-32600,"message":"Invalid Request","data":null}}
{"jsonrpc":"1.0","id":1,"method":"help"}
{"jsonrpc":"2.0","id":1,"error":{"code":-32600,"message":"Invalid Request","data":null}}
{"jsonrpc":2.0,"method":"help"}
{"jsonrpc":"2.0","id":null,"error":{"code":-32600,"message":"Invalid Request","data":null}}
{"id":true,"method":"help"}
{"jsonrpc":"2.0","id":null,"error":{"code":-32600,"message":"Invalid Request","data":null}}
{"id":"0123456789012345678901234567890123456789012345678901234567890123","method":"none"}
{"jsonrpc":"2.0","id":"0123456789012345678901234567890123456789012345678901234567890123","error":{"code":-32601,"message":"Method not found","data":null}}
{"id":"01234567890123456789012345678901234567890123456789012345678901234","method":"none"}
{"jsonrpc":"2.0","id":null,"error":{"code":-32600,"message":"Invalid Request","data":null}}
{"method":"none"}
unanswered
{"method":"conference.get"}
unanswered
{"id":1,"method":"Help"}
{"jsonrpc":"2.0","id":1,"error":{"code":-32601,"message":"Method not found","data":null}}
{"id":1,"method":"help","params":[1]}
{"jsonrpc":"2.0","id":1,"error":{"code":-32602,"message":"Invalid params","data":{"param":null,"why":"Unnamed"}}}
{"id":1,"method":"help","params":null}
{"jsonrpc":"2.0","id":1,"error":{"code":-32602,"message":"Invalid params","data":{"param":null,"why":"Unnamed"}}}
{"id":1,"method":"help","params":{"a":1}}
{"jsonrpc":"2.0","id":1,"error":{"code":-32602,"message":"Invalid params","data":{"param":"a","why":"Unknown"}}}
{"id":1,"method":"conference.get"}
{"jsonrpc":"2.0","id":1,"error":{"code":-32602,"message":"Invalid params","data":{"param":"conference","why":"Missing"}}}
{"id":1,"method":"conference.get","params":{"conference":"7"}}
{"jsonrpc":"2.0","id":1,"error":{"code":-32602,"message":"Invalid params","data":{"param":"conference","why":"WrongType"}}}
{"id":1,"method":"conference.get","params":{"conference":4294967296}}
{"jsonrpc":"2.0","id":1,"error":{"code":-32602,"message":"Invalid params","data":{"param":"conference","why":"OutOfRange"}}}
{"id":1,"method":"conference.get","params":{"conference":-1}}
{"jsonrpc":"2.0","id":1,"error":{"code":-32602,"message":"Invalid params","data":{"param":"conference","why":"OutOfRange"}}}
{"id":1,"method":"conference.get","params":{"conference":1.0}}
{"jsonrpc":"2.0","id":1,"error":{"code":-32602,"message":"Invalid params","data":{"param":"conference","why":"OutOfRange"}}}
{"id":1,"method":"conference.list","params":{"conference":1,"after":2}}
{"jsonrpc":"2.0","id":1,"error":{"code":-32602,"message":"Invalid params","data":{"param":"after","why":"Unknown"}}}
{"id":1,"method":"member.remove","params":{"conference":1,"member":2,"user":3}}
{"jsonrpc":"2.0","id":1,"error":{"code":-32602,"message":"Invalid params","data":{"param":"user","why":"Unknown"}}}
{"id":1,"method":"member.remove","params":{"conference":1}}
{"jsonrpc":"2.0","id":1,"error":{"code":-32602,"message":"Invalid params","data":{"param":"user","why":"Missing"}}}
{"id":1,"method":"conference.open","params":{"toml":"","users":[]}}
{"jsonrpc":"2.0","id":1,"error":{"code":-32602,"message":"Invalid params","data":{"param":"users","why":"Unknown"}}}
{"id":1,"method":"conference.open","params":{"users":[{"nam":"x"}],"floors":[]}}
{"jsonrpc":"2.0","id":1,"error":{"code":-32602,"message":"Invalid params","data":{"param":"nam","why":"Unknown"}}}
{"id":1,"method":"conference.open","params":{"users":[{"port":65536}],"floors":[]}}
{"jsonrpc":"2.0","id":1,"error":{"code":-32602,"message":"Invalid params","data":{"param":"port","why":"OutOfRange"}}}
{"id":1,"method":"conference.open","params":{"users":[1],"floors":[]}}
{"jsonrpc":"2.0","id":1,"error":{"code":-32602,"message":"Invalid params","data":{"param":"users","why":"WrongType"}}}
{"id":1,"method":"conference.open","params":{"users":[{}],"floors":[{},[]]}}
{"jsonrpc":"2.0","id":1,"error":{"code":-32602,"message":"Invalid params","data":{"param":"floors","why":"WrongType"}}}
{"id":1,"method":"watch","params":{"conferences":[{"conference":7},null]}}
{"jsonrpc":"2.0","id":1,"error":{"code":-32602,"message":"Invalid params","data":{"param":"conferences","why":"WrongType"}}}
{"id":1,"method":"unwatch","params":{"conferences":["7"]}}
{"jsonrpc":"2.0","id":1,"error":{"code":-32602,"message":"Invalid params","data":{"param":"conferences","why":"WrongType"}}}
{"id":1,"method":"conference.open","params":{"users":{},"floors":[]}}
{"jsonrpc":"2.0","id":1,"error":{"code":-32602,"message":"Invalid params","data":{"param":"users","why":"WrongType"}}}
{"id":1,"method":"conference.open","params":{"users":[]}}
{"jsonrpc":"2.0","id":1,"error":{"code":-32602,"message":"Invalid params","data":{"param":"floors","why":"Missing"}}}
{"id":1,"method":"request.create","params":{"conference":7,"for":3,"floors":["1"]}}
{"jsonrpc":"2.0","id":1,"error":{"code":-32602,"message":"Invalid params","data":{"param":"floors","why":"WrongType"}}}
{"id":1,"method":"request.create","params":{"conference":7,"for":3,"floors":[1],"priority":5}}
{"jsonrpc":"2.0","id":1,"error":{"code":-32602,"message":"Invalid params","data":{"param":"priority","why":"OutOfRange"}}}
{"id":1,"method":"request.release","params":{"conference":7,"request":9,"by":null}}
{"jsonrpc":"2.0","id":1,"error":{"code":-32602,"message":"Invalid params","data":{"param":"by","why":"WrongType"}}}
{"id":1,"method":"watch","params":{"all":"yes"}}
{"jsonrpc":"2.0","id":1,"error":{"code":-32602,"message":"Invalid params","data":{"param":"all","why":"WrongType"}}}
{"id":1,"method":"watch","params":{"conferences":[{"conference":7,"from":10000000000}]}}
{"jsonrpc":"2.0","id":1,"error":{"code":-32602,"message":"Invalid params","data":{"param":"from","why":"OutOfRange"}}}
{"id":1,"method":"unwatch","params":{"conferences":[{"conference":7,"from":1}]}}
{"jsonrpc":"2.0","id":1,"error":{"code":-32602,"message":"Invalid params","data":{"param":"from","why":"Unknown"}}}
{"id":1,"method":"word.set","params":{"conference":7,"key":"a"}}
{"jsonrpc":"2.0","id":1,"error":{"code":-32602,"message":"Invalid params","data":{"param":"text","why":"Missing"}}}"#;

/// What is written of a line: what it asks for, the error that answers it, or a word.
pub(crate) fn written(
    alloc: Global,
    scratch: &mut Scratch,
    line: &[u8],
) -> Result<Vec<u8>, AllocError> {
    let mut out = Vec::new(alloc);
    match read_request(alloc, scratch, line)? {
        None => out.extend_from_slice(b"nothing\n")?,
        Some(Received { id, call }) => match call {
            Ok(call) => {
                let _ = write_line(alloc, &mut out, &Request { id, call })?;
            }
            Err(fault) => match id {
                None => out.extend_from_slice(b"unanswered\n")?,
                Some(id) => {
                    let outcome = Err(Failure::of_fault(fault));
                    let _ = write_line(alloc, &mut out, &Response { id, outcome })?;
                }
            },
        },
    }
    Ok(out)
}

/// The first line of which something else is written than stands below it, with what is written.
fn differing(alloc: Global) -> Result<Option<(Vec<u8>, u32)>, AllocError> {
    let mut scratch = Scratch::new(alloc);
    let mut before = "";
    let mut count = 0u32;
    for line in LINES.split('\n') {
        count = count.saturating_add(1);
        if count % 2 == 1 {
            before = line;
        } else {
            let out = written(alloc, &mut scratch, before.as_bytes())?;
            let meant = if line == "=" { before } else { line };
            let found = out.as_slice();
            if found.strip_suffix(b"\n") != Some(meant.as_bytes()) {
                return Ok(Some((out, count)));
            }
        }
    }
    Ok(None)
}

#[test]
fn each_line_is_read_and_written(rt: HostRuntime) -> Result<(), AllocError> {
    match differing(rt.alloc())? {
        None => {}
        Some((out, line)) => {
            let text = std::str::from_utf8(&out).unwrap_or("not UTF-8");
            assert_eq!(rt; text, "as the table has it", "line {line} of the table");
        }
    }
    Ok(())
}

#[test]
fn the_longest_line_is_read(rt: HostRuntime) -> Result<(), AllocError> {
    let mut scratch = Scratch::new(rt.alloc());
    let mut line = Vec::new(rt.alloc());
    line.extend_from_slice(b"{\"id\":1,\"method\":\"help\"}")?;
    line.resize(MAX_LINE, b' ')?;
    let out = written(rt.alloc(), &mut scratch, &line)?;
    let text = std::str::from_utf8(&out).unwrap_or("");
    assert_eq!(rt;
        text,
        "{\"jsonrpc\":\"2.0\",\"id\":1,\"method\":\"help\",\"params\":{}}\n"
    );
    line.push(b' ')?;
    let out = written(rt.alloc(), &mut scratch, &line)?;
    let text = std::str::from_utf8(&out).unwrap_or("");
    assert_eq!(rt;
        text,
        "{\"jsonrpc\":\"2.0\",\"id\":null,\"error\":{\"code\":9,\"message\":\"TooLong\",\"data\":null}}\n"
    );
    Ok(())
}

#[test]
fn what_is_no_text_is_no_json(rt: HostRuntime) -> Result<(), AllocError> {
    let mut scratch = Scratch::new(rt.alloc());
    let out = written(rt.alloc(), &mut scratch, b"\"\xff\"")?;
    let text = std::str::from_utf8(&out).unwrap_or("");
    assert_eq!(rt;
        text,
        "{\"jsonrpc\":\"2.0\",\"id\":null,\"error\":{\"code\":-32700,\"message\":\"Parse error\",\"data\":null}}\n"
    );
    let out = written(rt.alloc(), &mut scratch, b"")?;
    let text = std::str::from_utf8(&out).unwrap_or("");
    assert_eq!(rt; text, "nothing\n");
    Ok(())
}
