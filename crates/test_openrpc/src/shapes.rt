//! What answers the methods and what is told to whoever watches. A member is a number, a flag, a text or another shape; `?`
//! behind it says that it may be null, `[]` that it is a list of these, and `{}` that it is an object of these by keys.

/// The shapes: a line each, its name, and then its members with what they are.
pub const SHAPES: &str = "\
Done
Placed place:number
Opened conference:number users:number[] floors:number[]
Conferences conferences:Conference[] more:flag
Conference conference:number title:text? phase:text members:number ongoing:number events:number kept:flag
Picture next:number phase:text members:number ongoing:number title:text? limit:number connections:number kept:flag users:User[] floors:Floor[] requests:Request[] words:text{}
User user:number name:text? uri:text? proxy:flag port:number? removed:flag members:Member[]
Member member:number behind:number cut:flag away:number?
Floor floor:number title:text? room:number chair:number? holders:number[] waiting:number[] pending:number[]
Request request:number user:number by:number? floors:FloorStatus[] status:text position:number priority:number? info:text? reason:text? since:text? granted:text?
FloorStatus floor:number status:text
UserAdded user:number place:number
FloorChanged floor:number place:number
Created request:number status:text position:number place:number
Words words:text{}
WatchedFrom next:NextPlace[]
NextPlace conference:number next:number
Journal entries:Entry[] next:number
Entry place:number time:text? line:text
Server version:text since:text conferences:number connections:number memory:number draining:flag
Stopped seats:number events:number
Help methods:text[]
EventTold conference:number place:number time:text? what:What requests:Request[] cut:MemberOf[] floors:Holders[]
ServerTold conference:number what:What
MemberOf member:number user:number
Holders floor:number holders:Holder[]
Holder request:number user:number
";

/// What an event is: a line each, its name, and what it names.
pub const EVENTS: &str = "\
joined member:number user:number
left member:number user:number
message member:number? user:number primitive:text request:number?
closed
user user:number name:text? uri:text? proxy:flag port:number?
floor floor:number room:number chair:number?
chair floor:number chair:number?
revoked request:number
opened
forgotten
broken
unkept
word key:text text:text?
away member:number user:number
back member:number user:number
removed user:number
admitted user:number
";
