//! What C calls. Each hub lies where `floor_hub_init` put it, and is in one call at a time.

ghost use Rattle.std.specs.Prelude.{◌≡◌, ◌≢◌, ◌+◌, ◌++◌, ◌∷◌, ◌<◌, [], Some, None, if◌then◌else◌, length, take};
ghost use Rattle.std.specs.Borrow.{full_share, sem};
ghost use Rattle.std.specs.Mem.{type_size};
ghost use Rattle.std.specs.Ptr.{lies_at, room_at};
ghost use Rattle.floor_machine.specs.declared.act.Act.TheVariants.{AddFloor, Close, Revoke, SetChair};
ghost use Rattle.floor_hub.specs.Hub.{Hub as Kept};
ghost use Rattle.floor_hub.specs.StandsFor.{StandsFor};
ghost use Rattle.floor_hub.specs.World.{nothing};
ghost use Rattle.floor_hub.specs.contracts.hub.Hub.{the_row as HubRow};
ghost use Rattle.floor_ffi.specs.Gives.{ActGives, AttachGives, CutGives, DiagnoseGives, ForgetGives, JournalGives, LeaveGives, Lies, OpenGives, PieceGives, PutsText, SayGives, ServeGives, StatusGives, TakeGives, ToldGives, TookGives, UserGives};
ghost use Rattle.floor_ffi.specs.Numbers.{name_of, number_of};
ghost use Rattle.floor_ffi.specs.declared.exports.TheConstants.{VERSION};
ghost use Rattle.floor_ffi.specs.declared.outcome.Outcome.{Outcome};

use crate::acting::{add_floor, add_user, close, revoke, say, set_chair};
use crate::answers::{
    FloorAttached, FloorLines, FloorNamed, FloorOpened, FloorSaid, FloorServed, FloorState,
    FloorTaken, FloorText,
};
use crate::opening::{diagnose_text, end, forget, fresh, open};
use crate::outcome::{name_of_number, put_text};
use crate::reading::{journal, status};
use crate::serving::{attach, is_cut, leave, piece, serve, took};
use crate::taking::{take, told};
use floor_hub::Hub;
use std::alloc::Global;

/// The version, and the logic that the library is proved with.
const VERSION: &str = "libfloor 0.2.0 (logic dac8208d650f15bf)";

/// floor.h asks for room that is aligned so.
const _: () = prove!(std::mem::align_of::<Hub>() <= 16);

/// Writes the version, and gives its length.
#[unsafe(no_mangle)]
pub extern "C" fn floor_version(room: &mut [u8]) -> usize
    ensures value { PutsText VERSION.now result room.old room.new }
{
    put_text(VERSION, room)
}

/// Writes the name of the outcome that has a number, and gives its length: 0 where none has it.
#[unsafe(no_mangle)]
pub extern "C" fn floor_name(number: u32, room: &mut [u8]) -> usize
    ensures named { (outcome : Outcome) → number_of outcome ≡ number
        → PutsText (name_of outcome) result room.old room.new }
    ensures unknown { ((outcome : Outcome) → number_of outcome ≢ number)
        → PutsText [] result room.old room.new }
{
    put_text(name_of_number(number), room)
}

/// Says why a text is no configuration, and writes a line that tells the place.
#[unsafe(no_mangle)]
pub extern "C" fn floor_diagnose(alloc: Global, text: &[u8], room: &mut [u8]) -> FloorText
    ensures gives { DiagnoseGives text.now result.result result.len room.old room.new }
{
    diagnose_text(alloc, text, room)
}

/// How many bytes a hub takes.
#[unsafe(no_mangle)]
pub extern "C" fn floor_hub_size() -> usize
    ensures value { result ≡ type_size HubRow }
{
    std::mem::size_of::<Hub>()
}

/// Makes a hub in this room: no conference, and no connection.
#[unsafe(no_mangle)]
pub unsafe extern "C" fn floor_hub_init(alloc: Global, hub: *mut u8)
    requires* { sem 𝓛 (room_at HubRow hub) }
    ensures* { sem 𝓛 (Lies HubRow hub (λ new. StandsFor new nothing)) }
{
    let made = fresh(alloc);
    (hub as *mut Hub).write(made);
}

/// Lets a hub go, and gives its room back.
#[unsafe(no_mangle)]
pub unsafe extern "C" fn floor_hub_drop(hub: *mut u8)
    ghost old: { Kept }
    requires* { sem 𝓛 (lies_at HubRow full_share hub old) }
    ensures* { sem 𝓛 (room_at HubRow hub) }
{
    let had = (hub as *mut Hub).read();
    end(had);
}

/// Opens the conferences of a text in TOML, in order, up to the first that the hub refuses.
#[unsafe(no_mangle)]
pub unsafe extern "C" fn floor_open(hub: *mut u8, alloc: Global, text: &[u8]) -> FloorOpened
    ghost old: { Kept }
    requires* { sem 𝓛 (lies_at HubRow full_share hub old) }
    ensures* { sem 𝓛 (Lies HubRow hub
        (λ new. OpenGives old text.now new result.result result.opened)) }
{
    open(&mut *(hub as *mut Hub), alloc, text)
}

/// Attaches a connection of a user.
#[unsafe(no_mangle)]
pub unsafe extern "C" fn floor_attach(
    hub: *mut u8,
    alloc: Global,
    conference: u32,
    user: u16,
) -> FloorAttached
    ghost old: { Kept }
    requires* { sem 𝓛 (lies_at HubRow full_share hub old) }
    ensures* { sem 𝓛 (Lies HubRow hub
        (λ new. AttachGives old conference user new result.result result.connection)) }
{
    attach(&mut *(hub as *mut Hub), alloc, conference, user)
}

/// Takes bytes that came from a connection.
#[unsafe(no_mangle)]
pub unsafe extern "C" fn floor_piece(hub: *mut u8, connection: u64, bytes: &[u8]) -> u32
    ghost old: { Kept }
    requires* { sem 𝓛 (lies_at HubRow full_share hub old) }
    ensures* { sem 𝓛 (Lies HubRow hub
        (λ new. PieceGives old connection bytes.now new result)) }
{
    piece(&mut *(hub as *mut Hub), connection, bytes)
}

/// Serves messages of a connection, `most` at most, up to the first that concerns others too.
#[unsafe(no_mangle)]
pub unsafe extern "C" fn floor_serve(hub: *mut u8, connection: u64, most: u32) -> FloorServed
    ghost old: { Kept }
    requires* { sem 𝓛 (lies_at HubRow full_share hub old) }
    ensures* { sem 𝓛 (Lies HubRow hub
        (λ new. ServeGives old connection most new result.result result.served)) }
{
    serve(&mut *(hub as *mut Hub), connection, most)
}

/// Writes whom the last call concerned.
#[unsafe(no_mangle)]
pub unsafe extern "C" fn floor_told(hub: *mut u8, room: &mut [u64]) -> FloorNamed
    ghost old: { Kept }
    requires* { sem 𝓛 (lies_at HubRow full_share hub old) }
    ensures* { sem 𝓛 (Lies HubRow hub (λ new.
        ToldGives old new result.result result.count room.old room.new)) }
{
    told(&mut *(hub as *mut Hub), room)
}

/// Takes the parcels that wait for a connection, as many as there is room for.
#[unsafe(no_mangle)]
pub unsafe extern "C" fn floor_take(hub: *mut u8, connection: u64, room: &mut [u8]) -> FloorTaken
    ghost old: { Kept }
    requires* { sem 𝓛 (lies_at HubRow full_share hub old) }
    ensures* { sem 𝓛 (Lies HubRow hub (λ new. TakeGives old connection new
        result.result result.parcels result.len (length room.old) room.new)) }
{
    take(&mut *(hub as *mut Hub), connection, room)
}

/// Takes it that so many parcels to a connection were brought to their end.
#[unsafe(no_mangle)]
pub unsafe extern "C" fn floor_took(hub: *mut u8, connection: u64, count: u32) -> u32
    ghost old: { Kept }
    requires* { sem 𝓛 (lies_at HubRow full_share hub old) }
    ensures* { sem 𝓛 (Lies HubRow hub (λ new. TookGives old connection count new result)) }
{
    took(&mut *(hub as *mut Hub), connection, count)
}

/// Ends a connection.
#[unsafe(no_mangle)]
pub unsafe extern "C" fn floor_leave(hub: *mut u8, connection: u64) -> u32
    ghost old: { Kept }
    requires* { sem 𝓛 (lies_at HubRow full_share hub old) }
    ensures* { sem 𝓛 (Lies HubRow hub (λ new. LeaveGives old connection new result)) }
{
    leave(&mut *(hub as *mut Hub), connection)
}

/// Whether the member of a connection is cut.
#[unsafe(no_mangle)]
pub unsafe extern "C" fn floor_is_cut(hub: *mut u8, connection: u64) -> bool
    ghost old: { Kept }
    requires* { sem 𝓛 (lies_at HubRow full_share hub old) }
    ensures* { sem 𝓛 (Lies HubRow hub (λ new. CutGives old connection new result)) }
{
    is_cut(&mut *(hub as *mut Hub), connection)
}

/// Ends a conference.
#[unsafe(no_mangle)]
pub unsafe extern "C" fn floor_close(hub: *mut u8, conference: u32) -> u32
    ghost old: { Kept }
    requires* { sem 𝓛 (lies_at HubRow full_share hub old) }
    ensures* { sem 𝓛 (Lies HubRow hub (λ new. ActGives old conference Close new result)) }
{
    close(&mut *(hub as *mut Hub), conference)
}

/// Takes a floor request's floors away.
#[unsafe(no_mangle)]
pub unsafe extern "C" fn floor_revoke(hub: *mut u8, conference: u32, request: u16) -> u32
    ghost old: { Kept }
    requires* { sem 𝓛 (lies_at HubRow full_share hub old) }
    ensures* { sem 𝓛 (Lies HubRow hub
        (λ new. ActGives old conference (Revoke request) new result)) }
{
    revoke(&mut *(hub as *mut Hub), conference, request)
}

/// Adds a user. An empty text counts as absent.
#[unsafe(no_mangle)]
pub unsafe extern "C" fn floor_user(
    hub: *mut u8,
    alloc: Global,
    conference: u32,
    user: u16,
    proxy: bool,
    name: &[u8],
    uri: &[u8],
) -> u32
    ghost old: { Kept }
    requires* { sem 𝓛 (lies_at HubRow full_share hub old) }
    ensures* { sem 𝓛 (Lies HubRow hub
        (λ new. UserGives old conference user proxy name.now uri.now new result)) }
{
    add_user(
        &mut *(hub as *mut Hub),
        alloc,
        conference,
        user,
        proxy,
        name,
        uri,
    )
}

/// Adds a floor.
#[unsafe(no_mangle)]
pub unsafe extern "C" fn floor_floor(
    hub: *mut u8,
    conference: u32,
    floor: u16,
    room: u16,
    has_chair: bool,
    chair: u16,
) -> u32
    ghost old: { Kept }
    requires* { sem 𝓛 (lies_at HubRow full_share hub old) }
    ensures* { sem 𝓛 (Lies HubRow hub (λ new. ActGives old conference
        (AddFloor record { id = floor; room = room; chair = if has_chair then Some chair else None })
        new result)) }
{
    add_floor(
        &mut *(hub as *mut Hub),
        conference,
        floor,
        room,
        has_chair,
        chair,
    )
}

/// Gives a floor a chair, or none.
#[unsafe(no_mangle)]
pub unsafe extern "C" fn floor_chair(
    hub: *mut u8,
    conference: u32,
    floor: u16,
    has_chair: bool,
    chair: u16,
) -> u32
    ghost old: { Kept }
    requires* { sem 𝓛 (lies_at HubRow full_share hub old) }
    ensures* { sem 𝓛 (Lies HubRow hub (λ new. ActGives old conference
        (SetChair floor (if has_chair then Some chair else None)) new result)) }
{
    set_chair(&mut *(hub as *mut Hub), conference, floor, has_chair, chair)
}

/// Says a message for a user, and writes what answers it.
#[unsafe(no_mangle)]
pub unsafe extern "C" fn floor_say(
    hub: *mut u8,
    alloc: Global,
    conference: u32,
    user: u16,
    message: &[u8],
    room: &mut [u8],
) -> FloorSaid
    ghost old: { Kept }
    requires* { sem 𝓛 (lies_at HubRow full_share hub old) }
    ensures* { sem 𝓛 (Lies HubRow hub (λ new. SayGives old conference user message.now new
        result.result result.place result.len room.old room.new)) }
{
    say(
        &mut *(hub as *mut Hub),
        alloc,
        conference,
        user,
        message,
        room,
    )
}

/// How a conference stands.
#[unsafe(no_mangle)]
pub unsafe extern "C" fn floor_status(hub: *mut u8, conference: u32) -> FloorState
    ghost old: { Kept }
    requires* { sem 𝓛 (lies_at HubRow full_share hub old) }
    ensures* { sem 𝓛 (Lies HubRow hub (λ new. StatusGives old conference new
        result.result result.members result.ongoing result.events result.phase)) }
{
    status(&mut *(hub as *mut Hub), conference)
}

/// Writes lines of a conference's journal, behind those of the first `done` events.
#[unsafe(no_mangle)]
pub unsafe extern "C" fn floor_journal(
    hub: *mut u8,
    alloc: Global,
    conference: u32,
    done: usize,
    room: &mut [u8],
) -> FloorLines
    ghost old: { Kept }
    requires* { sem 𝓛 (lies_at HubRow full_share hub old) }
    ensures* { sem 𝓛 (Lies HubRow hub (λ new. JournalGives old conference done new
        result.result result.events result.len (length room.old) room.new)) }
{
    journal(&mut *(hub as *mut Hub), alloc, conference, done, room)
}

/// Gives the memory of a conference back that has ended and of which no connection is live.
#[unsafe(no_mangle)]
pub unsafe extern "C" fn floor_forget(hub: *mut u8, conference: u32) -> u32
    ghost old: { Kept }
    requires* { sem 𝓛 (lies_at HubRow full_share hub old) }
    ensures* { sem 𝓛 (Lies HubRow hub (λ new. ForgetGives old conference new result)) }
{
    forget(&mut *(hub as *mut Hub), conference)
}
