//! What the program says of itself.

/// The version, and the logic that the program is proved with.
pub const VERSION: &str = "floorctl 0.2.0 (logic dac8208d650f15bf)\n";

/// The help.
pub const HELP: &str = "\
An operator's commands to floorhub, by its control socket

Usage: floorctl [--socket <path>] [--json] <command> [<word> ..]

Options:
  --socket <path>  The control socket, or the one that looks alone; else /run/floorhub/control
  --json           Shows answers, and what is watched, as they come: a line of JSON each
  -h, --help       Print help
  -V, --version    Print version

Commands that look:
  list                               the conferences: phase, members, ongoing requests, events
  show <conference>                  all of a conference: its users, floors, requests and words
  people <conference>                its users, and the connections of each
  floors <conference>                its floors: who holds each, who waits, what its chair hasn't decided
  requests <conference>              its ongoing requests
  words <conference> [key <key>]     what is kept beside it
  journal <conference> [from <place>] [count <n>]
                                     what happened in it, a line for each event
  watch [<conference> [from <place>]]
                                     what happens from now on, or from that place on, until Ctrl-C;
                                     without a conference in all of them
  status                             how the server stands
  methods                            what can be asked at the socket

Commands that change:
  open <file>                        opens the conference of a file (TOML); - is standard input
  open [id <n>] [title <text>] [limit <n>] [connections <n>]
                                     opens one without users and floors, with a number of the server's
  close <conference>                 ends it, and lets its members go
  forget <conference>                gives back the memory of one that is closed
  user <conference> [id <n>] [name <text>] [uri <uri>] [proxy yes] [port <port>]
                                     adds a user
  floor <conference> [id <n>] [title <text>] [room <n>] [chair <user>]
                                     adds a floor
  chair <conference> <floor> <user>  gives a floor this chair; - takes it away
  remove <conference> <user>         shows a user out, who isn't let in again
  remove <conference> member <n>     shows one connection out
  admit <conference> <user>          lets a user in again
  ask <conference> <user> <floor>,.. [priority <0 to 4>] [info <text>] [by <user>]
                                     asks for floors for a user
  release <conference> <request> [by <user>]
                                     gives a request's floors back
  accept <conference> <request> [floors <floor>,..] [reason <text>] [by <user>]
  grant  <conference> <request> [floors <floor>,..] [reason <text>] [by <user>]
  deny   <conference> <request> [floors <floor>,..] [reason <text>] [by <user>]
                                     decides as the chair: has it wait, grants it first, denies it
  revoke <conference> <request>      ends a request, whoever has its floors
  word <conference> <key> <text>     keeps a word beside it; - takes it away
  drain                              opens no conference any more
  stop                               stops the server

Exit status:
  0   it is done
  1   nobody serves at the socket, or the connection ended before the answer
  2   the words are refused
  10 and more  the server refuses: 10 and the error's number, whose name standard error tells
";
