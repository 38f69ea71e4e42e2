//! What the program's help and its version say. `clap` lays them out.

/// The program's version, and the kit that proves and builds it, as `rt version` names it.
pub const VERSION: &str = "0.1.0 (rattle-kit-13f logic dac8208d650f15bf)";

/// An example of a script, and where there is more to read.
macro_rules! script_example {
    ($more:literal) => {
        concat!(
            "Example:
  weblocks run < script.jsonl

  A line of a script, and its reply:
  {\"agent\":\"a\",\"id\":1,\"op\":\"open\",\"url\":\"https://a.test/\"}
  {\"id\":1,\"notices\":[],\"ok\":{\"client\":\"client-1\"}}

",
            $more
        )
    };
}

pub const ABOUT: &str = "A lock service with the behaviour of the Web Locks API";

pub const EXAMPLE: &str = script_example!(
    "'weblocks help <COMMAND>' shows a command's options and an example. Read more in README.md."
);

pub const RUN_ABOUT: &str = "Answer each line of standard input by one line on standard output";

pub const RUN_EXAMPLE: &str = script_example!("All messages and replies: docs/FORMATS.md.");

pub const AUDIT_ABOUT: &str =
    "Do each line of standard input, and say for each manager whether its journal is legal";

pub const AUDIT_EXAMPLE: &str = "Example:
  weblocks audit < script.jsonl

  A line for each manager, here those of two buckets:
  {\"entries\":4,\"legal\":true,\"origin\":\"https://a.test\"}
  {\"bucket\":\"inbox\",\"entries\":3,\"legal\":true,\"origin\":\"https://a.test\"}

Scripts and audits: docs/FORMATS.md.";

pub const TIMELINE_ABOUT: &str =
    "Do each line of standard input, and draw what became of each request as an SVG";

pub const TIMELINE_EXAMPLE: &str = "Example:
  weblocks timeline < script.jsonl > script.svg

  Bars from the line that asks for a lock to the line that ends it, in a lane for each label.

What the picture has: docs/FORMATS.md.";

pub const SERVE_ABOUT: &str = "Serve locks over WebSocket on 127.0.0.1";

pub const SERVE_EXAMPLE: &str = "Example:
  weblocks serve --port 8080 --clients 100

  A line once it listens, and one at the end:
  listening 8080
  served 100 failed 0

Clients in other languages, and limits: docs/CLIENTS.md.";

pub const CLIENT_ABOUT: &str =
    "Send each line of standard input to a server, and print its reply as a line";

pub const CLIENT_EXAMPLE: &str = "Example:
  weblocks client --port 8080 < messages.jsonl

  A message, and its reply:
  {\"id\":1,\"op\":\"open\",\"url\":\"https://a.test/\"}
  {\"id\":1,\"notices\":[],\"ok\":{\"client\":\"client-1\"}}

All messages and replies: docs/FORMATS.md.";

pub const DAEMON_ABOUT: &str =
    "Serve locks over WebSocket until it is stopped, and push grants to those who want that";

pub const DAEMON_EXAMPLE: &str = "Example:
  weblocks daemon --listen 127.0.0.1:8080

  A line once it listens:
  listening 127.0.0.1:8080

  With --status 127.0.0.1:8081 a second one, and http://127.0.0.1:8081/ shows the locks:
  status 127.0.0.1:8081

Tokens, pages, pushes and close codes: docs/FORMATS.md.";

pub const LISTEN: &str =
    "Address and port to listen on, port 0 being any that is free, or socket of this machine. \
     May be given again";

pub const CONNECTIONS: &str = "Connections at once, 1 to 1000000";

pub const PER_ADDRESS: &str =
    "Connections at once from one address, 1 to 1000000 [default: a quarter of all; all from this machine]";

pub const MANAGERS: &str = "Buckets at once that have an agent, 1 to 10000000";

pub const IDLE: &str =
    "Seconds of silence after which a peer is pinged, 1 to 86400; it is ended after twice as many";

pub const LOOPS: &str = "Event loops, 1 to 64 [default: one a core]";

pub const TOKEN_FILE: &str =
    "File with a token a line, and the origins that it may open; whoever has none stays out";

pub const OPEN: &str = "Listen beyond this machine without a token file";

pub const SHARDED: &str =
    "Have each connection open URLs of one origin alone, which its target /?origin=ORIGIN names";

pub const ALLOW_ORIGIN: &str =
    "Origin whose pages may open any URL; '*' is each origin. May be given again";

pub const STATUS: &str =
    "Address and port to show the status at, over HTTP; port 0 is any that is free";

pub const STATUS_HOST: &str =
    "Host by which requests for the status may name it too, as behind a proxy. May be given again";

pub const EPOCH: &str =
    "Epoch of the fencing tokens, 1 to 9223372036854775807: greater than at each start before";

pub const EPOCH_FILE: &str =
    "File that keeps the epoch, which each start makes one greater; 1 where there is none yet";

pub const WHILE_INPUT: &str = "End when standard input ends";

pub const LOG: &str = "What goes to standard error: off, error, warn, info, debug or trace";

pub const LISTEN_PORT: &str = "Port to listen on, 1 to 65535 [required]";

pub const SERVER_PORT: &str = "Port that the server listens on, 1 to 65535 [required]";

pub const CLIENTS: &str = "Number of connections after which it ends, 1 to 10000 [required]";
