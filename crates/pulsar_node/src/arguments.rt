ghost use Rattle.std.specs.Prelude.{◌≡◌, ◌*◌, ℕ, List, ◌⊎◌, option_map, IfSome, IfNone};
ghost use Rattle.std.specs.Duration.{as_nanos};
ghost use Rattle.clap.specs.Words.{ReadsOne};
ghost use Rattle.pulsar_node.specs.Arguments.{file_of, folder_in, address_in, advertised_in, status_in, entries_in, silence_in};

use clap::{Arg, ArgMatches, Command, value_parser};
use log::LevelFilter;
use node::EntriesPerLedger;
use std::alloc::{AllocError, Global};
use std::str::FromStr;
use std::time::Duration;

const NAME: &str = "pulsar_node";

const VERSION: &str = "0.1.0";

/// How much the log may tell, from least to most.
const LEVELS: [&str; 4] = ["error", "warn", "info", "debug"];

/// The command line that the program takes.
pub(crate) fn command<'a>(alloc: Global) -> Result<Command<'a>, AllocError> {
    let file = Arg::new(alloc, "FILE")
        .required(true)
        .help("The script: `init N` first, then one event a line");
    let replay = Command::new(alloc, "replay")
        .about("Runs a script of events over a broker in memory")
        .long_about(REPLAY)
        .arg(file)?;
    Command::new(alloc, NAME)
        .version(VERSION)
        .about("A broker of one node that speaks the Pulsar binary protocol")
        .after_help("Without any words a script is read from the standard input.")
        .subcommand(init_command(alloc)?)?
        .subcommand(serve_command(alloc)?)?
        .subcommand(inspect_command(alloc)?)?
        .subcommand(upgrade_command(alloc)?)?
        .subcommand(replay)
}

fn init_command<'a>(alloc: Global) -> Result<Command<'a>, AllocError> {
    let entries = Arg::new(alloc, "entries")
        .long("entries")
        .value_name("N")
        .value_parser(value_parser!(u32).range(1..=50000))
        .default_value("1000")
        .help("How many entries a ledger has, 1 to 50000");
    Command::new(alloc, "init")
        .about("Makes a broker without topics in a folder")
        .arg(folder_argument(alloc))?
        .arg(entries)
}

fn serve_command<'a>(alloc: Global) -> Result<Command<'a>, AllocError> {
    let address = Arg::new(alloc, "ADDR")
        .required(true)
        .help("Where to listen, as 127.0.0.1:6650");
    let advertise = Arg::new(alloc, "advertise")
        .long("advertise")
        .value_name("HOST:PORT")
        .help(
            "Where clients are told to connect when they look a topic up; else ADDR as it stands",
        );
    let log = Arg::new(alloc, "log")
        .long("log")
        .value_name("LEVEL")
        .value_parser(LEVELS.as_slice())
        .default_value("info")
        .help("How much the log on standard error tells");
    let idle = Arg::new(alloc, "idle")
        .long("idle")
        .value_name("SECONDS")
        .value_parser(value_parser!(u32).range(0..=86400))
        .default_value("600")
        .help("How long a client may say nothing before it is cut off, 0 to 86400; 0 is for ever");
    let status = Arg::new(alloc, "status")
        .long("status")
        .value_name("ADDR")
        .help("Where to show status pages over HTTP, as 127.0.0.1:8080; without it nowhere");
    Command::new(alloc, "serve")
        .about("Serves the broker of a folder to clients, until it is killed")
        .arg(address)?
        .arg(folder_argument(alloc))?
        .arg(advertise)?
        .arg(idle)?
        .arg(log)?
        .arg(status)
}

fn inspect_command<'a>(alloc: Global) -> Result<Command<'a>, AllocError> {
    Command::new(alloc, "inspect")
        .about(
            "Prints a line for each topic in a folder, and behind it one for each of its subscriptions",
        )
        .arg(folder_argument(alloc))
}

fn upgrade_command<'a>(alloc: Global) -> Result<Command<'a>, AllocError> {
    Command::new(alloc, "upgrade")
        .about("Makes a folder of version 2 of one of version 1, whose files stay")
        .arg(folder_argument(alloc))
}

fn folder_argument<'a>(alloc: Global) -> Arg<'a> {
    Arg::new(alloc, "DIR").required(true).help("The folder")
}

/// The folder that a subcommand names.
pub(crate) fn folder_of<'a>(words: &ArgMatches<'a>) -> &'a str
    ensures { result.now ≡ folder_in words.now }
{
    words.get_str("DIR").unwrap_or_default()
}

/// The address that `serve` names.
pub(crate) fn address_of<'a>(words: &ArgMatches<'a>) -> &'a str
    ensures { result.now ≡ address_in words.now }
{
    words.get_str("ADDR").unwrap_or_default()
}

/// Where clients of `serve` are told to connect.
pub(crate) fn advertised_of<'a>(words: &ArgMatches<'a>) -> &'a str
    ensures { result.now ≡ advertised_in words.now }
{
    match words.get_str("advertise") {
        Some(advertised) => advertised,
        None => address_of(words),
    }
}

/// Where `serve` is to show status pages, if it is.
pub(crate) fn status_address_of<'a>(words: &ArgMatches<'a>) -> Option<&'a str>
    ensures { option_map (λ address. address.now) result ≡ status_in words.now }
{
    words.get_str("status")
}

/// How much the log of `serve` tells.
pub(crate) fn level_of(words: &ArgMatches<'_>) -> LevelFilter {
    match words
        .get_str("log")
        .unwrap_or_default()
        .parse::<LevelFilter>()
    {
        Ok(level) => level,
        Err(_) => LevelFilter::Info,
    }
}

/// How long a client of `serve` may say nothing; none, where that is for ever.
pub(crate) fn longest_silence(serve: &ArgMatches<'_>) -> Option<Duration>
    ensures some { (text : List ℕ) → silence_in serve.now ≡ Some text → IfSome result (λ longest.
        (seconds : ℕ) × (⟦<u32 as FromStr>⟧.from_str_gives) text (Ok seconds) × (as_nanos longest ≡ seconds * 1_000_000_000)) }
    ensures none { (text : List ℕ) → silence_in serve.now ≡ Some text → IfNone result
        (ReadsOne (⟦<u32 as FromStr>⟧.from_str_gives) text None ⊎ (⟦<u32 as FromStr>⟧.from_str_gives) text (Ok 0)) }
{
    match serve.get_one::<u32>("idle")? {
        0 => None,
        seconds => Some(Duration::from_secs(u64::from(seconds))),
    }
}

/// How many entries a ledger is to have; none where a ledger may not have so many, which the command line refuses.
pub(crate) fn entries_per_ledger(init: &ArgMatches<'_>) -> Option<EntriesPerLedger>
    ensures { (text : List ℕ) → entries_in init.now ≡ Some text → IfSome result (λ entries. (⟦<u32 as FromStr>⟧.from_str_gives) text (Ok entries.count)) }
{
    EntriesPerLedger::new(init.get_one::<u32>("entries")?)
}

const REPLAY: &str = "Runs a script of events over a broker in memory.

The script is read whole before its first line is worked. Its lines are words one space apart,
with numbers in decimal and bytes in hex:

  init N          a broker with N entries a ledger, 1 to 50000: an empty catalog of topics is
                  written; first, and only there
  open            opens the next session; sessions are numbered from 0
  bytes S HEX     session S receives these bytes
  pump S          session S collects its replies and messages
  close S         session S ends
  flush T         topic T commits what waits; topics are numbered from 0 in the order in which
                  they were made
  take T          a flush of topic T begins that comes in parts: a batch is taken of what waits
  write T         the batch that was taken is written
  finish T        that flush ends as its write did
  fail K          the device's Kth write, cut or sync from now fails, once
  stop K          that one and all later ones fail, until the next crash
  failread K      the device's Kth read from now fails, once
  crash old       the power is cut, and the node starts again: of each file what its last
                  sync left; `crash new`: what reads gave; `crash fill HH`: this byte
                  wherever a byte may be anything
  reopen T        topic T's files are opened again, after a failure
  status          prints a line for each topic, in the order of their numbers, and behind it one
                  for each of its subscriptions; none where the node is down

For each line but `status` one line is printed: its number, the bytes out in hex or `-`, and the
result: `ok`, `F1` to `F9` for a fault that ended the session, `S1` to `S6` for a refusal of the
stores (`S1` a failed device, `S2` a damaged file, `S5` want of memory), `full`, or `none` for a
session, topic or batch that isn't there. A status line of a topic is `T`, its number, how many
entries came to it, the position of the first one that is still there, how many segment files these
are in, and its name; one of a subscription is `S`, its topic's number, its mark-delete position,
how many ranges it acknowledged behind that, and its name.";

/// The file of the script, or none for the standard input.
pub(crate) fn script_file<'a>(matches: &ArgMatches<'a>) -> Option<&'a str>
    ensures { option_map (λ path. path.now) result ≡ file_of matches.now }
{
    let (_, replay) = matches.subcommand()?;
    replay.get_str("FILE")
}
