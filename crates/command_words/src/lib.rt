//! The words of the command line, read by `clap`: for the command.
#![tactic(auto)]

ghost use Rattle.std.specs.Prelude.{◌≡◌, ◌≢◌, ◌<◌, ◌^◌, [], Some, Err, true, false, IfOk, IfErr};
ghost use Rattle.clap.specs.Simple.{app_of, subcommand_rows_of};
ghost use Rattle.clap.specs.Walk.{rule_of};
ghost use Rattle.command_words.specs.App.{IsLocal, app, audit_shape, bare_top, export_shape, faults_in, follow_shape, load_shape, play_shape, promote_shape, rows_of_words, rule_for, serve_shape, texts, value_rule, with_items};
ghost use Rattle.command_words.specs.Options.{audit, connections, feed_items, fuel, instances, journal, life, load_items, pages, play_items, port, requests, run_number, serve_items, shelf, shelves, shelves_items, workers};
ghost use Rattle.command_words.specs.Plain.{AcceptsPlain, IsInRange, ReadsPlain};
ghost use Rattle.command_words.specs.Reads.{AsksFor, Holds, HoldsFlag, HoldsNoNumber, LacksAsked, HoldsText, asked_from, feed_at, shelves_at, flag_at, options_at, load_at, number_at, rows_in, service_at, text_at};
ghost use Rattle.command_words.specs.declared.Command.{Command};

use clap::builder::ValueParser;
use clap::error::ErrorKind;
use clap::{Arg, ArgAction, ArgMatches, value_parser};
use script_value::Str;
use server_limits::{
    MOST_CONNECTIONS, MOST_FUEL, MOST_INSTANCES, MOST_LIFE, MOST_PAGES, MOST_REQUESTS,
    MOST_SHELVES, MOST_WORKERS,
};
use std::alloc::{AllocError, Global};
use thiserror::Error;

/// The greatest number of a measured run.
pub const MOST_RUN: u64 = 9_223_372_036_854_775_807;

/// The greatest number of a shelf.
pub const LAST_SHELF: u32 = MOST_SHELVES - 1;

/// What the options that `play`, `serve` and `load` share say, each in its range.
#[derive(Drop)]
pub struct Options {
    /// The most that a segment may cost, 1 to `MOST_FUEL`.
    pub fuel: u64,
    /// How long a page can be answered, 1 to `MOST_LIFE` seconds.
    pub life: u64,
    /// The most live instances of a shelf, 1 to `MOST_INSTANCES`.
    pub instances: u32,
    /// The most pages of an instance that are not evicted, 1 to `MOST_PAGES`.
    pub pages: u32,
    /// The directory of the journals, of one byte or more. Where it is `-`, they stand in memory.
    pub journal: Str,
    /// How many shelves there are, 1 to `MOST_SHELVES`.
    pub shelves: u32,
}

/// What the options of `serve` say, each in its range.
#[derive(Drop)]
pub struct Service {
    /// The options that `serve` shares with `play`.
    pub options: Options,
    /// The port to listen at, 0 to 65,535. At 0 the machine chooses one.
    pub port: u16,
    /// The most links that a worker serves, 1 to `MOST_CONNECTIONS`.
    pub connections: u64,
    /// How many workers serve at once, 1 to `MOST_WORKERS`.
    pub workers: u32,
    /// The most requests that a link carries, 1 to `MOST_REQUESTS`.
    pub requests: u32,
    /// Whether the journals are audited before they are served.
    pub audit: bool,
}

/// What the words of `load` say, each in its range.
#[derive(Drop)]
pub struct LoadOptions {
    /// The number of the measured run, 1 to `MOST_RUN`.
    pub number: u64,
    /// The options, which are those of `play`.
    pub options: Options,
}

/// What the words of `audit` and `promote` say, each in its range.
#[derive(Drop)]
pub struct ShelvesOptions {
    /// The directory of the journals, of one byte or more. Where it is `-`, they stand in memory.
    pub journal: Str,
    /// How many shelves there are, from 0 on, 1 to `MOST_SHELVES`.
    pub shelves: u32,
}

/// What the words of `export` and `follow` say, each in its range.
#[derive(Drop)]
pub struct FeedOptions {
    /// The directory of the journals, of one byte or more. Where it is `-`, they stand in memory.
    pub journal: Str,
    /// The number of the shelf, 0 to `LAST_SHELF`.
    pub shelf: u32,
}

/// What the words ask for.
#[derive(Drop)]
pub enum Command {
    /// Reads a setup and tells how many scripts it has.
    Check,
    /// Reads a setup and steps, and plays them.
    Play(Options),
    /// Reads a setup, and serves it over HTTP.
    Serve(Service),
    /// Performs a measured run, and tells what it came to.
    Load(LoadOptions),
    /// Audits the journals of shelves, and tells how many records each has.
    Audit(ShelvesOptions),
    /// Writes the records of a shelf's journal, for a follower.
    Export(FeedOptions),
    /// Reads the records of a leader's journal, and holds each before it acknowledges it.
    Follow(FeedOptions),
    /// Makes shelves that follow into shelves like any other.
    Promote(ShelvesOptions),
}

/// Why words were refused.
#[derive(Clone, Copy, Debug, PartialEq, Eq, Error)]
pub enum WordsFault {
    /// They are no command, or an option is unknown, stands twice or is out of its range; a request for help too.
    #[error("the words are no command")]
    Usage,
    /// Memory ran out.
    #[error("memory ran out")]
    Memory,
}

impl From<AllocError> for WordsFault {
    ghost use Rattle.command_words.specs.declared.WordsFault.TheVariants.{Memory};

    ghost from_gives = { λ _ e. e ≡ Memory };

    fn from(_: AllocError) -> WordsFault {
        WordsFault::Memory
    }
}

/// `--name VALUE`
fn value_arg<'a>(alloc: Global, name: &'a str, parser: ValueParser<'a>) -> Arg<'a>
    ensures rule { rule_of result ≡ value_rule name.entry.now parser.entry }
    ensures local { result.global ≡ false }
{
    Arg::new(alloc, name)
        .long(name)
        .action(ArgAction::Set)
        .value_parser(parser)
}

/// `--fuel N`
fn fuel_arg<'a>(alloc: Global) -> Arg<'a>
    ensures rule { rule_of result ≡ rule_for fuel }
    ensures local { result.global ≡ false }
{
    value_arg(
        alloc,
        "fuel",
        value_parser!(u64).range(1..=MOST_FUEL as i64),
    )
    .default_value("100000")
}

/// `--life SECONDS`
fn life_arg<'a>(alloc: Global) -> Arg<'a>
    ensures rule { rule_of result ≡ rule_for life }
    ensures local { result.global ≡ false }
{
    value_arg(
        alloc,
        "life",
        value_parser!(u64).range(1..=MOST_LIFE as i64),
    )
    .default_value("3600")
}

/// `--instances N`
fn instances_arg<'a>(alloc: Global) -> Arg<'a>
    ensures rule { rule_of result ≡ rule_for instances }
    ensures local { result.global ≡ false }
{
    value_arg(
        alloc,
        "instances",
        value_parser!(u64).range(1..=MOST_INSTANCES as i64),
    )
    .default_value("256")
}

/// `--pages N`
fn pages_arg<'a>(alloc: Global) -> Arg<'a>
    ensures rule { rule_of result ≡ rule_for pages }
    ensures local { result.global ≡ false }
{
    value_arg(
        alloc,
        "pages",
        value_parser!(u64).range(1..=MOST_PAGES as i64),
    )
    .default_value("64")
}

/// `--journal DIR`
fn journal_arg<'a>(alloc: Global) -> Arg<'a>
    ensures rule { rule_of result ≡ rule_for journal }
    ensures local { result.global ≡ false }
{
    value_arg(alloc, "journal", ValueParser::NonEmptyString).default_value("-")
}

/// `--shelves N`
fn shelves_arg<'a>(alloc: Global) -> Arg<'a>
    ensures rule { rule_of result ≡ rule_for shelves }
    ensures local { result.global ≡ false }
{
    value_arg(
        alloc,
        "shelves",
        value_parser!(u64).range(1..=MOST_SHELVES as i64),
    )
    .default_value("1")
}

/// `--shelf N`
fn shelf_arg<'a>(alloc: Global) -> Arg<'a>
    ensures rule { rule_of result ≡ rule_for shelf }
    ensures local { result.global ≡ false }
{
    value_arg(
        alloc,
        "shelf",
        value_parser!(u64).range(0..=LAST_SHELF as i64),
    )
    .default_value("0")
}

/// `--port N`
fn port_arg<'a>(alloc: Global) -> Arg<'a>
    ensures rule { rule_of result ≡ rule_for port }
    ensures local { result.global ≡ false }
{
    value_arg(alloc, "port", value_parser!(u64).range(0..=65_535)).required(true)
}

/// `--connections N`
fn connections_arg<'a>(alloc: Global) -> Arg<'a>
    ensures rule { rule_of result ≡ rule_for connections }
    ensures local { result.global ≡ false }
{
    value_arg(
        alloc,
        "connections",
        value_parser!(u64).range(1..=MOST_CONNECTIONS as i64),
    )
    .default_value("10000")
}

/// `N`, after the word `load`
fn run_number_arg<'a>(alloc: Global) -> Arg<'a>
    ensures rule { rule_of result ≡ rule_for run_number }
    ensures local { result.global ≡ false }
{
    Arg::new(alloc, "number")
        .action(ArgAction::Set)
        .value_parser(value_parser!(u64).range(1..=MOST_RUN as i64))
        .required(true)
}

/// `--workers N`
fn workers_arg<'a>(alloc: Global) -> Arg<'a>
    ensures rule { rule_of result ≡ rule_for workers }
    ensures local { result.global ≡ false }
{
    value_arg(
        alloc,
        "workers",
        value_parser!(u64).range(1..=MOST_WORKERS as i64),
    )
    .default_value("4")
}

/// `--requests N`
fn requests_arg<'a>(alloc: Global) -> Arg<'a>
    ensures rule { rule_of result ≡ rule_for requests }
    ensures local { result.global ≡ false }
{
    value_arg(
        alloc,
        "requests",
        value_parser!(u64).range(1..=MOST_REQUESTS as i64),
    )
    .default_value("100")
}

/// `--audit`
fn audit_arg<'a>(alloc: Global) -> Arg<'a>
    ensures rule { rule_of result ≡ rule_for audit }
    ensures local { result.global ≡ false }
{
    Arg::new(alloc, "audit")
        .long("audit")
        .action(ArgAction::SetTrue)
}

/// The command with the options that `play`, `serve` and `load` share.
fn with_options<'a>(
    alloc: Global,
    command: clap::Command<'a>,
) -> Result<clap::Command<'a>, AllocError>
    ensures app { IfOk result (λ c. app_of c ≡ with_items (app_of command.entry) play_items) }
    ensures local { IsLocal command.entry → IfOk result (λ c. IsLocal c) }
{
    command
        .arg(fuel_arg(alloc))?
        .arg(life_arg(alloc))?
        .arg(instances_arg(alloc))?
        .arg(pages_arg(alloc))?
        .arg(journal_arg(alloc))?
        .arg(shelves_arg(alloc))
}

fn play_command<'a>(alloc: Global) -> Result<clap::Command<'a>, AllocError>
    ensures app { IfOk result (λ c. (app_of c).top ≡ play_shape) }
    ensures local { IfOk result (λ c. IsLocal c) }
{
    with_options(alloc, clap::Command::new(alloc, "play"))
}

fn serve_command<'a>(alloc: Global) -> Result<clap::Command<'a>, AllocError>
    ensures app { IfOk result (λ c. (app_of c).top ≡ serve_shape) }
    ensures local { IfOk result (λ c. IsLocal c) }
{
    with_options(alloc, clap::Command::new(alloc, "serve"))?
        .arg(port_arg(alloc))?
        .arg(connections_arg(alloc))?
        .arg(workers_arg(alloc))?
        .arg(requests_arg(alloc))?
        .arg(audit_arg(alloc))
}

fn load_command<'a>(alloc: Global) -> Result<clap::Command<'a>, AllocError>
    ensures app { IfOk result (λ c. (app_of c).top ≡ load_shape) }
    ensures local { IfOk result (λ c. IsLocal c) }
{
    let command = clap::Command::new(alloc, "load").arg(run_number_arg(alloc))?;
    with_options(alloc, command)
}

fn audit_command<'a>(alloc: Global) -> Result<clap::Command<'a>, AllocError>
    ensures app { IfOk result (λ c. (app_of c).top ≡ audit_shape) }
    ensures local { IfOk result (λ c. IsLocal c) }
{
    clap::Command::new(alloc, "audit")
        .arg(journal_arg(alloc))?
        .arg(shelves_arg(alloc))
}

fn export_command<'a>(alloc: Global) -> Result<clap::Command<'a>, AllocError>
    ensures app { IfOk result (λ c. (app_of c).top ≡ export_shape) }
    ensures local { IfOk result (λ c. IsLocal c) }
{
    clap::Command::new(alloc, "export")
        .arg(journal_arg(alloc))?
        .arg(shelf_arg(alloc))
}

fn follow_command<'a>(alloc: Global) -> Result<clap::Command<'a>, AllocError>
    ensures app { IfOk result (λ c. (app_of c).top ≡ follow_shape) }
    ensures local { IfOk result (λ c. IsLocal c) }
{
    clap::Command::new(alloc, "follow")
        .arg(journal_arg(alloc))?
        .arg(shelf_arg(alloc))
}

fn promote_command<'a>(alloc: Global) -> Result<clap::Command<'a>, AllocError>
    ensures app { IfOk result (λ c. (app_of c).top ≡ promote_shape) }
    ensures local { IfOk result (λ c. IsLocal c) }
{
    clap::Command::new(alloc, "promote")
        .arg(journal_arg(alloc))?
        .arg(shelves_arg(alloc))
}

fn new_command_line<'a>(alloc: Global) -> clap::Command<'a>
    ensures app { app_of result ≡ record { top = bare_top; subs = [] } }
{
    clap::Command::new(alloc, "script_server")
        .subcommand_required(true)
        .disable_help_subcommand(true)
}

fn command_line<'a>(alloc: Global) -> Result<clap::Command<'a>, AllocError>
    ensures { IfOk result (λ c. app_of c ≡ app) }
{
    new_command_line(alloc)
        .subcommand(clap::Command::new(alloc, "check"))?
        .subcommand(play_command(alloc)?)?
        .subcommand(serve_command(alloc)?)?
        .subcommand(load_command(alloc)?)?
        .subcommand(audit_command(alloc)?)?
        .subcommand(export_command(alloc)?)?
        .subcommand(follow_command(alloc)?)?
        .subcommand(promote_command(alloc)?)
}

/// What `clap` finds in the words.
fn matches_of<'a>(alloc: Global, words: &'a [&'a str]) -> Result<ArgMatches<'a>, WordsFault>
    ensures fine { IfOk result (λ m. faults_in words.entry.now ≡ []) }
    ensures found { IfOk result (λ m. subcommand_rows_of m ≡ rows_of_words words.entry.now) }
    ensures usage { result ≡ Err WordsFault.Usage → faults_in words.entry.now ≢ [] }
{
    let Ok(command) = command_line(alloc) else {
        return Err(WordsFault::Memory);
    };
    match command.try_get_matches_from(words) {
        Ok(matches) => Ok(matches),
        Err(e) => match e.kind() {
            ErrorKind::OutOfMemory => Err(WordsFault::Memory),
            _ => Err(WordsFault::Usage),
        },
    }
}

fn port_number(matches: &ArgMatches<'_>, id: &str) -> Result<u16, WordsFault>
    ensures value { IfOk result (λ n. n ≡ number_at (rows_in matches.now) id.now) }
    ensures refused { IfErr result (λ e. HoldsNoNumber (2 ^ 16) (rows_in matches.now) id.now) }
{
    matches.get_one::<u16>(id).ok_or(WordsFault::Usage)
}

fn short_number(matches: &ArgMatches<'_>, id: &str) -> Result<u32, WordsFault>
    ensures value { IfOk result (λ n. n ≡ number_at (rows_in matches.now) id.now) }
    ensures refused { IfErr result (λ e. HoldsNoNumber (2 ^ 32) (rows_in matches.now) id.now) }
{
    matches.get_one::<u32>(id).ok_or(WordsFault::Usage)
}

fn number(matches: &ArgMatches<'_>, id: &str) -> Result<u64, WordsFault>
    ensures value { IfOk result (λ n. n ≡ number_at (rows_in matches.now) id.now) }
    ensures refused { IfErr result (λ e. HoldsNoNumber (2 ^ 64) (rows_in matches.now) id.now) }
{
    matches.get_one::<u64>(id).ok_or(WordsFault::Usage)
}

// Whether a flag is set.
fn flag(matches: &ArgMatches<'_>, id: &str) -> bool
    ensures value { HoldsFlag (rows_in matches.now) id.now →
        result ≡ flag_at (rows_in matches.now) id.now }
{
    matches.get_flag(id)
}

fn text(alloc: Global, matches: &ArgMatches<'_>, id: &str) -> Result<Str, WordsFault>
    ensures value { IfOk result (λ t. t ≡ text_at (rows_in matches.now) id.now) }
    ensures refused { result ≡ Err WordsFault.Usage → HoldsText (rows_in matches.now) id.now → ⊥ }
{
    let Some(found) = matches.get_str(id) else {
        return Err(WordsFault::Usage);
    };
    Ok(Str::new(String::from_str(alloc, found)?))
}

fn options_of(alloc: Global, matches: &ArgMatches<'_>) -> Result<Options, WordsFault>
    ensures value { IfOk result (λ o. o ≡ options_at (rows_in matches.now)) }
    ensures refused { result ≡ Err WordsFault.Usage → Holds play_items (rows_in matches.now) → ⊥ }
{
    Ok(Options {
        fuel: number(matches, "fuel")?,
        life: number(matches, "life")?,
        instances: short_number(matches, "instances")?,
        pages: short_number(matches, "pages")?,
        journal: text(alloc, matches, "journal")?,
        shelves: short_number(matches, "shelves")?,
    })
}

fn service_of(alloc: Global, matches: &ArgMatches<'_>) -> Result<Service, WordsFault>
    ensures value { Holds serve_items (rows_in matches.now) →
        IfOk result (λ s. s ≡ service_at (rows_in matches.now)) }
    ensures refused { result ≡ Err WordsFault.Usage → Holds serve_items (rows_in matches.now) → ⊥ }
{
    Ok(Service {
        options: options_of(alloc, matches)?,
        port: port_number(matches, "port")?,
        connections: number(matches, "connections")?,
        workers: short_number(matches, "workers")?,
        requests: short_number(matches, "requests")?,
        audit: flag(matches, "audit"),
    })
}

fn load_of(alloc: Global, matches: &ArgMatches<'_>) -> Result<LoadOptions, WordsFault>
    ensures value { IfOk result (λ l. l ≡ load_at (rows_in matches.now)) }
    ensures refused { result ≡ Err WordsFault.Usage → Holds load_items (rows_in matches.now) → ⊥ }
{
    Ok(LoadOptions {
        number: number(matches, "number")?,
        options: options_of(alloc, matches)?,
    })
}

fn shelves_of(alloc: Global, matches: &ArgMatches<'_>) -> Result<ShelvesOptions, WordsFault>
    ensures value { IfOk result (λ a. a ≡ shelves_at (rows_in matches.now)) }
    ensures refused { result ≡ Err WordsFault.Usage → Holds shelves_items (rows_in matches.now) → ⊥ }
{
    Ok(ShelvesOptions {
        journal: text(alloc, matches, "journal")?,
        shelves: short_number(matches, "shelves")?,
    })
}

fn feed_of(alloc: Global, matches: &ArgMatches<'_>) -> Result<FeedOptions, WordsFault>
    ensures value { IfOk result (λ f. f ≡ feed_at (rows_in matches.now)) }
    ensures refused { result ≡ Err WordsFault.Usage → Holds feed_items (rows_in matches.now) → ⊥ }
{
    Ok(FeedOptions {
        journal: text(alloc, matches, "journal")?,
        shelf: short_number(matches, "shelf")?,
    })
}

fn command_of(alloc: Global, matches: &ArgMatches<'_>) -> Result<Command, WordsFault>
    ensures value { IfOk result (λ k. AsksFor (subcommand_rows_of matches.now) k) }
    ensures refused { result ≡ Err WordsFault.Usage → LacksAsked (subcommand_rows_of matches.now) }
{
    let Some((name, inner)) = matches.subcommand() else {
        return Err(WordsFault::Usage);
    };
    match name {
        "check" => Ok(Command::Check),
        "play" => Ok(Command::Play(options_of(alloc, inner)?)),
        "serve" => Ok(Command::Serve(service_of(alloc, inner)?)),
        "load" => Ok(Command::Load(load_of(alloc, inner)?)),
        "audit" => Ok(Command::Audit(shelves_of(alloc, inner)?)),
        "export" => Ok(Command::Export(feed_of(alloc, inner)?)),
        "follow" => Ok(Command::Follow(feed_of(alloc, inner)?)),
        "promote" => Ok(Command::Promote(shelves_of(alloc, inner)?)),
        _ => Err(WordsFault::Usage),
    }
}

/// The command that the words ask for, of which the first is the program's name.
pub fn read_words<'a>(alloc: Global, words: &'a [&'a str]) -> Result<Command, WordsFault>
    ensures usage { result ≡ Err WordsFault.Usage → faults_in words.entry.now ≢ [] }
    ensures fine { IfOk result (λ k. faults_in words.entry.now ≡ []) }
    ensures found { IfOk result (λ k. asked_from (rows_of_words words.entry.now) ≡ Some k) }
    ensures in_range { IfOk result (λ k. IsInRange k) }
    ensures complete { AcceptsPlain (texts words.entry.now) result }
    ensures plain { ReadsPlain (texts words.entry.now) result }
{
    let matches = matches_of(alloc, words)?;
    command_of(alloc, &matches)
}
