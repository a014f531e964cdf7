//! The words of the program.
ghost use Rattle.std.specs.Prelude.{◌≡◌, ◌↔◌, ℕ, [], ◌∷◌, ◌++◌, IsTrue, true, false, IfOk, IfErr, OnOk, IfSome, None, Some};
ghost use Rattle.std.specs.Prelude.{codes, map, option_map, unwrap_or};
ghost use Rattle.clap.specs.Lexer.{strip_byte};
ghost use Rattle.clap.specs.Words.{Text, app_of, kind_of, rule_of, subcommand_rows_of};
ghost use Rattle.clap.specs.declared.error.ErrorKind.TheVariants.{DisplayHelp, DisplayHelpOnMissingArgumentOrSubcommand, DisplayVersion};
ghost use Rattle.clap.specs.declared.error.ErrorKind.TheVariants.{MissingRequiredArgument, ValueValidation};
ghost use Rattle.fed_words.specs.CommandLine.{command_line, text_rule, texts_rule, faults, value_in, values_in};
ghost use Rattle.fed_words.specs.CommandLine.{number_rule, port_rule, with_beginning, run_command, serve_command};
ghost use Rattle.fed_words.specs.CommandLine.{command_named, port_given, count_given};
ghost use Rattle.fed_words.specs.CommandLine.{owner_named, list_named, csv_given, jsonl_given, sqlite_given, init_named};
ghost use Rattle.fed_words.specs.Places.{AreGood, AreRefused, place_in, place_of};
ghost use Rattle.fed_words.specs.Names.{IsSourceName};
ghost use Rattle.fed_words.specs.Told.{words_status, told_status};
ghost use Rattle.fed_words.specs.Words.{IsNumber, IsPort, IsCount, IsService, HasBadNumber, IsNumberRefusal};
ghost use Rattle.fed_words.specs.Words.{IsRefusal, Reads, told_place};
ghost use Rattle.fed_words.specs.declared.places.PlaceKind.TheVariants.{Csv, JsonLines, Sqlite};

use crate::places::{AskedPlace, PlaceFault, PlaceKind, read_places};
use clap::builder::ValueParser;
use clap::error::ErrorKind;
use clap::{Arg, ArgAction, ArgMatches, Command};
use med_session::users::is_user;
use med_syntax::is_reserved;
use std::alloc::{AllocError, Global};
use std::convert::AsStr;

/// The most ports that there are.
const MOST_PORT: u16 = 65_535;

/// The most connections that can be asked.
const MOST_COUNT: u16 = 1_000;

/// The owner where the words name none.
const OWNER: &str = "admin";

// What each option of `run` does, as its help tells.
const OWNER_HELP: &str = "The user who may create and drop objects, by default admin";

const LIST_HELP: &str = "Adds the demo list as the source NAME, with the tables parts and orders";

const CSV_HELP: &str = "Adds the CSV files of the folder PATH as the source NAME";

const JSONL_HELP: &str = "Adds the JSON lines files of the folder PATH as the source NAME";

const SQLITE_HELP: &str =
    "Adds the SQLite database PATH as the source NAME; the path :memory: is a new one in memory";

const PORT_HELP: &str = "The port of 127.0.0.1 to listen on, from 1 to 65535";

const COUNT_HELP: &str = "The number of connections to serve, from 1 to 1000, by default 1";

const INIT_HELP: &str = "Runs the lines of FILE as the owner's statements before";

// The version, and the logic that the program is proved in: the sum by which each kit of the toolchain that has it names it.
const VERSION: &str = "0.1.0, proved in Rattle's logic dac8208d650f15bf";

// What stands at the end of help: the options of both commands, and examples.
const FEDQ_MORE: &str = "Options of run and serve:\n  \
    --owner <NAME>        The user who may create and drop objects, as --owner keeper\n  \
    --list <NAME>         Adds the demo list as a source, as --list demo\n  \
    --csv <NAME=PATH>     Adds a folder of CSV files, as --csv files=data\n  \
    --jsonl <NAME=PATH>   Adds a folder of JSON lines files, as --jsonl docs=data\n  \
    --sqlite <NAME=PATH>  Adds a SQLite database, as --sqlite db=shop.db or --sqlite db=:memory:\n  \
    --init <FILE>         Runs the lines of FILE as statements before, as --init setup.sql\n\n\
    Options of serve:\n  \
    --port <P>            The port of 127.0.0.1 to listen on, as --port 5433\n  \
    --count <N>           The number of connections to serve, as --count 2\n\n\
    Examples:\n  \
    printf '1 OPEN ann\\n1 Q SELECT name FROM parts\\n' | fedq run --list demo\n  \
    fedq serve --port 5433 --count 2 --list demo";

const RUN_MORE: &str = "Examples:\n  \
    printf '1 OPEN ann\\n1 Q SELECT name FROM parts\\n' | fedq run --list demo\n  \
    fedq run --csv files=data --init setup.sql < requests.req";

const SERVE_MORE: &str = "Example:\n  \
    fedq serve --port 5433 --count 2 --list demo";

/// What is to be served.
#[derive(Clone, Copy, Debug, PartialEq, Eq)]
pub enum Service {
    /// Standard input, on standard output.
    StandardInput,
    /// Connections to a port of 127.0.0.1, one after the other.
    Connections {
        /// The port.
        port: u16,
        /// How many.
        count: u16,
    },
}

/// What the words ask.
#[derive(Debug, Drop)]
pub struct AskedRun<'a> {
    /// The name of the engine's owner.
    pub owner: &'a str,
    /// The name of the source that the demo list is to be, if one is given.
    pub list: Option<&'a str>,
    /// The folders and databases that are to be sources, in the order in which they are added.
    pub places: Vec<AskedPlace<'a>>,
    /// The path of the file whose lines the owner runs before anything is served, if one is given.
    pub init: Option<&'a str>,
    /// What is to be served.
    pub service: Service,
}

/// Why the words ask no run.
#[derive(Debug, Drop)]
pub enum WordsFault<'a> {
    /// The words ask for help or for the version, which is this.
    Help(String),
    /// The words are not in the command line's grammar, as this says.
    Usage(String),
    /// The value has nothing after its first `=`, or has none.
    NoPath(&'a str),
    /// The word may not name a source, or the owner; or what stands before the first `=` of the value may not.
    BadName(&'a str),
    /// Memory was refused.
    NoMemory,
}

impl WordsFault<'_> {
    /// The exit status of a program that ends by this: 0 where help was asked, 2 where the words are refused, 1 for want of memory.
    pub fn status(&self) -> u8
        ensures { result ≡ words_status self.now }
    {
        match self {
            WordsFault::Help(_) => 0,
            WordsFault::Usage(_) | WordsFault::NoPath(_) | WordsFault::BadName(_) => 2,
            WordsFault::NoMemory => 1,
        }
    }

    /// The exit status once this was told, or could not be: 1 where help was asked and not written, and else `status`.
    pub fn told_status(&self, is_told: bool) -> u8
        ensures { result ≡ told_status self.now is_told }
    {
        match self {
            WordsFault::Help(_) if !is_told => 1,
            _ => self.status(),
        }
    }
}

/// Whether a word may name a source, or the owner: it may name a user, and is no reserved word.
pub fn is_source_name(word: &str) -> bool
    ensures { IsTrue result ↔ IsSourceName word.now }
{
    is_user(word) && !is_reserved(word)
}

// An option of this name, which has one text.
fn text_option<'a>(alloc: Global, name: &'a str, value: &'a str, help: &'a str) -> Arg<'a>
    ensures rule { rule_of result ≡ text_rule name.now }
    ensures own { result.global ≡ false }
{
    Arg::new(alloc, name)
        .long(name)
        .value_name(value)
        .action(ArgAction::Set)
        .help(help)
}

// An option of this name, which may be given several times, with one text each.
fn texts_option<'a>(alloc: Global, name: &'a str, value: &'a str, help: &'a str) -> Arg<'a>
    ensures rule { rule_of result ≡ texts_rule name.now }
    ensures own { result.global ≡ false }
{
    Arg::new(alloc, name)
        .long(name)
        .value_name(value)
        .action(ArgAction::Append)
        .help(help)
}

// An option of this name, which has one decimal number from 1 to `most`.
fn number_option<'a>(
    alloc: Global,
    name: &'a str,
    value: &'a str,
    most: u16,
    help: &'a str,
) -> Arg<'a>
    ensures rule { rule_of result ≡ number_rule name.now most }
    ensures own { result.global ≡ false }
{
    let numbers = ValueParser::unsigned(1, u64::from(most));
    text_option(alloc, name, value, help).value_parser(numbers)
}

// The option of the port.
fn port_option<'a>(alloc: Global) -> Arg<'a>
    ensures rule { rule_of result ≡ port_rule }
    ensures own { result.global ≡ false }
{
    number_option(alloc, "port", "P", MOST_PORT, PORT_HELP).required(true)
}

// A command with the options of what it begins with: its owner, its sources and its init file.
fn with_beginning<'a>(alloc: Global, command: Command<'a>) -> Result<Command<'a>, AllocError>
    ensures { IfOk result (λ c. app_of c ≡ with_beginning (app_of command.entry)) }
{
    command
        .arg(text_option(alloc, "owner", "NAME", OWNER_HELP))?
        .arg(text_option(alloc, "list", "NAME", LIST_HELP))?
        .arg(texts_option(alloc, "csv", "NAME=PATH", CSV_HELP))?
        .arg(texts_option(alloc, "jsonl", "NAME=PATH", JSONL_HELP))?
        .arg(texts_option(alloc, "sqlite", "NAME=PATH", SQLITE_HELP))?
        .arg(text_option(alloc, "init", "FILE", INIT_HELP))
}

// The command `run`.
fn run_command<'a>(alloc: Global) -> Result<Command<'a>, AllocError>
    ensures { IfOk result (λ c. app_of c ≡ run_command) }
{
    let run = Command::new(alloc, "run")
        .about("Answers the request lines of standard input on standard output")
        .after_help(RUN_MORE);
    with_beginning(alloc, run)
}

// The command `serve`.
fn serve_command<'a>(alloc: Global) -> Result<Command<'a>, AllocError>
    ensures { IfOk result (λ c. app_of c ≡ serve_command) }
{
    let port = port_option(alloc);
    let count = number_option(alloc, "count", "N", MOST_COUNT, COUNT_HELP);
    let serve = Command::new(alloc, "serve")
        .about("Answers the request lines of TCP connections, one connection after the other")
        .after_help(SERVE_MORE)
        .arg(port)?
        .arg(count)?;
    with_beginning(alloc, serve)
}

// The command line that the program understands.
fn command<'a>(alloc: Global) -> Result<Command<'a>, AllocError>
    ensures { IfOk result (λ c. app_of c ≡ command_line) }
{
    let run = run_command(alloc)?;
    let serve = serve_command(alloc)?;
    Command::new(alloc, "fedq")
        .about("One SQL front over tables that live elsewhere")
        .version(VERSION)
        .after_help(FEDQ_MORE)
        .subcommand_required(true)
        .arg_required_else_help(true)
        .bin_name("fedq")?
        .subcommand(run)?
        .subcommand(serve)
}

// What is told where the words are not taken.
fn refusal<'a>(alloc: Global, error: clap::Error) -> WordsFault<'a>
    ensures { IsRefusal (kind_of error) result }
{
    let kind = error.kind();
    let Ok(text) = format!(in alloc; "{error}") else {
        return WordsFault::NoMemory;
    };
    match kind {
        ErrorKind::OutOfMemory => WordsFault::NoMemory,
        ErrorKind::DisplayHelp | ErrorKind::DisplayVersion => WordsFault::Help(text),
        _ => WordsFault::Usage(text),
    }
}

// The value that the words gave an option.
fn value_of<'a>(matches: &ArgMatches<'a>, option: &str) -> Option<&'a str>
    ensures { option_map (λ s. s.now) result ≡ value_in option.now (subcommand_rows_of matches.now) }
{
    match matches.subcommand() {
        Some((_, run)) => run.get_str(option),
        None => None,
    }
}

// The values that the words gave an option, as written.
fn values_of<'a, 'm>(matches: &'m ArgMatches<'a>, option: &str) -> Option<&'m [&'a str]>
    ensures { unwrap_or (option_map (λ s. map (λ v. v.now) s.now) result) [] ≡ values_in option.now (subcommand_rows_of matches.now) }
{
    match matches.subcommand() {
        Some((_, run)) => run.get_strs(option),
        None => None,
    }
}

// Adds the places of this kind that the words named by an option to others; else the first value that is not taken is answered, and why.
fn push_places<'a>(
    places: &mut Vec<AskedPlace<'a>>,
    kind: PlaceKind,
    matches: &ArgMatches<'a>,
    option: &str,
) -> Result<(), PlaceFault<'a>>
    ensures read { OnOk result (map place_of places.new.items
        ≡ map place_of places.old.items ++ map (place_in kind) (values_in option.now (subcommand_rows_of matches.now))) }
    ensures good { OnOk result (AreGood (values_in option.now (subcommand_rows_of matches.now))) }
    ensures bad { IfErr result (AreRefused (values_in option.now (subcommand_rows_of matches.now))) }
{
    match values_of(matches, option) {
        Some(values) => read_places(places, kind, values),
        None => Ok(()),
    }
}

// The folders and databases that the words named, those of CSV files first, and databases last; else the first value that is not taken,
// and why.
fn places_of<'a>(
    alloc: Global,
    matches: &ArgMatches<'a>,
) -> Result<Vec<AskedPlace<'a>>, PlaceFault<'a>>
    ensures read { IfOk result (λ v. map place_of v.items
        ≡ map (place_in Csv) (values_in (codes "csv") (subcommand_rows_of matches.now))
        ++ map (place_in JsonLines) (values_in (codes "jsonl") (subcommand_rows_of matches.now))
        ++ map (place_in Sqlite) (values_in (codes "sqlite") (subcommand_rows_of matches.now))) }
    ensures good { OnOk result (AreGood (values_in (codes "csv") (subcommand_rows_of matches.now)
        ++ values_in (codes "jsonl") (subcommand_rows_of matches.now) ++ values_in (codes "sqlite") (subcommand_rows_of matches.now))) }
    ensures bad { IfErr result (AreRefused (values_in (codes "csv") (subcommand_rows_of matches.now)
        ++ values_in (codes "jsonl") (subcommand_rows_of matches.now) ++ values_in (codes "sqlite") (subcommand_rows_of matches.now))) }
{
    let mut places = Vec::new(alloc);
    match push_places(&mut places, PlaceKind::Csv, matches, "csv") {
        Ok(()) => {}
        Err(fault) => return Err(fault),
    }
    match push_places(&mut places, PlaceKind::JsonLines, matches, "jsonl") {
        Ok(()) => {}
        Err(fault) => return Err(fault),
    }
    match push_places(&mut places, PlaceKind::Sqlite, matches, "sqlite") {
        Ok(()) => Ok(places),
        Err(fault) => Err(fault),
    }
}

// What is told of a value that is not taken.
fn place_refusal(fault: PlaceFault<'_>) -> WordsFault<'_>
    ensures { result ≡ told_place fault.entry }
{
    match fault {
        PlaceFault::NoPath(value) => WordsFault::NoPath(value),
        PlaceFault::BadName(value) => WordsFault::BadName(value),
        PlaceFault::NoMemory => WordsFault::NoMemory,
    }
}

// The name that the words gave the list, which may name a source; else the name is answered as bad.
fn list_of<'a>(matches: &ArgMatches<'a>) -> Result<Option<&'a str>, &'a str>
    ensures good { IfOk result (λ list. (option_map (λ s. s.now) list ≡ value_in (codes "list") (subcommand_rows_of matches.now))
        × IfSome list (λ name. IsSourceName name.now)) }
    ensures bad { IfErr result (λ name. (value_in (codes "list") (subcommand_rows_of matches.now) ≡ Some name.now)
        × (IsSourceName name.now → ⊥)) }
{
    match value_of(matches, "list") {
        Some(name) if !is_source_name(name) => Err(name),
        list => Ok(list),
    }
}

// The number that a text says in decimal digits, if it is from 1 to `most`.
fn number_in(text: &str, most: u16) -> Option<u16>
    ensures some { IfSome result (IsNumber most text.now) }
    ensures none { result ≡ None → (number : ℕ) → IsNumber most text.now number → ⊥ }
{
    match text.parse::<u16>() {
        Ok(number) if 1 <= number && number <= most => Some(number),
        _ => None,
    }
}

// The port that the words gave.
fn port_of(matches: &ArgMatches<'_>) -> Option<u16>
    ensures some { IfSome result (IsPort (value_in (codes "port") (subcommand_rows_of matches.now))) }
    ensures none { result ≡ None → (port : ℕ) → IsPort (value_in (codes "port") (subcommand_rows_of matches.now)) port → ⊥ }
{
    number_in(value_of(matches, "port")?, MOST_PORT)
}

// The number of connections that the words gave, or 1.
fn count_of(matches: &ArgMatches<'_>) -> Option<u16>
    ensures some { IfSome result (IsCount (value_in (codes "count") (subcommand_rows_of matches.now))) }
    ensures none { result ≡ None → (count : ℕ) → IsCount (value_in (codes "count") (subcommand_rows_of matches.now)) count → ⊥ }
{
    match value_of(matches, "count") {
        Some(text) => number_in(text, MOST_COUNT),
        None => Some(1),
    }
}

// What the words ask to be served. None where a number is not in its range.
fn service_of(matches: &ArgMatches<'_>) -> Option<Service>
    ensures some { IfSome result (IsService (subcommand_rows_of matches.now)) }
    ensures none { result ≡ None → HasBadNumber (subcommand_rows_of matches.now) }
{
    if matches.subcommand_matches("serve").is_none() {
        return Some(Service::StandardInput);
    }
    let port = port_of(matches)?;
    let count = count_of(matches)?;
    Some(Service::Connections { port, count })
}

// What is told of a number that is not in its range.
fn number_refusal<'a>(alloc: Global) -> WordsFault<'a>
    ensures { IsNumberRefusal result }
{
    match "error: a number is not in its range\n".to_string(alloc) {
        Ok(text) => WordsFault::Usage(text),
        Err(_) => WordsFault::NoMemory,
    }
}

/// What the program's words ask, the first word being its own name.
pub fn read_words<'a, S: AsStr>(
    alloc: Global,
    words: &'a [S],
) -> Result<AskedRun<'a>, WordsFault<'a>>
    ensures { Reads (map S.text words.entry.now) result }
{
    let Ok(command) = command(alloc) else {
        return Err(WordsFault::NoMemory);
    };
    let matches = match command.try_get_matches_from(words) {
        Ok(matches) => matches,
        Err(error) => return Err(refusal(alloc, error)),
    };
    let Some(service) = service_of(&matches) else {
        return Err(number_refusal(alloc));
    };
    let owner = value_of(&matches, "owner").unwrap_or(OWNER);
    if !is_source_name(owner) {
        return Err(WordsFault::BadName(owner));
    }
    let list = match list_of(&matches) {
        Ok(list) => list,
        Err(name) => return Err(WordsFault::BadName(name)),
    };
    let places = match places_of(alloc, &matches) {
        Ok(places) => places,
        Err(fault) => return Err(place_refusal(fault)),
    };
    let init = value_of(&matches, "init");
    Ok(AskedRun {
        owner,
        list,
        places,
        init,
        service,
    })
}

/// What some words mean: `run` alone, `run --list NAME`, `run --owner NAME`, `run --csv NAME=PATH`,
/// `run --jsonl NAME=PATH`, `run --sqlite NAME=PATH`, `run --init FILE`, `serve` with numbers in their
/// ranges and out of them, `serve` alone, `--help`, `--version`, and none.
pub fn words_mean()
    ensures alone { (program : Text) → (faults (program ∷ codes "run" ∷ []) ≡ []) × (list_named (program ∷ codes "run" ∷ []) ≡ None)
        × (owner_named (program ∷ codes "run" ∷ []) ≡ codes "admin") × (init_named (program ∷ codes "run" ∷ []) ≡ None)
        × (command_named (program ∷ codes "run" ∷ []) ≡ Some (codes "run"))
        × (csv_given (program ∷ codes "run" ∷ []) ≡ []) × (jsonl_given (program ∷ codes "run" ∷ []) ≡ [])
        × (sqlite_given (program ∷ codes "run" ∷ []) ≡ []) }
    ensures list { (program name : Text) → strip_byte 45 name ≡ None
        → (faults (program ∷ codes "run" ∷ codes "--list" ∷ name ∷ []) ≡ [])
        × (list_named (program ∷ codes "run" ∷ codes "--list" ∷ name ∷ []) ≡ Some name) }
    ensures owner { (program name : Text) → strip_byte 45 name ≡ None
        → (faults (program ∷ codes "run" ∷ codes "--owner" ∷ name ∷ []) ≡ [])
        × (owner_named (program ∷ codes "run" ∷ codes "--owner" ∷ name ∷ []) ≡ name) }
    ensures init { (program path : Text) → strip_byte 45 path ≡ None
        → (faults (program ∷ codes "run" ∷ codes "--init" ∷ path ∷ []) ≡ [])
        × (init_named (program ∷ codes "run" ∷ codes "--init" ∷ path ∷ []) ≡ Some path) }
    ensures csv { (program value : Text) → strip_byte 45 value ≡ None
        → (faults (program ∷ codes "run" ∷ codes "--csv" ∷ value ∷ []) ≡ [])
        × (csv_given (program ∷ codes "run" ∷ codes "--csv" ∷ value ∷ []) ≡ value ∷ []) }
    ensures jsonl { (program value : Text) → strip_byte 45 value ≡ None
        → (faults (program ∷ codes "run" ∷ codes "--jsonl" ∷ value ∷ []) ≡ [])
        × (jsonl_given (program ∷ codes "run" ∷ codes "--jsonl" ∷ value ∷ []) ≡ value ∷ []) }
    ensures sqlite { (program value : Text) → strip_byte 45 value ≡ None
        → (faults (program ∷ codes "run" ∷ codes "--sqlite" ∷ value ∷ []) ≡ [])
        × (sqlite_given (program ∷ codes "run" ∷ codes "--sqlite" ∷ value ∷ []) ≡ value ∷ []) }
    ensures serve { (program : Text)
        → (faults (program ∷ codes "serve" ∷ codes "--port" ∷ codes "65535" ∷ codes "--count" ∷ codes "1000" ∷ []) ≡ [])
        × (command_named (program ∷ codes "serve" ∷ codes "--port" ∷ codes "65535" ∷ codes "--count" ∷ codes "1000" ∷ [])
        ≡ Some (codes "serve"))
        × (port_given (program ∷ codes "serve" ∷ codes "--port" ∷ codes "65535" ∷ codes "--count" ∷ codes "1000" ∷ [])
        ≡ Some (codes "65535"))
        × (count_given (program ∷ codes "serve" ∷ codes "--port" ∷ codes "65535" ∷ codes "--count" ∷ codes "1000" ∷ [])
        ≡ Some (codes "1000")) }
    ensures once { (program : Text) → (faults (program ∷ codes "serve" ∷ codes "--port" ∷ codes "1" ∷ []) ≡ [])
        × (count_given (program ∷ codes "serve" ∷ codes "--port" ∷ codes "1" ∷ []) ≡ None) }
    ensures ranges { (program : Text)
        → (faults (program ∷ codes "serve" ∷ codes "--port" ∷ codes "0" ∷ []) ≡ ValueValidation ∷ [])
        × (faults (program ∷ codes "serve" ∷ codes "--port" ∷ codes "65536" ∷ []) ≡ ValueValidation ∷ [])
        × (faults (program ∷ codes "serve" ∷ codes "--port" ∷ codes "1" ∷ codes "--count" ∷ codes "0" ∷ []) ≡ ValueValidation ∷ [])
        × (faults (program ∷ codes "serve" ∷ codes "--port" ∷ codes "1" ∷ codes "--count" ∷ codes "1001" ∷ []) ≡ ValueValidation ∷ []) }
    ensures portless { (program : Text) → faults (program ∷ codes "serve" ∷ []) ≡ MissingRequiredArgument ∷ [] }
    ensures help { (program : Text) → faults (program ∷ codes "--help" ∷ []) ≡ DisplayHelp ∷ [] }
    ensures version { (program : Text) → faults (program ∷ codes "--version" ∷ []) ≡ DisplayVersion ∷ [] }
    ensures none { (program : Text) → faults (program ∷ []) ≡ DisplayHelpOnMissingArgumentOrSubcommand ∷ [] }
{}
