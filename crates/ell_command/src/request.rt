//! What the words of the command line ask for.
ghost use Rattle.std.specs.Prelude.{◌≡◌, ◌⊎◌, ◌<◌, ◌≤◌, ◌^◌, ℕ, IfOk, IfErr, IsErrAnd, IsSomeAnd};
ghost use Rattle.std.specs.Prelude.{MatchResult, None, Some};
ghost use Rattle.std.specs.Prelude.{[], ◌∷◌, codes, false, map};
ghost use Rattle.clap.specs.Words.{FailsBy, HasKind, app_of, first_of, found_of, kind_of, one_of};
ghost use Rattle.clap.specs.Words.{rows_of, rule_of, shape_of, subcommand_name_of};
ghost use Rattle.clap.specs.Words.{subcommand_rows_of};
ghost use Rattle.clap.specs.declared.builder.command.Command.TheViews.{out-Command as fields_of};
ghost use Rattle.ell_command.specs.CommandLine.{AreOptions, AreRefused, AreSaid, AreShownHelp, AreTaken, AreTakenToReplay};
ghost use Rattle.ell_command.specs.CommandLine.{AreTakenToRun, AsksForHelp, AsksForVersion};
ghost use Rattle.ell_command.specs.CommandLine.{AsksToReplay, AsksToRun, BorrowedNames, IsElltree};
ghost use Rattle.ell_command.specs.CommandLine.{IsMistakeOrMemory, IsNumberUpTo, IsPlainRun};
ghost use Rattle.ell_command.specs.CommandLine.{IsRequestOf, NamesPartings};
ghost use Rattle.ell_command.specs.CommandLine.{cards_rule, faults_of, name_of, number_said, options_of};
ghost use Rattle.ell_command.specs.CommandLine.{parting_rule, replay_shape, report_rule};
ghost use Rattle.ell_command.specs.CommandLine.{rows_in, run_shape, subcommand_for, subcommand_in};
ghost use Rattle.ell_command.specs.CommandLine.{tries_rule, workers_rule};
ghost use Rattle.ell_run.specs.Settings.{AreSettings};

use clap::error::ErrorKind;
use clap::{Arg, ArgAction, ArgMatches, Command, Error, value_parser};
use ell_run::{CARDS_MAX, Parting, Settings, TRIES_MAX, WORKERS_MAX};
use std::alloc::{AllocError, Global};
use std::convert::AsStr;

/// What a user asks the program to do.
#[derive(Debug, Clone, Copy, PartialEq, Eq)]
pub enum Request {
    /// Run a bulk text by these settings, and report on it on standard error if `report` is set and the run succeeded.
    Run { settings: Settings, report: bool },
    /// Replay the schedule of a replay text.
    Replay,
}

// The names of the ways to divide keys.
static PARTINGS: [&str; 2] = ["stripe", "range"];

// The version of elltree, as the file VERSION at the top says it: `tests/copies` compares them.
const VERSION: &str = "0.3.0";

const ABOUT: &str = "Finds, inserts and deletes on a map of keys and values, in bulk";

const RUN_ABOUT: &str = "Run a text of finds, inserts and deletes on a map";

// Refusals show it too, for example that of `elltree run FILE`.
const RUN_USAGE: &str = "elltree run [OPTIONS] < FILE";

const RUN_LONG_ABOUT: &str = "Run a text of finds, inserts and deletes on a map

Reads the text from standard input, one operation a line: `find K`, `insert K`
or `delete K`, where the key K is a decimal number from 0 to
18446744073709551613. Empty lines and lines that begin with `#` are skipped. A
text has at most 200,000 operations and 16,777,216 bytes.

The map begins empty. For one that has keys already, lines `start K` before all
operations give them, ascending. They count as operations, and have no answer.

Writes `yes` or `no` for each operation to standard output, in order, then
`keys N` and the N keys that are left, ascending, one a line.

In a text whose first line is `version 2` the keys have values, from 0 to
18446744073709551615: its lines are `insert K V`, `start K V`, `find K` and
`delete K`. An insert of a key that is there keeps its value. A find answers
`yes V`, and the last lines are `K V`.";

const RUN_AFTER_HELP: &str = "Example:
  The four lines
    insert 5
    find 5
    delete 5
    find 5
  give the answers
    yes
    yes
    yes
    no
    keys 0

  The four lines
    version 2
    insert 5 50
    insert 5 51
    find 5
  give the answers
    yes
    no
    yes 50
    keys 1
    5 50

A file may have any order: 1,000 operations or more are done in rounds of ascending
keys, so that the tree stays flat, and answered in the order of the file.

Exit status:
  0  success, or help or the version was asked for
  2  a fault in the text, too long an input, or arguments that are refused
  3  out of memory, or the arguments could not be taken
  4  reading or writing failed";

const REPLAY_ABOUT: &str = "Replay a schedule of events on the machine of the tree";

const REPLAY_USAGE: &str = "elltree replay < FILE";

const REPLAY_LONG_ABOUT: &str = "Replay a schedule of events on the machine of the tree

Reads the schedule from standard input, and runs it event by event. The text has
`workers N`, `cards N`, lines `own W K`, and events as `0 begin insert 5` or
`1 upd`.

Writes a line for each event to standard output, in order, then `keys N` and the
N keys of the tree at the end, ascending, one a line. The exit statuses are those
of `elltree run`.";

/// Returns what the words after the program's name ask for. An `Err` has the text for the user. Its kind is
/// `DisplayHelp` if the words ask for help, `DisplayVersion` if they ask for the version, `OutOfMemory` if memory ran
/// out, and another if the words are refused, such as `MissingSubcommand` if there are none.
pub fn request_of<S: AsStr>(alloc: Global, words: &[S]) -> Result<Request, Error>
    // It succeeds only if the words lead to no error in the parser's model. An error is of a kind to which they lead,
    // or is a failed allocation.
    ensures kinds { FailsBy (faults_of (map S.text words.now)) result }

    // The settings are those of the words, in their ranges, and a report is wanted exactly if they say so. The one word
    // `run` gives the defaults.
    ensures request { IfOk result (IsRequestOf (options_of (map S.text words.now))) }
    ensures defaults { AsksToRun (map S.text words.now) → IfOk result IsPlainRun }

    // The request is of the command that the words name, and words that are taken name `run` or `replay`.
    ensures command { IfOk result (λ request.
        subcommand_in (map S.text words.now) ≡ Some (subcommand_for request)) }
    ensures named { AreTaken (map S.text words.now)
        → AreTakenToRun (map S.text words.now) ⊎ AreTakenToReplay (map S.text words.now) }

    // Words that are taken, as `run` and `replay` alone are, fail only if an allocation fails.
    ensures taken { AreTaken (map S.text words.now)
        → IfErr result (λ e. kind_of e ≡ ErrorKind.OutOfMemory) }
    ensures run { AsksToRun (map S.text words.now)
        → IfErr result (λ e. kind_of e ≡ ErrorKind.OutOfMemory) }
    ensures replay { AsksToReplay (map S.text words.now)
        → MatchResult result (λ request. request ≡ Request.Replay)
        (λ e. kind_of e ≡ ErrorKind.OutOfMemory) }
    // Words that ask for help or for the version end in an error of that kind.
    ensures help { AsksForHelp (map S.text words.now)
        → IsErrAnd result (HasKind (ErrorKind.DisplayHelp ∷ [])) }
    ensures version { AsksForVersion (map S.text words.now)
        → IsErrAnd result (HasKind (ErrorKind.DisplayVersion ∷ [])) }
    ensures shown { AreShownHelp (map S.text words.now)
        → IsErrAnd result (HasKind (ErrorKind.DisplayHelp ∷ [])) }
    // Words that are refused end in an error that is a mistake or a failed allocation; without words it is
    // `MissingSubcommand`.
    ensures refused { AreRefused (map S.text words.now)
        → IsErrAnd result (λ e. IsMistakeOrMemory (kind_of e)) }
    ensures nothing { map S.text words.now ≡ []
        → IsErrAnd result (HasKind (ErrorKind.MissingSubcommand ∷ [])) }
{
    let texts = OptionTexts::new(alloc)?;
    let matches = elltree_command(alloc, &texts)?.try_get_matches_from(words)?;
    Ok(request_in(&matches))
}

// The request that the subcommand stands for, with its options.
fn request_in(matches: &ArgMatches<'_>) -> Request
    requires name { (subcommand_name_of matches.now ≡ Some (codes "run"))
        ⊎ (subcommand_name_of matches.now ≡ Some (codes "replay")) }
    requires options { subcommand_name_of matches.now ≡ Some (codes "run")
        → AreOptions (rows_in (subcommand_rows_of matches.now)) }
    ensures name { subcommand_name_of matches.now ≡ Some (subcommand_for result) }
    ensures options { IsRequestOf (rows_in (subcommand_rows_of matches.now)) result }
{
    match matches.subcommand() {
        Some(("run", options)) => Request::Run {
            settings: settings_in(options),
            report: options.get_flag("report"),
        },
        Some(("replay", _)) => Request::Replay,
        _ => unreachable!(),
    }
}

// The settings that the options of `run` give.
fn settings_in(options: &ArgMatches<'_>) -> Settings
    requires { AreOptions (rows_of (found_of options.now)) }
    ensures ranges { AreSettings result }
    ensures said { AreSaid (rows_of (found_of options.now)) result }
{
    Settings {
        workers: number_in(options, "workers").unwrap(),
        parting: parting_in(options),
        cards: number_in(options, "cards").map(u64::from),
        tries: number_in(options, "tries").unwrap(),
    }
}

// The number of an option of `run`, if the option is there.
fn number_in(options: &ArgMatches<'_>, name: &str) -> Option<u32>
    ensures none { one_of name.now (rows_of (found_of options.now)) ≡ None → result ≡ None }
    ensures some { (most : ℕ) → most < 2 ^ 32
        → IsNumberUpTo most (one_of name.now (rows_of (found_of options.now)))
        → IsSomeAnd result (λ number. (1 ≤ number) × (number ≤ most)
        × (number_said (one_of name.now (rows_of (found_of options.now))) ≡ Some number)) }
{
    options.get_one(name)
}

// How the options of `run` divide the keys.
fn parting_in(options: &ArgMatches<'_>) -> Parting
    requires { AreOptions (rows_of (found_of options.now)) }
    ensures { first_of (codes "parting") (rows_of (found_of options.now)) ≡ Some (name_of result) }
{
    let name = options.get_str("parting").unwrap();
    if name == "range" {
        Parting::Range
    } else {
        Parting::Stripe
    }
}

// The help of the options that take a number, each with the greatest number that it takes.
#[derive(Drop)]
struct OptionTexts {
    workers: String,
    cards: String,
    tries: String,
}

impl OptionTexts {
    fn new(alloc: Global) -> Result<OptionTexts, AllocError> {
        Ok(OptionTexts {
            workers: format!(in alloc; "Workers that share the run, 1 to {WORKERS_MAX}")?,
            cards: format!(in alloc;
                "Cards of a run, 1 to {CARDS_MAX} [default: up to 9 for 8 inserts and deletes, and 64]"
            )?,
            tries: format!(in alloc; "Tries of an operation, 1 to {TRIES_MAX}")?,
        })
    }
}

// The program's command line, which has to name a subcommand.
fn elltree_command<'a>(alloc: Global, texts: &'a OptionTexts) -> Result<Command<'a>, AllocError>
    ensures { IfOk result (λ c. IsElltree (app_of c)) }
{
    Command::new(alloc, "elltree")
        .about(ABOUT)
        .version(VERSION)
        .no_binary_name(true)
        .subcommand_required(true)
        .bin_name("elltree")?
        .subcommand(run_command(alloc, texts)?)?
        .subcommand(replay_command(alloc))
}

// The subcommand `run`, with its options.
fn run_command<'a>(alloc: Global, texts: &'a OptionTexts) -> Result<Command<'a>, AllocError>
    ensures shape { IfOk result (λ c.
        (names : BorrowedNames) × NamesPartings names × (shape_of c ≡ run_shape names)) }
    ensures local { IfOk result (λ c. (fields_of c).has_globals ≡ false) }
{
    Command::new(alloc, "run")
        .about(RUN_ABOUT)
        .override_usage(RUN_USAGE)
        .long_about(RUN_LONG_ABOUT)
        .after_long_help(RUN_AFTER_HELP)
        .arg(workers_option(alloc, texts))?
        .arg(parting_option(alloc))?
        .arg(cards_option(alloc, texts))?
        .arg(tries_option(alloc, texts))?
        .arg(report_option(alloc))
}

// The subcommand `replay`, which has no options.
fn replay_command<'a>(alloc: Global) -> Command<'a>
    ensures shape { shape_of result ≡ replay_shape }
    ensures local { (fields_of result).has_globals ≡ false }
{
    Command::new(alloc, "replay")
        .about(REPLAY_ABOUT)
        .override_usage(REPLAY_USAGE)
        .long_about(REPLAY_LONG_ABOUT)
}

fn workers_option<'a>(alloc: Global, texts: &'a OptionTexts) -> Arg<'a>
    ensures rule { rule_of result ≡ workers_rule }
    ensures local { result.global ≡ false }
{
    Arg::new(alloc, "workers")
        .long("workers")
        .value_name("N")
        .value_parser(value_parser!(u32).range(1..=i64::from(WORKERS_MAX)))
        .default_value("4")
        .help(texts.workers.as_str())
}

fn parting_option<'a>(alloc: Global) -> Arg<'a>
    ensures rule { (names : BorrowedNames) × NamesPartings names × (rule_of result ≡ parting_rule names) }
    ensures local { result.global ≡ false }
{
    Arg::new(alloc, "parting")
        .long("parting")
        .value_name("HOW")
        .value_parser(PARTINGS.as_slice())
        .default_value("stripe")
        .help("How keys go to workers")
}

fn cards_option<'a>(alloc: Global, texts: &'a OptionTexts) -> Arg<'a>
    ensures rule { rule_of result ≡ cards_rule }
    ensures local { result.global ≡ false }
{
    Arg::new(alloc, "cards")
        .long("cards")
        .value_name("N")
        .value_parser(value_parser!(u32).range(1..=CARDS_MAX as i64))
        .help(texts.cards.as_str())
}

fn tries_option<'a>(alloc: Global, texts: &'a OptionTexts) -> Arg<'a>
    ensures rule { rule_of result ≡ tries_rule }
    ensures local { result.global ≡ false }
{
    Arg::new(alloc, "tries")
        .long("tries")
        .value_name("N")
        .value_parser(value_parser!(u32).range(1..=i64::from(TRIES_MAX)))
        .default_value("1000")
        .help(texts.tries.as_str())
}

fn report_option<'a>(alloc: Global) -> Arg<'a>
    ensures rule { rule_of result ≡ report_rule }
    ensures local { result.global ≡ false }
{
    Arg::new(alloc, "report")
        .long("report")
        .action(ArgAction::SetTrue)
        .help("Write `late N` to standard error after a run that succeeded")
}
