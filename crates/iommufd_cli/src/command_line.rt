//! The words of the command line: what the program is asked to do.

ghost use Rattle.std.specs.Prelude.{◌≡◌, ℕ, List, [], ◌∷◌, IfErr, IfOk, codes, false, map};
ghost use Rattle.clap.specs.Words.{HasKind, app_of, fault_of, first_of, found_of, kind_of, new_app, rows_of};
ghost use Rattle.clap.specs.Words.{rule_of, subcommand_of};
ghost use Rattle.clap.specs.declared.builder.command.Command.TheViews.{out-Command};
ghost use Rattle.iommufd_cli.specs.CommandLine.{IsChosen, is_true, journal_rule, program, session_app};

use clap::error::ErrorKind;
use clap::{Arg, ArgAction, ArgMatches, Command, Error};
use std::alloc::{AllocError, Global};
use std::convert::AsStr;

/// What the program is asked to do.
#[derive(Clone, Copy, Debug, PartialEq, Eq)]
pub enum Choice {
    /// To carry out the script of the standard input, `iommufd session`, and with `--journal` to write its journal
    /// behind the replies.
    Session { journal: bool },
    /// To audit the journal of the standard input, `iommufd audit`.
    Audit,
}

/// Chooses by the words of the command line, of which the first is the program's name: the subcommand and the flag that
/// clap finds in them.
///
/// The error is clap's: a request for help, a mistake in the words, or want of memory. Its `Display` is the text for
/// the user. `iommufd session`, `iommufd session --journal` and `iommufd audit` are refused for want of memory alone.
pub fn choose<S: AsStr>(alloc: Global, words: &[S]) -> Result<Choice, Error>
    ensures chosen { IfOk result (λ choice. IsChosen choice (subcommand_of program (map S.text words.now))) }
    ensures taken { IfOk result (λ _. fault_of program (map S.text words.now) ≡ []) }
    ensures refused { IfErr result (HasKind (fault_of program (map S.text words.now))) }
    ensures session { (name : List ℕ) → map S.text words.now ≡ name ∷ codes "session" ∷ []
        → IfErr result (λ error. kind_of error ≡ ErrorKind.OutOfMemory) }
    ensures journal { (name : List ℕ) → map S.text words.now ≡ name ∷ codes "session" ∷ codes "--journal" ∷ []
        → IfErr result (λ error. kind_of error ≡ ErrorKind.OutOfMemory) }
    ensures audit { (name : List ℕ) → map S.text words.now ≡ name ∷ codes "audit" ∷ []
        → IfErr result (λ error. kind_of error ≡ ErrorKind.OutOfMemory) }
{
    let matches = iommufd(alloc)?.try_get_matches_from(words)?;
    match matches.subcommand() {
        Some(("session", found)) => Ok(Choice::Session {
            journal: is_set(found),
        }),
        // A subcommand is required, and there are two.
        _ => Ok(Choice::Audit),
    }
}

// Whether clap found the flag `--journal`.
fn is_set(found: &ArgMatches<'_>) -> bool
    ensures { result ≡ is_true (first_of (codes "journal") (rows_of (found_of found.now))) }
{
    match found.get_str(JOURNAL) {
        Some(text) => text == "true",
        None => false,
    }
}

// The command line that is described to clap.
fn iommufd<'a>(alloc: Global) -> Result<Command<'a>, AllocError>
    ensures { IfOk result (λ command. app_of command ≡ program) }
{
    let session = session_command(alloc)?;
    let audit = audit_command(alloc);
    Command::new(alloc, "iommufd")
        .about(
            "A user-space server of the Linux iommufd interface, over modelled devices and memory",
        )
        .after_help(EXAMPLE)
        .disable_help_subcommand(true)
        .arg_required_else_help(true)
        .subcommand_required(true)
        .subcommand(session)?
        .subcommand(audit)
}

// `iommufd session`.
fn session_command<'a>(alloc: Global) -> Result<Command<'a>, AllocError>
    ensures { IfOk result (λ command. (app_of command ≡ session_app)
        × ((out-Command command).has_globals ≡ false)) }
{
    Command::new(alloc, "session")
        .about("Carry out a script of the standard input, and write one reply line a step")
        .after_help(SCRIPT)
        .arg(journal_flag(alloc))
}

// `iommufd audit`.
fn audit_command<'a>(alloc: Global) -> Command<'a>
    ensures { (app_of result ≡ new_app (codes "audit")) × ((out-Command result).has_globals ≡ false) }
{
    Command::new(alloc, "audit")
        .about(
            "Check the journal of the standard input, given in hex, and write one line with what it is",
        )
        .after_help(AUDIT)
}

// `--journal`.
fn journal_flag<'a>(alloc: Global) -> Arg<'a>
    ensures { (rule_of result ≡ journal_rule) × (result.global ≡ false) }
{
    Arg::new(alloc, JOURNAL)
        .long(JOURNAL)
        .action(ArgAction::SetTrue)
        .help("Write the journal of the session as a last line, which `iommufd audit` checks")
}

// The flag's name.
const JOURNAL: &str = "journal";

const EXAMPLE: &str = "\
Examples:
  iommufd session < script
  iommufd session --journal < script | sed -n 's/^journal //p' | iommufd audit

`iommufd session --help` shows a script. The files docs/SCRIPT.md and docs/JOURNAL.md describe scripts,
replies and journals.";

const AUDIT: &str = "\
The input is a journal in hex, of either case, as `iommufd session --journal` writes it behind the word
`journal`; one line feed may stand at its end. The line is one of these:
  run N                   a journal of N records, which a server may have made in this order
  not a run: record N     no server may have made record N, counted from 0, after those before it
  torn at N               no record begins at byte N; at 0 no journal
  bad hex                 the input is no hex
  no memory               there is no memory to read or to judge it

The exit status is 0 for a run, 2 where it is none, and else 1. The file docs/JOURNAL.md describes journals.";

const SCRIPT: &str = "\
A script is lines of ASCII text: a head, which ends with `begin`, and then the steps. The head says how
many frames of memory there are, how many pages each user may pin, which user has each open file, and
which device there is. A step is a file's ioctl, in bytes, or what a user or the device does.

Example of a script:
  pool 8
  user 4
  file 1
  device 0018 39
  begin
  ioctl 1 3b81 0c0000000000000000000000
  bind 1 1
  ioctl 1 3b80 0800000009000000

Its replies, which are a new address space with id 1, a bound device with id 2, and a refusal:
  0 0c0000000000000001000000
  ok id 2
  2 Id

The exit status is 0, and 1 where the script has a bad line (`bad line N`), where there is no memory to
begin (`no memory`), or where reading or writing fails. The file docs/SCRIPT.md describes scripts and
replies.";
