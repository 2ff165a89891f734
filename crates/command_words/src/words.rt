//! Reads the words of the command line.

ghost use Rattle.std.specs.Prelude.{◌≡◌, ◌≢◌, ◌≤◌, IfOk, IfErr, IfSome, codes, map, option_map, string_bytes};
ghost use Rattle.clap.specs.Matches.{found_of};
ghost use Rattle.clap.specs.Values.{kind_of};
ghost use Rattle.clap.specs.Walk.{first_of, rows_of};
ghost use Rattle.command_words.specs.Chosen.{AreRefused, IsChosen, choice_in, has_text, number_or, number_within, task_of};

use crate::choice::{Choice, Task, WordsFault};
use crate::command::axinet_command;
use clap::error::ErrorKind;
use clap::{ArgMatches, Error};
use std::alloc::Global;

/// The choice that a line of words is. The first word is the program's name, and isn't looked at.
///
/// # Errors
/// `Usage` where `clap` refuses the words as those of this command, a question for help among them; `NoMemory` where
/// memory is wanting.
pub fn read_words(alloc: Global, words: &[String]) -> Result<Choice, WordsFault>
    ensures chosen { IfOk result (IsChosen (map string_bytes words.now)) }
    ensures refused { IfErr result (λ fault. fault ≡ WordsFault.Usage → AreRefused (map string_bytes words.now)) }
{
    let Ok(mut command) = axinet_command(alloc) else {
        return Err(WordsFault::NoMemory);
    };
    match command.try_get_matches_from_mut(words) {
        Ok(matches) => Ok(choice_in(&matches)),
        Err(error) => Err(words_fault(&error)),
    }
}

/// The fault that an error of `clap` is.
fn words_fault(error: &Error) -> WordsFault
    ensures { result ≡ WordsFault.Usage → kind_of error.now ≢ ErrorKind.OutOfMemory }
{
    if error.kind() == ErrorKind::OutOfMemory {
        WordsFault::NoMemory
    } else {
        WordsFault::Usage
    }
}

/// The choice in the values that were found.
fn choice_in(matches: &ArgMatches<'_>) -> Choice
    ensures { result ≡ choice_in (rows_of (found_of matches.now)) }
{
    Choice {
        task: task_of(matches),
        workers: number_or(matches, "workers", 1, 64, 1) as u8,
        trace: has_text(matches, "trace", "all"),
        seed: number_or(matches, "seed", 0, u64::MAX, 0),
        size: number_or(matches, "size", 1, 16384, 100) as u16,
    }
}

/// The task that is named.
fn task_of(matches: &ArgMatches<'_>) -> Task
    ensures { result ≡ task_of (first_of (codes "command") (rows_of (found_of matches.now))) }
{
    if has_text(matches, "command", "check") {
        Task::Check
    } else if has_text(matches, "command", "plan") {
        Task::Plan
    } else {
        Task::Run
    }
}

/// Whether the value of an argument is this name.
fn has_text(matches: &ArgMatches<'_>, id: &str, name: &str) -> bool
    ensures { result ≡ has_text name.now (first_of id.now (rows_of (found_of matches.now))) }
{
    match value_of(matches, id) {
        Some(text) => text == name,
        None => name.is_empty(),
    }
}

/// The value of an argument, where it has one.
fn value_of<'a>(matches: &ArgMatches<'a>, id: &str) -> Option<&'a str>
    ensures { option_map (λ text. text.now) result ≡ first_of id.now (rows_of (found_of matches.now)) }
{
    matches.get_str(id)
}

/// The number that an argument has, and the default where its value is none from `low` to `high`.
fn number_or(matches: &ArgMatches<'_>, id: &str, low: u64, high: u64, default: u64) -> u64
    requires { default ≤ high }
    ensures number { result ≡ number_or low high default (first_of id.now (rows_of (found_of matches.now))) }
    ensures within { result ≤ high }
{
    match value_of(matches, id) {
        Some(text) => number_within(text, low, high).unwrap_or(default),
        None => default,
    }
}

/// The number that a text is, where it is one from `low` to `high`.
fn number_within(text: &str, low: u64, high: u64) -> Option<u64>
    ensures number { result ≡ number_within low high text.now }
    ensures within { IfSome result (λ number. number ≤ high) }
{
    match text.parse::<u64>() {
        Ok(number) if low <= number && number <= high => Some(number),
        _ => None,
    }
}
