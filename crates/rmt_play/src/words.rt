ghost use Rattle.std.specs.Prelude.{◌≡◌, ◌<◌, ◌≤◌, map, codes, IfOk, IfErr, IfSome, Some, None, true, is_some};
ghost use Rattle.std.specs.String.{string_bytes};
ghost use Rattle.clap.specs.Words.{app_of, kind_of, subcommand_name_of};
ghost use Rattle.rmt_play.specs.Forms.{
  AreFew,
  among as among_of,
  count_after as count_after_of,
  count_in,
  form_in,
  is_joined as joined_test,
  is_name as name_test,
  number_in,
  play_in,
  storm_in,
  storm_of as storm_given,
};
ghost use Rattle.rmt_play.specs.CommandWords.{program, name_asked};

use crate::form::Form;
use crate::task::Task;
use clap::error::ErrorKind;
use clap::{Arg, ArgAction, ArgMatches, Command, Error};
use std::alloc::{AllocError, Global};

/// The largest seed.
const MOST_SEED: u32 = 2_147_483_647;

/// The most turns.
const MOST_TURNS: u32 = 20_000;

/// The number that a word is: 1 to 10 digits, in a range.
fn number_of(word: &str, least: u32, most: u32) -> Option<u32>
    ensures number { result ≡ number_in least most word.now }
    ensures within { IfSome result (λ n. (least ≤ n) × (n ≤ most)) }
{
    if word.len() > 10 || word.as_bytes().starts_with(b"+") {
        return None;
    }
    match word.parse::<u32>() {
        Ok(number) if least <= number && number <= most => Some(number),
        _ => None,
    }
}

/// The number of workers that a word is.
fn count_of(word: &str) -> Option<u8>
    ensures count { result ≡ count_in word.now }
    ensures within { AreFew result }
{
    Some(number_of(word, 1, 8)? as u8)
}

/// Whether a word has the option's name before a number.
fn is_joined(word: &str) -> bool
    ensures { result ≡ joined_test word.now }
{
    word.starts_with("--workers=")
}

/// Whether a word is the option's name.
fn is_name(word: &str) -> bool
    ensures { result ≡ name_test word.now }
{
    word == "--workers"
}

/// The number of workers in a word that has the option's name before it.
fn count_after(word: &str) -> Option<u8>
    ensures count { result ≡ count_after_of word.now }
    ensures within { AreFew result }
{
    count_of(word.strip_prefix("--workers=")?)
}

/// A play, with so many workers or without.
fn play_with(workers: Option<u8>) -> Form
    ensures { result ≡ record { task = Task.Play; workers = workers } }
{
    let task = Task::Play;
    Form { task, workers }
}

/// A workload with the seed and the turns that two words write, with so many workers or without.
fn storm_with(seed: &str, turns: &str, workers: Option<u8>) -> Option<Form>
    requires few { AreFew workers }
    ensures form { result ≡ storm_given seed.now turns.now workers }
    ensures few { IfSome result (λ form. AreFew form.workers) }
{
    let seed = number_of(seed, 0, MOST_SEED)?;
    let turns = number_of(turns, 1, MOST_TURNS)?;
    let task = Task::Storm { seed, turns };
    Some(Form { task, workers })
}

/// What the words after `play` ask for.
fn play_form(words: &[String]) -> Option<Form>
    ensures form { result ≡ play_in (map string_bytes words.now) }
    ensures few { IfSome result (λ form. AreFew form.workers) }
{
    match words {
        [] => Some(play_with(None)),
        [word] => Some(play_with(Some(count_after(word.as_str())?))),
        [name, count] if is_name(name.as_str()) => Some(play_with(Some(count_of(count.as_str())?))),
        _ => None,
    }
}

/// A workload beside the workers that a word tells, with the option's name before their number.
fn storm_joined(count: &str, seed: &str, turns: &str) -> Option<Form>
    ensures form { result ≡ among_of (count_after_of count.now) (storm_given seed.now turns.now) }
    ensures few { IfSome result (λ form. AreFew form.workers) }
{
    storm_with(seed, turns, Some(count_after(count)?))
}

/// A workload beside so many workers.
fn storm_beside(count: &str, seed: &str, turns: &str) -> Option<Form>
    ensures form { result ≡ among_of (count_in count.now) (storm_given seed.now turns.now) }
    ensures few { IfSome result (λ form. AreFew form.workers) }
{
    storm_with(seed, turns, Some(count_of(count)?))
}

/// What the words after `storm` ask for.
fn storm_form(words: &[String]) -> Option<Form>
    ensures form { result ≡ storm_in (map string_bytes words.now) }
    ensures few { IfSome result (λ form. AreFew form.workers) }
{
    match words {
        [seed, turns] => storm_with(seed.as_str(), turns.as_str(), None),
        [a, b, c] => {
            let (a, b, c) = (a.as_str(), b.as_str(), c.as_str());
            if is_joined(a) {
                storm_joined(a, b, c)
            } else if is_joined(b) {
                storm_joined(b, a, c)
            } else {
                storm_joined(c, a, b)
            }
        }
        [a, b, c, d] => {
            let (a, b, c, d) = (a.as_str(), b.as_str(), c.as_str(), d.as_str());
            if is_name(a) {
                storm_beside(b, c, d)
            } else if is_name(b) {
                storm_beside(c, a, d)
            } else if is_name(c) {
                storm_beside(d, a, b)
            } else {
                None
            }
        }
        _ => None,
    }
}

/// What the words of the command ask for; `None` where they have no form.
pub(crate) fn form_of(words: &[String]) -> Option<Form>
    ensures form { result ≡ form_in (map string_bytes words.now) }
    ensures few { IfSome result (λ form. AreFew form.workers) }
{
    let (word, more) = words.split_first()?;
    if word.as_str() == "play" {
        play_form(more)
    } else if word.as_str() == "storm" {
        storm_form(more)
    } else {
        None
    }
}

/// The command with its subcommands. Its own name isn't among the words that it reads.
fn command<'a>(alloc: Global) -> Result<Command<'a>, AllocError>
    ensures program { IfOk result (λ command. app_of command ≡ program) }
{
    let workers = Arg::new(alloc, "workers")
        .long("workers")
        .action(ArgAction::Set);
    let play = Command::new(alloc, "play").arg(workers)?;
    let workers = Arg::new(alloc, "workers")
        .long("workers")
        .action(ArgAction::Set);
    let storm = Command::new(alloc, "storm")
        .arg(Arg::new(alloc, "seed"))?
        .arg(Arg::new(alloc, "turns"))?
        .arg(workers)?;
    Command::new(alloc, "rmt")
        .no_binary_name(true)
        .subcommand(play)?
        .subcommand(storm)
}

/// Reads words that have a form. The only error is that no memory is left.
pub(crate) fn read_words<'a>(alloc: Global, words: &'a [String]) -> Result<ArgMatches<'a>, Error>
    requires form { is_some (form_in (map string_bytes words.now)) ≡ true }
    ensures reads { IfOk result (λ matches. subcommand_name_of matches ≡ name_asked (map string_bytes words.now)) }
    ensures memory { IfErr result (λ e. kind_of e ≡ ErrorKind.OutOfMemory) }
{
    command(alloc)?.try_get_matches_from(words)
}
