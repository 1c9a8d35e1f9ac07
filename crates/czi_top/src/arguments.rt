//! The words of the command line as one simple command: a file, a command, and any fields.

ghost use Rattle.std.specs.Prelude.{◌≡◌, ◌∷◌, ◌&&◌, ℕ, List, [], IfOk, IfSome, map, is_some, string_bytes, true, codes, unwrap_or, option_map};
ghost use Rattle.std.specs.List.{list_all};
ghost use Rattle.clap.specs.Simple.{app_of, matches_of};
ghost use Rattle.clap.specs.Matches.{found_of, matched_of, raw_values};
ghost use Rattle.clap.specs.Walk.{rows_of};
ghost use Rattle.czi_top.specs.Arguments.{are_plain, has_shape, has_two, is_named, tool};
ghost use Rattle.czi_top.specs.Words.{is_plain};

use clap::error::ErrorKind;
use clap::{Arg, ArgAction, ArgMatches, Command};
use std::alloc::{AllocError, Global};

/// The words of a command line: the file, the command's name, and its fields.
#[derive(Drop)]
pub(crate) struct Arguments<'a> {
    pub(crate) file: &'a str,
    pub(crate) name: &'a str,
    pub(crate) fields: Vec<&'a str>,
}

/// Doesn't begin with a dash.
fn is_plain(word: &String) -> bool
    ensures { result ≡ is_plain (string_bytes word.now) }
{
    match word.as_bytes() {
        [first, ..] => *first != b'-',
        [] => true,
    }
}

/// Whether the first word is there and isn't empty.
fn is_named(words: &[String]) -> bool
    ensures { result ≡ is_named (map (λ s. string_bytes s) words.now) }
{
    match words {
        [] => false,
        [file, ..] => !file.is_empty(),
    }
}

/// Whether no word begins with a dash.
fn all_plain(words: &[String]) -> bool
    ensures { result ≡ list_all (λ s. is_plain (string_bytes s)) words.now }
{
    words.iter().all(|word| is_plain(word))
}

/// Whether a file is named, and no word begins with a dash.
fn are_plain(words: &[String]) -> bool
    ensures { result ≡ are_plain (map (λ s. string_bytes s) words.now) }
{
    is_named(words) && all_plain(words)
}

/// The command line, as clap is to read it.
fn make_tool<'a>(alloc: Global) -> Result<Command<'a>, AllocError>
    ensures { IfOk result (λ c. app_of c ≡ tool) }
{
    let file = Arg::new(alloc, "file").required(true);
    let command = Arg::new(alloc, "command").required(true);
    let fields = Arg::new(alloc, "fields").action(ArgAction::Append);
    Command::new(alloc, "czi_tool")
        .no_binary_name(true)
        .disable_help_flag(true)
        .arg(file)?
        .arg(command)?
        .arg(fields)
}

/// What clap finds in the words, of which none begins with a dash. None exactly where there are fewer than two.
fn matched<'a>(alloc: Global, words: &'a [String]) -> Result<Option<ArgMatches<'a>>, AllocError>
    requires plain { are_plain (map (λ s. string_bytes s) words.now) ≡ true }
    ensures taken { IfOk result (λ r. is_some r ≡ has_two (map (λ s. string_bytes s) words.now)) }
    ensures matches { IfOk result (λ r. IfSome r (λ m. rows_of (found_of m) ≡ matches_of tool (map (λ s. string_bytes s) words.now))) }
{
    match make_tool(alloc)?.try_get_matches_from(words) {
        Ok(matches) => Ok(Some(matches)),
        Err(error) => {
            if error.kind() == ErrorKind::OutOfMemory {
                Err(AllocError)
            } else {
                Ok(None)
            }
        }
    }
}

/// The fields that clap found.
fn fields_in<'a>(alloc: Global, matches: &ArgMatches<'a>) -> Result<Vec<&'a str>, AllocError>
    ensures { IfOk result (λ v. map (λ s. s.now) v.items ≡ unwrap_or (option_map raw_values (matched_of (found_of matches.now) (codes "fields"))) []) }
{
    match matches.get_strs("fields") {
        Some(fields) => fields.to_vec(alloc),
        None => Ok(Vec::new(alloc)),
    }
}

/// The words of a command line. None exactly where there are fewer than two, the file's name is empty, or a word begins with a dash.
///
/// # Errors
///
/// Where memory is wanting.
pub(crate) fn read_arguments<'a>(
    alloc: Global,
    words: &'a [String],
) -> Result<Option<Arguments<'a>>, AllocError>
    ensures shape { IfOk result (λ r. is_some r ≡ has_shape (map (λ s. string_bytes s) words.now)) }
    ensures parts { IfOk result (λ r. IfSome r (λ a. map (λ s. string_bytes s) words.now ≡ a.file.now ∷ a.name.now ∷ map (λ s. s.now) a.fields.items)) }
{
    if !are_plain(words) {
        return Ok(None);
    }
    let Some(matches) = matched(alloc, words)? else {
        return Ok(None);
    };
    let Some(file) = matches.get_str("file") else {
        return Ok(None);
    };
    let Some(name) = matches.get_str("command") else {
        return Ok(None);
    };
    let fields = fields_in(alloc, &matches)?;
    Ok(Some(Arguments { file, name, fields }))
}
