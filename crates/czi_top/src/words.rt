// The words of the command line.
ghost use Rattle.std.specs.Prelude.{◌≡◌, Option, IfOk, map, option_map, string_bytes};
ghost use Rattle.czi_format.specs.Painting.{Query as Painting};
ghost use Rattle.czi_script.specs.Words.{SaysRegion};
ghost use Rattle.czi_top.specs.View.{action_view, command_view};
ghost use Rattle.czi_top.specs.Words.{AreWords, action_named, action_of, bare_action, command_named, guid_by, guid_in, value_behind};

use crate::arguments::read_arguments;
use czi_script::read_region;
use std::alloc::{AllocError, Global};
use uuid::Uuid;

/// What can be asked of an image.
#[derive(PartialEq, Eq, Drop)]
pub(crate) enum Query {
    /// The subblocks.
    List,
    /// All that the image holds, and where it lies.
    Info,
    /// The free space.
    Map,
    /// How many segments of each sort there are.
    Check,
    /// The pixels of this region.
    Region(czi_doc::Query),
}

/// What is done with an image that is opened.
#[derive(PartialEq, Eq, Drop)]
pub(crate) enum Action {
    /// A query is answered.
    Query(Query),
    /// The script that the input gives is run.
    Edit,
}

/// What the words ask for.
#[derive(PartialEq, Eq, Drop)]
pub(crate) enum Command {
    /// The image is to be opened, and this to be done with it.
    Open(Action),
    /// The empty document with this GUID, in its stored order, is to be created.
    Create([u8; 16]),
}

/// What is done under this name.
fn action_named(name: &str) -> Option<Action>
    ensures { option_map action_view result ≡ action_named name.now }
{
    if name == "list" {
        Some(Action::Query(Query::List))
    } else if name == "info" {
        Some(Action::Query(Query::Info))
    } else if name == "map" {
        Some(Action::Query(Query::Map))
    } else if name == "check" {
        Some(Action::Query(Query::Check))
    } else if name == "edit" {
        Some(Action::Edit)
    } else {
        None
    }
}

/// What is done under this name with these fields: it has none.
fn bare_action(name: &str, fields: &[&str]) -> Option<Action>
    ensures { option_map action_view result ≡ bare_action name.now (map (λ s. s.now) fields.now) }
{
    match fields {
        [] => action_named(name),
        _ => None,
    }
}

/// What is done under this name with these fields: those of `region` are the ones of a script's line, and no other has any.
fn action_of(alloc: Global, name: &str, fields: &[&str]) -> Result<Option<Action>, AllocError>
    ensures { IfOk result (λ action. (said : Option Painting) → SaysRegion (map (λ s. s.now) fields.now) said → option_map action_view action ≡ action_of said name.now (map (λ s. s.now) fields.now)) }
{
    if name == "region" {
        match read_region(alloc, fields)? {
            Some(region) => Ok(Some(Action::Query(Query::Region(region)))),
            None => Ok(None),
        }
    } else {
        Ok(bare_action(name, fields))
    }
}

/// The value of a field that begins with this mark.
fn value_behind<'a>(mark: &[u8], field: &'a str) -> Option<&'a [u8]>
    ensures { option_map (λ v. v.now) result ≡ value_behind mark.now field.now }
{
    field.as_bytes().strip_prefix(mark)
}

/// The GUID, in its stored order, that the text names. None exactly where `uuid` doesn't read the text.
fn guid_by(text: &[u8]) -> Option<[u8; 16]>
    ensures { result ≡ guid_by text.now }
{
    match Uuid::try_parse_ascii(text) {
        Ok(id) => Some(id.to_bytes_le()),
        Err(_) => None,
    }
}

/// The GUID that the only field names.
fn guid_in(fields: &[&str]) -> Option<[u8; 16]>
    ensures { result ≡ guid_in (map (λ s. s.now) fields.now) }
{
    match fields {
        [field] => guid_by(value_behind(b"guid=", field)?),
        _ => None,
    }
}

/// The command of this name with these fields.
fn command_named(alloc: Global, name: &str, fields: &[&str]) -> Result<Option<Command>, AllocError>
    ensures { IfOk result (λ command. (said : Option Painting) → SaysRegion (map (λ s. s.now) fields.now) said → option_map command_view command ≡ command_named said name.now (map (λ s. s.now) fields.now)) }
{
    if name == "create" {
        Ok(guid_in(fields).map(Command::Create))
    } else {
        Ok(action_of(alloc, name, fields)?.map(Command::Open))
    }
}

/// The command that the words ask for: a file, which isn't empty, the name of a command, and its fields. No word begins
/// with a dash.
///
/// # Errors
///
/// Where memory is wanting.
pub(crate) fn command_of(alloc: Global, words: &[String]) -> Result<Option<Command>, AllocError>
    ensures { IfOk result (λ command. AreWords (map (λ s. string_bytes s) words.now) (option_map command_view command)) }
{
    match read_arguments(alloc, words)? {
        Some(found) => command_named(alloc, found.name, &found.fields),
        None => Ok(None),
    }
}
