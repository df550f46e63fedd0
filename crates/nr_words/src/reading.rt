//! The reading of words by a table of forms.

ghost use Rattle.std.specs.Prelude.{◌≡◌, ◌≢◌, IfOk, IfSome, IsTrue, None};
ghost use Rattle.std.specs.Prelude.{option_and_then, option_map, string_bytes};
ghost use Rattle.std.specs.List.{list_all};
ghost use Rattle.clap.specs.Words.{first_of, found_of, kind_of, rows_of, subcommand_rows_of};
ghost use Rattle.clap.specs.declared.error.kind.ErrorKind.TheVariants.{OutOfMemory};
ghost use Rattle.nr_words.specs.Forms.{FitsForm, form_of, is_plain, is_table, name_of, place_value, read, with_verb};
ghost use Rattle.nr_words.specs.Parsing.{found_by, values_by};
ghost use Rattle.nr_words.specs.Words.{form_in, found_in, place_in, places_in, table_in, texts, value_in, values_in};

use crate::forms::{Form, Found, Place, Value, name_of, value_at};
use crate::parsers::table_parser;
use clap::ArgMatches;
use clap::error::{Error, ErrorKind};
use std::alloc::{AllocError, Global};

/// A word that isn't empty and doesn't begin with a dash.
fn is_plain(word: &str) -> bool
    ensures { result ≡ is_plain word.now }
{
    match word.as_bytes() {
        [] => false,
        [first, ..] => *first != b'-',
    }
}

fn are_plain(words: &[String]) -> bool
    ensures { result ≡ list_all (λ word. is_plain (string_bytes word)) words.now }
{
    words.iter().all(|word| is_plain(word.as_str()))
}

/// Words that the parser refuses have no form, unless memory ran out.
fn refused<'a>(error: &Error) -> Result<Option<Found<'a>>, AllocError>
    ensures { IfOk result (λ read. (read ≡ None) × (kind_of error.now ≢ OutOfMemory)) }
{
    match error.kind() {
        ErrorKind::OutOfMemory => Err(AllocError),
        _ => Ok(None),
    }
}

/// What the match at a place is there.
fn value_of<'a>(place: &Place, found: &ArgMatches<'a>) -> Option<Value<'a>>
    ensures { option_map value_in result ≡ option_and_then (place_value (place_in place.now))
        (first_of (name_of (place_in place.now)) (rows_of (found_of found.now))) }
{
    match found.get_str(name_of(place)) {
        Some(word) => value_at(place, word),
        None => None,
    }
}

/// What the matches at the places of a form are there, where each is something.
fn values_of<'a>(
    alloc: Global,
    places: &[Place],
    found: &ArgMatches<'a>,
) -> Result<Option<Vec<Value<'a>>>, AllocError>
    ensures { IfOk result (λ read.
        option_map values_in read ≡ values_by (places_in places.now) (rows_of (found_of found.now))) }
{
    let mut values = Vec::new(alloc);
    for place in places {
        match value_of(place, found) {
            Some(value) => values.push(value)?,
            None => return Ok(None),
        }
    }
    Ok(Some(values))
}

/// The form of a verb.
fn form_of<'t>(table: &'t [Form], verb: &str) -> Option<&'t Form>
    ensures { option_map (λ form. form_in form.now) result ≡ form_of (table_in table.now) verb.now }
{
    for form in table {
        if form.verb == verb {
            return Some(form);
        }
    }
    None
}

/// What a form and the words at its places are together.
fn with_verb<'a>(form: &Form, values: Option<Vec<Value<'a>>>) -> Option<Found<'a>>
    ensures { option_map found_in result ≡ with_verb (form_in form.now) (option_map values_in values.entry) }
{
    match values {
        Some(values) => Some(Found {
            verb: form.verb,
            values,
        }),
        None => None,
    }
}

/// What the matches of the form of this name are.
fn named<'a>(
    alloc: Global,
    table: &[Form],
    name: &str,
    found: &ArgMatches<'a>,
) -> Result<Option<Found<'a>>, AllocError>
    ensures { IfOk result (λ read.
        option_map found_in read ≡ found_by (table_in table.now) (name.now, rows_of (found_of found.now))) }
{
    match form_of(table, name) {
        Some(form) => {
            let values = values_of(alloc, form.places, found)?;
            Ok(with_verb(form, values))
        }
        None => Ok(None),
    }
}

/// What the matches of a program's forms are.
fn matched<'a>(
    alloc: Global,
    table: &[Form],
    matches: &ArgMatches<'a>,
) -> Result<Option<Found<'a>>, AllocError>
    ensures { IfOk result (λ read.
        option_map found_in read ≡ option_and_then (found_by (table_in table.now)) (subcommand_rows_of matches.now)) }
{
    match matches.subcommand() {
        Some((name, found)) => named(alloc, table, name, found),
        None => Ok(None),
    }
}

/// Reads words by a table of forms: which form they have, and what the word at each of its places is. Words that have
/// none of the forms give nothing, nor do words of which one is empty or begins with a dash. The first form of a verb
/// counts. The places of a form have names of their own, and there are at most 100. `program` is the name of the
/// program that reads.
///
/// # Errors
///
/// Where memory runs out.
pub fn read_words<'a>(
    alloc: Global,
    program: &'static str,
    table: &[Form],
    words: &'a [String],
) -> Result<Option<Found<'a>>, AllocError>
    requires { IsTrue (is_table (table_in table.now)) }
    ensures found { IfOk result (λ found. option_map found_in found ≡ read (table_in table.now) (texts words.now)) }
    ensures fits { IfOk result (λ found. IfSome (option_map found_in found) (FitsForm (table_in table.now))) }
{
    if !are_plain(words) {
        return Ok(None);
    }
    let parser = table_parser(alloc, program, table)?;
    match parser.try_get_matches_from(words) {
        Ok(matches) => matched(alloc, table, &matches),
        Err(error) => refused(&error),
    }
}
