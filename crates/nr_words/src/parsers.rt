//! The parser of a table of forms: a subcommand for each form, with a word for each of its places.

ghost use Rattle.std.specs.Prelude.{◌≡◌, IfOk, false};
ghost use Rattle.clap.specs.Words.{app_of, rule_of};
ghost use Rattle.nr_words.specs.Words.{form_in, table_in};
ghost use Rattle.nr_words.specs.Parsing.{IsForm, form_app, forms_app, table_app, word_rule};

use crate::forms::{Form, name_of};
use clap::{Arg, Command};
use std::alloc::{AllocError, Global};

/// A word that has to stand.
fn word<'a>(alloc: Global, id: &'a str) -> Arg<'a>
    ensures rule { rule_of result ≡ word_rule id.now }
    ensures local { result.global ≡ false }
{
    Arg::new(alloc, id).required(true)
}

/// The parser of one form.
fn form_parser<'a>(alloc: Global, form: &Form) -> Result<Command<'a>, AllocError>
    ensures app { IfOk result (λ parser. app_of parser ≡ form_app (form_in form.now)) }
    ensures form { IfOk result IsForm }
{
    let mut parser = Command::new(alloc, form.verb);
    for place in form.places {
        parser = parser.arg(word(alloc, name_of(place)))?;
    }
    Ok(parser)
}

/// A program without forms yet: one has to stand, and there is no help among them.
fn forms<'a>(alloc: Global, name: &'a str) -> Command<'a>
    ensures { app_of result ≡ forms_app name.now }
{
    Command::new(alloc, name)
        .no_binary_name(true)
        .disable_help_flag(true)
        .disable_help_subcommand(true)
        .subcommand_required(true)
}

/// The parser of a program's forms.
pub(crate) fn table_parser<'a>(
    alloc: Global,
    program: &'a str,
    table: &[Form],
) -> Result<Command<'a>, AllocError>
    ensures { IfOk result (λ parser. app_of parser ≡ table_app program.now (table_in table.now)) }
{
    let mut parser = forms(alloc, program);
    for form in table {
        let command = form_parser(alloc, form)?;
        parser = parser.subcommand(command)?;
    }
    Ok(parser)
}
