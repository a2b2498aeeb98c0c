// What the words give each argument.
ghost use Rattle.std.specs.Prelude.{◌≡◌, IfOk, List, option_map};
ghost use Rattle.std.specs.List.{list_all};
ghost use Rattle.clap.specs.Walk.{texts};
ghost use Rattle.clap.specs.Words.{Row, found_of, rows_of};
ghost use Rattle.ty_words.specs.Cli.{options};
ghost use Rattle.ty_words.specs.Given.{gives_only as gives_only_of, is_given, is_set as is_set_of, passes as passes_of, rows_at, value_of};

use crate::cli::{OPTIONS, command};
use clap::ArgMatches;
use clap::error::ErrorKind;
use std::alloc::Global;
use std::marker::Model;
use ty_base::{NoMemory, Text};

// What the words give each argument, which contracts see as a row for each.
#[derive(Drop)]
pub(crate) struct Given<'a> {
    matches: ArgMatches<'a>,
}

impl<'a> Model for Given<'a> {
    ghost Value = { List Row };

    ghost view = { λ g. rows_of (found_of g.matches) };
}

impl<'a> Given<'a> {
    // Lets the command read the words. It refuses them with `None`.
    pub(crate) fn read(alloc: Global, words: &'a [&'a str]) -> Result<Option<Given<'a>>, NoMemory>
        ensures { IfOk result (λ given. given ≡ rows_at (texts words.entry.now)) }
    {
        match command(alloc)?.try_get_matches_from(words) {
            Ok(matches) => Ok(Some(Given { matches })),
            Err(error) => match error.kind() {
                ErrorKind::OutOfMemory => Err(NoMemory),
                _ => Ok(None),
            },
        }
    }

    // The value of the mode, or of an option.
    pub(crate) fn value(&self, name: &str) -> Option<&'a str>
        ensures { option_map (λ s. s.now) result ≡ value_of name.now self.now }
    {
        self.matches.get_str(name)
    }

    // Whether an option has a value, or the flag is set.
    pub(crate) fn gives(&self, name: &str) -> bool
        ensures { result ≡ is_given self.now name.now }
    {
        let value = self.value(name);
        if name == "brief" {
            is_set(value)
        } else {
            value.is_some()
        }
    }

    // Whether nothing is given beside the mode but what is among these.
    pub(crate) fn gives_only(&self, taken: &[&str]) -> bool
        ensures { result ≡ gives_only_of (texts taken.now) self.now }
    {
        self.passes("brief", taken) && self.options_pass(taken)
    }

    fn options_pass(&self, taken: &[&str]) -> bool
        ensures { result ≡ list_all (passes_of self.now (texts taken.now)) options }
    {
        for name in OPTIONS {
            if !self.passes(name, taken) {
                return false;
            }
        }
        true
    }

    fn passes(&self, name: &str, taken: &[&str]) -> bool
        ensures { result ≡ passes_of self.now (texts taken.now) name.now }
    {
        !self.gives(name) || taken.contains(&name)
    }
}

fn is_set(value: Option<&str>) -> bool
    ensures { result ≡ is_set_of (option_map (λ s. s.now) value.entry) }
{
    match value {
        Some(value) => value == "true",
        None => false,
    }
}

// The texts of the words.
pub(crate) fn texts_of<'a>(alloc: Global, words: &'a [Text]) -> Result<Vec<&'a str>, NoMemory>
    ensures { IfOk result (λ v. texts v.items ≡ words.entry.now) }
{
    let mut texts = Vec::new(alloc);
    for word in words {
        texts.push(word.as_str())?;
    }
    Ok(texts)
}
