//! An argument of a command.
ghost use Rattle.std.specs.Prelude.{◌≡◌, false};
ghost use Rattle.clap.specs.Words.{rule_of};
ghost use Rattle.ick_job.specs.Descriptions.{argument_rule};

use clap::builder::ValueParser;
use clap::{Arg, ArgAction};
use std::alloc::Global;

/// How an argument is written.
#[derive(Clone, Copy)]
pub enum Form<'a> {
    /// A text alone. Help calls it by this name.
    Place(&'a str),
    /// A flag of one letter.
    Letter(char),
    /// A flag of the argument's name.
    Flag,
    /// The argument's name with a text, which help calls by this name.
    Text(&'a str),
    /// The argument's name with a number, which help calls N.
    Number(ValueParser<'a>),
}

/// An argument of a command: its name, how it is written, and what its help says.
#[derive(Clone, Copy)]
pub struct Argument<'a> {
    pub name: &'a str,
    pub form: Form<'a>,
    pub help: &'a str,
}

impl<'a> Argument<'a> {
    /// Returns the argument in the form that a parse reads it by.
    pub(super) fn built(&self, alloc: Global) -> Arg<'a>
        ensures rule { rule_of result ≡ argument_rule self.now }
        ensures local { result.global ≡ false }
    {
        let arg = Arg::new(alloc, self.name).help(self.help);
        match self.form {
            Form::Place(value) => arg.value_name(value),
            Form::Letter(letter) => arg.short(letter).action(ArgAction::SetTrue),
            Form::Flag => arg.long(self.name).action(ArgAction::SetTrue),
            Form::Text(value) => arg.long(self.name).value_name(value),
            Form::Number(parser) => arg.long(self.name).value_name("N").value_parser(parser),
        }
    }
}
