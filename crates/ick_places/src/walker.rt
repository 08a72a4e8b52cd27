//! A walk over the characters of a text, which marks the parts that it passes.
//!
//! A walk doesn't ask whether the text goes on as the grammar says. If it does, the walk passes
//! exactly the part, and its marks are those of the part. Else the marks have no meaning.

ghost use Rattle.std.specs.Prelude.{◌≡◌, ◌<◌, ◌∷◌, [], codes, length, true};
ghost use Rattle.ick_places.specs.Expressions.{operator_marks};
ghost use Rattle.ick_places.specs.Marks.{mark};
ghost use Rattle.ick_places.specs.Walks.{Adds, HasMarksOf, Passes, Walks, left};
ghost use Rattle.ick_source.specs.Expression.{unaries};
ghost use Rattle.ick_source.specs.Grammar.{number, past_word, sign, word};
ghost use Rattle.ick_source.specs.Position.{left_at, next_lead, past_lead, past_white};
ghost use Rattle.ick_source.specs.Reading.{is_there};

use crate::mark::{Mark, Part};
use crate::span::{first_byte, last_byte};
use ick_source::lead::Lead;
use ick_source::position::{Position, lead_at, skip_white};
use ick_source::token::{number_at, word_at};
use std::alloc::Global;

/// A position of a text, and the marks of the parts before it. If memory is refused for a mark, the
/// walk remembers it, and its marks are of no use.
#[derive(Drop)]
pub struct Walker<'a> {
    pub alloc: Global,
    pub text: &'a [u8],
    pub at: Position,
    pub marks: Vec<Mark>,
    pub refused: bool,
}

impl<'a> Walker<'a> {
    /// Appends the mark of a part that began at a position and ends here.
    pub fn mark(&mut self, part: Part, from: Position)
        ensures { Adds self.old self.new (mark self.old.text.now part
            (left_at self.old.text.now from) (left self.old) ∷ []) }
    {
        let mark = Mark {
            part,
            from: first_byte(self.text, skip_white(self.text, from)),
            to: last_byte(self.text, self.at),
        };
        self.push(mark);
    }

    /// Appends a mark.
    fn push(&mut self, mark: Mark)
        ensures { Adds self.old self.new (mark ∷ []) }
    {
        if !self.refused {
            self.refused = self.marks.push(mark).is_err();
        }
    }

    /// Appends marks.
    pub fn append(&mut self, marks: &[Mark])
        ensures { Adds self.old self.new marks.now }
    {
        for mark in marks {
            self.push(*mark);
        }
    }

    /// Returns the part of an expression that the next character begins.
    pub fn lead(&self) -> Lead
        ensures { result ≡ next_lead (left self.now) }
    {
        lead_at(self.text, self.at).value
    }

    /// Passes the next character.
    pub fn sign(&mut self)
        ensures walks { Walks sign self.old self.new [] }
        ensures goes { left self.new ≡ past_lead (left self.old) }
    {
        self.at = lead_at(self.text, self.at).to;
    }

    /// Passes a unary operator and marks it, if there is one.
    pub fn unary(&mut self)
        ensures { Walks unaries self.old self.new
            (operator_marks self.old.text.now (left self.old) (next_lead (left self.old))) }
    {
        let from = self.at;
        if let Lead::Unary(_) = self.lead() {
            self.sign();
            self.mark(Part::Operator, from);
        }
    }

    /// Returns whether this word comes next.
    pub fn sees(&self, letters: &[u8]) -> bool
        ensures { result ≡ is_there (past_word letters.now (past_white (left self.now))) }
    {
        word_at(self.text, self.at, letters).is_some()
    }

    /// Passes this word if it comes next, and returns whether it does.
    pub fn passes(&mut self, letters: &[u8]) -> bool
        ensures passes { Passes letters.now self.old self.new result }
        ensures walks { Walks (word letters.now) self.old self.new [] }
        ensures same { HasMarksOf self.old self.new }
    {
        match word_at(self.text, self.at, letters) {
            Some(to) => {
                self.at = to;
                true
            }
            None => false,
        }
    }

    /// Passes a number.
    pub fn number(&mut self)
        ensures { Walks number self.old self.new [] }
    {
        if let Some(found) = number_at(self.text, self.at) {
            self.at = found.to;
        }
    }
}
