//! A cursor over the characters of a text, and the readers of its smallest parts.
//!
//! A cursor keeps its first refusal. After it no reader moves the cursor, and what a reader returns
//! then has no meaning. So a rule of the grammar reads its parts one after another, and the refusal
//! is looked at once, at the end.

ghost use Rattle.std.specs.Prelude.{◌≡◌, None, Some};
ghost use Rattle.ick_source.specs.Cursors.{Does, Eats, IsPlain, Keeps, Makes, Reads};
ghost use Rattle.ick_source.specs.Cursors.{Refuses, Sees, faults_by, left, numbers};
ghost use Rattle.ick_source.specs.Expression.{unaries};
ghost use Rattle.ick_source.specs.Grammar.{number, sign, word};
ghost use Rattle.ick_source.specs.Position.{left_at, next_lead};

use crate::lead::Lead;
use crate::parsed::Unread;
use crate::position::{Position, lead_at};
use crate::token::{number_at, word_at};
use crate::wanted::Wanted;
use ick_syntax::{Expr, Faults, UnaryOp, clamped_number};
use std::alloc::Global;

/// A position of a text, the faults of the numbers that were read, and the first refusal.
#[derive(Clone, Copy)]
pub struct Cursor<'a> {
    pub alloc: Global,
    pub text: &'a [u8],
    pub at: Position,
    pub faults: Faults,
    pub refusal: Option<Unread>,
}

/// What a number counts or names.
#[derive(Clone, Copy)]
pub enum Sort {
    Mesh,
    Name,
    Label,
}

impl Sort {
    /// Returns the faults of a number of this sort. The number may be capped.
    fn faults(self, number: u32) -> Faults
        ensures { result ≡ faults_by self number }
    {
        match self {
            Sort::Mesh => Faults::of_mesh(number),
            Sort::Name => Faults::of_name(number),
            Sort::Label => Faults::of_label(number),
        }
    }
}

impl<'a> Cursor<'a> {
    /// Refuses: the text has no part here that the grammar expects. This is wanted.
    #[inline(always)]
    pub fn refuse(&mut self, wanted: Wanted)
        ensures { Refuses wanted (left self.old) self.old self.new }
    {
        if self.refusal.is_none() {
            self.refusal = Some(Unread::Absent(wanted));
        }
    }

    /// Refuses at an earlier position: the next character there is none that the grammar expects.
    #[inline(always)]
    pub fn refuse_at(&mut self, at: Position, wanted: Wanted)
        ensures { Refuses wanted (left_at self.old.text.now at) self.old self.new }
    {
        if self.refusal.is_none() {
            self.at = at;
            self.refusal = Some(Unread::Absent(wanted));
        }
    }

    /// Returns the part of an expression that the next character begins. Returns `Lead::Other`
    /// after a refusal.
    #[inline(always)]
    pub fn lead(&self) -> Lead
        ensures next { self.now.refusal ≡ None → result ≡ next_lead (left self.now) }
        ensures other { (u : Unread) → self.now.refusal ≡ Some u → result ≡ Lead.Other }
    {
        if self.refusal.is_some() {
            return Lead::Other;
        }
        lead_at(self.text, self.at).value
    }

    /// Moves past the next character, and returns the part of an expression that it begins.
    #[inline(always)]
    pub fn sign(&mut self) -> Lead
        ensures { Does sign self.old self.new (IsPlain result) }
    {
        if self.refusal.is_some() {
            return Lead::Other;
        }
        let next = lead_at(self.text, self.at);
        self.at = next.to;
        next.value
    }

    /// Reads the unary operator that comes next, if there is one.
    #[inline(always)]
    pub fn unary(&mut self) -> Option<UnaryOp>
        ensures { Does unaries self.old self.new (IsPlain result) }
    {
        match self.lead() {
            Lead::Unary(op) => {
                self.sign();
                Some(op)
            }
            _ => None,
        }
    }

    /// Returns whether this word comes next. Returns `false` after a refusal.
    #[inline(always)]
    pub fn sees(&self, letters: &[u8]) -> bool
        ensures { Sees letters.now self.now result }
    {
        if self.refusal.is_some() {
            return false;
        }
        word_at(self.text, self.at, letters).is_some()
    }

    /// Moves past this word if it comes next, and returns whether it does. Returns `false` after a
    /// refusal.
    #[inline(always)]
    pub fn eats(&mut self, letters: &[u8]) -> bool
        ensures { Eats letters.now self.old self.new result }
    {
        if self.refusal.is_some() {
            return false;
        }
        match word_at(self.text, self.at, letters) {
            Some(to) => {
                self.at = to;
                true
            }
            None => false,
        }
    }

    /// Reads this word, or refuses.
    #[inline(always)]
    pub fn expect(&mut self, letters: &[u8])
        ensures { Does (word letters.now) self.old self.new (IsPlain tt) }
    {
        if !self.eats(letters) {
            self.refuse(Wanted::of_word(letters));
        }
    }

    /// Reads a number of this sort, clamps it and notes its faults, or refuses.
    #[inline(always)]
    pub fn number(&mut self, sort: Sort) -> u16
        ensures { Reads number (numbers sort) self.old self.new result }
    {
        if self.refusal.is_some() {
            return 0;
        }
        let Some(found) = number_at(self.text, self.at) else {
            self.refuse(Wanted::Number);
            return 0;
        };
        self.at = found.to;
        self.faults = self.faults.union(sort.faults(found.value));
        clamped_number(found.value)
    }

    /// Returns the expression, or keeps the reason that there is none.
    #[inline(always)]
    pub fn made(&mut self, expr: Result<Expr, Unread>) -> Expr
        ensures { Makes self.old self.new expr result }
    {
        match expr {
            Ok(expr) => expr,
            Err(unread) => {
                if self.refusal.is_none() {
                    self.refusal = Some(unread);
                }
                Expr::Mesh(0)
            }
        }
    }

    /// Appends the part to the list, or refuses if memory runs out.
    #[inline(always)]
    pub fn keep<T: Drop>(&mut self, list: &mut Vec<T>, one: T)
        ensures { Keeps self.old self.new list.old.items list.new.items one }
    {
        if list.push(one).is_ok() {
            return;
        }
        if self.refusal.is_none() {
            self.refusal = Some(Unread::NoMemory);
        }
    }
}
