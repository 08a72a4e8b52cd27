//! Walks over expressions. Each operand and each operation is marked behind its operands.

ghost use Rattle.std.specs.Prelude.{ℕ, List, ◌≡◌, ◌<◌, [], false, length, true};
ghost use Rattle.ick_places.specs.Expressions.{applied_marks, element_marks, group_marks};
ghost use Rattle.ick_places.specs.Expressions.{indexing_marks, leaf_marks, leaf_part, level_marks};
ghost use Rattle.ick_places.specs.Marks.{repeated_marks};
ghost use Rattle.ick_places.specs.Walks.{Adds, Walks, left};
ghost use Rattle.ick_source.specs.Expression.{closings, elements, further, groups};
ghost use Rattle.ick_source.specs.Expression.{indexing, leaves, level, subscripts};
ghost use Rattle.ick_source.specs.Expression.{Sized};
ghost use Rattle.ick_source.specs.Grammar.{stands};
ghost use Rattle.ick_source.specs.Position.{left_at, past_lead};
ghost use Rattle.ick_syntax.specs.Tree.{Tree};

use crate::mark::Part;
use crate::walker::Walker;
use ick_source::expression::{is_array, may_begin_sub};
use ick_source::lead::{Delimiter, Lead};
use ick_source::position::Position;
use ick_syntax::NameKind;

impl<'a> Walker<'a> {
    /// Marks what a unary operator is applied to, if what follows the first character is one.
    fn applied(&mut self, inside: Lead, from: Position)
        ensures { Adds self.old self.new (applied_marks self.old.text.now
            (left_at self.old.text.now from) (left self.old) inside) }
    {
        if let Lead::Unary(_) = inside {
            self.mark(Part::Unary, from);
        }
    }

    /// Passes the delimiter that closes a group.
    fn close(&mut self, delimiter: Delimiter)
        ensures { Walks (closings delimiter) self.old self.new [] }
    {
        self.sign();
    }

    /// Passes a variable of this kind, or a mesh for no kind, whose sigil at `from` was passed.
    fn leaf(&mut self, kind: Option<NameKind>, from: Position)
        requires { past_lead (left_at self.old.text.now from) ≡ left self.old }
        ensures { Walks (leaves kind) self.old self.new
            (leaf_marks self.old.text.now kind (left_at self.old.text.now from)) }
    {
        let inside = self.lead();
        self.unary();
        self.number();
        self.mark(part_of(kind), from);
        self.applied(inside, from);
    }

    /// Passes a group whose first delimiter at `from` was passed.
    #[cycle(expressions)]
    fn group(&mut self, delimiter: Delimiter, below: u16, from: Position)
        requires { past_lead (left_at self.old.text.now from) ≡ left self.old }
        ensures { Walks (groups (level below) delimiter) self.old self.new
            (group_marks self.old.text.now (level below) (level_marks self.old.text.now below)
            delimiter (left_at self.old.text.now from)) }
    {
        let inside = self.lead();
        self.unary();
        self.expression(Some(delimiter), below);
        self.close(delimiter);
        self.mark(Part::Group, from);
        self.applied(inside, from);
    }

    /// Passes an element whose sigil at `from` was passed.
    #[cycle(expressions)]
    fn element(&mut self, kind: NameKind, delimiter: Option<Delimiter>, below: u16, from: Position)
        requires { past_lead (left_at self.old.text.now from) ≡ left self.old }
        ensures { Walks (elements (level below) delimiter kind) self.old self.new
            (element_marks self.old.text.now (level below) (level_marks self.old.text.now below)
            delimiter kind (left_at self.old.text.now from)) }
    {
        self.number();
        self.mark(Part::Name, from);
        self.indexing(delimiter, below);
        self.mark(Part::Element, from);
    }

    /// Passes `SUB` and the subscripts of an element.
    #[cycle(expressions)]
    pub fn indexing(&mut self, delimiter: Option<Delimiter>, below: u16)
        ensures { Walks (indexing (level below) delimiter) self.old self.new
            (indexing_marks (level below) (level_marks self.old.text.now below)
            delimiter (left self.old)) }
    {
        self.passes(b"SUB");
        self.subscripts(delimiter, below);
    }

    /// Passes the subscripts of an element. An element among them is the last one.
    #[cycle(expressions)]
    fn subscripts(&mut self, delimiter: Option<Delimiter>, below: u16)
        ensures { Walks (subscripts (level below) delimiter) self.old self.new
            (repeated_marks ((level below).operands delimiter)
            ((level_marks self.old.text.now below).operands delimiter)
            (further delimiter) (left self.old)) }
    {
        'more: loop {
            let first = self.lead();
            let passed = self.operand(delimiter, below);
            if !passed || is_array(first) || !may_begin_sub(delimiter, self.lead()) {
                return;
            }
        }
    }

    /// Passes an operand of at most this height, and returns whether a character begins one.
    #[cycle(expressions)]
    fn operand(&mut self, delimiter: Option<Delimiter>, limit: u16) -> bool
        ensures walks { Walks ((level limit).operands delimiter) self.old self.new
            ((level_marks self.old.text.now limit).operands delimiter (left self.old)) }
        ensures shorter { result ≡ true → length (left self.new) < length (left self.old) }
        ensures none { result ≡ false → (to : List ℕ) (x : Sized Tree) →
            stands ((level limit).operands delimiter) (left self.old) to x → ⊥ }
    {
        if limit == 0 {
            return false;
        }
        let from = self.at;
        let begins = self.lead();
        self.sign();
        match begins {
            Lead::Spot(kind) => self.leaf(Some(kind), from),
            Lead::Hash => self.leaf(None, from),
            Lead::Array(kind) => self.element(kind, delimiter, limit - 1, from),
            Lead::Group(opened) => self.group(opened, limit - 1, from),
            _ => return false,
        }
        true
    }

    /// Passes an expression of at most this height. `delimiter` is that of the innermost open
    /// group.
    #[cycle(expressions)]
    pub fn expression(&mut self, delimiter: Option<Delimiter>, limit: u16)
        ensures { Walks ((level limit).expressions delimiter) self.old self.new
            ((level_marks self.old.text.now limit).expressions delimiter (left self.old)) }
    {
        let from = self.at;
        self.operand(delimiter, limit);
        let Lead::Binary(_) = self.lead() else {
            return;
        };
        if limit == 0 {
            return;
        }
        let operator = self.at;
        self.sign();
        self.mark(Part::Operator, operator);
        self.expression(delimiter, limit - 1);
        self.mark(Part::Binary, from);
    }
}

/// Returns what a variable of this kind is, or a mesh for no kind.
fn part_of(kind: Option<NameKind>) -> Part
    ensures { result ≡ leaf_part kind }
{
    match kind {
        Some(_) => Part::Variable,
        None => Part::Mesh,
    }
}
