//! Walks over bodies. The next character or word decides which body it is.

ghost use Rattle.std.specs.Prelude.{◌≡◌, ◌<◌, ◌&&◌, ◌∷◌, ◌++◌, [], not, codes};
ghost use Rattle.std.specs.Prelude.{length, true};
ghost use Rattle.ick_places.specs.Bodies.{acted_marks, array_marks, assigned_marks, body_marks};
ghost use Rattle.ick_places.specs.Bodies.{call_marks, index_marks, kind_of, list_marks};
ghost use Rattle.ick_places.specs.Bodies.{place_marks_by, scalar_marks, switch_marks, after_marks};
ghost use Rattle.ick_places.specs.Bodies.{is_ahead, target_marks, whole_marks, worded_marks};
ghost use Rattle.ick_places.specs.Marks.{mark, past};
ghost use Rattle.ick_places.specs.Walks.{Adds, Finds, HasMarksOf, Keeps, Switches, Walks};
ghost use Rattle.ick_places.specs.Walks.{element_values, left};
ghost use Rattle.ick_source.specs.BodyGrammar.{after, all_gerunds, array_bodies, array_by};
ghost use Rattle.ick_source.specs.BodyGrammar.{assigned, bodies, calls, gerunds, indices, labels};
ghost use Rattle.ick_source.specs.BodyGrammar.{names, place_by, scalar_bodies, verbs};
ghost use Rattle.ick_source.specs.BodyGrammar.{wholes, worded_by};
ghost use Rattle.ick_source.specs.Grammar.{among, looks, separated, sequence};
ghost use Rattle.ick_source.specs.Position.{left_at, past_lead};
ghost use Rattle.ick_source.specs.declared.wanted.Wanted.TheVariants as wanted;
ghost use Rattle.ick_syntax.specs.BodyTree.{BodyTree};
ghost use Rattle.ick_syntax.specs.declared.tree.Name.{Name};
ghost use Rattle.ick_syntax.specs.Gerund.{gerund_word};
ghost use Rattle.ick_syntax.specs.NameKinds.{is_tail};
ghost use Rattle.ick_syntax.specs.Tree.{Tree, Trees};

use crate::mark::Part;
use crate::walker::Walker;
use ick_source::lead::Lead;
use ick_source::part::{MAX_HEIGHT, MAX_SUBSCRIPT_HEIGHT};
use ick_source::position::Position;
use ick_source::verb::Verb;
use ick_syntax::{Gerund, NameKind};

/// What the parts of a list are.
#[derive(Clone, Copy)]
pub enum Member {
    Expression,
    Name,
    Gerund,
    Place,
    Item,
}

impl<'a> Walker<'a> {
    /// Passes an expression outside groups.
    fn whole(&mut self)
        ensures { Walks wholes self.old self.new
            (whole_marks self.old.text.now (left self.old)) }
    {
        self.expression(None, MAX_HEIGHT);
    }

    /// Passes `SUB` and the subscripts of an element outside groups.
    fn indices(&mut self)
        ensures { Walks indices self.old self.new
            (index_marks self.old.text.now (left self.old)) }
    {
        self.indexing(None, MAX_SUBSCRIPT_HEIGHT);
    }

    /// Passes a label within a body.
    fn label(&mut self)
        ensures { Walks labels self.old self.new (mark self.old.text.now Part.Label
            (left self.old) (past labels (left self.old)) ∷ []) }
    {
        let from = self.at;
        self.passes(b"(");
        self.number();
        self.passes(b")");
        self.mark(Part::Label, from);
    }

    /// Passes a name of a list.
    fn name(&mut self)
        ensures { Walks names self.old self.new (mark self.old.text.now Part.Listed
            (left self.old) (past names (left self.old)) ∷ []) }
    {
        let from = self.at;
        let begins = self.lead();
        self.sign();
        self.number();
        self.mark(Part::Listed, from);
    }

    /// Passes the word of a gerund, its first if it has two, and returns the gerund.
    fn first_word(&mut self) -> Option<Gerund>
        ensures keeps { Keeps self.old self.new }
        ensures finds { Finds (among wanted.Gerund gerund_word all_gerunds) self.old self.new
            result }
        ensures same { HasMarksOf self.old self.new }
    {
        for gerund in Gerund::ALL {
            if self.passes(gerund.word()) {
                return Some(gerund);
            }
        }
        None
    }

    /// Passes a gerund, of one word or of two.
    fn gerund_words(&mut self)
        ensures { Walks gerunds self.old self.new [] }
    {
        let Some(gerund) = self.first_word() else {
            return;
        };
        let Some(word) = gerund.second_word() else {
            return;
        };
        self.passes(word);
    }

    /// Passes and marks a gerund.
    fn gerund(&mut self)
        ensures { Walks gerunds self.old self.new (mark self.old.text.now Part.Gerund
            (left self.old) (past gerunds (left self.old)) ∷ []) }
    {
        let from = self.at;
        self.gerund_words();
        self.mark(Part::Gerund, from);
    }

    /// Marks what reads or prints. If it prints, its operand comes before.
    fn acted(&mut self, part: Part, printed: bool, from: Position)
        ensures { Adds self.old self.new (acted_marks self.old.text.now part printed
            (left_at self.old.text.now from) (left self.old)) }
    {
        if printed {
            self.mark(part, from);
        }
        self.mark(Part::Action, from);
    }

    /// Passes a place whose first character at `from` was passed.
    fn place_after(&mut self, begins: Lead, printed: bool, from: Position)
        requires { past_lead (left_at self.old.text.now from) ≡ left self.old }
        ensures { Walks (place_by begins) self.old self.new (place_marks_by self.old.text.now
            printed (left_at self.old.text.now from) begins) }
    {
        self.number();
        let Lead::Array(kind) = begins else {
            self.acted(Part::Variable, printed, from);
            return;
        };
        if is_whole(kind, self.sees(b"SUB")) {
            self.mark(Part::Action, from);
            return;
        }
        self.mark(Part::Name, from);
        self.indices();
        self.acted(Part::Element, printed, from);
    }

    /// Passes a place that is read.
    fn place(&mut self)
        ensures { Walks (kind_of Member.Place).grammar self.old self.new
            ((kind_of Member.Place).marks self.old.text.now (left self.old)) }
    {
        let from = self.at;
        let begins = self.lead();
        self.sign();
        self.place_after(begins, false, from);
    }

    /// Passes an item that is printed.
    fn item(&mut self)
        ensures { Walks (kind_of Member.Item).grammar self.old self.new
            ((kind_of Member.Item).marks self.old.text.now (left self.old)) }
    {
        let from = self.at;
        let begins = self.lead();
        self.sign();
        if let Lead::Hash = begins {
            self.number();
            self.acted(Part::Mesh, true, from);
            return;
        }
        self.place_after(begins, true, from);
    }

    /// Passes a part of a list.
    fn member(&mut self, member: Member)
        ensures { Walks (kind_of member).grammar self.old self.new
            ((kind_of member).marks self.old.text.now (left self.old)) }
    {
        match member {
            Member::Expression => self.whole(),
            Member::Name => self.name(),
            Member::Gerund => self.gerund(),
            Member::Place => self.place(),
            Member::Item => self.item(),
        }
    }

    /// Passes one or more parts, separated by this word.
    fn list(&mut self, member: Member, separator: &[u8])
        requires { 0 < length separator.now }
        ensures { Walks (separated (kind_of member).grammar separator.now) self.old self.new
            (list_marks self.old.text.now member separator.now (left self.old)) }
    {
        'more: loop {
            self.member(member);
            if !self.passes(separator) {
                return;
            }
        }
    }

    /// Passes `<-` and an expression.
    fn assigned(&mut self)
        ensures { Walks assigned self.old self.new
            (assigned_marks self.old.text.now (left self.old)) }
    {
        self.passes(b"<-");
        self.whole();
    }

    /// Passes the calculation of a variable whose sigil at `from` was passed.
    fn scalar_body(&mut self, kind: NameKind, from: Position)
        requires { past_lead (left_at self.old.text.now from) ≡ left self.old }
        ensures { Walks (scalar_bodies kind) self.old self.new
            (scalar_marks self.old.text.now kind (left_at self.old.text.now from)) }
    {
        self.number();
        self.mark(Part::Name, from);
        self.assigned();
        self.mark(Part::Action, from);
    }

    /// Passes the subscripts of a target and its value, and marks the value before the subscripts.
    fn element_value(&mut self)
        ensures { (make : Trees → Tree → BodyTree) → Walks (element_values make) self.old self.new
            (target_marks self.old.text.now true (left self.old)) }
    {
        let mut subs = Walker {
            alloc: self.alloc,
            text: self.text,
            at: self.at,
            marks: Vec::new(self.alloc),
            refused: self.refused,
        };
        subs.indices();
        self.at = subs.at;
        self.refused = subs.refused;
        self.assigned();
        self.append(&subs.marks);
    }

    /// Passes what follows an array's name: subscripts and a value, or `<-` and dimensions.
    fn array_value(&mut self)
        ensures { (x : Name) → Walks (sequence (looks (codes "SUB")) (array_by x)) self.old self.new
            (target_marks self.old.text.now (is_ahead (codes "SUB") (left self.old))
            (left self.old)) }
    {
        if self.sees(b"SUB") {
            self.element_value();
            return;
        }
        self.passes(b"<-");
        self.list(Member::Expression, b"BY");
    }

    /// Passes the calculation of an element, or a dimensioning. The array's sigil at `from` was
    /// passed.
    fn array_body(&mut self, kind: NameKind, from: Position)
        requires { past_lead (left_at self.old.text.now from) ≡ left self.old }
        ensures { Walks (array_bodies kind) self.old self.new
            (array_marks self.old.text.now kind (left_at self.old.text.now from)) }
    {
        self.number();
        self.mark(Part::Name, from);
        self.array_value();
        self.mark(Part::Action, from);
    }

    /// Passes a label and NEXT.
    fn call(&mut self)
        ensures { Walks calls self.old self.new (call_marks self.old.text.now (left self.old)) }
    {
        let from = self.at;
        self.label();
        self.passes(b"NEXT");
        self.mark(Part::Action, from);
    }

    /// Passes a verb, and returns it.
    fn verb(&mut self) -> Option<Verb>
        ensures keeps { Keeps self.old self.new }
        ensures finds { Finds verbs self.old self.new result }
        ensures same { HasMarksOf self.old self.new }
    {
        for verb in Verb::ALL {
            if self.passes(verb.word()) {
                return Some(verb);
            }
        }
        None
    }

    /// Passes a label or gerunds, of a body that begins at `from`.
    fn switch(&mut self, from: Position)
        ensures { Switches self.old self.new (switch_marks self.old.text.now
            (is_ahead (codes "(") (left self.old)) (left_at self.old.text.now from)
            (left self.old)) }
    {
        if self.sees(b"(") {
            self.label();
            self.mark(Part::Action, from);
            return;
        }
        self.list(Member::Gerund, b"+");
    }

    /// Passes the expression of a body that begins at `from`.
    fn counted(&mut self, from: Position)
        ensures { Walks wholes self.old self.new (whole_marks self.old.text.now (left self.old)
            ++ mark self.old.text.now Part.Action (left_at self.old.text.now from)
            (past wholes (left self.old)) ∷ []) }
    {
        self.whole();
        self.mark(Part::Action, from);
    }

    /// Passes the rest of a body that begins at `from`, after its verb.
    fn action(&mut self, verb: Verb, from: Position)
        ensures { Walks (after verb) self.old self.new (after_marks self.old.text.now verb
            (left_at self.old.text.now from) (left self.old)) }
    {
        match verb {
            Verb::Forget => self.counted(from),
            Verb::Resume => self.counted(from),
            Verb::Stash => self.list(Member::Name, b"+"),
            Verb::Retrieve => self.list(Member::Name, b"+"),
            Verb::Ignore => self.list(Member::Name, b"+"),
            Verb::Remember => self.list(Member::Name, b"+"),
            Verb::Abstain => {
                self.passes(b"FROM");
                self.switch(from);
            }
            Verb::Reinstate => self.switch(from),
            Verb::Give => {
                self.passes(b"UP");
                self.mark(Part::Action, from);
            }
            Verb::Write => {
                self.passes(b"IN");
                self.list(Member::Place, b"+");
            }
            Verb::Read => {
                self.passes(b"OUT");
                self.list(Member::Item, b"+");
            }
        }
    }

    /// Passes a label and NEXT, or a verb and the rest of its body.
    fn worded(&mut self)
        ensures { Walks (sequence (looks (codes "(")) worded_by) self.old self.new
            (worded_marks self.old.text.now (is_ahead (codes "(") (left self.old))
            (left self.old)) }
    {
        if self.sees(b"(") {
            self.call();
            return;
        }
        let from = self.at;
        if let Some(verb) = self.verb() {
            self.action(verb, from);
        }
    }

    /// Passes a body, and marks its parts in the order of its operations.
    pub fn body(&mut self)
        ensures { Walks bodies self.old self.new
            (body_marks self.old.text.now (left self.old)) }
    {
        let from = self.at;
        match self.lead() {
            Lead::Spot(kind) => {
                self.sign();
                self.scalar_body(kind, from);
            }
            Lead::Array(kind) => {
                self.sign();
                self.array_body(kind, from);
            }
            _ => self.worded(),
        }
    }
}

/// Returns whether an array of this kind is a whole array. `sub` is whether `SUB` comes next.
fn is_whole(kind: NameKind, sub: bool) -> bool
    ensures { result ≡ is_tail kind && not sub }
{
    matches!(kind, NameKind::Tail) && !sub
}
