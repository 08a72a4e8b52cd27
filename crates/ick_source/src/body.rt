//! Readers of bodies (Revised Manual, 4.4). The next character or word decides which body it is.

ghost use Rattle.std.specs.Prelude.{◌≡◌, Some};
ghost use Rattle.ick_source.specs.BodyGrammar.{after, array_bodies, assigned, bodies, calls};
ghost use Rattle.ick_source.specs.BodyGrammar.{scalar_bodies, verbs};
ghost use Rattle.ick_source.specs.Cursors.{Does, IsPlainSome, Reads, body_trees, plain_trees};
ghost use Rattle.ick_syntax.specs.BodyTree.{body_tree_of};
ghost use Rattle.ick_syntax.specs.Tree.{tree_of};

use crate::cursor::Cursor;
use crate::lead::Lead;
use crate::part::MAX_SUBSCRIPT_HEIGHT;
use crate::token::word_at;
use crate::verb::Verb;
use crate::wanted::Wanted;
use ick_syntax::{Body, Element, Expr, NameKind, Target};

impl<'a> Cursor<'a> {
    /// Reads a body, or refuses (Revised Manual, 4.4).
    pub fn body(&mut self) -> Body
        ensures { Reads bodies body_trees self.old self.new (body_tree_of result) }
    {
        match self.lead() {
            Lead::Spot(kind) => {
                self.sign();
                self.scalar_body(kind)
            }
            Lead::Array(kind) => {
                self.sign();
                self.array_body(kind)
            }
            _ => {
                if self.sees(b"(") {
                    return self.call();
                }
                match self.verb() {
                    Some(verb) => self.action(verb),
                    None => Body::Unrecognised,
                }
            }
        }
    }

    /// Reads the calculation of a variable, after its sigil (Revised Manual, 4.4.1).
    fn scalar_body(&mut self, kind: NameKind) -> Body
        ensures { Reads (scalar_bodies kind) body_trees self.old self.new (body_tree_of result) }
    {
        let name = self.named(kind);
        let value = self.assigned();
        Body::Calculate(Target::Scalar(name), value)
    }

    /// Reads the calculation of an element, or a dimensioning, after the array's sigil (Revised
    /// Manual, 4.4.1).
    fn array_body(&mut self, kind: NameKind) -> Body
        ensures { Reads (array_bodies kind) body_trees self.old self.new (body_tree_of result) }
    {
        let array = self.named(kind);
        if self.sees(b"SUB") {
            let subs = self.indexing(None, MAX_SUBSCRIPT_HEIGHT).value;
            let value = self.assigned();
            return Body::Calculate(Target::Element(Element { array, subs }), value);
        }
        self.expect(b"<-");
        Body::Dimension(array, self.list::<Expr>(b"BY"))
    }

    /// Reads `<-` and an expression.
    fn assigned(&mut self) -> Expr
        ensures { Reads assigned plain_trees self.old self.new (tree_of result) }
    {
        self.expect(b"<-");
        self.whole()
    }

    /// Reads a label and NEXT (Revised Manual, 4.4.2).
    fn call(&mut self) -> Body
        ensures { Reads calls body_trees self.old self.new (body_tree_of result) }
    {
        let label = self.label();
        self.expect(b"NEXT");
        Body::Next(label)
    }

    /// Reads a verb. Refuses and returns `None` if there is none.
    fn verb(&mut self) -> Option<Verb>
        ensures { Does verbs self.old self.new (IsPlainSome result) }
    {
        if self.refusal.is_some() {
            return None;
        }
        for verb in Verb::ALL {
            if let Some(to) = word_at(self.text, self.at, verb.word()) {
                self.at = to;
                return Some(verb);
            }
        }
        self.refuse(Wanted::Body);
        None
    }

    /// Reads the rest of a body after its verb (Revised Manual, 4.4.3 to 4.4.13 and 5.2).
    fn action(&mut self, verb: Verb) -> Body
        ensures { Reads (after verb) body_trees self.old self.new (body_tree_of result) }
    {
        match verb {
            Verb::Forget => Body::Forget(self.whole()),
            Verb::Resume => Body::Resume(self.whole()),
            Verb::Stash => Body::Stash(self.list(b"+")),
            Verb::Retrieve => Body::Retrieve(self.list(b"+")),
            Verb::Ignore => Body::Ignore(self.list(b"+")),
            Verb::Remember => Body::Remember(self.list(b"+")),
            Verb::Abstain => {
                self.expect(b"FROM");
                if self.sees(b"(") {
                    Body::AbstainLabel(self.label())
                } else {
                    Body::AbstainKinds(self.list(b"+"))
                }
            }
            Verb::Reinstate => {
                if self.sees(b"(") {
                    Body::ReinstateLabel(self.label())
                } else {
                    Body::ReinstateKinds(self.list(b"+"))
                }
            }
            Verb::Give => {
                self.expect(b"UP");
                Body::GiveUp
            }
            Verb::Write => {
                self.expect(b"IN");
                Body::WriteIn(self.list(b"+"))
            }
            Verb::Read => {
                self.expect(b"OUT");
                Body::ReadOut(self.list(b"+"))
            }
        }
    }
}
