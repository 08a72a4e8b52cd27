//! Gives slots to the names of a program, in the order of the source text.

ghost use Rattle.std.specs.Prelude.{◌≡◌, [], ◌∷◌, map, IfOk};
ghost use Rattle.std.specs.List.{flat_map};
ghost use Rattle.ick_syntax.specs.Tree.{tree_of, trees_in};
ghost use Rattle.ick_syntax.specs.BodyTree.{target_tree, place_tree, item_tree, body_tree_of};
ghost use Rattle.ick_syntax.specs.StatementTree.{statement_tree_of};
ghost use Rattle.ick_code.specs.Names.{names_of_tree, names_of_trees, names_of_item, names_of_body};
ghost use Rattle.ick_code.specs.Names.{names_of, slot_name};
ghost use Rattle.ick_code.specs.Tables.{table_slots, with_names, no_slots, Adds};

use crate::names::Names;
use crate::op::SlotName;
use ick_bits::NoMemory;
use ick_syntax::{Body, Element, Expr, Item, Name, NameKind, Place, Statement, Target};
use std::alloc::Global;

/// The names of scalars and of arrays, by their slots. After a growth is refused, no name gets a
/// slot.
#[derive(Drop)]
pub struct Table {
    pub scalars: Names,
    pub arrays: Names,
    refused: bool,
}

impl Table {
    /// Returns the slots of the names of statements, or `NoMemory` if a list cannot grow.
    #[tactic(auto, using(crate::proofs::TableLemmas::names_none))]
    pub fn new(alloc: Global, statements: &[Statement]) -> Result<Table, NoMemory>
        ensures { IfOk result (λ table. table_slots table ≡
            with_names no_slots (names_of (map statement_tree_of statements.now))) }
    {
        let mut table = Table {
            scalars: Names::new(alloc),
            arrays: Names::new(alloc),
            refused: false,
        };
        for statement in statements {
            table.add_body(&statement.body);
        }
        if table.refused {
            return Err(NoMemory);
        }
        Ok(table)
    }

    /// Returns the slot of a name that has one.
    pub fn slot(&self, name: Name) -> SlotName
        ensures { result ≡ slot_name (table_slots self.now) name }
    {
        match name.kind {
            NameKind::Onespot | NameKind::Twospot => SlotName::Scalar(self.scalars.slot(name)),
            NameKind::Tail | NameKind::Hybrid => SlotName::Array(self.arrays.slot(name)),
        }
    }

    /// Gives the name a slot if it has none.
    #[tactic(auto, using(crate::proofs::TableLemmas::names_one))]
    fn add(&mut self, name: Name)
        ensures { Adds (name ∷ []) self.old self.new }
    {
        if self.refused {
            return;
        }
        let added = match name.kind {
            NameKind::Onespot | NameKind::Twospot => self.scalars.add(name),
            NameKind::Tail | NameKind::Hybrid => self.arrays.add(name),
        };
        self.refused = added.is_err();
    }

    /// Gives slots to the names of a list.
    #[tactic(auto, using(crate::proofs::TableLemmas::names_none))]
    fn add_all(&mut self, names: &[Name])
        ensures { Adds names.now self.old self.new }
    {
        for name in names {
            self.add(*name);
        }
    }

    /// Gives slots to the names of an expression.
    #[cycle(adding)]
    #[tactic(auto, using(crate::proofs::TableLemmas::names_steps))]
    fn add_expr(&mut self, e: &Expr)
        ensures { Adds (names_of_tree (tree_of e.now)) self.old self.new }
    {
        match e {
            Expr::Mesh(_) => {}
            Expr::Scalar(name) => self.add(*name),
            Expr::Element(element) => {
                self.add(element.array);
                self.add_exprs(&element.subs)
            }
            Expr::Unary(_, inner) => self.add_expr(inner),
            Expr::Binary(_, left, right) => {
                self.add_expr(left);
                self.add_expr(right)
            }
        }
    }

    /// Gives slots to the names of expressions, in their order.
    #[cycle(adding)]
    #[tactic(auto, using(crate::proofs::TableLemmas::names_steps))]
    fn add_exprs(&mut self, list: &Vec<Expr>)
        ensures { Adds (names_of_trees (trees_in list.now.items)) self.old self.new }
    {
        for e in list {
            self.add_expr(e);
        }
    }

    /// Gives slots to the names of an element.
    #[tactic(auto, using(crate::proofs::TableLemmas::names_steps))]
    fn add_element(&mut self, element: &Element)
        ensures { Adds (element.now.array ∷ names_of_trees (trees_in element.now.subs.items))
            self.old self.new }
    {
        self.add(element.array);
        self.add_exprs(&element.subs)
    }

    /// Gives slots to the names of a target.
    #[tactic(auto, using(crate::proofs::TableLemmas::names_steps))]
    fn add_target(&mut self, target: &Target)
        ensures { Adds (names_of_tree (target_tree target.now)) self.old self.new }
    {
        match target {
            Target::Scalar(name) => self.add(*name),
            Target::Element(element) => self.add_element(element),
        }
    }

    /// Gives slots to the names of places, in their order.
    #[tactic(auto, using(crate::proofs::TableLemmas::names_none))]
    fn add_places(&mut self, places: &[Place])
        ensures { Adds (flat_map names_of_item (map place_tree places.now)) self.old self.new }
    {
        for place in places {
            match place {
                Place::Scalar(name) | Place::Array(name) => self.add(*name),
                Place::Element(element) => self.add_element(element),
            }
        }
    }

    /// Gives slots to the names of items, in their order.
    #[tactic(auto, using(crate::proofs::TableLemmas::names_none))]
    fn add_items(&mut self, items: &[Item])
        ensures { Adds (flat_map names_of_item (map item_tree items.now)) self.old self.new }
    {
        for item in items {
            match item {
                Item::Scalar(name) | Item::Array(name) => self.add(*name),
                Item::Element(element) => self.add_element(element),
                Item::Mesh(_) => {}
            }
        }
    }

    /// Gives slots to the names of a body.
    #[tactic(auto, using(crate::proofs::TableLemmas::names_steps))]
    fn add_body(&mut self, body: &Body)
        ensures { Adds (names_of_body (body_tree_of body.now)) self.old self.new }
    {
        match body {
            Body::Calculate(target, e) => {
                self.add_target(target);
                self.add_expr(e)
            }
            Body::Dimension(array, dimensions) => {
                self.add(*array);
                self.add_exprs(dimensions)
            }
            Body::Forget(e) | Body::Resume(e) => self.add_expr(e),
            Body::Stash(names) | Body::Retrieve(names) => self.add_all(names),
            Body::Ignore(names) | Body::Remember(names) => self.add_all(names),
            Body::WriteIn(places) => self.add_places(places),
            Body::ReadOut(items) => self.add_items(items),
            Body::Next(_) | Body::AbstainLabel(_) | Body::AbstainKinds(_) => {}
            Body::ReinstateLabel(_) | Body::ReinstateKinds(_) => {}
            Body::GiveUp | Body::Unrecognised => {}
        }
    }
}
