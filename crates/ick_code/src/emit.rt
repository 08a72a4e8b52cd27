//! Turns trees into operations: operands are pushed first, and the operation that pops them
//! follows.

ghost use Rattle.std.specs.Prelude.{◌≡◌, ◌∷◌, [], true};
ghost use Rattle.std.specs.List.{flat_map, list_all};
ghost use Rattle.ick_syntax.specs.Tree.{tree_of, trees_in};
ghost use Rattle.ick_syntax.specs.NameKinds.{count_in, are_few, is_kinded, are_kinded};
ghost use Rattle.ick_syntax.specs.NameKinds.{is_item_kinded, is_body_kinded};
ghost use Rattle.ick_syntax.specs.BodyTree.{target_tree, place_tree, item_tree, body_tree_of};
ghost use Rattle.ick_code.specs.Names.{slot_in};
ghost use Rattle.ick_code.specs.Tables.{table_slots};
ghost use Rattle.ick_code.specs.Labels.{place_in};
ghost use Rattle.ick_code.specs.Operations.{ops_of_tree, ops_of_trees};
ghost use Rattle.ick_code.specs.Operations.{ops_at, store_ops, read_ops, print_ops, name_ops};
ghost use Rattle.ick_code.specs.Operations.{gerund_ops, ops_of_body};
ghost use Rattle.ick_code.specs.Forms.{on_name_of, on_gerund_of};
ghost use Rattle.ick_code.specs.Emitted.{Emits};

use crate::labels::Labels;
use crate::op::{Op, SlotName};
use crate::table::Table;
use ick_syntax::{BinaryOp, Body, Element, Expr, Gerund, Item, Name, Place, Target, UnaryOp};

/// Operations that are being appended. After a growth is refused, none is appended.
#[derive(Drop)]
pub struct OpsDraft {
    pub ops: Vec<Op>,
    pub refused: bool,
}

impl OpsDraft {
    /// Appends one operation.
    fn push(&mut self, op: Op)
        ensures { Emits (op ∷ []) self.old self.new }
    {
        if !self.refused {
            self.refused = self.ops.push(op).is_err();
        }
    }
}

/// The operation that a statement applies to each name of its list.
#[derive(Clone, Copy)]
pub enum NameForm {
    Save,
    Restore,
    Hide,
    Show,
}

/// The operation that a statement applies to other statements.
#[derive(Clone, Copy)]
pub enum Switch {
    Abstain,
    Reinstate,
}

/// Appends the operations of a body.
pub fn emit_body(draft: &mut OpsDraft, table: &Table, labels: &Labels, body: &Body)
    requires { is_body_kinded (body_tree_of body.now) ≡ true }
    ensures { Emits (ops_of_body (place_in labels.now) (table_slots table.now) body.now)
        draft.old draft.new }
{
    match body {
        Body::Calculate(target, e) => {
            emit_expr(draft, table, e);
            emit_store(draft, table, target)
        }
        Body::Dimension(array, dimensions) => {
            let count = emit_exprs(draft, table, dimensions);
            draft.push(Op::Resize(table.arrays.slot(*array), count))
        }
        Body::Next(label) => draft.push(Op::Call(labels.statement(*label))),
        Body::Forget(e) => {
            emit_expr(draft, table, e);
            draft.push(Op::Forget)
        }
        Body::Resume(e) => {
            emit_expr(draft, table, e);
            draft.push(Op::Resume)
        }
        Body::Stash(names) => emit_names(draft, table, NameForm::Save, names),
        Body::Retrieve(names) => emit_names(draft, table, NameForm::Restore, names),
        Body::Ignore(names) => emit_names(draft, table, NameForm::Hide, names),
        Body::Remember(names) => emit_names(draft, table, NameForm::Show, names),
        Body::AbstainLabel(label) => draft.push(Op::AbstainOne(labels.statement(*label))),
        Body::AbstainKinds(gerunds) => emit_gerunds(draft, Switch::Abstain, gerunds),
        Body::ReinstateLabel(label) => draft.push(Op::ReinstateOne(labels.statement(*label))),
        Body::ReinstateKinds(gerunds) => emit_gerunds(draft, Switch::Reinstate, gerunds),
        Body::GiveUp => draft.push(Op::Stop),
        Body::WriteIn(places) => emit_places(draft, table, places),
        Body::ReadOut(items) => emit_items(draft, table, items),
        Body::Unrecognised => draft.push(Op::Fail),
    }
}

/// Appends one operation for each name.
fn emit_names(draft: &mut OpsDraft, table: &Table, form: NameForm, names: &[Name])
    ensures { Emits (name_ops (table_slots table.now) (on_name_of form) names.now)
        draft.old draft.new }
{
    for name in names {
        let name = table.slot(*name);
        draft.push(match form {
            NameForm::Save => Op::Save(name),
            NameForm::Restore => Op::Restore(name),
            NameForm::Hide => Op::Hide(name),
            NameForm::Show => Op::Show(name),
        });
    }
}

/// Appends one operation for each gerund.
fn emit_gerunds(draft: &mut OpsDraft, switch: Switch, gerunds: &[Gerund])
    ensures { Emits (gerund_ops (on_gerund_of switch) gerunds.now) draft.old draft.new }
{
    for gerund in gerunds {
        draft.push(match switch {
            Switch::Abstain => Op::AbstainKind(*gerund),
            Switch::Reinstate => Op::ReinstateKind(*gerund),
        });
    }
}

/// Appends the operations that read input for each place.
fn emit_places(draft: &mut OpsDraft, table: &Table, places: &[Place])
    requires { list_all (λ place. is_item_kinded (place_tree place)) places.now ≡ true }
    ensures { Emits (flat_map (read_ops (table_slots table.now)) places.now)
        draft.old draft.new }
{
    for place in places {
        match place {
            Place::Scalar(name) => draft.push(Op::ReadTo(table.scalars.slot(*name))),
            Place::Element(element) => {
                let count = emit_exprs(draft, table, &element.subs);
                draft.push(Op::ReadAt(table.arrays.slot(element.array), count))
            }
            Place::Array(name) => draft.push(Op::ReadArray(table.arrays.slot(*name))),
        }
    }
}

/// Appends the operations that print each item.
fn emit_items(draft: &mut OpsDraft, table: &Table, items: &[Item])
    requires { list_all (λ item. is_item_kinded (item_tree item)) items.now ≡ true }
    ensures { Emits (flat_map (print_ops (table_slots table.now)) items.now)
        draft.old draft.new }
{
    for item in items {
        match item {
            Item::Scalar(name) => draft.push(Op::Load(table.scalars.slot(*name))),
            Item::Element(element) => emit_fetch(draft, table, element),
            Item::Mesh(number) => draft.push(Op::Constant(*number)),
            Item::Array(name) => {
                draft.push(Op::PrintArray(table.arrays.slot(*name)));
                continue;
            }
        }
        draft.push(Op::Print);
    }
}

/// Appends the operations that store a value in a target.
fn emit_store(draft: &mut OpsDraft, table: &Table, target: &Target)
    requires { is_kinded (target_tree target.now) ≡ true }
    ensures { Emits (store_ops (table_slots table.now) target.now) draft.old draft.new }
{
    match target {
        Target::Scalar(name) => draft.push(Op::Store(table.scalars.slot(*name))),
        Target::Element(element) => {
            let count = emit_exprs(draft, table, &element.subs);
            draft.push(Op::StoreAt(table.arrays.slot(element.array), count))
        }
    }
}

/// Appends the operations of an element.
#[cycle(expression)]
fn emit_fetch(draft: &mut OpsDraft, table: &Table, element: &Element)
    requires few { are_few (trees_in element.now.subs.items) ≡ true }
    requires kinded { are_kinded (trees_in element.now.subs.items) ≡ true }
    ensures { Emits (ops_at (table_slots table.now) (trees_in element.now.subs.items)
        (Op.Fetch (slot_in table.now.arrays.list.items element.now.array)))
        draft.old draft.new }
{
    let count = emit_exprs(draft, table, &element.subs);
    draft.push(Op::Fetch(table.arrays.slot(element.array), count))
}

/// Appends the operations of an expression.
#[cycle(expression)]
fn emit_expr(draft: &mut OpsDraft, table: &Table, e: &Expr)
    requires { is_kinded (tree_of e.now) ≡ true }
    ensures { Emits (ops_of_tree (table_slots table.now) (tree_of e.now)) draft.old draft.new }
{
    match e {
        Expr::Mesh(number) => draft.push(Op::Constant(*number)),
        Expr::Scalar(name) => draft.push(Op::Load(table.scalars.slot(*name))),
        Expr::Element(element) => emit_fetch(draft, table, element),
        Expr::Unary(op, inner) => {
            emit_expr(draft, table, inner);
            draft.push(match op {
                UnaryOp::And => Op::And,
                UnaryOp::Or => Op::Or,
                UnaryOp::Xor => Op::Xor,
            })
        }
        Expr::Binary(op, left, right) => {
            emit_expr(draft, table, left);
            emit_expr(draft, table, right);
            draft.push(match op {
                BinaryOp::Mingle => Op::Mingle,
                BinaryOp::Select => Op::Select,
            })
        }
    }
}

/// Appends the operations of expressions in their order, and returns the number of expressions.
#[cycle(expression)]
fn emit_exprs(draft: &mut OpsDraft, table: &Table, list: &Vec<Expr>) -> u32
    requires few { are_few (trees_in list.now.items) ≡ true }
    requires kinded { are_kinded (trees_in list.now.items) ≡ true }
    ensures count { result ≡ count_in (trees_in list.now.items) }
    ensures ops { Emits (ops_of_trees (table_slots table.now) (trees_in list.now.items))
        draft.old draft.new }
{
    let count = list.len() as u32;
    for e in list {
        emit_expr(draft, table, e);
    }
    count
}
