//! Bodies of statements, with all groups of their expressions in parentheses.

ghost use Rattle.std.specs.Prelude.{◌++◌, List, codes, map, ℕ};
ghost use Rattle.ick_inspect.specs.{Names.name_text, Text.Adds};
ghost use Rattle.ick_stages.specs.Bodies.{body_text, gerund_text, item_text, joined_text};
ghost use Rattle.ick_stages.specs.Bodies.{label_text};
ghost use Rattle.ick_stages.specs.Bodies.{some_text, summed_text};
ghost use Rattle.ick_stages.specs.Trees.{tree_text};
ghost use Rattle.ick_syntax.specs.BodyTree.{body_tree_of, calculate, dimension, item_tree, next};
ghost use Rattle.ick_syntax.specs.BodyTree.{place_tree, read_out, target_tree, write_in};
ghost use Rattle.ick_syntax.specs.Tree.{tree_of};

use crate::tree::{append_element, append_tree};
use ick_inspect::{Text, append_name};
use ick_syntax::{Body, Expr, Gerund, Item, Name, Place, Target};

/// A part of a body that stands in lists.
trait Part {
    /// The text of the part.
    ghost words: { Self → List ℕ };

    /// Appends the text of the part.
    fn append(&self, text: &mut Text)
        ensures { Adds text.old text.new (words self.now) };
}

impl Part for Expr {
    ghost words = { λ e. tree_text (tree_of e) };

    fn append(&self, text: &mut Text) {
        append_tree(text, self);
    }
}

impl Part for Name {
    ghost words = { λ name. name_text name };

    fn append(&self, text: &mut Text) {
        append_name(text, *self);
    }
}

impl Part for Gerund {
    ghost words = { λ gerund. gerund_text gerund };

    fn append(&self, text: &mut Text) {
        append_gerund(text, *self);
    }
}

impl Part for Place {
    ghost words = { λ place. item_text (place_tree place) };

    fn append(&self, text: &mut Text) {
        match self {
            Place::Scalar(name) | Place::Array(name) => append_name(text, *name),
            Place::Element(element) => append_element(text, element),
        }
    }
}

impl Part for Item {
    ghost words = { λ item. item_text (item_tree item) };

    fn append(&self, text: &mut Text) {
        match self {
            Item::Scalar(name) | Item::Array(name) => append_name(text, *name),
            Item::Element(element) => append_element(text, element),
            Item::Mesh(number) => {
                text.push(b"#");
                text.push_decimal(u64::from(*number));
            }
        }
    }
}

/// Appends the words of a gerund, with a space between them.
#[tactic(auto, unfolding(crate::specs::Bodies::gerund_text))]
pub fn append_gerund(text: &mut Text, gerund: Gerund)
    ensures { Adds text.old text.new (gerund_text gerund) }
{
    text.push(gerund.word());
    if let Some(word) = gerund.second_word() {
        text.push(b" ");
        text.push(word);
    }
}

/// Appends a list, with a separator between each two of its parts.
fn append_joined<P: Part>(text: &mut Text, separator: &[u8], parts: &[P])
    ensures { Adds text.old text.new (joined_text separator.now P.words parts.now) }
{
    let mut between: &[u8] = b"";
    for part in parts {
        text.push(between);
        part.append(text);
        between = separator;
    }
}

/// Appends the target of a calculation.
fn append_target(text: &mut Text, target: &Target)
    ensures { Adds text.old text.new (tree_text (target_tree target.now)) }
{
    match target {
        Target::Scalar(name) => append_name(text, *name),
        Target::Element(element) => append_element(text, element),
    }
}

/// Appends a label in parentheses.
#[tactic(auto, unfolding(crate::specs::Bodies::label_text))]
fn append_label(text: &mut Text, label: u16)
    ensures { Adds text.old text.new (label_text label) }
{
    text.push(b"(");
    text.push_decimal(u64::from(label));
    text.push(b")");
}

/// Appends a calculation: `.1 <- (.2 $ #3)`.
fn append_calculation(text: &mut Text, target: &Target, e: &Expr)
    ensures { Adds text.old text.new
        (some_text (calculate (target_tree target.now) (tree_of e.now))) }
{
    append_target(text, target);
    text.push(b" <- ");
    append_tree(text, e);
}

/// Appends expressions with ` BY ` between each two.
fn append_dimensions(text: &mut Text, dimensions: &[Expr])
    ensures { Adds text.old text.new
        (joined_text (codes " BY ") tree_text (map tree_of dimensions.now)) }
{
    append_joined(text, b" BY ", dimensions);
}

/// Appends a dimensioning: `,1 <- #3 BY #4`.
fn append_dimensioning(text: &mut Text, name: Name, dimensions: &[Expr])
    ensures { Adds text.old text.new (some_text (dimension name (map tree_of dimensions.now))) }
{
    append_name(text, name);
    text.push(b" <- ");
    append_dimensions(text, dimensions);
}

/// Appends a label and ` NEXT`.
fn append_next(text: &mut Text, label: u16)
    ensures { Adds text.old text.new (some_text (next label)) }
{
    append_label(text, label);
    text.push(b" NEXT");
}

/// Appends a word and a label.
fn append_labelled(text: &mut Text, word: &[u8], label: u16)
    ensures { Adds text.old text.new (word.now ++ label_text label) }
{
    text.push(word);
    append_label(text, label);
}

/// Appends a word and an expression.
fn append_after(text: &mut Text, word: &[u8], e: &Expr)
    ensures { Adds text.old text.new (word.now ++ tree_text (tree_of e.now)) }
{
    text.push(word);
    append_tree(text, e);
}

/// Appends a word and a list, with ` + ` between each two of its parts.
fn append_list<P: Part>(text: &mut Text, word: &[u8], parts: &[P])
    ensures { Adds text.old text.new (word.now ++ joined_text (codes " + ") P.words parts.now) }
{
    text.push(word);
    append_joined(text, b" + ", parts);
}

/// Appends a word and names.
fn append_names(text: &mut Text, word: &[u8], names: &[Name])
    ensures { Adds text.old text.new (word.now ++ summed_text name_text names.now) }
{
    append_list(text, word, names);
}

/// Appends a word and gerunds.
fn append_gerunds(text: &mut Text, word: &[u8], gerunds: &[Gerund])
    ensures { Adds text.old text.new (word.now ++ summed_text gerund_text gerunds.now) }
{
    append_list(text, word, gerunds);
}

/// Appends the places of WRITE IN.
fn append_places(text: &mut Text, places: &[Place])
    ensures { Adds text.old text.new (some_text (write_in (map place_tree places.now))) }
{
    append_list(text, b"WRITE IN ", places);
}

/// Appends the items of READ OUT.
fn append_items(text: &mut Text, items: &[Item])
    ensures { Adds text.old text.new (some_text (read_out (map item_tree items.now))) }
{
    append_list(text, b"READ OUT ", items);
}

/// Appends a body in one writing: `.1 <- (.2 $ #3)`, `,1 <- #3 BY #4`, `READ OUT .1 + (,1 SUB #2)`.
/// An unrecognised body is `-`.
pub fn append_body(text: &mut Text, body: &Body)
    ensures { Adds text.old text.new (body_text (body_tree_of body.now)) }
{
    match body {
        Body::Calculate(target, e) => append_calculation(text, target, e),
        Body::Dimension(name, dimensions) => append_dimensioning(text, *name, dimensions),
        Body::Next(label) => append_next(text, *label),
        Body::Forget(e) => append_after(text, b"FORGET ", e),
        Body::Resume(e) => append_after(text, b"RESUME ", e),
        Body::Stash(names) => append_names(text, b"STASH ", names),
        Body::Retrieve(names) => append_names(text, b"RETRIEVE ", names),
        Body::Ignore(names) => append_names(text, b"IGNORE ", names),
        Body::Remember(names) => append_names(text, b"REMEMBER ", names),
        Body::AbstainLabel(label) => append_labelled(text, b"ABSTAIN FROM ", *label),
        Body::AbstainKinds(gerunds) => append_gerunds(text, b"ABSTAIN FROM ", gerunds),
        Body::ReinstateLabel(label) => append_labelled(text, b"REINSTATE ", *label),
        Body::ReinstateKinds(gerunds) => append_gerunds(text, b"REINSTATE ", gerunds),
        Body::GiveUp => text.push(b"GIVE UP"),
        Body::WriteIn(places) => append_places(text, places),
        Body::ReadOut(items) => append_items(text, items),
        Body::Unrecognised => text.push(b"-"),
    }
}
