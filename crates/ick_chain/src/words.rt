//! Lists of choices, kept by numbers, and checks that they are the least that lead to nodes.

ghost use Rattle.std.specs.Prelude.{◌≡◌, ◌<◌, true, length, slice_index_or};
ghost use Rattle.ick_chain.specs.FirstRuns.{IsNoMore};
ghost use Rattle.ick_chain.specs.Ways.{IsWay};
ghost use Rattle.ick_chain.specs.Words.{Anywhere, AreLeast, AreWords, IsLeastNode, IsRisen};
ghost use Rattle.ick_chain.specs.Words.{IsSooner, IsWithin, word_at, word_of};

use crate::chain::{Fork, Node};

/// Another list of choices, by its number, and one more choice.
#[derive(Clone, Copy)]
pub(crate) struct Word {
    pub(crate) parent: usize,
    pub(crate) choice: bool,
}

/// Lists of choices, and for each node the number of one that leads to it. The number 0 is that of
/// the empty list.
#[derive(Drop)]
pub(crate) struct Labels {
    pub(crate) words: Vec<Word>,
    pub(crate) of: Vec<usize>,
    /// For each list of choices the last node that has it.
    pub(crate) ends: Vec<usize>,
}

/// Returns whether a list of choices comes before another with a greater number.
fn is_sooner(one: Word, other: Word) -> bool
    ensures { result ≡ true → IsSooner one other }
{
    if one.parent < other.parent {
        return true;
    }
    one.parent == other.parent && !one.choice && other.choice
}

/// Returns whether a list of choices is behind the one that it grows from, and behind that with the
/// number before.
fn is_risen(words: &[Word], at: usize) -> bool
    requires { at < length words.now }
    ensures { result ≡ true → IsRisen words.now at }
{
    let word = words[at];
    if word.parent >= at {
        return false;
    }
    if at < 2 {
        return true;
    }
    is_sooner(words[at - 1], word)
}

/// Returns whether lists of choices rise: a longer one is behind a shorter one, and of two that are
/// as long the first in the order of listings comes first.
fn are_words(words: &[Word]) -> bool
    ensures { result ≡ true → AreWords words.now }
{
    'words: for at in 1..words.len() {
        if !is_risen(words, at) {
            return false;
        }
    }
    true
}

/// Returns the number of the list of a node, or 0 if it has none.
pub(crate) fn label_at(of: &[usize], at: usize) -> usize
    ensures { result ≡ slice_index_or of.now at 0 }
{
    if at < of.len() { of[at] } else { 0 }
}

/// Returns whether a list of choices is no more than another with one more choice behind it.
fn is_within(words: &[Word], to: usize, from: usize, choice: bool) -> bool
    ensures { result ≡ true → IsWithin words.now to from choice }
{
    if to == 0 {
        return true;
    }
    if to >= words.len() {
        return false;
    }
    if words[to].parent < from {
        return true;
    }
    words[to].parent == from && (choice || !words[to].choice)
}

/// Returns whether the lists of the nodes that a fork leads to are no more than that of its node
/// with the choice behind it. The lists must rise.
fn is_way(labels: &Labels, fork: Fork, at: usize) -> bool
    requires { AreWords labels.now.words.items }
    ensures { result ≡ true → IsWay Anywhere IsNoMore (word_at labels.now) at fork }
{
    let from = label_at(&labels.of, at);
    if from >= labels.words.len() {
        return false;
    }
    let zero = label_at(&labels.of, fork.zero.to);
    if fork.chance == 0 {
        return zero <= from;
    }
    let one = label_at(&labels.of, fork.one.to);
    is_within(&labels.words, zero, from, false) && is_within(&labels.words, one, from, true)
}

/// Returns whether this is so for the fork of a node, if it has one, and the node has a list.
fn is_way_of(labels: &Labels, node: Node, at: usize) -> bool
    requires { AreWords labels.now.words.items }
    ensures { result ≡ true → IsLeastNode labels.now at node }
{
    if label_at(&labels.of, at) >= labels.words.len() {
        return false;
    }
    match node {
        Node::Ends => true,
        Node::Goes(fork) => is_way(labels, fork, at),
        Node::Stuck(fork) => is_way(labels, fork, at),
    }
}

/// Returns whether the list of each node is the least of all that lead to it: it has the fewest
/// choices, and is the first of those that have as many.
pub(crate) fn are_least(nodes: &[Node], labels: &Labels) -> bool
    ensures words { result ≡ true → AreWords labels.now.words.items }
    ensures least { result ≡ true → AreLeast nodes.now labels.now }
{
    if !are_words(&labels.words) || label_at(&labels.of, 0) != 0 {
        return false;
    }
    'nodes: for at in 0..nodes.len() {
        if !is_way_of(labels, nodes[at], at) {
            return false;
        }
    }
    true
}

/// Returns whether two choices are the same.
fn is_same(one: bool, other: bool) -> bool
    ensures { result ≡ true → one ≡ other }
{
    one == other
}

/// Returns true only if these are the choices of the list with a number. The lists must rise.
#[tactic(auto, using(crate::proofs::WordLaws::word_begin))]
pub(crate) fn is_word(words: &[Word], number: usize, choices: &[bool]) -> bool
    requires { AreWords words.now }
    ensures { result ≡ true → word_of words.now number ≡ choices.now }
{
    let mut at = number;
    'back: for back in 0..choices.len() {
        if at == 0 || at >= words.len() {
            return false;
        }
        let word = words[at];
        if !is_same(word.choice, choices[choices.len() - 1 - back]) {
            return false;
        }
        at = word.parent;
    }
    at == 0
}
