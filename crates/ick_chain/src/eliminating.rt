//! Solves for the visits of a chain modulo a prime. Nothing rests on it.

ghost use Rattle.std.specs.Prelude.{◌≡◌, ℕ, length, Err};
ghost use Rattle.ick_chain.specs.Kept.{HasMoreEntries};

use crate::chain::{Edge, Node};
use crate::errors::ChainError;
use crate::memory::count_entries;
use crate::modular::{inverse, minus, plus, times};
use crate::ordering::Queue;
use ick_bits::NoMemory;
use std::alloc::Global;

/// What is kept for each entry of a row: a part of a row, a source, and a part of an equation.
const ENTRY_BYTES: u64 = 40;

/// A node, and a number of visits of another that go to it.
#[derive(Clone, Copy)]
struct Entry {
    to: usize,
    part: u32,
}

/// Where the visits of each node go, and where they may come from. Eliminated nodes stay among the
/// sources, so each node counts those other sources that are left.
#[derive(Drop)]
struct System {
    rows: Vec<Vec<Entry>>,
    sources: Vec<Vec<usize>>,
    live: Vec<usize>,
    gone: Vec<bool>,
    prime: u32,
    /// How many entries were added to rows.
    entries: u64,
}

/// The visits of a node: a number of its own, and parts of the visits of other nodes.
#[derive(Drop)]
struct Equation {
    node: usize,
    own: u32,
    parts: Vec<Entry>,
}

fn number_at(numbers: &[u32], at: usize) -> u32 {
    if at < numbers.len() {
        return numbers[at];
    }
    0
}

fn add_number(numbers: &mut [u32], at: usize, more: u32, prime: u32) {
    if at < numbers.len() {
        numbers[at] = plus(numbers[at], more, prime);
    }
}

fn set_number(numbers: &mut [u32], at: usize, number: u32) {
    if at < numbers.len() {
        numbers[at] = number;
    }
}

fn is_gone(gone: &[bool], at: usize) -> bool {
    at >= gone.len() || gone[at]
}

fn gain_source(live: &mut [usize], at: usize) {
    if at < live.len() {
        live[at] = live[at].wrapping_add(1);
    }
}

fn lose_source(live: &mut [usize], at: usize) {
    if at < live.len() && live[at] > 0 {
        live[at] = live[at] - 1;
    }
}

/// Adds to an entry of a row. Returns whether there was none.
fn add_part(row: &mut Vec<Entry>, to: usize, part: u32, prime: u32) -> Result<bool, NoMemory> {
    'entries: for at in 0..row.len() {
        if row[at].to == to {
            row[at] = Entry {
                to,
                part: plus(row[at].part, part, prime),
            };
            return Ok(false);
        }
    }
    row.push(Entry { to, part })?;
    Ok(true)
}

/// Removes an entry of a row, and returns its part.
fn take_part(row: &mut Vec<Entry>, to: usize) -> u32 {
    'entries: for at in 0..row.len() {
        if row[at].to == to {
            let part = row[at].part;
            row.swap_remove(at);
            return part;
        }
    }
    0
}

/// Adds a part that goes from a node to another.
fn connect(system: &mut System, from: usize, to: usize, part: u32) -> Result<(), NoMemory> {
    if from < system.rows.len() && to < system.sources.len() {
        if add_part(&mut system.rows[from], to, part, system.prime)? {
            system.sources[to].push(from)?;
            system.entries = system.entries.saturating_add(1);
            if from != to {
                gain_source(&mut system.live, to);
            }
        }
    }
    Ok(())
}

fn goes(nodes: &[Node], at: usize) -> bool {
    at < nodes.len() && matches!(nodes[at], Node::Goes(_))
}

/// Adds an edge to a node that goes on. `hundredth` is 1/100 modulo the prime.
fn connect_edge(
    system: &mut System,
    nodes: &[Node],
    from: usize,
    edge: Edge,
    chance: u32,
    hundredth: u32,
) -> Result<(), NoMemory> {
    if chance > 0 && goes(nodes, edge.to) {
        let part = times(chance, hundredth, system.prime);
        connect(system, from, edge.to, part)?;
    }
    Ok(())
}

fn hundredths(chance: u8) -> (u32, u32) {
    let one = u32::from(chance);
    if one > 100 {
        return (0, 100);
    }
    (100 - one, one)
}

/// Returns a system without edges.
fn empty(alloc: Global, count: usize, prime: u32) -> Result<System, NoMemory> {
    let mut rows = Vec::new(alloc);
    let mut sources = Vec::new(alloc);
    let mut live = Vec::new(alloc);
    let mut gone = Vec::new(alloc);
    'nodes: for at in 0..count {
        rows.push(Vec::new(alloc))?;
        sources.push(Vec::new(alloc))?;
        live.push(0)?;
        gone.push(false)?;
    }
    Ok(System {
        rows,
        sources,
        live,
        gone,
        prime,
        entries: 0,
    })
}

/// Returns the system of a chain.
fn system_of(alloc: Global, nodes: &[Node], prime: u32) -> Result<System, NoMemory> {
    let mut system = empty(alloc, nodes.len(), prime)?;
    let hundredth = inverse(100, prime);
    'nodes: for at in 0..nodes.len() {
        if let Node::Goes(fork) = nodes[at] {
            let (zero, one) = hundredths(fork.chance);
            connect_edge(&mut system, nodes, at, fork.zero, zero, hundredth)?;
            connect_edge(&mut system, nodes, at, fork.one, one, hundredth)?;
        }
    }
    Ok(system)
}

/// Lets a part of the visits of a node go on where an eliminated node led.
fn pass_on(system: &mut System, from: usize, part: u32, row: &[Entry]) -> Result<(), NoMemory> {
    'targets: for target in 0..row.len() {
        let more = times(part, row[target].part, system.prime);
        connect(system, from, row[target].to, more)?;
    }
    Ok(())
}

/// Lets the visits that begin at an eliminated node begin where it led.
fn begin_behind(system: &mut System, own: &mut [u32], share: u32, row: &[Entry]) {
    'targets: for target in 0..row.len() {
        let to = row[target].to;
        let more = times(share, row[target].part, system.prime);
        add_number(own, to, more, system.prime);
        lose_source(&mut system.live, to);
    }
}

/// Returns the parts of the visits of other nodes that come to a node, multiplied by a factor, and
/// lets them go on where the node led.
fn redirect(
    alloc: Global,
    system: &mut System,
    node: usize,
    factor: u32,
    row: &[Entry],
) -> Result<Vec<Entry>, NoMemory> {
    let mut parts = Vec::new(alloc);
    if node < system.sources.len() {
        let sources = system.sources[node].clone()?;
        'sources: for source in 0..sources.len() {
            let from = sources[source];
            if !is_gone(&system.gone, from) && from < system.rows.len() {
                let part = times(
                    take_part(&mut system.rows[from], node),
                    factor,
                    system.prime,
                );
                parts.push(Entry { to: from, part })?;
                pass_on(system, from, part, row)?;
            }
        }
    }
    Ok(parts)
}

/// Returns how often a node is visited for each visit from another node, if this part of its visits
/// comes back to it at once.
fn factor_of(round: u32, prime: u32) -> u32 {
    if round == 0 {
        return 1;
    }
    inverse(minus(1, round, prime), prime)
}

/// Eliminates a node: what comes to it goes on to the nodes that it leads to.
fn eliminate(
    alloc: Global,
    system: &mut System,
    own: &mut [u32],
    node: usize,
    queue: &mut Queue,
) -> Result<Equation, NoMemory> {
    let mut equation = Equation {
        node,
        own: 0,
        parts: Vec::new(alloc),
    };
    if node < system.rows.len() && node < system.gone.len() {
        let round = take_part(&mut system.rows[node], node);
        let factor = factor_of(round, system.prime);
        let row = system.rows[node].clone()?;
        system.gone[node] = true;
        equation.own = times(number_at(own, node), factor, system.prime);
        equation.parts = redirect(alloc, system, node, factor, &row)?;
        begin_behind(system, own, equation.own, &row);
        queue_again(system, queue, &equation.parts)?;
        queue_again(system, queue, &row)?;
    }
    Ok(equation)
}

/// Returns how many edges at most there are if a node is eliminated, or `None` if it is gone.
fn cost(system: &System, node: usize) -> Option<usize> {
    if is_gone(&system.gone, node) || node >= system.rows.len() || node >= system.live.len() {
        return None;
    }
    let targets = system.rows[node].len() % 1_000_000;
    let sources = system.live[node] % 1_000_000;
    Some(targets * sources)
}

/// Puts the nodes of entries into the queue again, since their costs have changed.
fn queue_again(system: &System, queue: &mut Queue, entries: &[Entry]) -> Result<(), NoMemory> {
    if queue.is_closed() {
        return Ok(());
    }
    'entries: for at in 0..entries.len() {
        if let Some(cost) = cost(system, entries[at].to) {
            queue.push(entries[at].to, cost)?;
        }
    }
    Ok(())
}

/// Puts all nodes that go on into the queue.
fn queue_all(system: &System, nodes: &[Node], queue: &mut Queue) -> Result<(), NoMemory> {
    'nodes: for back in 0..nodes.len() {
        let at = nodes.len() - 1 - back;
        if goes(nodes, at) {
            if let Some(cost) = cost(system, at) {
                queue.push(at, cost)?;
            }
        }
    }
    Ok(())
}

/// Returns the node that is left whose elimination costs least.
fn cheapest(system: &System, queue: &mut Queue) -> Option<usize> {
    'entries: for entry in 0..usize::MAX {
        match queue.pop() {
            Some((node, level)) => {
                if let Some(cost) = cost(system, node) {
                    if Queue::level(cost) == level {
                        return Some(node);
                    }
                }
            }
            None => return None,
        }
    }
    None
}

/// Refuses more than `room` bytes for the entries of a system of so many nodes. `NotSolved` means
/// that an entry was added twice. No program is known that gets it.
#[tactic(auto, using(crate::proofs::KeptLaws::more_entries))]
fn limit_entries(alloc: Global, system: &System, count: usize, room: u64) -> Result<(), ChainError>
    ensures many { (steps : ℕ) → result ≡ Err (ChainError.TooManyStates steps) → ⊥ }
    ensures much { result ≡ Err ChainError.TooMuchKept → HasMoreEntries count room }
{
    if ENTRY_BYTES.saturating_mul(system.entries) <= room {
        return Ok(());
    }
    let entries = count_entries(alloc, &system.sources, count)?;
    if ENTRY_BYTES.saturating_mul(entries) > room {
        return Err(ChainError::TooMuchKept);
    }
    Err(ChainError::NotSolved)
}

/// Eliminates a node, and appends its equation.
fn append_equation(
    alloc: Global,
    system: &mut System,
    own: &mut [u32],
    node: usize,
    queue: &mut Queue,
    equations: &mut Vec<Equation>,
) -> Result<(), NoMemory> {
    equations.push(eliminate(alloc, system, own, node, queue)?)?;
    Ok(())
}

/// Appends a node to an order of elimination.
fn append_node(order: &mut Vec<usize>, node: usize) -> Result<(), NoMemory> {
    order.push(node)?;
    Ok(())
}

/// Eliminates all nodes that go on, the cheapest first, and notes the order.
fn eliminate_cheapest(
    alloc: Global,
    system: &mut System,
    nodes: &[Node],
    own: &mut [u32],
    order: &mut Vec<usize>,
    room: u64,
) -> Result<Vec<Equation>, ChainError>
    ensures many { (steps : ℕ) → result ≡ Err (ChainError.TooManyStates steps) → ⊥ }
    ensures much { result ≡ Err ChainError.TooMuchKept → HasMoreEntries (length nodes.now) room }
{
    let mut queue = Queue::new(alloc)?;
    queue_all(system, nodes, &mut queue)?;
    let mut equations = Vec::new(alloc);
    'nodes: for turn in 0..nodes.len() {
        if let Some(node) = cheapest(system, &mut queue) {
            append_node(order, node)?;
            append_equation(alloc, system, own, node, &mut queue, &mut equations)?;
            limit_entries(alloc, system, nodes.len(), room)?;
        }
    }
    Ok(equations)
}

/// Eliminates nodes in an order.
fn eliminate_ordered(
    alloc: Global,
    system: &mut System,
    own: &mut [u32],
    order: &[usize],
    count: usize,
    room: u64,
) -> Result<Vec<Equation>, ChainError>
    ensures many { (steps : ℕ) → result ≡ Err (ChainError.TooManyStates steps) → ⊥ }
    ensures much { result ≡ Err ChainError.TooMuchKept → HasMoreEntries count room }
{
    let mut queue = Queue::closed(alloc);
    let mut equations = Vec::new(alloc);
    'nodes: for turn in 0..order.len() {
        append_equation(alloc, system, own, order[turn], &mut queue, &mut equations)?;
        limit_entries(alloc, system, count, room)?;
    }
    Ok(equations)
}

/// Eliminates a node from the equations of means: each of its sources gets what the node would add.
fn eliminate_mean(
    alloc: Global,
    system: &mut System,
    own: &mut [u32],
    node: usize,
) -> Result<Equation, NoMemory> {
    let mut equation = Equation {
        node,
        own: 0,
        parts: Vec::new(alloc),
    };
    if node < system.rows.len() && node < system.gone.len() {
        let round = take_part(&mut system.rows[node], node);
        let factor = factor_of(round, system.prime);
        let row = system.rows[node].clone()?;
        let mine = number_at(own, node);
        system.gone[node] = true;
        let sources = redirect(alloc, system, node, factor, &row)?;
        add_all(own, &sources, mine, system.prime);
        equation.own = times(mine, factor, system.prime);
        equation.parts = scaled(alloc, &row, factor, system.prime)?;
    }
    Ok(equation)
}

/// Adds parts of a number to the numbers that entries name.
fn add_all(numbers: &mut [u32], entries: &[Entry], number: u32, prime: u32) {
    'entries: for at in 0..entries.len() {
        let more = times(entries[at].part, number, prime);
        add_number(numbers, entries[at].to, more, prime);
    }
}

/// Returns entries with all parts multiplied by a factor.
fn scaled(
    alloc: Global,
    entries: &[Entry],
    factor: u32,
    prime: u32,
) -> Result<Vec<Entry>, NoMemory> {
    let mut scaled = Vec::new(alloc);
    'entries: for at in 0..entries.len() {
        scaled.push(Entry {
            to: entries[at].to,
            part: times(entries[at].part, factor, prime),
        })?;
    }
    Ok(scaled)
}

/// Returns the mean number of steps from each node to the next, modulo a prime.
fn steps_modulo(alloc: Global, nodes: &[Node], prime: u32) -> Result<Vec<u32>, NoMemory> {
    let hundredth = inverse(100, prime);
    let mut steps = Vec::new(alloc);
    'nodes: for at in 0..nodes.len() {
        let mut mean = 0;
        if let Node::Goes(fork) = nodes[at] {
            let (zero, one) = hundredths(fork.chance);
            let first = times(fork.zero.steps, zero, prime);
            let second = times(fork.one.steps, one, prime);
            mean = times(plus(first, second, prime), hundredth, prime);
        }
        steps.push(mean)?;
    }
    Ok(steps)
}

/// Returns the mean numbers of steps from all nodes modulo a prime, by an order of elimination.
pub(crate) fn means_modulo(
    alloc: Global,
    nodes: &[Node],
    order: &[usize],
    prime: u32,
) -> Result<Vec<u32>, NoMemory> {
    let mut system = system_of(alloc, nodes, prime)?;
    let mut own = steps_modulo(alloc, nodes, prime)?;
    let mut equations = Vec::new(alloc);
    'nodes: for turn in 0..order.len() {
        equations.push(eliminate_mean(alloc, &mut system, &mut own, order[turn])?)?;
    }
    let mut means = Vec::new(alloc);
    'zeros: for at in 0..nodes.len() {
        means.push(0)?;
    }
    put_back(&mut means, &equations, prime);
    Ok(means)
}

/// Puts the numbers of eliminated nodes into their places, the last one first.
fn put_back(visits: &mut [u32], equations: &[Equation], prime: u32) {
    'back: for back in 0..equations.len() {
        let at = equations.len() - 1 - back;
        let equation = &equations[at];
        let mut sum = equation.own;
        'parts: for part in 0..equation.parts.len() {
            let entry = equation.parts[part];
            sum = plus(
                sum,
                times(number_at(visits, entry.to), entry.part, prime),
                prime,
            );
        }
        set_number(visits, equation.node, sum);
    }
}

/// Adds the hundredths of a node's visits that go along an edge to a node that doesn't go on.
fn arrive(visits: &mut [u32], nodes: &[Node], hundredths: u32, edge: Edge, part: u32, prime: u32) {
    if !goes(nodes, edge.to) {
        add_number(visits, edge.to, times(hundredths, part, prime), prime);
    }
}

/// Adds the visits of the nodes that don't go on.
fn arrive_all(visits: &mut [u32], nodes: &[Node], prime: u32) {
    let hundredth = inverse(100, prime);
    'nodes: for at in 0..nodes.len() {
        if let Node::Goes(fork) = nodes[at] {
            let (zero, one) = hundredths(fork.chance);
            let part = times(number_at(visits, at), hundredth, prime);
            arrive(visits, nodes, part, fork.zero, zero, prime);
            arrive(visits, nodes, part, fork.one, one, prime);
        }
    }
}

/// Returns the visits that begin at each node: one at the first.
fn first_visits(alloc: Global, count: usize) -> Result<Vec<u32>, NoMemory> {
    let mut visits = Vec::new(alloc);
    'nodes: for at in 0..count {
        visits.push(if at == 0 { 1 } else { 0 })?;
    }
    Ok(visits)
}

/// Returns the visits of all nodes modulo a prime. `order` has the order of elimination, or is
/// empty and gets it. The entries of rows may take at most `room` bytes.
pub(crate) fn visits_modulo(
    alloc: Global,
    nodes: &[Node],
    order: &mut Vec<usize>,
    prime: u32,
    room: u64,
) -> Result<Vec<u32>, ChainError>
    ensures many { (steps : ℕ) → result ≡ Err (ChainError.TooManyStates steps) → ⊥ }
    ensures much { result ≡ Err ChainError.TooMuchKept → HasMoreEntries (length nodes.now) room }
{
    let mut system = system_of(alloc, nodes, prime)?;
    let mut visits = first_visits(alloc, nodes.len())?;
    let equations = if order.is_empty() {
        eliminate_cheapest(alloc, &mut system, nodes, &mut visits, order, room)?
    } else {
        eliminate_ordered(alloc, &mut system, &mut visits, order, nodes.len(), room)?
    };
    put_back(&mut visits, &equations, prime);
    arrive_all(&mut visits, nodes, prime);
    Ok(visits)
}
