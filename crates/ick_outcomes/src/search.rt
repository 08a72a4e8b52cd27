//! What a search keeps: nodes that wait in buckets, and rows of runs that ended.

ghost use Rattle.std.specs.Prelude.{◌≡◌, ◌<◌, [], IfOk, IfSome, IfNone};
ghost use Rattle.ick_outcomes.specs.Searches.{AreRising, HasBucket, IsDone, TakesDue};

use crate::bucket::Bucket;
use crate::filing::no_rows;
use crate::table::Table;
use ick_bits::NoMemory;
use std::alloc::Global;

/// The nodes that wait, in a bucket for each number of steps that one of them has left, the fewest
/// first; the number of these nodes; and the rows of the runs that ended.
#[derive(Drop)]
pub(crate) struct Search<S: Drop> {
    pub(crate) alloc: Global,
    pub(crate) buckets: Vec<Bucket<S>>,
    pub(crate) count: usize,
    pub(crate) table: Table,
    /// The number of the nodes that were due last.
    pub(crate) room: usize,
}

impl<S: Drop> Search<S> {
    /// Returns a search that keeps nothing.
    pub(crate) fn new(alloc: Global) -> Search<S>
        ensures buckets { result.buckets.items ≡ [] }
        ensures count { result.count ≡ 0 }
        ensures rows { result.table.rows.items ≡ [] }
    {
        Search {
            alloc,
            buckets: Vec::new(alloc),
            count: 0,
            table: no_rows(alloc),
            room: 1,
        }
    }

    /// Takes out the bucket of the nodes that have the most steps left, if any node waits.
    pub(crate) fn take_due(&mut self) -> Option<Bucket<S>>
        ensures due { IfSome result (λ due. TakesDue due self.old self.new) }
        ensures none { IfNone result (IsDone self.old self.new) }
    {
        match self.buckets.pop() {
            Some(due) => {
                self.room = due.nodes.len();
                self.count = self.count.saturating_sub(self.room);
                Some(due)
            }
            None => None,
        }
    }
}

/// Returns the index of the bucket for so many steps left. If there is none, an empty bucket is put
/// there. Its hints get room for so many if no other node waits: else rooms could add up.
pub(crate) fn find_bucket<S: Drop>(
    alloc: Global,
    buckets: &mut Vec<Bucket<S>>,
    left: u32,
    room: usize,
) -> Result<usize, NoMemory>
    requires some { 0 < left }
    requires rising { AreRising 0 buckets.old.items }
    ensures { IfOk result (λ at. HasBucket left at buckets.old.items buckets.new.items) }
{
    let at = buckets.partition_point(|bucket| bucket.left < left);
    if at < buckets.len() && buckets[at].left == left {
        return Ok(at);
    }
    let room = if buckets.is_empty() { room } else { 1 };
    buckets.insert(at, Bucket::new(alloc, left, room))?;
    Ok(at)
}
