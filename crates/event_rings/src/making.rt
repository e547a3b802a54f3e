//! The making of a ring.

ghost use Rattle.std.specs.Prelude.{◌≡◌, ◌≤◌, true, false, [], IfOk};
ghost use Rattle.crossbeam_queue.specs.Passes.{view as seen, IsPassOf, ruled_capacity};
ghost use Rattle.event_rings.specs.Known.{known};
ghost use Rattle.event_rings.specs.Ends.{IsNew, max_capacity, max_limit};

use crate::known::Known;
use crate::putter::Putter;
use crate::rule::{Line, Made, Numbers};
use crate::taker::Taker;
use crossbeam_queue::Pass;
use sl_base::Memory;
use sl_commands::Item;
use std::alloc::Global;
use std::marker::Brand;
use std::sync::{Arc, Wait};

/// The greatest capacity of a ring, in items.
pub const MAX_CAPACITY: usize = 65536;
/// The greatest limit of a ring, the number of items that are ever sent on it: 2^62 - 1.
pub const MAX_LIMIT: u64 = 4611686018427387903;

/// The two ends of a new ring that holds `capacity` items, 1 to 65536. Its limit is the greatest,
/// and its bound 0.
pub fn ring<T: Item, R: Wait>(
    alloc: Global,
    wait: &R,
    capacity: usize,
) -> Result<(Putter<T>, Taker<T>), Memory>
    requires least { 1 ≤ capacity }
    requires most { capacity ≤ max_capacity }
    ensures { IfOk result (λ ends. IsNew capacity max_limit 0 ends.0 ends.1) }
{
    ring_with(alloc, wait, capacity, MAX_LIMIT, 0)
}

/// The two ends of a new ring that holds `capacity` items, 1 to 65536. At most `limit` items, 2^62
/// - 1 at most, are ever sent on it, each of which may follow those before it under `bound`.
pub fn ring_with<T: Item, R: Wait>(
    alloc: Global,
    wait: &R,
    capacity: usize,
    limit: u64,
    bound: u64,
) -> Result<(Putter<T>, Taker<T>), Memory>
    requires least { 1 ≤ capacity }
    requires most { capacity ≤ max_capacity }
    requires limit { limit ≤ max_limit }
    ensures { IfOk result (λ ends. IsNew capacity limit bound ends.0 ends.1) }
{
    let _ = wait;
    let (line, mut pass) = match Line::<T>::ruled(alloc, capacity) {
        Ok(made) => made,
        Err(_) => return Err(Memory),
    };
    let takes = parted::<T, Brand>(&line, &mut pass, limit, bound);
    let line = Arc::new(alloc, line).map_err(|_| Memory)?;
    let theirs = Arc::try_clone(&line).map_err(|_| Memory)?;
    let putter = Putter {
        line,
        pass,
        fulls: 0,
    };
    let taker = Taker {
        line: theirs,
        pass: takes,
        nones: 0,
    };
    Ok((putter, taker))
}

// Parts a new ring's pass in the putter's and the taker's.
fn parted<T: Item, J: Numbers>(
    line: &Line<T>,
    pass: &mut Pass<T, Known<T>>,
    limit: u64,
    bound: u64,
) -> Pass<T, Known<T>>
    requires queue { IsPassOf line.now pass.old }
    requires new { seen pass.old ≡ known true true [] [] 0 0 0 }
    requires capacity { J.capacity ≡ ruled_capacity line.now }
    requires limit { J.limit ≡ limit }
    requires bound { J.bound ≡ bound }
    ensures queue { IsPassOf line.now pass.new × IsPassOf line.now result }
    ensures putter { seen pass.new ≡ known true false [] [] (ruled_capacity line.now) limit bound }
    ensures taker { seen result ≡ known false true [] [] (ruled_capacity line.now) limit bound }
{
    let _ = (limit, bound);
    line.another::<Made<J>>(pass)
}
