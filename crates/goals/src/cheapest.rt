// Of the goals' routes the first strictly cheapest is kept.
ghost use Rattle.std.specs.Prelude.{◌≡◌, [], ◌++◌, ◌≤◌, length, take, drop, Ok};
ghost use Rattle.goals.specs.Goals.{beats};
ghost use Rattle.goals.specs.Trials.{told, length_of, KeepsCheaper};

use crate::Found;
use room::Cost;

// Whether a route of this cost takes the place of what is kept, whatever its cells are.
fn beats(kept: Option<Found>, cost: Cost) -> bool
    ensures { result ≡ beats cost.0 (told (Ok kept) []) }
{
    match kept {
        Some(found) => cost.0 < found.cost.0,
        None => true,
    }
}

// Copies the first cells of one path to the front of another. Not by `copy_from_slice`, which calls `memmove`: the archive
// for C needs `memset` and `memcpy` alone.
pub fn copy_cells(from: &[u32], to: &mut [u32], count: usize)
    requires { (count ≤ length from.now) × (count ≤ length to.old) }
    ensures { to.new ≡ take count from.now ++ drop count to.old }
{
    for i in 0..count {
        to[i] = from[i];
    }
}

// Of what is kept and what a later goal came to, the cheaper one.
pub fn keep_cheaper(
    kept: Option<Found>,
    tried: Option<Found>,
    path: &[u32],
    best: &mut [u32],
) -> Option<Found>
    requires { (length path.now ≡ length best.old) × (length_of (Ok tried) ≤ length path.now) }
    ensures { KeepsCheaper kept tried path.now best.old result best.new }
{
    let Some(found) = tried else {
        return kept;
    };
    if !beats(kept, found.cost) {
        return kept;
    }
    copy_cells(path, best, found.length);
    tried
}
