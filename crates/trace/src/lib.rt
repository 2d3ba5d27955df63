// The path by predecessors: counted first, then written from its end. A predecessor u stands as u + 1, and 0 for none.
#![tactic(auto)]

ghost use Rattle.std.specs.Prelude.{◌≡◌, [], ◌++◌, ◌^◌, ◌≤◌, ◌<◌, length, drop};
ghost use Rattle.best_first.specs.Search.{trace};
ghost use Rattle.trace.specs.Traces.{PreviousInside};

// How many cells lead to a cell, itself included: at most as many as there are.
fn trace_length(previous: &[u32], to: usize) -> usize
    requires to_in_bounds { to < length previous.now }
    requires previous_inside { PreviousInside previous.now }
    ensures { result ≡ length (trace (length previous.now) previous.now to []) }
{
    let mut cell = to;
    for n in 0..previous.len() {
        let before = previous[cell];
        if before == 0 {
            return n + 1;
        }
        cell = (before - 1) as usize;
    }
    previous.len()
}

// Writes the cells that lead to a cell, of which there are `count`, to the front of the path. A cell's number fits 32 bits.
fn trace_into(previous: &[u32], to: usize, path: &mut [u32], count: usize)
    requires to_in_bounds { to < length previous.now }
    requires previous_inside { PreviousInside previous.now }
    requires previous_len_bound { length previous.now ≤ 2 ^ 32 }
    requires count_value { count ≡ length (trace (length previous.now) previous.now to []) }
    requires count_in_bounds { count ≤ length path.old }
    ensures { path.new ≡ trace (length previous.now) previous.now to [] ++ drop count path.old }
{
    let mut cell = to;
    for left in (0..count).rev() {
        path[left] = cell as u32;
        let before = previous[cell];
        if before != 0 {
            cell = (before - 1) as usize;
        }
    }
}

// Writes the cells that lead to a cell to the front of the path, and gives how many they are. A cell's number fits 32 bits.
pub fn path_to(previous: &[u32], to: usize, path: &mut [u32]) -> usize
    requires to_in_bounds { to < length previous.now }
    requires previous_inside { PreviousInside previous.now }
    requires previous_len_bound { length previous.now ≤ 2 ^ 32 }
    requires previous_in_bounds { length previous.now ≤ length path.old }
    ensures value { result ≡ length (trace (length previous.now) previous.now to []) }
    ensures path_after { path.new ≡ trace (length previous.now) previous.now to [] ++ drop result path.old }
{
    let count = trace_length(previous, to);
    trace_into(previous, to, path, count);
    count
}
