ghost use Rattle.std.specs.Prelude.{◌≡◌, ◌≤◌, ◌<◌, ◌+◌, ◌-◌, ◌^◌, length, slice_index};
ghost use Rattle.shared_list.specs.Blocks.{IsRaised};

/// The number of the last start that is at most the place.
pub fn last_at_most(starts: &Vec<usize>, at: usize) -> usize
    requires some { 0 < length starts.now.items }
    requires first { slice_index starts.now.items 0 ≤ at }
    ensures there { result < length starts.now.items }
    ensures from { slice_index starts.now.items result ≤ at }
    ensures to { result + 1 < length starts.now.items → at < slice_index starts.now.items (result + 1) }
{
    let last = starts.len() - 1;
    // Most lists grow at their end, so the last start is looked at first.
    if starts[last] <= at {
        return last;
    }
    between(starts, at, last)
}

/// The same where it is likely to be a given number: that one is looked at before a search.
pub fn last_at_most_near(starts: &Vec<usize>, at: usize, likely: usize) -> usize
    requires some { 0 < length starts.now.items }
    requires first { slice_index starts.now.items 0 ≤ at }
    ensures there { result < length starts.now.items }
    ensures from { slice_index starts.now.items result ≤ at }
    ensures to { result + 1 < length starts.now.items → at < slice_index starts.now.items (result + 1) }
{
    if likely < starts.len() - 1 {
        if starts[likely] <= at {
            if at < starts[likely + 1] {
                return likely;
            }
        }
    }
    last_at_most(starts, at)
}

/// The same where the start of that number is known to be after the place.
fn between(starts: &Vec<usize>, at: usize, beyond: usize) -> usize
    requires within { beyond < length starts.now.items }
    requires first { slice_index starts.now.items 0 ≤ at }
    requires beyond { at < slice_index starts.now.items beyond }
    ensures there { result < length starts.now.items }
    ensures from { slice_index starts.now.items result ≤ at }
    ensures to { at < slice_index starts.now.items (result + 1) }
{
    let mut low = 0;
    let mut high = beyond;
    while high - low > 1 {
        let middle = low + (high - low) / 2;
        if starts[middle] <= at {
            low = middle;
        } else {
            high = middle;
        }
    }
    low
}

/// Moves the starts from that number on one place back.
pub fn raise(starts: &mut Vec<usize>, from: usize)
    requires { (k : _) → k < length starts.old.items → slice_index starts.old.items k < 2 ^ 64 - 1 }
    ensures { IsRaised from starts.old.items starts.new.items }
{
    for k in from..starts.len() {
        starts[k] += 1;
    }
}

/// Moves the starts from that number on one place to the front.
pub fn lower(starts: &mut Vec<usize>, from: usize)
    requires { (k : _) → from ≤ k → k < length starts.old.items → 0 < slice_index starts.old.items k }
    ensures { IsRaised from starts.new.items starts.old.items }
{
    for k in from..starts.len() {
        starts[k] -= 1;
    }
}
