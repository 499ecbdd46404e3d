ghost use Rattle.std.specs.Prelude.{◌≡◌, ◌+◌, ◌-◌, ◌<◌, ◌≤◌, length, slice_index};

/// The place of the last bound before a number, in halving steps.
pub fn part_of(firsts: &[u32], number: u32) -> usize
    requires some { 2 ≤ length firsts.now }
    requires from { slice_index firsts.now 0 ≤ number }
    requires to { number < slice_index firsts.now (length firsts.now - 1) }
    ensures within { result + 1 < length firsts.now }
    ensures low { slice_index firsts.now result ≤ number }
    ensures high { number < slice_index firsts.now (result + 1) }
{
    let mut low = 0;
    let mut high = firsts.len() - 1;
    while high - low > 1 {
        let middle = low + (high - low) / 2;
        if firsts[middle] <= number {
            low = middle;
        } else {
            high = middle;
        }
    }
    low
}
