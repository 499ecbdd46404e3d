ghost use Rattle.std.specs.Prelude.{◌≡◌, OnOk};
ghost use Rattle.std.specs.FinSet as set;

use asm_update::Updates;
use std::alloc::AllocError;

/// Adds the pairs of another set, one by one where these are fewer. After an error some may have been added.
pub fn join(all: &mut Updates, more: &Updates) -> Result<(), AllocError>
    ensures { OnOk result (all.new ≡ set.union all.old more.now) }
{
    if more.pairs().len() < all.pairs().len() {
        add_each(all, more)
    } else {
        all.union(more)
    }
}

fn add_each(all: &mut Updates, more: &Updates) -> Result<(), AllocError>
    ensures { OnOk result (all.new ≡ set.union all.old more.now) }
{
    for pair in more.pairs() {
        all.add(pair.0, pair.1)?;
    }
    Ok(())
}
