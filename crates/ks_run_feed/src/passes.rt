//! The passes of a lock.
ghost use Rattle.std.specs.Prelude.{◌≡◌, ◌<◌, ◌∷◌, length};

use ks_cluster::Work;
use ks_growing::Pass;
use ks_shared::SharedState;

/// The first pass of a lock, and the others in their order.
pub fn split_first<W: Work>(
    mut passes: Vec<Pass<SharedState<W>>>,
) -> (Pass<SharedState<W>>, Vec<Pass<SharedState<W>>>)
    requires { 0 < length passes.items }
    ensures { passes.items ≡ result.0 ∷ result.1.items }
{
    let first = passes.remove(0);
    (first, passes)
}
