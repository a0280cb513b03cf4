ghost use Rattle.std.specs.Prelude.{◌≡◌};
ghost use Rattle.mesh.specs.Rules.{all_three};
ghost use Rattle.mesh.specs.Outcome.{Trimmed};

use crate::lists::Lists;

// Arities that say no more than that every face has three corners are left out.
pub(crate) fn trim_arities(lists: &mut Lists)
    ensures { Trimmed lists.old lists.new }
{
    let arities = lists.face_arities.as_slice();
    if !arities.is_empty() && all_three(arities) {
        lists.face_arities.clear(0);
    }
}

// Whether every face has three corners.
fn all_three(arities: &[u32]) -> bool
    ensures { result ≡ all_three arities.now }
{
    arities.iter().all(|arity| *arity == 3)
}
