ghost use Rattle.std.specs.Prelude.{◌≡◌};
ghost use Rattle.vcode_base.specs.Kinds.{HaveKinds, segmented_operands};
ghost use Rattle.vcode_base.specs.Meaning.{segmented_need};
ghost use Rattle.vcode_base.specs.Operands.{contents};

use crate::descriptors::total_of;
use crate::packs::count_set;
use vcode_base::Segmented;

/// The lengths of the first and of the second result, in words: 0 for a result that the instruction doesn't have.
///
/// `op` and `ops` are as for [`shape`](crate::shape), which has answered `Ok`. Nothing is made: the
/// length of a result that no memory could hold is found as fast as any.
#[inline(always)]
pub fn need(op: Segmented, ops: &[&[i64]]) -> (u64, u64)
    requires kinds { HaveKinds (segmented_operands op) (contents ops.now) }
    ensures { result ≡ segmented_need op (contents ops.now) }
{
    match op {
        Segmented::Scan(_)
        | Segmented::Permute(_)
        | Segmented::Replace(_)
        | Segmented::MakeSegdes
        | Segmented::Lengths => (ops[0].len() as u64, 0),
        Segmented::Reduce(_) => (ops[1].len() as u64, 0),
        Segmented::Extract(_) => (ops[2].len() as u64, 0),
        Segmented::Distribute(_) => (total_of(ops[1]), 0),
        Segmented::Index => (total_of(ops[2]), 0),
        Segmented::BackPermute(_) => (total_of(ops[3]), 0),
        Segmented::DefaultPermute(_) => (total_of(ops[4]), 0),
        Segmented::Pack(_) => (count_set(ops[1]), ops[2].len() as u64),
    }
}
