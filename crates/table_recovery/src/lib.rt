// The instantiation of a membership table that fits.
#![tactic(auto)]

ghost use Rattle.std.specs.Prelude.{◌≡◌, ◌≤◌, length};
ghost use Rattle.node_expression.specs.NodeExpression.{expression_at};
ghost use Rattle.schema.specs.Schema.{WritesFrom};
ghost use Rattle.apply_answer.specs.ApplyLaws.{Filled};
ghost use Rattle.recover_answer.specs.Recover.{table_recovered, table_instantiation};
ghost use Rattle.instantiation.specs.Instantiation.{instantiation_size};

use fitting::{entries_allowed, specials_allowed};
use instantiation_writer::write_instantiation;
use special_maps::subsets_from;
use stored_columns::formula_of;

// The table of a schema at a node whose formula stands in the work space.
pub fn recover_table(
    work: &[u8],
    node: u8,
    special: &[u16],
    entries: &[u32],
    spare: &mut [u32],
    out: &mut [u8],
    file: &[u8],
    m: u8,
) -> Option<usize>
    requires filled { Filled file.now m node work.now }
    requires writes_from { WritesFrom special.now entries.now (length entries.now) }
    requires instantiation_size_in_bounds { (instantiation_size ≤ length out.old) × (length entries.now ≤ length spare.old) }
    ensures value { result ≡ table_recovered m (expression_at file.now node) special.now entries.now }
    ensures out_after { out.new ≡ table_instantiation m (expression_at file.now node) special.now entries.now out.old }
{
    let formula = formula_of(work, node);
    if !entries_allowed(formula, entries) {
        return None;
    }
    let subsets = subsets_from(special);
    if !specials_allowed(formula, &subsets) {
        return None;
    }
    Some(write_instantiation(out, &subsets, entries, spare))
}
