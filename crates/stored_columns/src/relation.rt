// The columns of a relation (FORMAT 3.11).
ghost use Rattle.std.specs.Prelude.{◌+◌, ◌*◌, ◌≤◌, length};
ghost use Rattle.stored_formula.specs.WrittenColumns.{Columns};
ghost use Rattle.admission.specs.Admission.{formula_size};

use crate::storage::write_column;
use admission::FORMULA_SIZE;

// A relation's columns are all the same. A loop of its own: those of `node_columns` are generic over what is made of the
// columns of one operand or of two, and here there is none.
pub fn fill_relation(own: [u8; 64], k: u8, work: &mut [u8])
    requires { k * formula_size + formula_size ≤ length work.old }
    ensures { Columns (λ c. own) (k * formula_size) 16 work.old work.new }
{
    let start = k as usize * FORMULA_SIZE;
    for c in 0..16 {
        write_column(&mut work[start..], c, own);
    }
}
