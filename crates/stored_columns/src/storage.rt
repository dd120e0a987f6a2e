// Columns in the work space (FORMAT 3.3, 3.4).
ghost use Rattle.std.specs.Prelude.{◌≡◌, ℕ, ◌+◌, ◌*◌, ◌≤◌, ◌<◌, length};
ghost use Rattle.std.proofs.Math.Seq.{paste};
ghost use Rattle.stored_formula.specs.ColumnPlace.{column_at};
ghost use Rattle.admission.specs.Admission.{formula_size};

use admission::FORMULA_SIZE;
use copying::copy_bytes;

// Column c of a node (FORMAT 3.3, 3.4).
pub fn read_column(work: &[u8], node: u8, c: u8) -> [u8; 64]
    requires { node * formula_size + c * 64 + 64 ≤ length work.now }
    ensures { result ≡ column_at work.now node c }
{
    let at = node as usize * FORMULA_SIZE + c as usize * 64;
    let mut column = [0u8; 64];
    copy_bytes(&mut column, 0, &work[at..], 64);
    column
}

// The formula of a node in the work space: its sixteen columns (FORMAT 3.4).
pub fn formula_of(work: &[u8], node: u8) -> &[u8; FORMULA_SIZE]
    requires { node * formula_size + formula_size ≤ length work.now }
    ensures { (c : ℕ) → c < 16 → column_at result.now 0 c ≡ column_at work.now node c }
{
    let start = node as usize * FORMULA_SIZE;
    work[start..].first_chunk().unwrap()
}

// Column c of a formula.
pub fn column_of(formula: &[u8; FORMULA_SIZE], c: u8) -> [u8; 64]
    requires { c < 16 }
    ensures { result ≡ column_at formula.now 0 c }
{
    read_column(formula, 0, c)
}

// Writes column c into the part of the work space that starts with its node.
pub fn write_column(part: &mut [u8], c: u8, column: [u8; 64])
    requires { c * 64 + 64 ≤ length part.old }
    ensures { part.new ≡ paste part.old (c * 64) column 64 }
{
    copy_bytes(part, c as usize * 64, &column, 64);
}
