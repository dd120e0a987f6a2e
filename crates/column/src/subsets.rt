// The two bits of a subset in a column (FORMAT 3.5).
ghost use Rattle.std.specs.Prelude.{◌≡◌, cond, ◌≤◌, ◌<◌, length};
ghost use Rattle.column.specs.Column.{allowed_in, output_in};

// Whether subset s is allowed in the column at the front of these bytes.
pub fn allowed_in(column: &[u8], s: usize) -> bool
    requires { (64 ≤ length column.now) × (s < 256) }
    ensures { result ≡ allowed_in column.now s }
{
    (column[s / 8] >> (s % 8)) % 2 == 1
}

// 1 where subset s puts the attribute in the output, else 0.
pub fn output_digit(column: &[u8], s: usize) -> u8
    requires { (64 ≤ length column.now) × (s < 256) }
    ensures { result ≡ cond (output_in column.now s) 1 0 }
{
    (column[32 + s / 8] >> (s % 8)) % 2
}

// Whether it does.
pub fn output_in(column: &[u8], s: usize) -> bool
    requires { (64 ≤ length column.now) × (s < 256) }
    ensures { result ≡ output_in column.now s }
{
    output_digit(column, s) == 1
}
