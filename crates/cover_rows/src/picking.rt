// The lowest subset that costs as much as is said.
ghost use Rattle.std.specs.Prelude.{◌≡◌, ◌-◌, ◌≤◌, ◌<◌, eqb, length};
ghost use Rattle.bits.specs.Lowest.{lowest_from};
ghost use Rattle.cover_rows.specs.Rows.{CostsUpTo, price_in};

use column::allowed_in;

// What subset s costs where the relations of `need` lack an attribute.
fn price(column: &[u8; 64], next: &[u8], need: u8, s: u8) -> u8
    requires { (need < length next.now) × CostsUpTo need next.now }
    ensures { result ≡ price_in column.now next.now need s }
{
    if allowed_in(column, s as usize) {
        u8::count_ones(s) as u8 + next[(need & !s) as usize]
    } else {
        200
    }
}

// The lowest subset from `from` on and below the count that costs `target`, or the count. It is no Option: both callers
// know that there is one, and would have to take it out again.
pub fn pick(column: &[u8; 64], next: &[u8], from: u16, count: u16, need: u8, target: u8) -> u16
    requires { (from ≤ count) × (count ≤ 256) × (need < length next.now) × CostsUpTo need next.now }
    ensures { result ≡ lowest_from (count - from) from (λ s. eqb (price_in column.now next.now need s) target) }
{
    for s in from..count {
        if price(column, next, need, s as u8) == target {
            return s;
        }
    }
    count
}
