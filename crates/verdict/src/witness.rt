// The witness: the choice with the fewest memberships, and its schema (FORMAT 7.8, 7.26).
ghost use Rattle.std.specs.Prelude.{◌≡◌, ◌-◌, ◌*◌, ◌^◌, ◌≤◌, ◌<◌, length, get_or};
ghost use Rattle.bits.specs.Tab.{over};
ghost use Rattle.membership.specs.Holders.{ItemsFit};
ghost use Rattle.special_maps.specs.Special.{maps_from};
ghost use Rattle.schema.specs.Schema.{schema_bytes, records_of, schema_size};
ghost use Rattle.set_cover.specs.Least.{infinity};
ghost use Rattle.cover_table.specs.Table.{TableHolds, row_width};
ghost use Rattle.verdict_answer.specs.First.{allowed_at, blocked_in};
ghost use Rattle.verdict_answer.specs.Formed.{Formed};
ghost use Rattle.verdict_answer.specs.Witness.{cost_in};
ghost use Rattle.verdict_answer.specs.Verdict.{outcome_in, schema_in};

use admission::FORMULA_SIZE;
use cover_choice::{choose_specials, choose_variables};
use cover_table::{fill_costs, row_width, subset_count};
use schema::write_schema;
use special_maps::maps_from;
use verdict_answer::Outcome;

// Writes the schema of m relations with these subsets of special attributes and these entries, and gives its length.
pub fn write_witness(schema: &mut [u8], m: u8, subsets: &[u8], entries: &[u32]) -> usize
    requires m_bound { (m ≤ 8) × (schema_size ≤ length schema.old) }
    requires subsets_len { (length subsets.now ≡ 16) × (get_or subsets.now 0 0 ≡ 0) × (length entries.now ≤ 8) × ItemsFit entries.now (length entries.now) }
    ensures value { result ≡ length (schema_bytes (records_of m (maps_from subsets.now) entries.now)) }
    ensures schema_after { schema.new ≡ over (schema_bytes (records_of m (maps_from subsets.now) entries.now)) schema.old }
{
    let special = maps_from(subsets);
    let mut list = [0u32; 8];
    write_schema(schema, m, &special, entries, &mut list)
}

// The witness of a formula by the table of costs, where all relations can be filled at this cost.
fn chosen_verdict(
    formula: &[u8; FORMULA_SIZE],
    m: u8,
    table: &[u8],
    cost: u8,
    schema: &mut [u8],
) -> Outcome
    requires m_bound { (m ≤ 8) × (schema_size ≤ length schema.old) × (16 ≤ blocked_in (allowed_at formula.now 0)) }
    requires table_holds { TableHolds (2 ^ m) (allowed_at formula.now 0) (row_width m) 16 table.now }
    requires cost_value { (cost ≡ cost_in m (allowed_at formula.now 0)) × (cost < infinity) }
    ensures value { result ≡ outcome_in m (allowed_at formula.now 0) }
    ensures schema_after { schema.new ≡ schema_in m (allowed_at formula.now 0) schema.old }
{
    let count = subset_count(m);
    let mut subsets = [0u8; 16];
    let need = choose_specials(formula, count, table, row_width(m), &mut subsets);
    let mut items = [0u32; 8];
    let listed = choose_variables(formula, count, table, need, &mut items);
    let size = write_witness(schema, m, &subsets, &items[..listed]);
    Outcome::Typable(size, cost)
}

// The verdict on a formula each of whose columns allows something, by a table of costs that is filled here, and free
// afterwards.
fn table_verdict(
    formula: &[u8; FORMULA_SIZE],
    m: u8,
    table: &mut [u8],
    schema: &mut [u8],
) -> Outcome
    requires m_bound { (m ≤ 8) × (schema_size ≤ length schema.old) × (16 ≤ blocked_in (allowed_at formula.now 0)) }
    requires formed { Formed m (allowed_at formula.now 0) × (16 * row_width m ≤ length table.old) }
    ensures value { result ≡ outcome_in m (allowed_at formula.now 0) }
    ensures schema_after { schema.new ≡ schema_in m (allowed_at formula.now 0) schema.old }
{
    let cost = fill_costs(formula, m, table);
    if cost < 200 {
        return chosen_verdict(formula, m, table, cost, schema);
    }
    Outcome::Untypable(0)
}

// The same, with N bytes of its own for the table.
fn verdict_with<const N: usize>(formula: &[u8; FORMULA_SIZE], m: u8, schema: &mut [u8]) -> Outcome
    requires m_bound { (m ≤ 8) × (schema_size ≤ length schema.old) × (16 ≤ blocked_in (allowed_at formula.now 0)) }
    requires formed { Formed m (allowed_at formula.now 0) × (16 * row_width m ≤ N) }
    requires size { N ≤ 4096 }
    ensures value { result ≡ outcome_in m (allowed_at formula.now 0) }
    ensures schema_after { schema.new ≡ schema_in m (allowed_at formula.now 0) schema.old }
{
    let mut table = [0u8; N];
    table_verdict(formula, m, &mut table, schema)
}

// The same, with a table as large as so many relations need.
pub fn searched_verdict(formula: &[u8; FORMULA_SIZE], m: u8, schema: &mut [u8]) -> Outcome
    requires m_bound { (m ≤ 8) × (schema_size ≤ length schema.old) × (16 ≤ blocked_in (allowed_at formula.now 0)) }
    requires formed { Formed m (allowed_at formula.now 0) }
    ensures value { result ≡ outcome_in m (allowed_at formula.now 0) }
    ensures schema_after { schema.new ≡ schema_in m (allowed_at formula.now 0) schema.old }
{
    if m <= 4 {
        return verdict_with::<256>(formula, m, schema);
    }
    verdict_with::<4096>(formula, m, schema)
}
