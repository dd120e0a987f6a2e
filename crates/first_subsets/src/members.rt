// Members of subsets: the fewest in a column, all together, and the relations that are in none.
ghost use Rattle.std.specs.Prelude.{◌≡◌, ◌≤◌, length, drop};
ghost use Rattle.set_cover.specs.Choice.{uncovered};
ghost use Rattle.verdict_answer.specs.FirstChoice.{memberships_of};
ghost use Rattle.first_subsets.specs.ByteMembers.{fewest_in_byte, NoneFewer};

// The fewest members of a subset of three relations whose bit stands in the byte; 9 if none stands. Of the eight bits
// 7f has those of subsets with at most two members, 17 those with at most one, and 01 the empty one's.
fn fewest_in_byte(byte: u8) -> u8
    ensures { result ≡ fewest_in_byte byte }
{
    9 - byte.min(1) * 6 - (byte & 0x7f).min(1) - (byte & 0x17).min(1) - byte % 2
}

// A number of members, at most 9: no subset that the column allows has fewer. By all bytes.
fn fewest_in_bytes(column: &[u8]) -> u8
    requires { 64 ≤ length column.now }
    ensures { NoneFewer column.now result }
{
    let mut fewest = 9u8;
    for i in 0u8..32 {
        let here = fewest_in_byte(column[i as usize]);
        fewest = fewest.min(u8::count_ones(i) as u8 + here);
    }
    fewest
}

// The same; by the first byte alone where that has a subset with no member or one, since the others' have at least one.
pub fn fewest_members(column: &[u8]) -> u8
    requires { 64 ≤ length column.now }
    ensures { NoneFewer column.now result }
{
    let first = fewest_in_byte(column[0]);
    if first < 2 {
        return first;
    }
    fewest_in_bytes(column)
}

// How many memberships the subsets of 16 attributes have.
pub fn count_memberships(subsets: &[u8; 16]) -> u8
    ensures { result ≡ memberships_of subsets.now }
{
    let mut count = 0u8;
    for s in subsets {
        count += u8::count_ones(*s) as u8;
    }
    count
}

// The relations of `all` that are in none of the subsets of attributes 1 to 15.
pub fn uncovered_relations(subsets: &[u8; 16], all: u8) -> u8
    ensures { result ≡ uncovered all (drop 1 subsets.now) }
{
    let mut need = all;
    for i in 1..16 {
        need = need & !subsets[i];
    }
    need
}
