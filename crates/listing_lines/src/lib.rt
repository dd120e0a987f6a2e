// The lines of the listing.
#![tactic(auto)]

ghost use Rattle.std.specs.Prelude.{◌≡◌, ◌+◌, ◌≤◌, ◌<◌};
ghost use Rattle.text.specs.Written.{HasRoom, Writes};
ghost use Rattle.text.specs.Each.{each};
ghost use Rattle.listing_lines.specs.Text.{untypable_by, verdict_text};
ghost use Rattle.verdict_answer.specs.First.{allowed_at};
ghost use Rattle.verdict_answer.specs.Formed.{Formed};
ghost use Rattle.listing_entries.specs.Entries.{KindFits};
ghost use Rattle.listing_lines.specs.Lines.{node_text, label, line_text, relation_text, out_text, attribute_text, attributes_text, formula_lines};

use admission::FORMULA_SIZE;
use attribute_set::AttrSet;
use listing_entries::{Kind, write_list};
use stored_columns::column_of;
use text::Writer;
use typability::typability;
use verdict_answer::Typability;

// A space and the verdict.
fn write_verdict(writer: &mut Writer<'_>, untypable: bool)
    requires { HasRoom 10 writer.old }
    ensures wrote { Writes (verdict_text «untypable») writer.old writer.new }
    ensures upper_bound { writer.new.at ≤ writer.old.at + 10 }
{
    if untypable {
        writer.write_bytes(b" untypable");
    } else {
        writer.write_bytes(b" typable");
    }
}

// The node's line: its number and its verdict.
fn write_node_line(writer: &mut Writer<'_>, node: u8, untypable: bool)
    requires { (node < 100) × HasRoom 18 writer.old }
    ensures wrote { Writes (node_text «untypable» node) writer.old writer.new }
    ensures upper_bound { writer.new.at ≤ writer.old.at + 18 }
{
    writer.write_bytes(b"node ");
    writer.write_decimal(node);
    write_verdict(writer, untypable);
    writer.write_byte(b'\n');
}

// A letter, a number and a colon.
fn write_label(writer: &mut Writer<'_>, letter: u8, n: u8)
    requires { (n < 100) × HasRoom 4 writer.old }
    ensures wrote { Writes (label letter n) writer.old writer.new }
    ensures upper_bound { writer.new.at ≤ writer.old.at + 4 }
{
    writer.write_byte(letter);
    writer.write_decimal(n);
    writer.write_byte(b':');
}

// A label and the list of a column.
fn write_list_line(writer: &mut Writer<'_>, letter: u8, n: u8, kind: Kind, column: [u8; 64])
    requires kind_fits { KindFits kind }
    requires n_bound { (n < 100) × HasRoom 1029 writer.old }
    ensures wrote { Writes (line_text letter n kind column) writer.old writer.new }
    ensures upper_bound { writer.new.at ≤ writer.old.at + 1029 }
{
    write_label(writer, letter, n);
    write_list(writer, kind, column);
}

// For each relation the variables that it declares, off column 0.
fn write_relation_lines(writer: &mut Writer<'_>, m: u8, column: [u8; 64])
    requires { (m ≤ 8) × HasRoom 8232 writer.old }
    ensures wrote { Writes (each m (relation_text column)) writer.old writer.new }
    ensures upper_bound { writer.new.at ≤ writer.old.at + 8232 }
{
    for r in 0..m {
        write_list_line(writer, b'r', r, Kind::Variables(r), column);
    }
}

// The variables in the output, off column 0.
fn write_out_line(writer: &mut Writer<'_>, column: [u8; 64])
    requires { HasRoom 1029 writer.old }
    ensures wrote { Writes (out_text column) writer.old writer.new }
    ensures upper_bound { writer.new.at ≤ writer.old.at + 1029 }
{
    writer.write_bytes(b"out:");
    write_list(writer, Kind::Output, column);
}

// The line of attribute i, if the set has it.
fn write_attribute_line(
    writer: &mut Writer<'_>,
    formula: &[u8; FORMULA_SIZE],
    named: AttrSet,
    i: u8,
)
    requires { (i < 16) × HasRoom 1029 writer.old }
    ensures wrote { Writes (attribute_text formula.now 0 named i) writer.old writer.new }
    ensures upper_bound { writer.new.at ≤ writer.old.at + 1029 }
{
    if named.has(i) {
        let column = column_of(formula, i);
        write_list_line(writer, b'a', i, Kind::Signed, column);
    }
}

// For each attribute that is named in the file, rising, the subsets that its column allows.
fn write_attribute_lines(writer: &mut Writer<'_>, formula: &[u8; FORMULA_SIZE], named: AttrSet)
    requires { HasRoom 15435 writer.old }
    ensures wrote { Writes (attributes_text formula.now 0 named) writer.old writer.new }
    ensures upper_bound { writer.new.at ≤ writer.old.at + 15435 }
{
    for j in 0..15 {
        write_attribute_line(writer, formula, named, j + 1);
    }
}

// Whether a node is untypable, by its formula (FORMAT 7.15).
fn is_untypable(formula: &[u8; FORMULA_SIZE], m: u8) -> bool
    requires { (m ≤ 8) × Formed m (allowed_at formula.now 0) }
    ensures { result ≡ untypable_by m (allowed_at formula.now 0) }
{
    matches!(typability(formula, m), Typability::Untypable(_))
}

// All lines of a node, off its formula.
pub fn write_lines(
    writer: &mut Writer<'_>,
    formula: &[u8; FORMULA_SIZE],
    m: u8,
    node: u8,
    named: AttrSet,
)
    requires m_bound { (m ≤ 8) × (node < 64) × HasRoom 32768 writer.old }
    requires formed { Formed m (allowed_at formula.now 0) }
    ensures { Writes (formula_lines formula.now m node named) writer.old writer.new }
{
    let untypable = is_untypable(formula, m);
    let column = column_of(formula, 0);
    write_node_line(writer, node, untypable);
    write_relation_lines(writer, m, column);
    write_out_line(writer, column);
    write_attribute_lines(writer, formula, named);
}
