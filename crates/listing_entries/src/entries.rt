// The list of a line: one entry for each subset that it has (FORMAT 7.15, 7.16).
ghost use Rattle.std.specs.Prelude.{◌≡◌, ◌++◌, ◌<◌, ◌+◌, ◌≤◌};
ghost use Rattle.text.specs.Written.{HasRoom, Writes};
ghost use Rattle.text.specs.Characters.{newline};
ghost use Rattle.listing_entries.specs.Entries.{KindFits, listed, sign_text, entry_text, list_text};

use column::{allowed_in, output_in};
use text::Writer;

// Which subsets a list has.
#[derive(Clone, Copy)]
pub enum Kind {
    // the type variables that a relation declares
    Variables(u8),
    // the type variables in the output
    Output,
    // the allowed subsets, each with a sign that says whether it is in the output
    Signed,
}

// Whether the list has subset s.
fn is_listed(kind: Kind, column: [u8; 64], s: usize) -> bool
    requires kind_fits { KindFits kind }
    requires s_bound { s < 256 }
    ensures { result ≡ listed kind column s }
{
    match kind {
        Kind::Variables(r) => 0 < s && allowed_in(&column, s) && (s >> r) % 2 == 1,
        Kind::Output => 0 < s && output_in(&column, s),
        Kind::Signed => allowed_in(&column, s),
    }
}

// What follows a subset's digits: a sign, or nothing.
fn write_sign(writer: &mut Writer<'_>, kind: Kind, column: [u8; 64], s: usize)
    requires { (s < 256) × HasRoom 1 writer.old }
    ensures wrote { Writes (sign_text kind column s) writer.old writer.new }
    ensures upper_bound { writer.new.at ≤ writer.old.at + 1 }
{
    match kind {
        Kind::Variables(_) => {}
        Kind::Output => {}
        Kind::Signed => {
            if output_in(&column, s) {
                writer.write_byte(b'+');
            } else {
                writer.write_byte(b'-');
            }
        }
    }
}

// What the line has for subset s.
fn write_entry(writer: &mut Writer<'_>, kind: Kind, column: [u8; 64], s: usize)
    requires kind_fits { KindFits kind }
    requires s_bound { (s < 256) × HasRoom 4 writer.old }
    ensures wrote { Writes (entry_text kind column s) writer.old writer.new }
    ensures upper_bound { writer.new.at ≤ writer.old.at + 4 }
{
    if is_listed(kind, column, s) {
        writer.write_subset(s as u8);
        write_sign(writer, kind, column, s);
    }
}

// The list of a column, and the line's end.
pub fn write_list(writer: &mut Writer<'_>, kind: Kind, column: [u8; 64])
    requires kind_fits { KindFits kind }
    requires at_in_bounds { HasRoom 1025 writer.old }
    ensures wrote { Writes (list_text kind column ++ newline) writer.old writer.new }
    ensures upper_bound { writer.new.at ≤ writer.old.at + 1025 }
{
    for s in 0..256 {
        write_entry(writer, kind, column, s);
    }
    writer.write_byte(b'\n');
}
