// Parsing a query for callers in C and Rust.
ghost use Rattle.std.specs.Prelude.{◌≡◌, length};
ghost use Rattle.query_answer.specs.ParseQuery.{parse_answer, parse_file};
ghost use Rattle.query_answer.specs.Numbers.{parsing_number, parsing_size};

use answer_numbers::write_parsing;

// Parse a query (FORMAT 7.23): 0 with the number of bytes written to the file slice, or the number of the first refusal
// of 2, 13, 23, 22, 24, 7 and 9 with everything as it was.
#[unsafe(no_mangle)]
pub extern "C" fn type_formula_parse_query(
    relations: u8,
    text: &[u8],
    file: &mut [u8],
    size: &mut usize,
) -> u8
    ensures value { result ≡ parsing_number (parse_answer relations text.now (length file.old)) }
    ensures file_after { file.new ≡ parse_file relations text.now file.old }
    ensures size_after { size.new ≡ parsing_size (parse_answer relations text.now (length file.old)) size.old }
{
    write_parsing(query::parse_query(relations, text, file), size)
}
