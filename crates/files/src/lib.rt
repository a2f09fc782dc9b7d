// A grid out of a .nvdb file: the decode of its part into lent tables.
#![tactic(auto)]

ghost use Rattle.std.specs.Prelude.{◌≡◌};
ghost use Rattle.nanovdb.specs.Decode.{decode_density};
ghost use Rattle.nanovdb.specs.Lent.{lengths, answer_of, left_of};
ghost use Rattle.decode.specs.Answers.{answer};
ghost use Rattle.decode.specs.Record.{as_tables, SameSlices};
ghost use Rattle.files.specs.OfFile.{decode_part};

use contents::{grid_span, part};
use decode::{Decoded, Tables, decode_density_grid};
use refusals::Refusal;

// Grid n of a file, as `decode_density_grid` decodes the same bytes alone. Where the file is refused the tables are set to zeros.
#[tactic(auto, unfolding(crate::specs::OfFile::decode_part))]
pub fn decode_grid_of_file(
    file: &[u8],
    n: usize,
    tables: &mut Tables<'_>,
) -> Result<Decoded, Refusal>
    ensures answer { let l = lengths (as_tables tables.old) in answer result ≡ answer_of (decode_part decode_density file.now n l) }
    ensures tables { let l = lengths (as_tables tables.old) in as_tables tables.new ≡ left_of l (decode_part decode_density file.now n l) }
    ensures lengths { lengths (as_tables tables.new) ≡ lengths (as_tables tables.old) }
    ensures same { SameSlices tables.old tables.new }
{
    if let Err(refusal) = grid_span(file, n) {
        tables.clear();
        return Err(refusal);
    }
    decode_density_grid(part(file, n), tables)
}
