//! A file is read as its lines.
//!
//! The tokens of the bytes are taken one after another by the reader of lines.
ghost use Rattle.std.specs.Prelude.{◌≡◌, ◌≤◌, length, map, IfOk, IfErr};
ghost use Rattle.me_io.specs.declared.source.TheConstants.{MAX_BYTES};
ghost use Rattle.tptp_lines.specs.Lines.{AreLines};
ghost use Rattle.tptp_lines.specs.LineViews.{line_value};
ghost use Rattle.tptp_lines.specs.LineCauses.{IsLinesCause};

use crate::line::Lines;
use crate::reader::Reader;
use std::alloc::Global;
use tptp_cnf::CnfError;
use tptp_tokens::Tokenizer;

/// The lines of the bytes as a file that may include files, in order. Each refusal but `Memory` has its cause at
/// its place.
pub fn read_lines(alloc: Global, bytes: &[u8]) -> Result<Lines, CnfError>
    requires { length bytes.now ≤ MAX_BYTES }
    ensures lines { IfOk result (λ lines. AreLines bytes.now (map line_value lines.items)) }
    ensures cause { IfErr result (IsLinesCause bytes.now) }
{
    let mut tokenizer = Tokenizer::new(bytes);
    let mut reader = Reader::new(alloc);
    'tokens: while let Some(token) = tokenizer.next() {
        reader.step(alloc, &token)?;
    }
    if !reader.is_whole() {
        return Err(CnfError::Syntax {
            at: bytes.len() as u64,
        });
    }
    Ok(reader.into_lines())
}
