//! A selection at the front of a text.
ghost use Rattle.std.specs.Prelude.{◌≡◌, ℕ, ◌+◌, ◌<◌, ◌^◌, [], IfOk, IsErrOf, IsTrue, IsCharBoundary};
ghost use Rattle.plain_model.specs.Faults.{Returns};
ghost use Rattle.plain_model.specs.declared.fault.Fault.TheVariants.{BadSelection};
ghost use Rattle.plain_model.specs.declared.fault.Halt.TheVariants.{Refused};
ghost use Rattle.selection_parser.specs.Answers.{answer_of};
ghost use Rattle.selection_parser.specs.Readers.{reader_of, state_of};
ghost use Rattle.selection_parser.specs.Reading.{read_from, selection_at, parsed, times_of};
ghost use Rattle.selection_parser.specs.Spelling.{Finds, Refuses};
ghost use Rattle.selection_parser.specs.Texts.{has_utf8_texts};
ghost use Rattle.selection_parser.specs.Views.{plain_of, read_of};

use crate::answer::Answer;
use crate::reader::{Next, Reader};
use crate::selection::Selection;
use plain_model::{Fault, Halt, NoMemory};
use std::alloc::Global;

// What is answered at the end of a text, after so many bytes: as at a blank.
fn at_end(alloc: Global, reader: Reader, n: usize) -> Result<Answer, NoMemory>
    requires few { times_of (state_of reader.state) + 1 < 2 ^ 64 }
    requires fits { n + 1 < 2 ^ 64 }
    ensures { IfOk result (λ answer. answer_of answer ≡ read_from n (reader_of reader) []) }
{
    match reader.take(alloc, b' ')? {
        Next::Goes(_) => Ok(Answer::Refused { column: n + 1 }),
        Next::Ends(selection) => Ok(Answer::Found {
            selection,
            length: n,
        }),
        Next::Stops => Ok(Answer::Refused { column: n + 1 }),
    }
}

// Reads a text, byte by byte.
#[tactic(auto, using(crate::proofs::Parsed::readings))]
fn read(alloc: Global, bytes: &[u8]) -> Result<Answer, NoMemory>
    ensures { IfOk result (λ answer. answer_of answer ≡ selection_at bytes.now) }
{
    let mut reader = Reader::new(alloc);
    for (n, byte) in bytes.iter().enumerate() {
        match reader.take(alloc, *byte)? {
            Next::Goes(next) => reader = next,
            Next::Ends(selection) => {
                return Ok(Answer::Found {
                    selection,
                    length: n,
                });
            }
            Next::Stops => return Ok(Answer::Refused { column: n + 1 }),
        }
    }
    at_end(alloc, reader, bytes.len())
}

/// The selection at the front of a line, up to the blank after it or the line's end, and its length in bytes.
/// Refused where there is none, with a column, from 1: the byte with which no selection goes on. Nothing is looked
/// up. (reposurgeon manual, "Selection syntax")
pub fn parse(alloc: Global, text: &str) -> Result<(Selection, usize), Halt>
    ensures prescribed { Returns read_of result (parsed text.now) }
    ensures found { IfOk result (λ read. Finds text.now read.1 (plain_of read.0)) }
    ensures cut { IfOk result (λ read. IsCharBoundary text.now read.1) }
    ensures texts { IfOk result (λ read. IsTrue (has_utf8_texts (plain_of read.0))) }
    ensures refused { (column : ℕ) → IsErrOf result (Refused (BadSelection column))
        → Refuses text.now column }
{
    match read(alloc, text.as_bytes())? {
        Answer::Found { selection, length } => Ok((selection, length)),
        Answer::Refused { column } => Err(Halt::Refused(Fault::BadSelection {
            column: column as u64,
        })),
    }
}
