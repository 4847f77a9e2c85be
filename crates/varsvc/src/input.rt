ghost use Rattle.std.specs.Prelude.{◌≡◌, ◌<◌, ◌≤◌, ◌++◌, length, vec_len, IfOk};
ghost use Rattle.std.specs.Io.KnownBytes.{Consumes, IsAtEnd};
ghost use Rattle.outside.specs.Faults.{HasCauseAt};
ghost use Rattle.varsvc.specs.Input.{IsInput, TakesAtMost, most_read};
ghost use Rattle.varsvc.specs.declared.input.InputFault.TheVariants.{OutOfMemory as NoMemory};

use outside::Source;
use std::alloc::{AllocError, Global};
use var_types::{Bytes, OutOfMemory};

/// How many bytes are read at most: one more than a script may have.
const MOST_READ: usize = 1_048_577;

/// How many bytes are asked for at a time.
const PIECE: usize = 65_536;

/// Why an input was not read.
#[derive(Clone, Copy, Debug, PartialEq, Eq)]
pub enum InputFault {
    Failed,
    OutOfMemory,
}

impl From<AllocError> for InputFault {
    ghost from_gives = { λ _ e. e ≡ NoMemory };

    fn from(_: AllocError) -> Self {
        InputFault::OutOfMemory
    }
}

impl From<OutOfMemory> for InputFault {
    ghost from_gives = { λ _ e. e ≡ NoMemory };

    fn from(_: OutOfMemory) -> Self {
        InputFault::OutOfMemory
    }
}

// Reads once, and puts what came behind the input so far.
fn read_piece<S: Source>(
    source: &mut S,
    piece: &mut [u8],
    input: &mut Bytes,
) -> Result<usize, InputFault>
    ensures bound { IfOk result (λ n. n ≤ length piece.old) }
    ensures bytes { IfOk result (λ n. (bytes : _) × (length bytes ≡ n) × Consumes (S.left source.old) (S.left source.new) bytes × (input.new ≡ input.old ++ bytes)) }
    ensures end { IfOk result (λ n. n ≡ 0 → 0 < length piece.old → IsAtEnd (S.left source.new)) }
    ensures taken { TakesAtMost (length piece.old) (S.left source.old) (S.left source.new) }
    ensures cause { HasCauseAt InputFault.Failed (S.fault_count source.old) (S.fault_count source.new) result }
{
    let Ok(count) = source.read(piece) else {
        return Err(InputFault::Failed);
    };
    input.append(&piece[..count])?;
    Ok(count)
}

// Reads pieces until nothing is left, or as much as is read at most.
fn read_pieces<S: Source>(
    alloc: Global,
    source: &mut S,
    piece: &mut [u8],
) -> Result<Bytes, InputFault>
    requires { 0 < length piece.old }
    ensures bytes { IfOk result (IsInput (S.left source.old)) }
    ensures end { IfOk result (λ input. length input < most_read → IsAtEnd (S.left source.new)) }
    ensures taken { TakesAtMost most_read (S.left source.old) (S.left source.new) }
    ensures cause { HasCauseAt InputFault.Failed (S.fault_count source.old) (S.fault_count source.new) result }
{
    let mut input = Bytes::new(alloc);
    'pieces: while input.as_slice().len() < MOST_READ {
        let room = (MOST_READ - input.as_slice().len()).min(piece.len());
        if read_piece(source, &mut piece[..room], &mut input)? == 0 {
            return Ok(input);
        }
    }
    Ok(input)
}

/// So many bytes 0.
pub fn zeros(alloc: Global, len: usize) -> Result<Vec<u8>, AllocError>
    ensures { IfOk result (λ v. vec_len v ≡ len) }
{
    vec![in alloc; 0u8; len]
}

/// Reads a source to its end, or to one byte more than a script may have.
pub fn read_input<S: Source>(alloc: Global, source: &mut S) -> Result<Bytes, InputFault>
    ensures bytes { IfOk result (IsInput (S.left source.old)) }
    ensures end { IfOk result (λ input. length input < most_read → IsAtEnd (S.left source.new)) }
    ensures taken { TakesAtMost most_read (S.left source.old) (S.left source.new) }
    ensures cause { HasCauseAt InputFault.Failed (S.fault_count source.old) (S.fault_count source.new) result }
{
    let mut piece = zeros(alloc, PIECE)?;
    read_pieces(alloc, source, &mut piece)
}
