// Reading a source to its end.
ghost use Rattle.std.specs.Prelude.{◌≡◌, ◌<◌, ◌≤◌, ◌+◌, ◌++◌, ◌⊎◌, length, take, IfOk, OnOk, OnErr, Err, IfSome, if◌then◌else◌, is_ok};
ghost use Rattle.std.specs.Io.KnownBytes.{Consumes, IsAtEnd, Keeps};
ghost use Rattle.col_prog.specs.Device.{Rose, HasCause};
ghost use Rattle.col_prog.specs.Reading.{Took, TookUpTo};
ghost use Rattle.col_prog.specs.declared.reading.ReadError.TheVariants.{NoMemory};

use crate::device::{Failed, Source};
use col_token::MAX_TEXT;
use std::alloc::{AllocError, Global};

/// No script has more bytes.
pub const MAX_SCRIPT: usize = MAX_TEXT;

const PIECE: usize = 65_536;

/// Why a source wasn't read to its end.
#[derive(Clone, Copy, Debug, PartialEq, Eq)]
pub enum ReadError {
    /// The source failed.
    Fault,
    /// It has more than `MAX_SCRIPT` bytes.
    TooLong,
    /// Memory was wanting.
    NoMemory,
}

impl From<AllocError> for ReadError {
    ghost from_gives = { λ _ e. e ≡ NoMemory };

    fn from(_: AllocError) -> Self {
        ReadError::NoMemory
    }
}

/// Reads the source to its end, in pieces. No byte past the first one too many is taken.
pub fn read_all<S: Source>(alloc: Global, source: &mut S) -> Result<Vec<u8>, ReadError>
    ensures bytes { IfOk result (λ v. Consumes (S.left source.old) (S.left source.new) v.items) }
    ensures within { IfOk result (λ v. length v.items ≤ MAX_SCRIPT) }
    ensures end { OnOk result (IsAtEnd (S.left source.new)) }
    ensures whole { IfOk result (λ v. IfSome (S.left source.old) (λ bytes. v.items ≡ bytes)) }

    // A front of the bytes was taken, of one byte too many at most.
    ensures front { OnErr result
        (TookUpTo (S.left source.old) (S.left source.new) (MAX_SCRIPT + 1)) }
    ensures too_long { result ≡ Err ReadError.TooLong →
        Took (S.left source.old) (S.left source.new) (MAX_SCRIPT + 1) }
    ensures not_too_long { result ≡ Err ReadError.Fault →
        TookUpTo (S.left source.old) (S.left source.new) MAX_SCRIPT }
    ensures fault { result ≡ Err ReadError.Fault →
        Rose (S.faults source.old) (S.faults source.new) }
    ensures later { S.faults source.old ≤ S.faults source.new }
{
    let mut piece = zeros(alloc, PIECE)?;
    read_by(alloc, source, &mut piece)
}

// Reads the source to its end by the piece.
fn read_by<S: Source>(alloc: Global, source: &mut S, piece: &mut [u8]) -> Result<Vec<u8>, ReadError>
    requires room { 0 < length piece.old }
    ensures bytes { IfOk result (λ v. Consumes (S.left source.old) (S.left source.new) v.items) }
    ensures within { IfOk result (λ v. length v.items ≤ MAX_SCRIPT) }
    ensures end { OnOk result (IsAtEnd (S.left source.new)) }
    ensures whole { IfOk result (λ v. IfSome (S.left source.old) (λ bytes. v.items ≡ bytes)) }
    ensures front { OnErr result
        (TookUpTo (S.left source.old) (S.left source.new) (MAX_SCRIPT + 1)) }
    ensures too_long { result ≡ Err ReadError.TooLong →
        Took (S.left source.old) (S.left source.new) (MAX_SCRIPT + 1) }
    ensures not_too_long { result ≡ Err ReadError.Fault →
        TookUpTo (S.left source.old) (S.left source.new) MAX_SCRIPT }
    ensures fault { result ≡ Err ReadError.Fault →
        Rose (S.faults source.old) (S.faults source.new) }
    ensures later { S.faults source.old ≤ S.faults source.new }
{
    let mut bytes = Vec::new(alloc);
    'reading: while bytes.len() <= MAX_SCRIPT {
        let room = (MAX_SCRIPT + 1 - bytes.len()).min(piece.len());
        let count = match read_turn(source, &mut piece[..room]) {
            Ok(count) => count,
            Err(Failed) => return Err(ReadError::Fault),
        };
        if count == 0 {
            return Ok(bytes);
        }
        if append(&mut bytes, &piece[..count]).is_err() {
            return Err(ReadError::NoMemory);
        }
    }
    Err(ReadError::TooLong)
}

fn zeros(alloc: Global, count: usize) -> Result<Vec<u8>, AllocError>
    ensures length { IfOk result (λ v. length v.items ≡ count) }
{
    vec![in alloc; 0u8; count]
}

// One turn: it takes a byte at least, or the end is reached.
fn read_turn<S: Source>(source: &mut S, piece: &mut [u8]) -> Result<usize, Failed>
    requires room { 0 < length piece.old }
    ensures progress { IfOk result (λ count. (0 < count) ⊎ IsAtEnd (S.left source.new)) }
    ensures end { IfOk result (λ count. count ≡ 0 → IsAtEnd (S.left source.new)) }
    ensures bound { IfOk result (λ count. count ≤ length piece.new) }
    ensures taken { IfOk result (λ count.
        Consumes (S.left source.old) (S.left source.new) (take count piece.new)) }
    ensures unchanged { OnErr result (Keeps (S.left source.old) (S.left source.new)) }
    ensures cause { HasCause (S.faults source.old) (S.faults source.new) result }
{
    source.read(piece)
}

// Growing by a quarter keeps the memory near the script's size, and the copies linear.
fn append(bytes: &mut Vec<u8>, more: &[u8]) -> Result<(), AllocError>
    ensures bytes { bytes.new.items ≡
        (if is_ok result then bytes.old.items ++ more.now else bytes.old.items) }
{
    if bytes.capacity() - bytes.len() < more.len() {
        bytes.reserve_exact(more.len().max(bytes.len() / 4))?;
    }
    bytes.extend_from_slice(more)
}
