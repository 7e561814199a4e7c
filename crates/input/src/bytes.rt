// The words of the input.
ghost use Rattle.std.specs.Prelude.{◌≡◌, ◌<◌, ◌≤◌, [], length, take, IfOk, IfSome, OnOk};
ghost use Rattle.std.specs.Io.KnownBytes.{Consumes, IsAtEnd};
ghost use Rattle.std.specs.IoError.{error_kind};
ghost use Rattle.input.specs.Bytes.{WordsOf};

use std::alloc::{AllocError, Global};
use std::io;
use std::io::{ErrorKind, Read};

// The most words that are looked at, and the bytes that they have.
pub const MOST_WORDS: usize = 16_384;

pub const WORD_BYTES: usize = 4;

const MOST_BYTES: usize = MOST_WORDS * WORD_BYTES;

// Adds the words that the bytes are, the lowest byte of each first; loose bytes at the end are dropped.
fn add_words(words: &mut Vec<u32>, bytes: &[u8]) -> Result<(), AllocError>
    ensures { OnOk result (words.old.items ≡ [] → WordsOf bytes.now words.new.items) }
{
    let (chunks, _loose) = bytes.as_chunks::<WORD_BYTES>();
    let first = &chunks[..chunks.len().min(MOST_WORDS)];
    words.extend(first.iter().map(|word| u32::from_le_bytes(*word)))
}

// The words that the bytes are. The room is made at once: `collect` would make it anew, twice as large, each time it is full.
pub fn words_from(alloc: Global, bytes: &[u8]) -> Result<Vec<u32>, AllocError>
    ensures { IfOk result (λ v. WordsOf bytes.now v.items) }
{
    let many = (bytes.len() / WORD_BYTES).min(MOST_WORDS);
    let mut words = Vec::with_capacity(alloc, many)?;
    add_words(&mut words, bytes)?;
    Ok(words)
}

// How many bytes a source gave, into the front of these. Each read has all the room that is left, so that a source of messages gives each whole; an interrupted read is an error as any other.
fn fill<R: Read>(source: &mut R, bytes: &mut [u8]) -> io::Result<usize>
    ensures within { IfOk result (λ n. n ≤ length bytes.new) }
    ensures read { IfOk result (λ n. Consumes (R.remaining source.old) (R.remaining source.new) (take n bytes.new)) }
    ensures end { IfOk result (λ n. n < length bytes.new → IsAtEnd (R.remaining source.new)) }
{
    let mut filled = 0;
    while filled < bytes.len() {
        let got = source.read(&mut bytes[filled..])?;
        if got == 0 {
            return Ok(filled);
        }
        filled += got;
    }
    Ok(filled)
}

// Told in the allocator's words.
fn no_memory(_: AllocError) -> io::Error
    ensures { error_kind result ≡ ErrorKind.OutOfMemory }
{
    io::Error::new(ErrorKind::OutOfMemory, "memory allocation failed")
}

// Room for the most words, without any yet.
fn room_for_words(alloc: Global) -> io::Result<Vec<u32>>
    ensures { IfOk result (λ v. v.items ≡ []) }
{
    Vec::with_capacity(alloc, MOST_WORDS).map_err(no_memory)
}

// The words that a source gives. No more of it is read than is looked at.
pub fn read_words<R: Read + Drop>(alloc: Global, mut source: R) -> io::Result<Vec<u32>>
    ensures { IfOk result (λ v. IfSome (R.remaining source) (λ bytes. WordsOf bytes v.items)) }
{
    // The room of the words comes first, so that the room of the bytes, which is given back, lies last and leaves no hole.
    let mut words = room_for_words(alloc)?;
    let mut bytes = vec![in alloc; 0u8; MOST_BYTES].map_err(no_memory)?;
    let filled = fill(&mut source, &mut bytes)?;
    add_words(&mut words, &bytes[..filled]).map_err(no_memory)?;
    Ok(words)
}
