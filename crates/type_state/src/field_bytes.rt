//! The bytes of the fields of a half, each where it stands in words.
ghost use Rattle.std.specs.Prelude.{◌≡◌, ◌^◌, ◌<◌, ◌≤◌, IfOk, drop, length, map};
ghost use Rattle.row_model.specs.Areas.{area_of};
ghost use Rattle.packed_half.specs.Half.{areas_in, byte_words, bytes_in, words_for_bytes};
ghost use Rattle.object_codec.specs.Bytes.{bytes_of};

use object_codec::PackedBytes;
use std::alloc::{AllocError, Global};

/// The first bytes of some words.
fn first_bytes<'a>(words: &'a [u64], len: u64) -> PackedBytes<'a>
    requires inside { words_for_bytes len ≤ length words.now }
    requires few { len < 2 ^ 61 }
    ensures { bytes_of result ≡ bytes_in words.now len }
{
    PackedBytes {
        words,
        start: 0,
        len,
    }
}

/// The bytes of fields of these lengths, which stand one behind the other in words. Memory is taken for the list of them alone.
pub(crate) fn bytes_of_fields<'a>(
    alloc: Global,
    words: &'a [u64],
    lengths: &[u64],
) -> Result<Vec<PackedBytes<'a>>, AllocError>
    requires inside { byte_words lengths.now ≤ length words.now }
    requires few { byte_words lengths.now < 2 ^ 58 }
    ensures { IfOk result (λ areas. map bytes_of areas.items ≡ areas_in words.now lengths.now) }
{
    let mut areas = Vec::with_capacity(alloc, lengths.len())?;
    let mut rest = words;
    for index in 0..lengths.len() {
        let len = lengths[index];
        areas.push(first_bytes(rest, len))?;
        rest = &rest[len.div_ceil(8) as usize..];
    }
    Ok(areas)
}

/// The words behind those of so many bytes.
fn behind(words: &[u64], len: u64) -> &[u64]
    requires { words_for_bytes len ≤ length words.now }
    ensures { result.now ≡ drop (words_for_bytes len) words.now }
{
    &words[len.div_ceil(8) as usize..]
}

/// The bytes of one of these fields. It takes no memory.
pub(crate) fn bytes_of_field<'a>(words: &'a [u64], lengths: &[u64], index: usize) -> PackedBytes<'a>
    requires inside { byte_words lengths.now ≤ length words.now }
    requires few { byte_words lengths.now < 2 ^ 58 }
    requires there { index < length lengths.now }
    ensures { area_of (areas_in words.now lengths.now) index ≡ bytes_of result }
{
    let mut rest = words;
    for before in 0..index {
        rest = behind(rest, lengths[before]);
    }
    first_bytes(rest, lengths[index])
}
