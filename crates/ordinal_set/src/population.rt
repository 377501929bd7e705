//! The words of a population as bytes.
ghost use Rattle.std.specs.Prelude.{◌≡◌, ◌≤◌, ◌^◌, ◌<◌, ◌++◌, length, take, All, OnOk};
ghost use Rattle.ordinal_set.specs.Population.{population_words as words_up_to, words_bytes, first_words};

use crate::scan::word_at;
use std::alloc::AllocError;

/// How many words a population is written with, where this is the greatest ordinal of its type.
pub(crate) fn population_words(greatest: Option<u32>) -> u32
    ensures is { result ≡ words_up_to greatest }
    ensures few { result ≤ 2 ^ 26 }
{
    match greatest {
        None => 256,
        Some(greatest) => 256 * (greatest / 16384 + 1),
    }
}

/// Writes the first so many words at the end behind their number, zeros where there are fewer. Some may stand there where memory is refused.
pub(crate) fn push_words(out: &mut Vec<u8>, words: &[u64], count: u32) -> Result<(), AllocError>
    ensures ok { OnOk result (out.new.items ≡ out.old.items ++ words_bytes (first_words words.now count)) }
    ensures range { All (λ word. word < 2 ^ 64) (first_words words.now count) }
    ensures kept { take (length out.old.items) out.new.items ≡ out.old.items }
{
    out.extend_from_slice(&count.to_be_bytes())?;
    for place in 0..count {
        out.extend_from_slice(&word_at(words, place as usize).to_be_bytes())?;
    }
    Ok(())
}
