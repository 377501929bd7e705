//! Numbers: as VInts, zigzag numbers, elements of words, digits and hashes, against worked ones.
use bit_array::{digits, element, element_at, set_element, words_for};
use bucket_codec::{at, buckets_for, has, hash_int};
use hol_varint::{
    get_vint, get_vlong, put_vint, put_vlong, unzigzag32, unzigzag64, zigzag32, zigzag64,
};
use std::alloc::{AllocError, Global};

/// Tells the bytes of a number, and what is read of them as a VLong and as a VInt (`put`); a VInt behind a byte, and what is
/// read of it (`behind`); or what is told of a number that is taken as it is, where a text that is no number is 0.
pub fn tell(out: &mut String, alloc: Global, word: &str, rest: &str) -> Result<(), AllocError> {
    match word {
        "put" => tell_put(out, alloc, rest.parse::<u64>().unwrap_or(0)),
        "behind" => tell_behind(out, alloc, rest.parse::<u32>().unwrap_or(0)),
        "zigzag" => tell_zigzag(out, rest.parse::<i32>().unwrap_or(0)),
        "element" => tell_element(out, rest),
        "sizes" => tell_sizes(out, rest.parse::<u64>().unwrap_or(0)),
        "indexed" => tell_indexed(out),
        "written" => tell_written(out),
        "found" => tell_found(out),
        _ => tell_of_ordinal(out, word, rest.parse::<u32>().unwrap_or(0)),
    }
}

fn tell_put(out: &mut String, alloc: Global, number: u64) -> Result<(), AllocError> {
    let mut bytes = Vec::new(alloc);
    put_vlong(&mut bytes, number)?;
    tell_read(out, bytes.as_slice())
}

fn tell_read(out: &mut String, bytes: &[u8]) -> Result<(), AllocError> {
    write!(
        out,
        "{bytes:?} {:?} {:?}",
        get_vlong(bytes, 0),
        get_vint(bytes, 0)
    )
}

fn tell_behind(out: &mut String, alloc: Global, number: u32) -> Result<(), AllocError> {
    let mut bytes = vec![in alloc; 0x80]?;
    put_vint(&mut bytes, number)?;
    write!(out, "{:?} {:?}", bytes.as_slice(), get_vint(&bytes, 1))
}

/// The natural number of a number, by 32 bits and by 64, and the number of that.
fn tell_zigzag(out: &mut String, number: i32) -> Result<(), AllocError> {
    let (short, long) = (zigzag32(number), zigzag64(i64::from(number)));
    write!(
        out,
        "{short} {long} {} {}",
        unzigzag32(short),
        unzigzag64(long)
    )
}

/// How many digits a number has, and how many words so many bits take.
fn tell_sizes(out: &mut String, number: u64) -> Result<(), AllocError> {
    write!(out, "{} {}", digits(number), words_for(number))
}

/// The hash of an ordinal (`hash`), or how many buckets so many elements take.
fn tell_of_ordinal(out: &mut String, word: &str, number: u32) -> Result<(), AllocError> {
    match word {
        "hash" => write!(out, "{:x}", hash_int(number)),
        _ => write!(out, "{}", buckets_for(number)),
    }
}

/// The words whose elements are looked up.
const WORDS: [u64; 3] = [0xFEDC_BA98_7654_3210, 0x0123_4567_89AB_CDEF, u64::MAX];

/// The element that begins at a bit of the words and has a width, in bits, where it ends in them.
fn tell_element(out: &mut String, rest: &str) -> Result<(), AllocError> {
    let (at, width) = rest.split_once(' ').unwrap_or((rest, ""));
    let (at, width) = (
        at.parse::<u64>().unwrap_or(0),
        width.parse::<u32>().unwrap_or(0),
    );
    if width > 64 || at > 192 - u64::from(width) {
        return out.push_str("none");
    }
    write!(out, "{:x}", element(&WORDS, at, width))
}

/// Elements by their index, one of which has no bits, and one of no words.
fn tell_indexed(out: &mut String) -> Result<(), AllocError> {
    let elements = [
        element_at(&WORDS, 12, 5),
        element_at(&WORDS, u64::MAX, 0),
        element(&[], 0, 0),
    ];
    write!(out, "{elements:?}")
}

/// Two words, over which an element across both, one without bits and one of zeros were written, and the second word once it was
/// written whole.
fn tell_written(out: &mut String) -> Result<(), AllocError> {
    let mut words = [u64::MAX, 0];
    set_element(&mut words, 60, 8, 0xA5);
    set_element(&mut words, 4, 0, 0);
    set_element(&mut words, 0, 4, 0);
    let before = words;
    set_element(&mut words, 64, 64, 7);
    write!(out, "{before:?} {words:?}")
}

/// Look-ups in runs of buckets: members, and values of keys.
fn tell_found(out: &mut String) -> Result<(), AllocError> {
    let set = [0x1F];
    let found = [
        has(&set, 0, 4, 2, 0),
        has(&set, 0, 4, 2, 1),
        has(&set, 0, 4, 2, 2),
        has(&set, 0, 4, 2, 3),
        has(&[0x688], 0, 4, 3, 5),
        has(&[], 0, 0, 64, 0),
    ];
    let values = [at(&[0x43], 0, 2, 2, 2, 0), at(&[0x43], 0, 2, 2, 2, 1)];
    write!(out, "{found:?} {values:?}")
}

/// Numbers, and what is told of them.
pub const NUMBERS: &str = "put 0 = [0] Ok((0, 1)) Ok((0, 1))
put 127 = [127] Ok((127, 1)) Ok((127, 1))
put 128 = [129, 0] Ok((128, 2)) Ok((128, 2))
put 16384 = [129, 128, 0] Ok((16384, 3)) Ok((16384, 3))
put 4294967295 = [143, 255, 255, 255, 127] Ok((4294967295, 5)) Ok((4294967295, 5))
put 4294967296 = [144, 128, 128, 128, 0] Ok((4294967296, 5)) Err(Long)
put 18446744073709551615 = [129, 255, 255, 255, 255, 255, 255, 255, 255, 127] Ok((18446744073709551615, 10)) Err(Long)
behind 300 = [128, 130, 44] Ok((300, 3))
zigzag 0 = 0 0 0 0
zigzag -1 = 1 1 -1 -1
zigzag 1 = 2 2 1 1
zigzag -2 = 3 3 -2 -2
zigzag 2147483647 = 4294967294 4294967294 2147483647 2147483647
zigzag -2147483648 = 4294967295 4294967295 -2147483648 -2147483648
element 0 64 = fedcba9876543210
element 191 1 = 1
element 192 0 = 0
element 192 1 = none
element 37 33 = 17ff6e5d4
element 60 8 = ff
element 63 64 = 2468acf13579bdf
element 120 16 = ff01
sizes 0 = 0 0
sizes 1 = 1 1
sizes 2 = 2 1
sizes 3 = 2 1
sizes 64 = 7 1
sizes 65 = 7 2
sizes 255 = 8 4
sizes 256 = 9 4
sizes 18446744073709551615 = 64 288230376151711744
hash 0 = caa3caa3
hash 1 = 12d60bf6
hash 3 = 3882835c
buckets 0 = 1
buckets 1 = 2
buckets 2 = 4
buckets 3 = 4
buckets 100 = 256
buckets 4294967295 = 8589934592
indexed = [31, 0, 0]
written = [6917529027641081840, 10] [6917529027641081840, 7]
found = [true, true, false, false, false, false] [Some(1), None]";
