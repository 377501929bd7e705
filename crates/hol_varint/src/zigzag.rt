//! Signed numbers as natural ones, by turns: 0, -1, 1, -2, 2 and so on are 0, 1, 2, 3, 4 and so on.
ghost use Rattle.std.specs.Prelude.{◌≡◌};
ghost use Rattle.hol_varint.specs.Zigzag.{zigzag, unzigzag};

/// The zigzag number of a number in 32 bits.
pub fn zigzag32(number: i32) -> u32
    ensures { result ≡ zigzag number }
{
    if number < 0 {
        2 * (number.unsigned_abs() - 1) + 1
    } else {
        2 * number.unsigned_abs()
    }
}

/// The number in 32 bits whose zigzag number this is.
pub fn unzigzag32(number: u32) -> i32
    ensures { result ≡ unzigzag number }
{
    let half = (number / 2) as i32;
    if number % 2 == 0 { half } else { -half - 1 }
}

/// The zigzag number of a number in 64 bits.
pub fn zigzag64(number: i64) -> u64
    ensures { result ≡ zigzag number }
{
    if number < 0 {
        2 * (number.unsigned_abs() - 1) + 1
    } else {
        2 * number.unsigned_abs()
    }
}

/// The number in 64 bits whose zigzag number this is.
pub fn unzigzag64(number: u64) -> i64
    ensures { result ≡ unzigzag number }
{
    let half = (number / 2) as i64;
    if number % 2 == 0 { half } else { -half - 1 }
}
