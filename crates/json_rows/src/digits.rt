//! The digits of a number, put one by one where there is room for them.
ghost use Rattle.std.specs.Prelude.{◌≡◌, ◌+◌, ◌/◌, ◌%◌, ◌<◌, ◌≤◌, ◌++◌, ◌∷◌, [], decimal, vec_len, vec_capacity};

// The digits of a number of at most eight.
pub(crate) fn put_few(number: u64, out: &mut Vec<u8>)
    requires few { number < 100000000 }
    requires room { vec_len out.old + 8 ≤ vec_capacity out.old }
    ensures { out.new.items ≡ out.old.items ++ decimal number }
{
    if number < 10_000 {
        return put_four(number, out);
    }
    put_four(number / 10_000, out);
    put_tens(number % 10_000 / 100, out);
    put_tens(number % 10_000 % 100, out);
}

// The digits of a number of at most four.
#[inline(always)]
fn put_four(number: u64, out: &mut Vec<u8>)
    requires few { number < 10000 }
    requires room { vec_len out.old + 4 ≤ vec_capacity out.old }
    ensures items { out.new.items ≡ out.old.items ++ decimal number }
    ensures len { vec_len out.new ≤ vec_len out.old + 4 }
    ensures capacity { vec_capacity out.new ≡ vec_capacity out.old }
{
    if number < 100 {
        return put_two(number, out);
    }
    put_two(number / 100, out);
    put_tens(number % 100, out);
}

// The digits of a number of one or two.
#[inline(always)]
fn put_two(number: u64, out: &mut Vec<u8>)
    requires few { number < 100 }
    requires room { vec_len out.old + 2 ≤ vec_capacity out.old }
    ensures items { out.new.items ≡ out.old.items ++ decimal number }
    ensures len { vec_len out.new ≤ vec_len out.old + 2 }
    ensures capacity { vec_capacity out.new ≡ vec_capacity out.old }
{
    if number < 10 {
        return out.push_reserved(b'0' + number as u8);
    }
    put_tens(number, out);
}

// Two digits, of which the first may be zero.
#[inline(always)]
fn put_tens(number: u64, out: &mut Vec<u8>)
    requires few { number < 100 }
    requires room { vec_len out.old + 2 ≤ vec_capacity out.old }
    ensures items { out.new.items ≡ out.old.items ++ (48 + number / 10) ∷ (48 + number % 10) ∷ [] }
    ensures len { vec_len out.new ≡ vec_len out.old + 2 }
    ensures capacity { vec_capacity out.new ≡ vec_capacity out.old }
{
    out.push_reserved(b'0' + (number / 10) as u8);
    out.push_reserved(b'0' + (number % 10) as u8);
}
