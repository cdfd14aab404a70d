//! Tests whether bytes are within bounds, eight at once.
ghost use Rattle.std.specs.Prelude.{◌≡◌, length};
ghost use Rattle.std.specs.List.{list_all};
ghost use Rattle.pmg_value.specs.Within.{lies_within};
ghost use Rattle.pmg_value.specs.declared.within.TheConstants.{AT_ONCE};

/// The number of bytes that are tested at once.
const AT_ONCE: usize = 8;

/// Returns whether each byte is one of `least` to `most`.
#[inline(always)]
pub(crate) fn all_within(least: u8, most: u8, bytes: &[u8]) -> bool
    ensures { result ≡ list_all (lies_within least most) bytes.now }
{
    let mut rest = bytes;
    while rest.len() >= AT_ONCE {
        let (eight, others) = rest.split_at(AT_ONCE);
        if !eight_within(least, most, eight) {
            return false;
        }
        rest = others;
    }
    each_within(least, most, rest)
}

/// Returns whether each of eight bytes is one of `least` to `most`. No byte's test waits for another's.
#[inline(always)]
fn eight_within(least: u8, most: u8, eight: &[u8]) -> bool
    requires { length eight.now ≡ AT_ONCE }
    ensures { result ≡ list_all (lies_within least most) eight.now }
{
    lies_within(least, most, eight[0])
        & lies_within(least, most, eight[1])
        & lies_within(least, most, eight[2])
        & lies_within(least, most, eight[3])
        & lies_within(least, most, eight[4])
        & lies_within(least, most, eight[5])
        & lies_within(least, most, eight[6])
        & lies_within(least, most, eight[7])
}

/// Returns whether each byte is one of `least` to `most`, one after another.
#[inline(always)]
fn each_within(least: u8, most: u8, bytes: &[u8]) -> bool
    ensures { result ≡ list_all (lies_within least most) bytes.now }
{
    for byte in bytes {
        if !lies_within(least, most, *byte) {
            return false;
        }
    }
    true
}

/// Returns whether the byte is one of `least` to `most`.
fn lies_within(least: u8, most: u8, byte: u8) -> bool
    ensures { result ≡ lies_within least most byte }
{
    least <= byte && byte <= most
}
