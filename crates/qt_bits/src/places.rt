//! Bits shifted, moved, turned and counted by their places.

ghost use Rattle.std.specs.Prelude.{◌≡◌, ◌^◌, ◌<◌, ◌≤◌};
ghost use Rattle.qt_bits.specs.BitPlaces.{moved_down, ones_below, turned};
ghost use Rattle.qt_bits.specs.Residues.{places_in, shifted_down, shifted_up};

/// Bits shifted toward the highest place.
pub fn shifted_up(bits: u64, places: i128, width: u8) -> u64
    requires width { width ≤ 64 }
    ensures value { result ≡ shifted_up width bits places }
    ensures below { result < 2 ^ width }
{
    if places < 0 || places >= i128::from(width) {
        return 0;
    }
    ((u128::from(bits) << places as u32) % (1u128 << width)) as u64
}

/// Bits shifted toward the lowest place.
pub fn shifted_down(bits: u64, places: i128, width: u8) -> u64
    requires width { width ≤ 64 }
    requires fits { bits < 2 ^ width }
    ensures value { result ≡ shifted_down width bits places }
    ensures below { result < 2 ^ width }
{
    if places < 0 || places >= i128::from(width) {
        return 0;
    }
    bits >> places as u32
}

/// A number of places, modulo the width.
pub fn places_in(width: u8, places: i128) -> u8
    requires { 0 < width }
    ensures value { result ≡ places_in width places }
    ensures below { result < width }
{
    places.rem_euclid(i128::from(width)) as u8
}

/// Bits moved toward the lowest place, and those that fall off put in at the highest.
pub fn moved_down(bits: u64, places: u8, width: u8) -> u64
    requires places { places ≤ width }
    requires width { width ≤ 64 }
    requires fits { bits < 2 ^ width }
    ensures value { result ≡ moved_down width places bits }
    ensures below { result < 2 ^ width }
{
    let bits = u128::from(bits);
    let low = bits >> places;
    let high = (bits % (1u128 << places)) << (width - places);
    (low + high) as u64
}

/// Each bit turned.
pub fn turned(bits: u64, width: u8) -> u64
    requires width { width ≤ 64 }
    requires fits { bits < 2 ^ width }
    ensures value { result ≡ turned width bits }
    ensures below { result < 2 ^ width }
{
    ((1u128 << width) - 1 - u128::from(bits)) as u64
}

/// How many bits are 1.
pub fn ones(bits: u64, width: u8) -> u64
    requires { bits < 2 ^ width }
    ensures { result ≡ ones_below width bits }
{
    u64::from(bits.count_ones())
}
