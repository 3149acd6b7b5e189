//! Numbers in byte formats: four or eight bytes, the highest first.
ghost use Rattle.std.specs.Prelude.{◌≡◌, ◌<◌, ◌+◌, ◌^◌, ◌++◌, ◌↔◌, length, take, drop, IsNone, IfSome, OnOk, OnErr, MatchOption};
ghost use Rattle.base_core.specs.Numbers.{number_bytes, length_bytes};

use crate::want::Want;
use byteorder::{BigEndian, ByteOrder};

/// Appends the four bytes of the number. After an `Err` the bytes are as they were.
pub fn put_u32(n: u32, out: &mut Vec<u8>) -> Result<(), Want>
    ensures ok { OnOk result (out.new.items ≡ out.old.items ++ length_bytes n) }
    ensures err { OnErr result (out.new.items ≡ out.old.items) }
{
    let mut field = [0u8; 4];
    BigEndian::write_u32(&mut field, n);
    out.extend_from_slice(&field)?;
    Ok(())
}

/// Appends the eight bytes of the number. After an `Err` the bytes are as they were.
pub fn put_u64(n: u64, out: &mut Vec<u8>) -> Result<(), Want>
    ensures ok { OnOk result (out.new.items ≡ out.old.items ++ number_bytes n) }
    ensures err { OnErr result (out.new.items ≡ out.old.items) }
{
    let mut field = [0u8; 8];
    BigEndian::write_u64(&mut field, n);
    out.extend_from_slice(&field)?;
    Ok(())
}

/// The number whose four bytes stand at the place.
pub fn get_u32(bytes: &[u8], at: usize) -> Option<u32>
    ensures short { IsNone result ↔ (length bytes.now < at + 4) }
    ensures spelled { IfSome result (λ n. take 4 (drop at bytes.now) ≡ length_bytes n) }
{
    let Some((_, rest)) = bytes.split_at_checked(at) else {
        return None;
    };
    let Some((field, _)) = rest.split_at_checked(4) else {
        return None;
    };
    Some(BigEndian::read_u32(field))
}

/// The number whose eight bytes stand at the place.
pub fn get_u64(bytes: &[u8], at: usize) -> Option<u64>
    ensures short { IsNone result ↔ (length bytes.now < at + 8) }
    ensures spelled { IfSome result (λ n. take 8 (drop at bytes.now) ≡ number_bytes n) }
{
    let Some((_, rest)) = bytes.split_at_checked(at) else {
        return None;
    };
    let Some((field, _)) = rest.split_at_checked(8) else {
        return None;
    };
    Some(BigEndian::read_u64(field))
}

/// The number whose four bytes stand in front, and the bytes behind them.
pub fn first_u32(bytes: &[u8]) -> Option<(u32, &[u8])>
    ensures cut { MatchOption result (length bytes.now < 4) (λ found. bytes.now ≡ length_bytes found.0 ++ found.1.now) }
    ensures fits { IfSome result (λ found. found.0 < 2 ^ 32) }
{
    let Some((field, rest)) = bytes.split_at_checked(4) else {
        return None;
    };
    Some((BigEndian::read_u32(field), rest))
}

/// The number whose eight bytes stand in front, and the bytes behind them.
pub fn first_u64(bytes: &[u8]) -> Option<(u64, &[u8])>
    ensures cut { MatchOption result (length bytes.now < 8) (λ found. bytes.now ≡ number_bytes found.0 ++ found.1.now) }
    ensures fits { IfSome result (λ found. found.0 < 2 ^ 64) }
{
    let Some((field, rest)) = bytes.split_at_checked(8) else {
        return None;
    };
    Some((BigEndian::read_u64(field), rest))
}
