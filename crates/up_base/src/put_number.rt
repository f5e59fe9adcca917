// Numbers put as big-endian bytes: the byte of the highest worth comes first.
ghost use Rattle.std.specs.Prelude.{◌≡◌, ℕ, ◌^◌, ◌<◌, List, ◌++◌, length, OnOk, OnErr};
ghost use Rattle.up_base.specs.Number.{AreBytes, big_endian, big_endian_bytes};

use crate::{Bytes, NoMemory};

/// Adds the number's two bytes at the end.
pub fn put_u16(out: &mut Bytes, v: u16) -> Result<(), NoMemory>
    ensures added { OnOk result (out.new ≡ out.old ++ big_endian_bytes 2 v) }
    ensures unchanged { OnErr result (out.new ≡ out.old) }
{
    let bytes: [u8; 2] = v.to_be_bytes();
    out.append(&bytes)
}

/// Adds the number's four bytes at the end.
pub fn put_u32(out: &mut Bytes, v: u32) -> Result<(), NoMemory>
    ensures added { OnOk result (out.new ≡ out.old ++ big_endian_bytes 4 v) }
    ensures unchanged { OnErr result (out.new ≡ out.old) }
{
    let bytes: [u8; 4] = v.to_be_bytes();
    out.append(&bytes)
}

/// Adds the number's eight bytes at the end.
pub fn put_u64(out: &mut Bytes, v: u64) -> Result<(), NoMemory>
    ensures added { OnOk result (out.new ≡ out.old ++ big_endian_bytes 8 v) }
    ensures unchanged { OnErr result (out.new ≡ out.old) }
{
    let bytes: [u8; 8] = v.to_be_bytes();
    out.append(&bytes)
}

/// A number that was put reads back.
#[tactic(auto, using(crate::proofs::NumberBytes::number_of_bytes))]
pub fn reads_back()
    ensures { (count number : ℕ) → number < 256 ^ count
        → big_endian (big_endian_bytes count number) ≡ number }
{}

/// Bytes that were read as a number are those that it is put as.
#[tactic(auto, using(crate::proofs::NumberBytes::bytes_of_number))]
pub fn puts_back()
    ensures { (bytes : List ℕ) → AreBytes bytes →
        big_endian_bytes (length bytes) (big_endian bytes) ≡ bytes }
{}
