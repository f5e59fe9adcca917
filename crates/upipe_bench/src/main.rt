//! A strand of one to 64 `idem`s over packets of vectors: what it carries, and what one more `idem` costs a packet. A
//! reader of frames: what it gives, and how long it takes in pieces of several sizes.
#![tactic(auto)]

ghost use Rattle.std.specs.Prelude.{◌<◌};

mod carry;
mod chain;
mod frames;
mod not_measured;
mod pieces;
mod run;
mod slope;
mod timed;
mod words;

use crate::carry::{Came, bytes_of, carry};
use crate::frames::Sizes;
use crate::not_measured::NotMeasured;
use crate::slope::{LENGTHS, Least, slope};
use crate::timed::{Fed, Timed, read_frames};
use crate::words::{Asked, asked_by};
use std::num::NonZeroU32;
use std::process::ExitCode;
use std::{env, io};

/// How many packets go through each chain where no time is asked for.
const FEW: u32 = 100;

/// How often each chain is timed, of which the least counts.
const ROUNDS: u32 = 9;

/// Prints what came through each chain.
fn tell_bytes(rt: &HostRuntime) -> Result<(), NotMeasured> {
    let bytes = bytes_of(rt.alloc(), FEW)?;
    for idems in LENGTHS {
        let Came {
            packets,
            bytes,
            nanos: _,
        } = carry(rt, rt.alloc(), idems, &bytes)?;
        let _ = println!(rt; "{idems} idem: {packets} packets, {bytes} bytes");
    }
    Ok(())
}

/// Prints how long each chain took for so many packets, and the time of one more `idem` for each of them.
fn tell_times(rt: &HostRuntime, packets: NonZeroU32) -> Result<(), NotMeasured> {
    let bytes = bytes_of(rt.alloc(), packets.get())?;
    let mut least = Least::new();
    for _ in 0..ROUNDS {
        least.time(rt, rt.alloc(), &bytes)?;
    }
    for (idems, nanos) in LENGTHS.iter().zip(least.nanos.iter()) {
        let _ = println!(rt; "{idems} idem: {packets} packets, {nanos} ns");
    }
    let tenths = slope(least.first(), least.last(), packets);
    let _ = println!(rt;
        "one more idem: {}.{} ns a packet",
        tenths / 10,
        tenths % 10
    );
    Ok(())
}

/// A packet of a transport stream with three attributes.
const SMALL: Sizes = Sizes {
    attrs: 3,
    value: 8,
    bytes: 188,
};

/// The packet of the most attributes and bytes.
const GREATEST: Sizes = Sizes {
    attrs: 64,
    value: 4_096,
    bytes: 1_048_576,
};

/// How many small frames are about 1 MB.
const SMALL_FRAMES: u32 = 4_100;

/// How many bytes a large piece has.
const LARGE_PIECE: usize = 65_536;

/// Prints how long frames took that were fed in pieces of this size.
fn tell_read(
    rt: &HostRuntime,
    name: &str,
    sizes: Sizes,
    frames: u32,
    piece: usize,
) -> Result<(), NotMeasured>
    requires { 0 < piece }
{
    let fed = Fed {
        sizes,
        frames,
        rounds: 1,
        piece,
    };
    let Timed {
        packets,
        bytes,
        nanos,
    } = read_frames(rt, rt.alloc(), fed)?;
    let _ = println!(rt;
        "{name} in pieces of {piece}: {packets} packets, {bytes} bytes, {nanos} ns"
    );
    Ok(())
}

/// Prints how long small frames and the greatest one take in pieces of each size.
fn tell_frames(rt: &HostRuntime) -> Result<(), NotMeasured> {
    for piece in [1, 188, LARGE_PIECE] {
        tell_read(rt, "small", SMALL, SMALL_FRAMES, piece)?;
        tell_read(rt, "greatest", GREATEST, 1, piece)?;
    }
    Ok(())
}

/// Prints what was read of so many rounds of small frames.
fn tell_rounds(rt: &HostRuntime, rounds: u32) -> Result<(), NotMeasured> {
    let fed = Fed {
        sizes: SMALL,
        frames: SMALL_FRAMES,
        rounds,
        piece: LARGE_PIECE,
    };
    let Timed {
        packets,
        bytes,
        nanos: _,
    } = read_frames(rt, rt.alloc(), fed)?;
    let _ = println!(rt; "{packets} packets, {bytes} bytes");
    Ok(())
}

/// What the words of the command line ask for.
fn asked(rt: &HostRuntime) -> io::Result<Option<Asked>> {
    let words = env::args(rt)?.collect::<Vec<String>>(rt.alloc())?;
    Ok(asked_by(&words))
}

fn main(rt: HostRuntime) -> ExitCode {
    let told = match asked(&rt) {
        Ok(Some(Asked::Bytes)) => tell_bytes(&rt),
        Ok(Some(Asked::Times { packets })) => tell_times(&rt, packets),
        Ok(Some(Asked::Frames)) => tell_frames(&rt),
        Ok(Some(Asked::Rounds { rounds })) => tell_rounds(&rt, rounds),
        Ok(None) => {
            let _ = eprintln!(rt;
                "usage: upipe_bench [slope [PACKETS] | frames [ROUNDS]], with 1 to 1000000 packets and at most 1000 rounds"
            );
            return ExitCode::from(2);
        }
        Err(_) => Err(NotMeasured::NoWords),
    };
    match told {
        Ok(()) => ExitCode::SUCCESS,
        Err(why) => {
            let _ = eprintln!(rt; "{why}");
            ExitCode::FAILURE
        }
    }
}
