// Frames that are made of a number, for tests.
use crate::made_trees::Dice;
use std::alloc::Global;
use std::test::Fail;
use up_base::Bytes;

/// Bytes, and where the frames in them end.
#[derive(Drop)]
pub(crate) struct MadeFrames {
    pub bytes: Bytes,
    pub ends: Vec<usize>,
}

/// The attributes `date.sys` and `rank` with a number, but for its last byte.
const DATE: [u8; 21] = [
    8, 0x64, 0x61, 0x74, 0x65, 46, 0x73, 0x79, 0x73, 3, 0, 0, 0, 8, 0, 0, 0, 0, 0, 0, 0,
];

const RANK: [u8; 17] = [
    4, 0x72, 0x61, 0x6e, 0x6b, 3, 0, 0, 0, 8, 0, 0, 0, 0, 0, 0, 0,
];

/// Adds an attribute whose number is below four.
fn add_number(dice: &mut Dice, front: &[u8], bytes: &mut Bytes) -> Result<(), Fail> {
    bytes.append(front)?;
    bytes.push(dice.roll(4) as u8)?;
    Ok(())
}

/// Adds the frame of a packet of up to seven bytes, with neither of the attributes, with the date, or with both.
fn add_frame(dice: &mut Dice, bytes: &mut Bytes) -> Result<(), Fail> {
    let (count, size) = (dice.roll(3) as u8, dice.roll(8) as u8);
    bytes.append(&[0x46, 1, 0, count, 0, 0, 0, size])?;
    if count > 0 {
        add_number(dice, &DATE, bytes)?;
    }
    if count > 1 {
        add_number(dice, &RANK, bytes)?;
    }
    for _ in 0..size {
        bytes.push(dice.roll(256) as u8)?;
    }
    Ok(())
}

/// Up to three frames, and of every four times once the first bytes of one behind them.
pub(crate) fn made_frames(alloc: Global, dice: &mut Dice) -> Result<MadeFrames, Fail> {
    let mut bytes = Bytes::new(alloc);
    let mut ends = Vec::new(alloc);
    for _ in 0..dice.roll(4) {
        add_frame(dice, &mut bytes)?;
        ends.push(bytes.as_slice().len())?;
    }
    if dice.roll(4) == 0 {
        bytes.append(&[0x46, 1, 0])?;
    }
    Ok(MadeFrames { bytes, ends })
}
