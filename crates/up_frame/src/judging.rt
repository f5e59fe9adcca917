//! Frames that are judged as far as their bytes are there.
ghost use Rattle.std.specs.Prelude.{◌≡◌, ◌+◌, ◌<◌, ◌≤◌, length, IfOk, IfErr, IfSome, None, Err};
ghost use Rattle.up_frame.specs.Judging.{
  AreFramesBefore,
  EndsAt,
  GoesOn,
  IsAllJudged,
  IsJudged,
  IsRest,
  Leads,
  judged_place,
  name_or_none,
  next_at,
};
ghost use Rattle.up_frame.specs.declared.judged.TheConstants.{HEAD_SIZE};
ghost use Rattle.up_model.specs.FrameFronts.{packet_at};
ghost use Rattle.up_model.specs.declared.frame_layout.NotWhole.TheVariants.{Unfinished};

use crate::judged::{HEAD_SIZE, Judged};
use crate::reading::{attribute, behind_byte, count_at, size_at};
use up_base::AttrName;
use up_model::{MARK, NotWhole, VERSION};

/// Judges the head of a frame.
#[tactic(auto, unfolding(up_model::specs::FrameFronts::packet_at))]
fn head(bytes: &[u8]) -> Result<Judged, NotWhole>
    ensures within { IfOk result (λ judged. judged.at ≤ length bytes.now) }
    ensures front { Leads result bytes.now }
    ensures short { IfErr result (λ refused. refused ≡ Unfinished → length bytes.now < HEAD_SIZE) }
{
    let rest = behind_byte(bytes, MARK)?;
    let rest = behind_byte(rest, VERSION)?;
    let (count, rest) = count_at(rest)?;
    let (size, _) = size_at(rest)?;
    Ok(Judged {
        at: HEAD_SIZE,
        left: count,
        size,
        before: None,
    })
}

/// The bytes of the name, where there is one.
fn last_name(name: &Option<AttrName>) -> &[u8]
    ensures { result.now ≡ name_or_none name.now }
{
    match name {
        Some(name) => name.bytes(),
        None => &[],
    }
}

/// Judges the next attribute.
fn next_attribute(bytes: &[u8], judged: Judged) -> Result<Judged, NotWhole>
    requires within { judged.at ≤ length bytes.now }
    requires some { 0 < judged.left }
    ensures within { IfOk result (λ next. next.at ≤ length bytes.now) }
    ensures fewer { IfOk result (λ next. next.left + 1 ≡ judged.left) }
    ensures front { GoesOn judged bytes.now → Leads result bytes.now }
    ensures refused { IfErr result (λ refused. next_at judged bytes.now ≡ Err refused) }
{
    let (name, _, rest) = attribute(&bytes[judged.at..], last_name(&judged.before))?;
    Ok(Judged {
        at: bytes.len() - rest.len(),
        left: judged.left - 1,
        size: judged.size,
        before: Some(AttrName::of(name)),
    })
}

/// Judges as many attributes as are there, and says why not all were.
fn attributes(bytes: &[u8], judged: &mut Judged) -> Option<NotWhole>
    requires { judged.old.at ≤ length bytes.now }
    ensures within { judged.new.at ≤ length bytes.now }
    ensures all { result ≡ None → judged.new.left ≡ 0 }
    ensures judged { GoesOn judged.old bytes.now → GoesOn judged.new bytes.now }
    ensures front { GoesOn judged.old bytes.now
        → IfSome result (λ refused. packet_at bytes.now ≡ Err refused) }
    ensures refused { IfSome result (λ refused. next_at judged.new bytes.now ≡ Err refused) }
{
    while judged.left > 0 {
        match next_attribute(bytes, *judged) {
            Ok(next) => *judged = next,
            Err(refused) => return Some(refused),
        }
    }
    None
}

/// Where the frame ends whose attributes were judged.
fn body_end(bytes: &[u8], judged: Judged) -> Result<usize, NotWhole>
    requires within { judged.at ≤ length bytes.now }
    requires all { judged.left ≡ 0 }
    ensures within { IfOk result (λ end. (0 < end) × (end ≤ length bytes.now)) }
    ensures front { GoesOn judged bytes.now → EndsAt result bytes.now }
{
    if bytes.len() - judged.at < judged.size as usize {
        return Err(NotWhole::Unfinished);
    }
    Ok(judged.at + judged.size as usize)
}

/// Where the frame at the front ends. What was judged isn't judged again.
fn frame_end(bytes: &[u8], judged: &mut Option<Judged>) -> Result<usize, NotWhole>
    requires { judged_place judged.old ≤ length bytes.now }
    ensures place { judged_place judged.new ≤ length bytes.now }
    ensures within { IfOk result (λ end. (0 < end) × (end ≤ length bytes.now)) }
    ensures judged { IsJudged judged.old bytes.now → IsJudged judged.new bytes.now }
    ensures front { IsJudged judged.old bytes.now → EndsAt result bytes.now }
    ensures no_more { result ≡ Err Unfinished → IsAllJudged judged.new bytes.now }
{
    let mut now = match *judged {
        Some(judged) => judged,
        None => head(bytes)?,
    };
    let refused = attributes(bytes, &mut now);
    *judged = Some(now);
    match refused {
        Some(refused) => Err(refused),
        None => body_end(bytes, now),
    }
}

/// Where the rest begins behind all whole frames, and why none stands there. What was judged of the first
/// frame isn't judged again, and how far the rest was judged is left.
pub(crate) fn rest_start(bytes: &[u8], judged: &mut Option<Judged>) -> (usize, NotWhole)
    requires { judged_place judged.old ≤ length bytes.now }
    ensures within { result.0 + judged_place judged.new ≤ length bytes.now }
    ensures rest { IsJudged judged.old bytes.now
        → IsRest bytes.now result.0 result.1 judged.new }
    ensures frames { IsJudged judged.old bytes.now → AreFramesBefore result.0 bytes.now }
{
    let mut start = 0;
    'frames: loop {
        match frame_end(&bytes[start..], judged) {
            Ok(size) => {
                start += size;
                *judged = None;
            }
            Err(refused) => return (start, refused),
        }
    }
}
