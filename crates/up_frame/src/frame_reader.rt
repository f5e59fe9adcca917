//! Packets of frames that come in any pieces.
ghost use Rattle.std.specs.Prelude.{◌≡◌, ◌+◌, ◌<◌, ◌≤◌, ◌^◌, length};
ghost use Rattle.up_frame.specs.Judging.{judged_place};

use crate::judged::Judged;
use crate::judging::rest_start;
use crate::making::packet_of;
use crate::reading::frame_parts;
use crate::refusals::{BadFrame, FeedRefused};
use std::alloc::Global;
use up_base::NoMemory;
use up_model::NotWhole;
use up_shape::LocalPacket;

/// Reads packets from frames that come in any pieces. A field is judged once all its bytes are there; an attribute that
/// was judged whole isn't judged again, which no clause tells, since none tells the work of a call. Where packets are
/// taken until none is left after each piece, only the frame that isn't whole yet is held beside that piece. Of a broken
/// frame nothing is held.
#[derive(Debug, Drop)]
pub struct FrameReader {
    /// Bytes that were given as packets, whole frames that wait from the place `given` on, and what isn't whole from the place
    /// `start` on.
    held: Vec<u8>,
    given: usize,
    start: usize,
    judged: Option<Judged>,
    fed: u64,
    broken: Option<u64>,
    ghost ordered: { given ≤ start },
    ghost judged_within: { start + judged_place judged ≤ length held.items },
    ghost counted: { length held.items ≤ start + fed },
}

impl FrameReader {
    ghost use Rattle.std.specs.Prelude.{List, ℕ, [], ◌∷◌, ◌++◌, None, OnOk, OnErr, IfOk, IfSome};
    ghost use Rattle.up_frame.specs.Readers.{
      Awaits,
      Feeds,
      Gives,
      HoldsAtMostRest,
      IsSparing,
      Judges,
      StandsFor,
      TellsCut,
      bytes_fed,
      bytes_held,
      plain_answer,
    };
    ghost use Rattle.up_model.specs.FrameStreams.{broken_at, cut_at};
    ghost use Rattle.up_model.specs.Packet.{Flow, IsLegal};
    ghost use Rattle.up_shape.specs.Stores.{Stays};

    /// A reader that was fed nothing. Nothing is allocated before the first piece.
    pub fn new(alloc: Global) -> FrameReader
        ensures stands { StandsFor result [] [] }
        ensures count { bytes_fed result ≡ 0 }
    {
        FrameReader {
            held: Vec::new(alloc),
            given: 0,
            start: 0,
            judged: None,
            fed: 0,
            broken: None,
        }
    }

    /// How many bytes were fed, without the pieces that were answered with `NoMemory`.
    pub fn fed(&self) -> u64
        ensures count { result ≡ bytes_fed self.now }
        ensures bytes { (bytes : List ℕ) (given : Flow) → StandsFor self.now bytes given
            → result ≡ length bytes }
    {
        self.fed
    }

    /// Lets go of the bytes that were given, once what is behind them is no longer than they are, or no whole frame waits.
    fn compact(&mut self)
        ensures stands { (bytes : List ℕ) (given : Flow) → StandsFor self.old bytes given
            → StandsFor self.new bytes given }
        ensures sparing { IsSparing self.new }
        ensures held { HoldsAtMostRest self.old self.new [] }
        ensures fewer { bytes_held self.new ≤ bytes_held self.old }
        ensures count { bytes_fed self.new ≡ bytes_fed self.old }
        ensures broken { self.new.broken ≡ self.old.broken }
    {
        let given = self.given;
        if given == 0 || (given < self.start && given < self.held.len() - given) {
            return;
        }
        self.given = 0;
        self.start -= given;
        drop(self.held.drain(..given));
    }

    /// Adds a piece to what is held.
    fn add(&mut self, piece: &[u8]) -> Result<(), NoMemory>
        requires room { bytes_fed self.old + length piece.now < 2 ^ 64 }
        requires whole { self.old.broken ≡ None }
        ensures added { (bytes : List ℕ) (given : Flow) → StandsFor self.old bytes given
            → OnOk result (Awaits self.new (bytes ++ piece.now) given) }
        ensures unchanged { (bytes : List ℕ) (given : Flow) → StandsFor self.old bytes given
            → OnErr result (StandsFor self.new bytes given × (broken_at bytes ≡ None)) }
        ensures sparing { IsSparing self.old → IsSparing self.new }
        ensures held { bytes_held self.new ≤ bytes_held self.old + length piece.now }
        ensures count { bytes_fed self.new ≤ bytes_fed self.old + length piece.now }
        ensures broken { self.new.broken ≡ None }
    {
        self.held.extend_from_slice(piece)?;
        self.fed += piece.len() as u64;
        Ok(())
    }

    /// Judges the bytes that weren't judged yet, and tells the place of a broken frame, whose bytes it lets go.
    fn judge(&mut self) -> Option<u64>
        requires whole { self.old.broken ≡ None }
        ensures judged { Judges self.old self.new result }
        ensures sparing { result ≡ None → IsSparing self.old → IsSparing self.new }
        ensures fewer { bytes_held self.new ≤ bytes_held self.old }
        ensures count { bytes_fed self.new ≡ bytes_fed self.old }
    {
        let mut judged = self.judged;
        let (size, refused) = rest_start(&self.held[self.start..], &mut judged);
        self.start += size;
        self.judged = judged;
        match refused {
            NotWhole::Unfinished => None,
            NotWhole::Broken => {
                let offset = self.fed - (self.held.len() - self.start) as u64;
                self.judged = None;
                self.held.truncate(self.start);
                self.broken = Some(offset);
                Some(offset)
            }
        }
    }

    /// Takes the next piece, of any size. Once a frame was broken each piece is answered with its place, nothing is
    /// allocated, and the whole frames before it are still given.
    pub fn feed(&mut self, piece: &[u8]) -> Result<(), FeedRefused>
        requires { bytes_fed self.old + length piece.now < 2 ^ 64 }
        ensures fed { Feeds self.old self.new piece.now result }
        ensures sparing { IsSparing self.new }
        ensures held { HoldsAtMostRest self.old self.new piece.now }
        ensures count { bytes_fed self.new ≤ bytes_fed self.old + length piece.now }
    {
        self.compact();
        if let Some(offset) = self.broken {
            self.fed += piece.len() as u64;
            return Err(FeedRefused::BadFrame { offset });
        }
        match self.add(piece) {
            Ok(()) => {}
            Err(_) => return Err(FeedRefused::NoMemory),
        }
        match self.judge() {
            None => Ok(()),
            Some(offset) => {
                self.compact();
                Err(FeedRefused::BadFrame { offset })
            }
        }
    }

    /// The packet of the next whole frame, where there is one. After `NoMemory` it is still the next.
    pub fn next_packet<P: LocalPacket>(&mut self, s: &mut P::Store) -> Result<Option<P>, NoMemory>
        ensures given { Gives self.old self.new (plain_answer P.plain result) }
        ensures legal { IfOk result (λ r. IfSome r (λ p. IsLegal (P.plain p))) }
        ensures family { IfOk result
            (λ r. IfSome r (λ p. P.fits p (P.Store.state s.old).family)) }
        ensures drawn { IfOk result (λ r. IfSome r (λ p. 0 < length (P.plain p).bytes
            → (P.Store.state s.old).drawn < (P.Store.state s.new).drawn)) }
        ensures store { Stays (P.Store.state s.old) (P.Store.state s.new) }
        ensures untouched { IfOk result
            (λ r. r ≡ None → P.Store.state s.new ≡ P.Store.state s.old) }
        ensures held { bytes_held self.new ≡ bytes_held self.old }
        ensures count { bytes_fed self.new ≡ bytes_fed self.old }
    {
        let (parts, rest) = match frame_parts(&self.held[self.given..self.start]) {
            Ok(found) => found,
            Err(_) => return Ok(None),
        };
        let left = rest.len();
        let packet = packet_of(parts, s)?;
        self.given = self.start - left;
        Ok(Some(packet))
    }

    /// The place of what isn't whole, where there is any: of a broken frame, or of one that is unfinished so far.
    pub fn cut(&self) -> Option<u64>
        ensures { (bytes : List ℕ) (given : Flow) → StandsFor self.now bytes given
            → result ≡ cut_at bytes }
    {
        if let Some(offset) = self.broken {
            return Some(offset);
        }
        let left = self.held.len() - self.start;
        if left == 0 {
            return None;
        }
        Some(self.fed - left as u64)
    }

    /// Ends the reading. What isn't whole then is a broken or an unfinished frame; whole frames that wait are let go.
    pub fn finish(self) -> Result<(), BadFrame>
        ensures cut { (bytes : List ℕ) (given : Flow) → StandsFor self bytes given
            → TellsCut (cut_at bytes) result }
    {
        match self.cut() {
            Some(offset) => Err(BadFrame { offset }),
            None => Ok(()),
        }
    }
}
