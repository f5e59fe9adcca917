// A source of frames: what it gives is read a piece at a time, and put out a packet at a time.
ghost use Rattle.std.specs.Prelude.{◌≡◌, ◌<◌, ◌≤◌, ◌^◌, ◌+◌, ◌++◌, List, ℕ, [], None, length, take, IfOk, IfSome, OnOk};
ghost use Rattle.up_frame.specs.Readers.{StandsFor as IsReaderOf, bytes_fed};
ghost use Rattle.up_model.specs.Outcomes.{outcome_at_end};
ghost use Rattle.up_model.specs.Packet.{Flow, IsLegal};
ghost use Rattle.up_model.specs.declared.form.SourceForm.TheVariants as forms;
ghost use Rattle.up_model.specs.declared.limits.TheConstants.{MAX_LIMIT};
ghost use Rattle.up_shape.specs.Stores.{Stays};
ghost use Rattle.up_strand.specs.Frames.{GaveAll, ReadsOnce, GaveFrame, GaveFrameWhere, FramesStand, FramesStandForSome, packet_in, shows_where};

use std::alloc::Global;
use up_base::{Failed, NoMemory};
use up_frame::{FeedRefused, FrameReader};
use up_model::Outcome;
use up_outside::Source;
use up_shape::LocalPacket;

/// How many bytes are read of a source of frames at once.
pub const MAX_PIECE: usize = 65_536;

/// A source of frames, which may give `limit` bytes in all, and `left` of them still.
pub struct FrameSource<S> {
    pub source: S,
    /// What was read within the limit, where it wasn't put out yet.
    pub reader: FrameReader,
    /// Room to read into: none before the first read.
    pub piece: Vec<u8>,
    /// How it ends, where what was read shows it whatever comes behind. Then nothing more is read.
    pub shown: Option<Outcome>,
    pub limit: u64,
    pub left: u64,
}

/// What a source of frames gives next.
pub enum NextFrame<P> {
    /// A packet.
    Packet(P),
    /// Bytes alone: a piece was read.
    Piece,
    /// All its packets were given, and it ended so.
    Ended(Outcome),
    /// No memory was found for a packet, for room to read into, or for what was read, which is lost.
    NoMemory,
}

impl<S: Source> FrameSource<S> {
    /// A source that gave nothing. Nothing is allocated.
    pub fn of(alloc: Global, source: S, limit: u64) -> FrameSource<S>
        requires limit { limit ≤ MAX_LIMIT }
        ensures source { result.source ≡ source }
        ensures limit { result.limit ≡ limit }
        ensures stands { FramesStand result [] [] }
    {
        FrameSource {
            source,
            reader: FrameReader::new(alloc),
            piece: Vec::new(alloc),
            shown: None,
            limit,
            left: limit,
        }
    }

    /// Its source.
    pub fn into_source(self) -> S
        ensures { result ≡ self.source }
    {
        let FrameSource {
            source,
            reader: _,
            piece: _,
            shown: _,
            limit: _,
            left: _,
        } = self;
        source
    }

    /// The next packet, where one was read; else a piece more is read, until what was read shows how
    /// it ends.
    pub fn next<P: LocalPacket>(&mut self, s: &mut P::Store) -> NextFrame<P>
        requires stands { FramesStandForSome self.old }
        ensures gave { GaveFrame P.plain S.state self.old self.new result }
        ensures legal { IfSome (packet_in result) (λ p. IsLegal (P.plain p)) }
        ensures family { IfSome (packet_in result)
            (λ p. P.fits p (P.Store.state s.old).family) }
        ensures drawn { IfSome (packet_in result) (λ p. 0 < length (P.plain p).bytes
            → (P.Store.state s.old).drawn < (P.Store.state s.new).drawn) }
        ensures store { Stays (P.Store.state s.old) (P.Store.state s.new) }
    {
        match self.reader.next_packet(s) {
            Ok(Some(p)) => NextFrame::Packet(p),
            Ok(None) => match self.shown {
                Some(outcome) => NextFrame::Ended(outcome),
                None => self.read_on(),
            },
            Err(NoMemory) => NextFrame::NoMemory,
        }
    }

    /// Reads a piece, where all packets of what was read were put out and nothing is shown yet.
    fn read_on<P: LocalPacket>(&mut self) -> NextFrame<P>
        requires stands { FramesStandForSome self.old }
        requires unshown { self.old.shown ≡ None }
        ensures gave { GaveFrameWhere (GaveAll self.old) P.plain S.state
            self.old self.new result }
        ensures read { packet_in result ≡ None }
    {
        if make_room(&mut self.piece).is_err() {
            return NextFrame::NoMemory;
        }
        let want = self.left.min(MAX_PIECE as u64 - 1) as usize + 1;
        match read_once(&mut self.source, &mut self.piece, want) {
            Err(Failed) => NextFrame::Ended(Outcome::ReadFault),
            Ok(0) => NextFrame::Ended(self.outcome_at_end()),
            Ok(count) => match self.take_in(count) {
                Ok(()) => NextFrame::Piece,
                Err(NoMemory) => NextFrame::NoMemory,
            },
        }
    }

    /// Its outcome where no bytes are behind those that were read, which show none.
    fn outcome_at_end(&self) -> Outcome
        ensures { (bytes : List ℕ) (given : Flow) → IsReaderOf self.now.reader bytes given
            → result ≡ outcome_at_end forms.Framed bytes }
    {
        match self.reader.cut() {
            Some(offset) => Outcome::BadFrame { offset },
            None => Outcome::Whole,
        }
    }

    /// Feeds the reader what was read, up to the limit, and keeps what all of it shows.
    fn take_in(&mut self, count: usize) -> Result<(), NoMemory>
        requires stands { FramesStandForSome self.old }
        requires unshown { self.old.shown ≡ None }
        requires some { (count ≤ length self.old.piece.items) × (count ≤ self.old.left + 1) }
        ensures took { (read : List ℕ) (put : Flow) → FramesStand self.old read put → OnOk result
            (FramesStand self.new (read ++ take count self.old.piece.items) put) }
        ensures source { self.new.source ≡ self.old.source }
        ensures limit { self.new.limit ≡ self.old.limit }
    {
        let within = (count as u64).min(self.left);
        let past = within < count as u64;
        let piece = &self.piece[..within as usize];
        self.shown = feed_within(&mut self.reader, piece, past, self.limit)?;
        self.left -= within;
        Ok(())
    }
}

/// Makes room for a piece, where there is none.
fn make_room(piece: &mut Vec<u8>) -> Result<(), NoMemory>
    ensures { OnOk result (MAX_PIECE ≤ length piece.new.items) }
{
    if piece.len() < MAX_PIECE {
        piece.resize(MAX_PIECE, 0)?;
    }
    Ok(())
}

/// Reads once into the first `want` bytes of a room, and says how many were read: none at the end.
fn read_once<S: Source>(source: &mut S, room: &mut [u8], want: usize) -> Result<usize, Failed>
    requires want { (0 < want) × (want ≤ length room.old) }
    ensures few { IfOk result (λ count. count ≤ want) }
    ensures read { ReadsOnce (S.state source.old) (S.state source.new) room.new result }
{
    source.read(&mut room[..want])
}

/// Feeds a reader bytes within the limit, and says what all bytes show, where more were read past it
/// or not.
fn feed_within(
    reader: &mut FrameReader,
    piece: &[u8],
    past: bool,
    limit: u64,
) -> Result<Option<Outcome>, NoMemory>
    requires room { bytes_fed reader.old + length piece.now < 2 ^ 64 }
    ensures { (bytes : List ℕ) (given : Flow) → IsReaderOf reader.old bytes given
        → IfOk result (λ shown. IsReaderOf reader.new (bytes ++ piece.now) given
        × (shown ≡ shows_where past limit (bytes ++ piece.now))) }
{
    match reader.feed(piece) {
        Ok(()) if past => Ok(Some(Outcome::TooLong { limit })),
        Ok(()) => Ok(None),
        Err(FeedRefused::BadFrame { offset }) => Ok(Some(Outcome::BadFrame { offset })),
        Err(FeedRefused::NoMemory) => Err(NoMemory),
    }
}
