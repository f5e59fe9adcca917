ghost use Rattle.std.specs.Prelude.{◌≡◌, ◌≤◌, [], is_some, IfSome};
ghost use Rattle.up_model.specs.Kinds.{IsWithinBounds};
ghost use Rattle.up_model.specs.declared.kind.Kind.TheVariants as kinds;
ghost use Rattle.up_model.specs.declared.limits.TheConstants.{MAX_PACKET};
ghost use Rattle.up_strand.specs.AnyModule.{any_kind, AnyStands, any_within, has_module};
ghost use Rattle.up_strand.specs.Values.{value_of_kind};
ghost use Rattle.up_strand.specs.declared.any_module.AnyModule.TheVariants as modules;

use up_base::{AttrName, NoMemory};
use up_basic::{DelAttr, Delay, DupPipe, Idem, MatchAttr, NullPipe, SetAttr};
use up_cut::Skip;
use up_model::{Kind, Opt, Value};
use up_shape::{Command, ControlRefused, LocalPacket, Module, Outbox, Reply};

/// The module of some kind.
#[derive(Debug)]
pub enum AnyModule {
    Idem(Idem),
    Null(NullPipe),
    Dup(DupPipe),
    Skip(Skip),
    SetAttr(SetAttr),
    DelAttr(DelAttr),
    MatchAttr(MatchAttr),
    Delay(Delay),
}

impl AnyModule {
    /// The module of the kind, which owns this value and was fed nothing; a source and a sink have
    /// none.
    pub fn of<P: LocalPacket>(kind: &Kind, value: Option<Value>) -> Option<AnyModule>
        requires within { IsWithinBounds kind.now }
        requires value { value ≡ value_of_kind kind.now }
        ensures there { is_some result ≡ has_module kind.now }
        ensures kind { IfSome result (λ m. any_kind m ≡ kind.now) }
        ensures fed_nothing { IfSome result (λ m. AnyStands m []) }
    {
        Some(match kind {
            Kind::Source { .. } => return None,
            Kind::Sink { .. } => return None,
            Kind::Idem => AnyModule::Idem(Idem::new()),
            Kind::Null => AnyModule::Null(NullPipe::new()),
            Kind::Dup => AnyModule::Dup(DupPipe::new()),
            Kind::Skip { bytes } => AnyModule::Skip(skip_of::<P>(*bytes)),
            Kind::SetAttr { attr, value: _ } => AnyModule::SetAttr(SetAttr::new(*attr, value?)),
            Kind::DelAttr { attr } => AnyModule::DelAttr(DelAttr::new(*attr)),
            Kind::MatchAttr { attr, low, high } => {
                AnyModule::MatchAttr(match_attr_of::<P>(*attr, *low, *high))
            }
            Kind::Delay { by } => AnyModule::Delay(delay_of::<P>(*by)),
        })
    }
}

/// The module that takes so many bytes off each packet.
fn skip_of<P: LocalPacket>(bytes: u32) -> Skip
    requires within { bytes ≤ MAX_PACKET }
    ensures kind { any_kind (modules.Skip result) ≡ kinds.Skip bytes }
    ensures fed_nothing { AnyStands (modules.Skip result) [] }
{
    let mut skip = Skip::new();
    match <Skip as Module<P>>::control(&mut skip, Command::Set(Opt::Offset, i128::from(bytes))) {
        Ok(Reply::Done) => skip,
        _ => unreachable!(),
    }
}

/// The module that lets the packets pass whose attribute is a number from `low` to `high`.
fn match_attr_of<P: LocalPacket>(attr: AttrName, low: u64, high: u64) -> MatchAttr
    requires within { low ≤ high }
    ensures kind { any_kind (modules.MatchAttr result) ≡ kinds.MatchAttr attr low high }
    ensures fed_nothing { AnyStands (modules.MatchAttr result) [] }
{
    let mut matches = MatchAttr::new(attr);
    let highest = Command::Set(Opt::High, i128::from(high));
    match <MatchAttr as Module<P>>::control(&mut matches, highest) {
        Ok(Reply::Done) => {}
        _ => unreachable!(),
    }
    let lowest = Command::Set(Opt::Low, i128::from(low));
    match <MatchAttr as Module<P>>::control(&mut matches, lowest) {
        Ok(Reply::Done) => matches,
        _ => unreachable!(),
    }
}

/// The module that moves dates by so many ticks.
fn delay_of<P: LocalPacket>(by: i64) -> Delay
    ensures kind { any_kind (modules.Delay result) ≡ kinds.Delay by }
    ensures fed_nothing { AnyStands (modules.Delay result) [] }
{
    let mut delay = Delay::new();
    match <Delay as Module<P>>::control(&mut delay, Command::Set(Opt::By, i128::from(by))) {
        Ok(Reply::Done) => delay,
        _ => unreachable!(),
    }
}

impl<P: LocalPacket> Module<P> for AnyModule {
    ghost kind = { any_kind };

    ghost stands = { AnyStands };

    ghost agrees = { λ _ _. Unit {0} };

    fn feed(&mut self, p: P, out: &mut Outbox<P>, s: &mut P::Store) -> Result<(), NoMemory> {
        match self {
            AnyModule::Idem(m) => m.feed(p, out, s),
            AnyModule::Null(m) => m.feed(p, out, s),
            AnyModule::Dup(m) => m.feed(p, out, s),
            AnyModule::Skip(m) => m.feed(p, out, s),
            AnyModule::SetAttr(m) => m.feed(p, out, s),
            AnyModule::DelAttr(m) => m.feed(p, out, s),
            AnyModule::MatchAttr(m) => m.feed(p, out, s),
            AnyModule::Delay(m) => m.feed(p, out, s),
        }
    }

    fn finish(self, out: &mut Outbox<P>, s: &mut P::Store) -> Result<(), NoMemory> {
        match self {
            AnyModule::Idem(m) => m.finish(out, s),
            AnyModule::Null(m) => m.finish(out, s),
            AnyModule::Dup(m) => m.finish(out, s),
            AnyModule::Skip(m) => m.finish(out, s),
            AnyModule::SetAttr(m) => m.finish(out, s),
            AnyModule::DelAttr(m) => m.finish(out, s),
            AnyModule::MatchAttr(m) => m.finish(out, s),
            AnyModule::Delay(m) => m.finish(out, s),
        }
    }

    fn give_up(self, s: &mut P::Store) {
        match self {
            AnyModule::Idem(m) => <Idem as Module<P>>::give_up(m, s),
            AnyModule::Null(m) => <NullPipe as Module<P>>::give_up(m, s),
            AnyModule::Dup(m) => <DupPipe as Module<P>>::give_up(m, s),
            AnyModule::Skip(m) => <Skip as Module<P>>::give_up(m, s),
            AnyModule::SetAttr(m) => <SetAttr as Module<P>>::give_up(m, s),
            AnyModule::DelAttr(m) => <DelAttr as Module<P>>::give_up(m, s),
            AnyModule::MatchAttr(m) => <MatchAttr as Module<P>>::give_up(m, s),
            AnyModule::Delay(m) => <Delay as Module<P>>::give_up(m, s),
        }
    }

    fn fresh(&self) -> bool {
        match self {
            AnyModule::Idem(m) => <Idem as Module<P>>::fresh(m),
            AnyModule::Null(m) => <NullPipe as Module<P>>::fresh(m),
            AnyModule::Dup(m) => <DupPipe as Module<P>>::fresh(m),
            AnyModule::Skip(m) => <Skip as Module<P>>::fresh(m),
            AnyModule::SetAttr(m) => <SetAttr as Module<P>>::fresh(m),
            AnyModule::DelAttr(m) => <DelAttr as Module<P>>::fresh(m),
            AnyModule::MatchAttr(m) => <MatchAttr as Module<P>>::fresh(m),
            AnyModule::Delay(m) => <Delay as Module<P>>::fresh(m),
        }
    }

    fn control(&mut self, c: Command) -> Result<Reply, ControlRefused> {
        match self {
            AnyModule::Idem(m) => <Idem as Module<P>>::control(m, c),
            AnyModule::Null(m) => <NullPipe as Module<P>>::control(m, c),
            AnyModule::Dup(m) => <DupPipe as Module<P>>::control(m, c),
            AnyModule::Skip(m) => <Skip as Module<P>>::control(m, c),
            AnyModule::SetAttr(m) => <SetAttr as Module<P>>::control(m, c),
            AnyModule::DelAttr(m) => <DelAttr as Module<P>>::control(m, c),
            AnyModule::MatchAttr(m) => <MatchAttr as Module<P>>::control(m, c),
            AnyModule::Delay(m) => <Delay as Module<P>>::control(m, c),
        }
    }

    ghost holds_nothing = { λ _ _ _. tt };

    ghost within = { any_within };
}
