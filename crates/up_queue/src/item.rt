use crate::EndKind;

/// What goes through a lane: a packet of the flow, or its end.
#[derive(Debug, Drop, PartialEq, Eq)]
pub enum Item<P> {
    Packet(P),
    End(EndKind),
}
