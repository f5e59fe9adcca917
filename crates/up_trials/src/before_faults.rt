// How much goes before a call that fails.
use up_model::{PacketList, PlainPacket, SinkForm, ValueView};

/// How many bytes were read of so many where a read fails, if the end doesn't come before.
pub(crate) fn read_before(count: usize, block: usize, cut: usize, nth: u32) -> Option<usize> {
    let mut read: usize = 0;
    let mut filled: usize = 0;
    for _ in 1..nth {
        let rest = count.saturating_sub(read);
        if rest == 0 {
            return None;
        }
        let more = rest.min(cut).min(block.saturating_sub(filled));
        read = read.saturating_add(more);
        filled = filled.saturating_add(more);
        if filled == block {
            filled = 0;
        }
    }
    Some(read)
}

/// How many bytes a value has in a frame.
fn value_size(value: ValueView<'_>) -> usize {
    match value {
        ValueView::Void => 0,
        ValueView::Flag(_) => 1,
        ValueView::Unsigned(_) => 8,
        ValueView::Words(text) => text.len(),
        ValueView::Opaque(bytes) => bytes.len(),
    }
}

/// How many bytes a sink of the form writes of a packet: its frame has eight before its attributes, and each attribute six
/// beside its name and its value.
fn written_size(form: SinkForm, packet: &PlainPacket) -> usize {
    let mut size = packet.bytes.as_slice().len();
    if form == SinkForm::Raw {
        return size;
    }
    for i in 0..packet.attrs.len() {
        let (name, value) = packet.attrs.at(i);
        let named = name.bytes().len().saturating_add(6);
        size = size.saturating_add(named).saturating_add(value_size(value));
    }
    size.saturating_add(8)
}

/// How many bytes a sink of the form wrote of these packets, each by as many writes of at most so many bytes as it takes,
/// where a write fails, if there are so many writes.
pub(crate) fn written_before(
    form: SinkForm,
    flow: &PacketList,
    cut: usize,
    nth: u32,
) -> Option<usize> {
    let cut = cut.max(1);
    let mut written: usize = 0;
    let mut left = (nth as usize).saturating_sub(1);
    for k in 0..flow.len() {
        let size = written_size(form, flow.at(k));
        let writes = size.saturating_add(cut - 1) / cut;
        if left < writes {
            return Some(written.saturating_add(left.saturating_mul(cut)));
        }
        left = left.saturating_sub(writes);
        written = written.saturating_add(size);
    }
    None
}
