//! Whole histories. The texts of events are gathered, and sent in pieces.
ghost use Rattle.std.specs.Prelude.{◌≡◌, ◌++◌, ◌∷◌, ◌≤◌, [], OnOk, IsErrOf};
ghost use Rattle.plain_model.specs.Text.{text, event_text, is_feature_done};
ghost use Rattle.plain_model.specs.Counts.{Rose};
ghost use Rattle.plain_model.specs.Snapshots.{refs_after};
ghost use Rattle.shown_laws.specs.Showing.{IsShownBy};
ghost use Rattle.stream_writer.specs.Parts.{blob_head, blob_text};
ghost use Rattle.stream_writer.specs.Sending.{SendsFirst, closing};
ghost use Rattle.surgeon_store.specs.Outside.{Puts, PutsSome};

use crate::events::push_event;
use crate::fields::push_mark_line;
use branch_tips::Tips;
use event_arena::Events;
use plain_model::{Items, Mark, NoMemory, PlainEvent, Text};
use shown_laws::what_is_written_shows_the_history;
use std::alloc::Global;
use surgeon_store::{Sink, WriteEnd, write_all};

// How many bytes are gathered before they are sent: so many that the calls of the system cost little beside the making
// of the bytes, and so few that they stay in a processor's cache. (own)
const PIECE: usize = 61440;

fn is_promise(event: &PlainEvent) -> bool
    ensures { result ≡ is_feature_done event.now }
{
    match event {
        PlainEvent::Pass { line, .. } => line.as_slice() == b"feature done".as_slice(),
        _ => false,
    }
}

// Sends what is gathered, where it is a piece. The room for it is kept.
fn send_piece<W: Sink>(gathered: &mut Text, sink: &mut W) -> Result<(), WriteEnd>
    ensures ok { OnOk result
        (SendsFirst (W.state sink.old) gathered.old (W.state sink.new) gathered.new) }
    ensures part { PutsSome (W.state sink.old) gathered.old (W.state sink.new) }
    ensures failed { IsErrOf result WriteEnd.SinkFault
        → Rose (W.state sink.old).faults (W.state sink.new).faults }
    ensures quiet { OnOk result ((W.state sink.new).faults ≡ (W.state sink.old).faults) }
    ensures later { (W.state sink.old).faults ≤ (W.state sink.new).faults }
    ensures around { (W.state sink.new).around ≡ (W.state sink.old).around }
{
    if gathered.as_slice().len() < PIECE {
        return Ok(());
    }
    write_all(sink, gathered.as_slice())?;
    gathered.truncate(0);
    Ok(())
}

// The lines of a blob before its bytes.
fn push_blob_head(out: &mut Text, mark: Mark, size: usize) -> Result<(), NoMemory>
    ensures { OnOk result (out.new ≡ out.old ++ blob_head mark size) }
{
    push_mark_line(out, b"blob\nmark :", mark.number())?;
    out.push_all(b"data ")?;
    out.push_number(size as u64)?;
    out.push(b'\n')
}

// Sends what is gathered, the lines of a blob, and its bytes from where they are: so many would cost memory and time to
// be gathered.
fn send_blob<W: Sink>(
    mark: Mark,
    bytes: &[u8],
    gathered: &mut Text,
    sink: &mut W,
) -> Result<(), WriteEnd>
    ensures ok { OnOk result (SendsFirst (W.state sink.old)
        (gathered.old ++ blob_text mark bytes.now) (W.state sink.new) gathered.new) }
    ensures part { PutsSome (W.state sink.old) (gathered.old ++ blob_text mark bytes.now)
        (W.state sink.new) }
    ensures failed { IsErrOf result WriteEnd.SinkFault
        → Rose (W.state sink.old).faults (W.state sink.new).faults }
    ensures quiet { OnOk result ((W.state sink.new).faults ≡ (W.state sink.old).faults) }
    ensures later { (W.state sink.old).faults ≤ (W.state sink.new).faults }
    ensures around { (W.state sink.new).around ≡ (W.state sink.old).around }
{
    push_blob_head(gathered, mark, bytes.len())?;
    write_all(sink, gathered.as_slice())?;
    gathered.truncate(0);
    write_all(sink, bytes)?;
    gathered.push(b'\n')?;
    Ok(())
}

// Puts an event after what is gathered, and sends that where it is a piece.
fn gather_event<W: Sink>(
    history: &Events,
    event: &PlainEvent,
    tips: &mut Tips,
    spelled: &mut Text,
    gathered: &mut Text,
    sink: &mut W,
) -> Result<(), WriteEnd>
    ensures ok { OnOk result (SendsFirst (W.state sink.old)
        (gathered.old ++ event_text history.now.list tips.old event.now) (W.state sink.new)
        gathered.new) }
    ensures tips { OnOk result (tips.new ≡ refs_after tips.old (event.now ∷ [])) }
    ensures part { PutsSome (W.state sink.old)
        (gathered.old ++ event_text history.now.list tips.old event.now) (W.state sink.new) }
    ensures failed { IsErrOf result WriteEnd.SinkFault
        → Rose (W.state sink.old).faults (W.state sink.new).faults }
    ensures quiet { OnOk result ((W.state sink.new).faults ≡ (W.state sink.old).faults) }
    ensures later { (W.state sink.old).faults ≤ (W.state sink.new).faults }
    ensures around { (W.state sink.new).around ≡ (W.state sink.old).around }
{
    push_event(gathered, spelled, history, tips, event)?;
    tips.note(event)?;
    send_piece(gathered, sink)
}

// Writes an event: a large blob past what is gathered, and any other after it.
fn write_event<W: Sink>(
    history: &Events,
    event: &PlainEvent,
    tips: &mut Tips,
    spelled: &mut Text,
    gathered: &mut Text,
    sink: &mut W,
) -> Result<(), WriteEnd>
    ensures ok { OnOk result (SendsFirst (W.state sink.old)
        (gathered.old ++ event_text history.now.list tips.old event.now) (W.state sink.new)
        gathered.new) }
    ensures tips { OnOk result (tips.new ≡ refs_after tips.old (event.now ∷ [])) }
    ensures part { PutsSome (W.state sink.old)
        (gathered.old ++ event_text history.now.list tips.old event.now) (W.state sink.new) }
    ensures failed { IsErrOf result WriteEnd.SinkFault
        → Rose (W.state sink.old).faults (W.state sink.new).faults }
    ensures quiet { OnOk result ((W.state sink.new).faults ≡ (W.state sink.old).faults) }
    ensures later { (W.state sink.old).faults ≤ (W.state sink.new).faults }
    ensures around { (W.state sink.new).around ≡ (W.state sink.old).around }
{
    match event {
        PlainEvent::Blob { mark, bytes, .. } if bytes.as_slice().len() >= PIECE => {
            send_blob(*mark, bytes.as_slice(), gathered, sink)
        }
        _ => gather_event(history, event, tips, spelled, gathered, sink),
    }
}

// The line that ends a stream which promised one.
fn push_closing(out: &mut Text, promised: bool) -> Result<(), NoMemory>
    ensures { OnOk result (out.new ≡ out.old ++ closing promised []) }
{
    if promised {
        out.push_all(b"done\n")
    } else {
        Ok(())
    }
}

// Sends what is gathered and the end of the stream.
fn write_closing<W: Sink>(promised: bool, gathered: &mut Text, sink: &mut W) -> Result<(), WriteEnd>
    ensures ok { OnOk result
        (Puts (W.state sink.old) (gathered.old ++ closing promised []) (W.state sink.new)) }
    ensures part { PutsSome (W.state sink.old) (gathered.old ++ closing promised [])
        (W.state sink.new) }
    ensures failed { IsErrOf result WriteEnd.SinkFault
        → Rose (W.state sink.old).faults (W.state sink.new).faults }
    ensures quiet { OnOk result ((W.state sink.new).faults ≡ (W.state sink.old).faults) }
    ensures later { (W.state sink.old).faults ≤ (W.state sink.new).faults }
    ensures around { (W.state sink.new).around ≡ (W.state sink.old).around }
{
    push_closing(gathered, promised)?;
    write_all(sink, gathered.as_slice())
}

/// Writes the text of a history to the end of a sink, in pieces. After a refusal a first part of it is there.
pub fn write_stream<W: Sink>(alloc: Global, events: &Events, sink: &mut W) -> Result<(), WriteEnd>
    ensures ok { OnOk result (Puts (W.state sink.old) (text events.now.list) (W.state sink.new)) }
    ensures part { PutsSome (W.state sink.old) (text events.now.list) (W.state sink.new) }
    ensures failed { IsErrOf result WriteEnd.SinkFault
        → Rose (W.state sink.old).faults (W.state sink.new).faults }
    ensures quiet { OnOk result ((W.state sink.new).faults ≡ (W.state sink.old).faults) }
    ensures later { (W.state sink.old).faults ≤ (W.state sink.new).faults }
    ensures around { (W.state sink.new).around ≡ (W.state sink.old).around }

    // What is written is a stream, what is read of that is written as the same text, and a replay of it by plain maps
    // shows what the history shows.
    ensures again { IsShownBy (text events.now.list) events.now.list }
{
    what_is_written_shows_the_history();
    let mut tips = Tips::new(alloc);
    let mut spelled = Items::empty(alloc);
    let mut gathered = Items::empty(alloc);
    let mut promised = false;
    for place in 0..events.count() {
        let event = events.nth(place);
        write_event(events, event, &mut tips, &mut spelled, &mut gathered, sink)?;
        promised |= is_promise(event);
    }
    write_closing(promised, &mut gathered, sink)
}
