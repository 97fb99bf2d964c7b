//! Flows of bytes: a scripted flow, a reader, a line that is cut between CR and LF, a writer, and memory that is refused once.

use buf_flow::{BufRead, BufWrite, FlowRead, Item, MockFlow};
use eio_value::{Bytes, FlowStep, NoMemory, TextId};
use std::alloc::Global;
use std::test::Fail;

/// A call of a reader.
#[derive(Clone, Copy)]
enum Call {
    Line,
    Take(u32),
    TakeAll,
    Char,
    AtEnd,
}

/// What a call is to answer.
#[derive(Clone, Copy)]
enum Wanted {
    Bytes(&'static str),
    Flag(bool),
    NeedMore,
    EndOfFile,
    BufferLimit,
}

use Call::{AtEnd, Char, Line, Take, TakeAll};
use Wanted::{BufferLimit, EndOfFile, Flag, NeedMore};

/// What was read, the most that may be buffered, a call, what it answers, and what all that is left is then.
type Row = (&'static str, u32, Call, Wanted, Wanted);

/// Behind the end of the flow.
const AT_THE_END: [Row; 15] = [
    ("abc", 4, Take(2), Wanted::Bytes("ab"), Wanted::Bytes("c")),
    ("abc", 3, Take(0), Wanted::Bytes(""), Wanted::Bytes("abc")),
    ("abc", 3, TakeAll, Wanted::Bytes("abc"), Wanted::Bytes("")),
    ("abc", 2, Char, Wanted::Bytes("a"), Wanted::Bytes("bc")),
    ("abc\n", 3, Line, Wanted::Bytes("abc"), Wanted::Bytes("")),
    ("ab\r\nc", 3, Line, Wanted::Bytes("ab"), Wanted::Bytes("c")),
    ("a\r\r\n", 3, Line, Wanted::Bytes("a\r"), Wanted::Bytes("")),
    ("abc\r", 4, Line, Wanted::Bytes("abc\r"), Wanted::Bytes("")),
    ("\n", 0, Line, Wanted::Bytes(""), Wanted::Bytes("")),
    ("abc", 4, Take(4), EndOfFile, Wanted::Bytes("abc")),
    ("abc", 2, TakeAll, BufferLimit, BufferLimit),
    ("", 4, Char, EndOfFile, Wanted::Bytes("")),
    ("", 4, Line, EndOfFile, Wanted::Bytes("")),
    ("", 4, AtEnd, Flag(true), Wanted::Bytes("")),
    ("a", 4, AtEnd, Flag(false), Wanted::Bytes("a")),
];

/// Before the end of the flow.
const BEFORE_THE_END: [Row; 7] = [
    ("abc", 4, Take(5), BufferLimit, NeedMore),
    ("abc", 4, Take(4), NeedMore, NeedMore),
    ("abc", 3, TakeAll, NeedMore, NeedMore),
    ("", 4, Char, NeedMore, NeedMore),
    ("abcd", 4, Line, NeedMore, NeedMore),
    ("abcd\n", 3, Line, BufferLimit, BufferLimit),
    ("", 4, AtEnd, NeedMore, NeedMore),
];

/// What comes, a call, and what it answers: one reader, whose line is cut between CR and LF.
const CUT: [(&str, Call, Wanted); 4] = [
    ("ab\r", Line, NeedMore),
    ("\nabc", Line, Wanted::Bytes("ab")),
    ("", Take(2), Wanted::Bytes("ab")),
    ("", Line, NeedMore),
];

/// What a call answers; where memory is refused it is made again.
fn answer(reader: &mut BufRead, call: Call) -> Item {
    match once(reader, call) {
        Item::NoMemory => once(reader, call),
        item => item,
    }
}

/// What a call answers.
fn once(reader: &mut BufRead, call: Call) -> Item {
    match call {
        Line => reader.line(),
        Take(count) => reader.take(count),
        TakeAll => reader.take_all(),
        Char => reader.char(),
        AtEnd => reader.at_end(),
    }
}

/// Whether an answer is the one that is wanted.
fn is(item: &Item, wanted: Wanted) -> bool {
    match (item, wanted) {
        (Item::Bytes(bytes), Wanted::Bytes(text)) => bytes.as_slice() == text.as_bytes(),
        (Item::Flag(flag), Flag(wanted)) => *flag == wanted,
        (Item::NeedMore, NeedMore)
        | (Item::EndOfFile, EndOfFile)
        | (Item::BufferLimit, BufferLimit) => true,
        _ => false,
    }
}

/// Whether a call answers what is wanted.
fn gives(reader: &mut BufRead, call: Call, wanted: Wanted) -> bool {
    is(&answer(reader, call), wanted)
}

/// Bytes come; where memory is refused they come again.
fn feed(reader: &mut BufRead, text: &str) -> Result<(), NoMemory> {
    if let Ok(()) = reader.feed(text.as_bytes()) {
        return Ok(());
    }
    reader.feed(text.as_bytes())
}

/// Whether a reader answers as the row says.
fn is_kept(reader: &mut BufRead, row: &Row, over: bool) -> Result<bool, NoMemory> {
    let (text, _, call, wanted, left) = *row;
    feed(reader, text)?;
    if over {
        reader.finish();
    }
    Ok(gives(reader, call, wanted) && gives(reader, TakeAll, left))
}

/// The first row that isn't met.
fn wrong_row(alloc: Global, rows: &[Row], over: bool) -> Result<Option<usize>, NoMemory> {
    for place in 0..rows.len() {
        let mut reader = BufRead::new(alloc, rows[place].1);
        if !is_kept(&mut reader, &rows[place], over)? {
            return Ok(Some(place));
        }
    }
    Ok(None)
}

#[test]
fn a_reader_answers(rt: HostRuntime) -> Result<(), Fail> {
    assert_eq!(rt; wrong_row(rt.alloc(), &AT_THE_END, true)?, None);
    assert_eq!(rt; wrong_row(rt.alloc(), &BEFORE_THE_END, false)?, None);
    Ok(())
}

/// Whether a reader answers so, one call after another, and then gives the rest of the last line.
fn goes_on(reader: &mut BufRead) -> Result<bool, NoMemory> {
    for (text, call, wanted) in CUT {
        feed(reader, text)?;
        if !gives(reader, call, wanted) {
            return Ok(false);
        }
    }
    reader.finish();
    Ok(gives(reader, Line, Wanted::Bytes("c")) && gives(reader, Line, EndOfFile))
}

#[test]
fn a_reader_reads_on_behind_a_cut(rt: HostRuntime) -> Result<(), Fail> {
    let mut reader = BufRead::new(rt.alloc(), 4);
    assert!(rt; goes_on(&mut reader)?);
    Ok(())
}

/// What a flow gives, with the number of its text.
fn told(read: FlowRead) -> (&'static str, u32) {
    match read {
        FlowRead::Data(bytes) if bytes.as_slice() == b"ab".as_slice() => ("ab", 0),
        FlowRead::Data(_) => ("other bytes", 0),
        FlowRead::Fault(text) => ("fault", text.0),
        FlowRead::Pause => ("pause", 0),
        FlowRead::End => ("end", 0),
    }
}

/// A flow of a pause, two bytes and a failure.
fn flow(alloc: Global) -> Result<MockFlow, NoMemory> {
    let bytes = Bytes::new(Vec::from_slice(alloc, b"ab")?);
    let steps = vec![in alloc;
        FlowStep::Pause,
        FlowStep::Data(bytes),
        FlowStep::Fault(TextId(7)),
    ]?;
    Ok(MockFlow::new(steps))
}

/// Whether a flow gives its steps, and then its end.
fn gives_its_steps(flow: &mut MockFlow) -> bool {
    told(flow.read()) == ("pause", 0)
        && told(flow.read()) == ("ab", 0)
        && told(flow.read()) == ("fault", 7)
        && told(flow.read()) == ("end", 0)
        && told(flow.read()) == ("end", 0)
}

#[test]
fn a_flow_gives_its_steps(rt: HostRuntime) -> Result<(), Fail> {
    let mut flow = flow(rt.alloc())?;
    assert!(rt; gives_its_steps(&mut flow));
    Ok(())
}

/// Whether this is what is pending once so many bytes were written.
fn leaves(writer: &mut BufWrite, count: usize, wanted: &str) -> bool {
    if count > writer.pending().len() {
        return false;
    }
    writer.took(count);
    writer.pending() == wanted.as_bytes()
}

/// Bytes are put; where memory is refused they are put again.
fn put(writer: &mut BufWrite, text: &str) -> Result<(), NoMemory> {
    if let Ok(()) = writer.put(text.as_bytes()) {
        return Ok(());
    }
    writer.put(text.as_bytes())
}

/// Whether a writer holds what was put and not taken.
fn holds(writer: &mut BufWrite) -> Result<bool, NoMemory> {
    put(writer, "abc")?;
    put(writer, "def")?;
    Ok(
        leaves(writer, 1, "bcdef")
            && leaves(writer, 3, "ef")
            && leaves(writer, 0, "ef")
            && leaves(writer, 2, ""),
    )
}

#[test]
fn a_writer_holds_what_was_not_taken(rt: HostRuntime) -> Result<(), Fail> {
    let mut writer = BufWrite::new(rt.alloc());
    assert!(rt; holds(&mut writer)?);
    Ok(())
}
