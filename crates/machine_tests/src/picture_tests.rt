//! Pictures and tables over memory: a small picture held whole, larger ones by their elements, and what is said of what is no trace.

use orb_base::{List, MemSink, MemSource, NoMemory, Octets};
use picture_runs::{Note, picture_main, status_of};
use std::alloc::Global;

/// The trace of a pipe that answers one ping.
const PING: &[u8] =
    b"pool 0 0 0 0 0 65536 67108864 1 128\nlane 100 1 0\n0 offer 0.0 0 1 2 100 0 48 run 0\n0 take 0 0\n\
0 finish 0 0 2\n0 collect 0.0 answered 0\n0 end 0.0 quiet\n0 collect 0.0 done\nentries 6\n";

/// A run with every kind of line and of reply, as the tests of the auditor have it: two lanes of a thread each, a thread that is lent, two
/// requests that wait, of which one is withdrawn, and a run that closes after its eighth call.
const EVERY: &[u8] =
    b"pool 1 1 1 2 1000 8 67108864 2 2\nlane 10 1 0\nlane 20 1 0\n1 offer 0.0 0 1 2 20 1 60 run 1\n\
1 offer 0.0 1 2 1 20 1 60 lent 0\n2 offer 1.0 0 1 2 10 0 60 kept\n2 offer 1.0 1 2 2 20 1 60 kept\n2 offer 1.0 2 3 2 20 1 60 full\n\
2 cancel 1.0 1 removed\n2 cancel 1.0 9 nothing\n1 post 0.0 7 posted\n81 collect 0.0 early 1\n81 collect 0.0 posted 7\n3 take 0 1\n\
4 take 1 0\n4 finish 1 0 3\n4 take 1 3\n3 finish 0 1 0\n1 offer 0.0 3 3 2 20 1 60 closing\n1 end 0.0 shut\n2 post 1.0 4 closing\n\
2 end 1.0 bad\n1 cancel 0.1 5 closing\n1 end 0.1 quiet\n81 collect 0.0 answered 0\n81 collect 0.0 close\n4 finish 1 3 2\n\
209 collect 1.0 transient 4\n209 collect 1.0 answered 3\n209 collect 1.0 error\n82 collect 0.1 done\n1 leave 0\n2 leave 1\n\
3 take 0 ended\n4 take 1 ended\nentries 32\n";

/// What lies below the shapes of the picture of `PING`, in pieces.
const GROUND: &[&str] = &[
    "<svg xmlns='http://www.w3.org/2000/svg' width='720' height='330' viewBox='0 0 720 330'>\n",
    "<style>text{font:12px sans-serif}.t{font-size:15px}.n{font-weight:bold}.s{fill:#f4f4f4}.a{stroke:#000}",
    ".h{stroke:#000;stroke-width:.8;fill:none}.b{stroke:#000;stroke-width:.5}.w{stroke:#333;stroke-width:1.2;fill:none}",
    ".x{stroke:#000;stroke-width:1.5;fill:none}.f{stroke:#d55e00;stroke-width:2.5}",
    ".r{stroke:#000;stroke-width:1.5;stroke-dasharray:6 3}</style>\n",
    "<rect width='100%' height='100%' fill='#fff'/>\n",
    "<pattern id='l0' width='6' height='6' patternUnits='userSpaceOnUse'><path fill='#56b4e9' d='M0 0H6V6H0z'/>",
    "<path class='h' d='M0 0'/></pattern>\n",
    "<g transform='translate(0 92)'><path class='s' d='M190 1v30h280v-30z'/>",
    "<path class='b' d='M8 8h16v16h-16z' fill='url(#l0)'/><text x='30' y='20'>lane 0, priority 100</text></g>\n",
    "<g transform='translate(0 124)'><path class='s' d='M190 1v14h280v-14z'/><text x='110' y='12'>thread 0</text></g>\n",
    "<g transform='translate(0 140)'><path class='a' d='M190 20h280'/>",
    "<text x='110' y='14'>handed over</text><text x='110' y='38'>entry</text></g>\n",
    "<g transform='translate(190 140)'><path class='a' d='M0 20v5'/><text y='38' text-anchor='middle'>0</text></g>\n",
    "<g transform='translate(230 140)'><path class='a' d='M0 20v5'/><text y='38' text-anchor='middle'>1</text></g>\n",
    "<g transform='translate(270 140)'><path class='a' d='M0 20v5'/><text y='38' text-anchor='middle'>2</text></g>\n",
    "<g transform='translate(310 140)'><path class='a' d='M0 20v5'/><text y='38' text-anchor='middle'>3</text></g>\n",
    "<g transform='translate(350 140)'><path class='a' d='M0 20v5'/><text y='38' text-anchor='middle'>4</text></g>\n",
    "<g transform='translate(390 140)'><path class='a' d='M0 20v5'/><text y='38' text-anchor='middle'>5</text></g>\n",
    "<g transform='translate(430 140)'><path class='a' d='M0 20v5'/><text y='38' text-anchor='middle'>6</text></g>\n",
];

/// What comes after that.
const SHAPES: &[&str] = &[
    "<text class='t' x='10' y='22'>run 0: 6 of 6 entries, from entry 0</text>\n",
    "<text x='10' y='42'>requests: taken 1 (by a lent thread 0), waited 0, withdrawn 0, refused 0</text>\n",
    "<text x='10' y='62'>x is the number of the entry in the trace, and not time</text>\n",
    "<rect class='b' x='230' y='126' width='42' height='12' fill='url(#l0)'>",
    "<title>request 0 of lane 0, entries 1 to 2</title></rect>\n",
    "<circle class='b' cx='310' cy='150' r='3' fill='url(#l0)'/>\n",
    "<g transform='translate(30 202)'>\n",
    "<path class='b' fill='url(#l0)' d='M0 2h30v12h-30z'/><text x='42' y='12'>a thread carries out a request, ",
    "from its Take to its Finish; the colour is that of the request's lane</text>\n",
    "<text x='42' y='29'>(a bar of another lane's colour is a thread that is lent)</text>\n",
    "<path class='w' d='M0 42h30'/><text x='42' y='46'>a request waits, from its Offer to its Take</text>\n",
    "<path class='w' d='M0 59h30'/><path class='x' transform='translate(30 59)' d='M-3 -3L3 3M-3 3L3 -3'/>",
    "<text x='42' y='63'>it was withdrawn</text>\n",
    "<path class='f' d='M15 69v14'/><text x='42' y='80'>a request was refused, since nothing more might wait</text>\n",
    "<path class='r' d='M15 86v14'/><text x='42' y='97'>a call was not heard, since a limit of the run was met</text>\n",
    "<circle class='b' cx='15' cy='110' r='3' fill='url(#l0)'/>",
    "<text x='42' y='114'>a reply was handed over to be sent (grey: an answer of the reading side)</text>\n",
    "</g>\n</svg>\n",
];

/// The table of `EVERY`.
const TABLE: &[&str] = &[
    "lane 0 priority 10 requests 1 own 0 lent_out 1 lent_in 0 kept 1 full 0 removed 1 longest 0\n",
    "lane 1 priority 20 requests 4 own 2 lent_out 0 lent_in 1 kept 1 full 1 removed 0 longest 10\n",
];

/// Words, as the shell gives them.
fn words_of(alloc: Global, words: &[&str]) -> Result<Vec<String>, NoMemory> {
    let mut list = Vec::new(alloc);
    for word in words {
        list.push(String::from_str(alloc, word)?)?;
    }
    Ok(list)
}

/// Numbers that a device counts to.
fn numbers(alloc: Global, items: &[u64]) -> Result<List<u64>, NoMemory> {
    let mut list = List::new(alloc);
    for item in items {
        list.push(*item).map_err(|_| NoMemory)?;
    }
    Ok(list)
}

/// What words come to with these bytes: the note, and what was written.
fn told(alloc: Global, words: &[&str], input: &[u8]) -> Result<(Note, MemSink), NoMemory> {
    told_by(alloc, words, input, &[], &[])
}

/// The same, where these reads and these writes fail.
fn told_by(
    alloc: Global,
    words: &[&str],
    input: &[u8],
    reads: &[u64],
    writes: &[u64],
) -> Result<(Note, MemSink), NoMemory> {
    let words = words_of(alloc, words)?;
    let mut bytes = Octets::new(alloc);
    bytes.append(input)?;
    let mut source = MemSource::new(bytes, List::new(alloc), numbers(alloc, reads)?);
    let mut sink = MemSink::new(alloc, List::new(alloc), numbers(alloc, writes)?);
    let note = picture_main(alloc, words.as_slice(), &mut source, &mut sink);
    Ok((note, sink))
}

/// The bytes after these pieces; None where they don't begin so.
fn after<'a>(bytes: &'a [u8], pieces: &[&str]) -> Option<&'a [u8]> {
    let mut rest = bytes;
    for piece in pieces {
        rest = rest.strip_prefix(piece.as_bytes())?;
    }
    Some(rest)
}

/// Whether words come to exactly these pieces.
fn writes(alloc: Global, words: &[&str], input: &[u8], first: &[&str], second: &[&str]) -> bool {
    let Ok((note, sink)) = told(alloc, words, input) else {
        return false;
    };
    let Some(rest) = after(sink.held(), first) else {
        return false;
    };
    matches!(note, Note::Nothing) && after(rest, second) == Some(b"".as_slice())
}

/// How often a text is in another.
fn count(bytes: &[u8], text: &str) -> usize {
    bytes
        .windows(text.len().max(1))
        .filter(|w| *w == text.as_bytes())
        .count()
}

/// Elements, each with how many a picture has.
type Elements = &'static [(&'static str, usize)];

/// Whether a picture has so many of each.
fn has(alloc: Global, words: &[&str], input: &[u8], elements: Elements) -> bool {
    let Ok((note, sink)) = told(alloc, words, input) else {
        return false;
    };
    for (text, n) in elements {
        if count(sink.held(), text) != *n {
            return false;
        }
    }
    matches!(note, Note::Nothing)
}

/// Whether words come to this note, and nothing is written.
fn ends(alloc: Global, words: &[&str], input: &[u8], note: Note, status: u8) -> bool {
    let Ok((ended, sink)) = told(alloc, words, input) else {
        return false;
    };
    ended == note && status_of(ended) == status && sink.held().is_empty()
}

#[test]
fn a_small_picture_is_whole(rt: HostRuntime) {
    assert!(rt; writes(rt.alloc(), &[], PING, GROUND, SHAPES));
    assert!(rt;
        writes(
            rt.alloc(),
            &["0", "--entries=6", "--from", "0"],
            PING,
            GROUND,
            SHAPES
        )
    );
}

/// Those of `EVERY`. Bars and lines have a title, ticks and rules too.
const OF_EVERY: Elements = &[
    ("<rect class='b'", 3),
    ("<path class='w' d='M", 4),
    ("<path class='x' transform='translate(290 150)'", 1),
    (
        "<path class='f' d='M270 94v28'><title>refused, entry 4</title>",
        1,
    ),
    ("<path class='r' d='M", 4),
    ("<circle class='b' cx", 6),
    ("r='3' fill='#bbb'/>", 1),
    (
        "fill='url(#l1)'><title>request 1 of lane 1, entries 10 to 14</title>",
        1,
    ),
    ("<title>request 2 of lane 0, entries 2 to 5</title>", 1),
    ("<title>request 3 of lane 1, entries 3 to 13</title>", 1),
    (
        "taken 3 (by a lent thread 1), waited 2, withdrawn 1, refused 1",
        1,
    ),
    ("run 0: 32 of 32 entries, from entry 0", 1),
    ("is wrong", 0),
];

/// Those of its entries 12 to 14: a request is still carried out where they end, and nothing that ended before them is drawn.
const OF_THREE: Elements = &[
    ("<rect class='b'", 3),
    ("<title>request 0 of lane 1, entries 11 to 12</title>", 1),
    ("<title>request 3 of lane 1, entries 3 to 13</title>", 1),
    ("<title>request 1 of lane 1, entries 10 to 14</title>", 1),
    ("<title>request 3 of lane 1, entries 13 to 15</title>", 1),
    ("request 2", 0),
    ("<path class='w' d='M190 ", 1),
    ("run 0: 3 of 32 entries, from entry 12", 1),
];

/// A request that waits and one that is carried out where the entries end.
const OF_FOUR: Elements = &[
    ("<title>request 3 of lane 1, entries 3 to 12</title>", 1),
    ("<title>request 2 of lane 0, entries 2 to 5</title>", 1),
    ("<title>request 0 of lane 1, entries 11 to 12</title>", 1),
    ("<title>request 1 of lane 1, entries 10 to 12</title>", 1),
    (
        "taken 2 (by a lent thread 1), waited 2, withdrawn 1, refused 1",
        1,
    ),
];

#[test]
fn a_picture_has_its_elements(rt: HostRuntime) {
    assert!(rt; has(rt.alloc(), &[], EVERY, OF_EVERY));
    assert!(rt;
        has(
            rt.alloc(),
            &["--from", "12", "--entries", "3"],
            EVERY,
            OF_THREE
        )
    );
    assert!(rt; has(rt.alloc(), &["--entries", "12"], EVERY, OF_FOUR));
    assert!(rt;
        has(
            rt.alloc(),
            &["--from", "99"],
            EVERY,
            &[
                ("run 0: 0 of 32 entries, from entry 99", 1),
                ("<rect class='b'", 0)
            ]
        )
    );
}

#[test]
fn a_table_counts_each_lane(rt: HostRuntime) {
    assert!(rt; writes(rt.alloc(), &["--table"], EVERY, TABLE, &[]));
}

/// `PING`, where the thread takes a request that nobody offered.
const WRONG: &[u8] =
    b"pool 0 0 0 0 0 65536 67108864 1 128\nlane 100 1 0\n0 offer 0.0 0 1 2 100 0 48 run 0\n0 take 0 1\n\
0 finish 0 0 2\n0 collect 0.0 answered 0\n0 end 0.0 quiet\n0 collect 0.0 done\nentries 6\n";

#[test]
fn a_wrong_run_is_drawn_up_to_its_first_wrong_entry(rt: HostRuntime) {
    let elements: Elements = &[
        (
            "entry 1 is wrong: it is not drawn, and what comes after it",
            1,
        ),
        ("run 0: 1 of 6 entries, from entry 0", 1),
        ("<rect class='b'", 0),
        ("<circle class='b' cx", 1),
    ];
    assert!(rt; has(rt.alloc(), &[], WRONG, elements));
}

#[test]
fn what_is_no_trace_is_not_drawn(rt: HostRuntime) {
    assert!(rt; ends(rt.alloc(), &[], b"", Note::Absent(0), 10));
    assert!(rt; ends(rt.alloc(), &["1"], PING, Note::Absent(1), 10));
    assert!(rt; ends(rt.alloc(), &["--table", "7"], PING, Note::Absent(7), 10));
    assert!(rt; ends(rt.alloc(), &[], b"pool\n", Note::Trace(0), 8));
    assert!(rt;
        ends(
            rt.alloc(),
            &["1"],
            b"pool 0 0 0 0 0 65536 67108864 1 128\nlane 100 1 0\nno line\n",
            Note::Trace(49),
            8
        )
    );
    assert!(rt;
        ends(
            rt.alloc(),
            &[],
            b"pool 0 0 0 0 0 65536 67108864 1 128\nlane 100 1 0\n",
            Note::Trace(49),
            8
        )
    );
    assert!(rt;
        ends(
            rt.alloc(),
            &[],
            b"pool 0 0 0 0 0 65536 67108864 1 128\nlane 100 1",
            Note::Trace(36),
            8
        )
    );
}

#[test]
fn other_words_ask_for_nothing(rt: HostRuntime) {
    assert!(rt; ends(rt.alloc(), &["x"], PING, Note::Usage, 1));
    assert!(rt; ends(rt.alloc(), &["0", "0"], PING, Note::Usage, 1));
    assert!(rt; ends(rt.alloc(), &["--from"], PING, Note::Usage, 1));
    assert!(rt;
        ends(
            rt.alloc(),
            &["--entries", "4294967296"],
            PING,
            Note::Usage,
            1
        )
    );
    assert!(rt;
        ends(
            rt.alloc(),
            &["--table", "--from", "1"],
            PING,
            Note::Usage,
            1
        )
    );
    assert!(rt;
        ends(
            rt.alloc(),
            &["--table", "--entries=1"],
            PING,
            Note::Usage,
            1
        )
    );
    assert!(rt; ends(rt.alloc(), &["-x"], PING, Note::Usage, 1));
}

/// Whether words come to this note where these reads and these writes fail.
fn fails(alloc: Global, reads: &[u64], writes: &[u64], note: Note, status: u8) -> bool {
    let Ok((ended, sink)) = told_by(alloc, &[], PING, reads, writes) else {
        return false;
    };
    ended == note && status_of(ended) == status && sink.held().is_empty()
}

#[test]
fn devices_that_fail_are_told(rt: HostRuntime) {
    assert!(rt; fails(rt.alloc(), &[0], &[], Note::ReadFault, 3));
    assert!(rt; fails(rt.alloc(), &[1], &[], Note::ReadFault, 3));
    assert!(rt; fails(rt.alloc(), &[], &[0], Note::WriteFault, 4));
}
