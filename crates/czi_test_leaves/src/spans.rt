use czi_num::Span;
use czi_spans::{find_place, first_meeting, has_place, meets_any, sort_items, sort_spans};
use std::process::Abort;

/// The segments of a document with one subblock: header, directory, a gap of 32 bytes, subblock.
const ROW: [Span; 3] = [
    Span { at: 0, len: 544 },
    Span { at: 544, len: 192 },
    Span { at: 768, len: 320 },
];

#[test]
fn spans_are_sorted_by_place_and_then_by_length(rt: HostRuntime) {
    let mut spans = [
        Span { at: 96, len: 32 },
        Span { at: 0, len: 64 },
        Span { at: 64, len: 32 },
        Span { at: 0, len: 32 },
    ];
    sort_spans(&mut spans);
    let sorted = [
        Span { at: 0, len: 32 },
        Span { at: 0, len: 64 },
        Span { at: 64, len: 32 },
        Span { at: 96, len: 32 },
    ];
    assert!(rt; spans == sorted);
}

#[test]
fn items_are_sorted_by_their_spans(rt: HostRuntime) {
    let mut items = [
        (Span { at: 96, len: 32 }, 'd'),
        (Span { at: 0, len: 64 }, 'b'),
        (Span { at: 64, len: 32 }, 'c'),
        (Span { at: 0, len: 32 }, 'a'),
    ];
    sort_items(&mut items);
    let sorted = [
        (Span { at: 0, len: 32 }, 'a'),
        (Span { at: 0, len: 64 }, 'b'),
        (Span { at: 64, len: 32 }, 'c'),
        (Span { at: 96, len: 32 }, 'd'),
    ];
    assert!(rt; items == sorted);
}

#[test]
fn the_first_neighbours_that_meet_are_found(rt: HostRuntime) {
    let row = ROW;
    let inner = Span { at: 700, len: 32 };
    let last = Span { at: 1087, len: 32 };
    check_meeting(&rt, &[], None);
    check_meeting(&rt, &row, None);
    check_meeting(&rt, &[row[0], row[1], inner, row[2]], Some((row[1], inner)));
    check_meeting(&rt, &[row[0], row[2], last], Some((row[2], last)));
    check_meeting(&rt, &[row[1], row[1], inner], Some((row[1], row[1])));
}

fn check_meeting(rt: &impl Abort, spans: &[Span], meeting: Option<(Span, Span)>) {
    assert!(rt; first_meeting(spans) == meeting);
}

/// Places, and which span of the row begins there.
static PLACES: [(u64, Option<usize>); 7] = [
    (0, Some(0)),
    (1, None),
    (543, None),
    (544, Some(1)),
    (736, None),
    (768, Some(2)),
    (1088, None),
];

#[test]
fn a_place_is_found_only_where_a_span_begins(rt: HostRuntime) {
    for (at, index) in PLACES.iter() {
        check_place(&rt, *at, *index);
    }
    assert!(rt; !has_place(&[], 0));
}

fn check_place(rt: &impl Abort, at: u64, index: Option<usize>) {
    let row = ROW;
    assert!(rt; has_place(&row, at) == index.is_some(), "at {at}");
    let items = [(row[0], 'h'), (row[1], 'd'), (row[2], 's')];
    assert!(rt; find_place(&items, at) == index, "at {at}");
}

/// Spans as a place and a length, and whether each meets one of the row.
static SPANS: [(u64, u64, bool); 8] = [
    (736, 32, false),
    (735, 1, true),
    (736, 33, true),
    (0, 2000, true),
    (700, 0, false),
    (1088, 32, false),
    (1087, 1, true),
    (543, 1, true),
];

#[test]
fn a_span_meets_one_of_the_row(rt: HostRuntime) {
    for (at, len, meets) in SPANS.iter() {
        check_meets(&rt, *at, *len, *meets);
    }
}

fn check_meets(rt: &impl Abort, at: u64, len: u64, meets: bool) {
    assert!(rt; at <= 2000 && len <= 2000);
    assert!(rt;
        meets_any(&ROW, &Span { at, len }) == meets,
        "{len} bytes at {at}"
    );
}
