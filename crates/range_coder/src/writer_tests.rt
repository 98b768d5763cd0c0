//! Rows of a writer: lists of questions with answers, the frames that they code, and a slow program that computes the code
//! as it is defined.
use crate::sender::{Finish, Sender};
use crate::sending::send_answer;
use crate::tests::{FRAMES, question_of};
use crate::writer::Writer;
use celt_base::coder::Coder;
use celt_base::question::{Question, TableId};

// A frame, its questions with their answers, four numbers each, the bits told, and the width at its end.
type Small = (&'static [u8], &'static [i64], u32, u32);

// Whole small frames of an encoder.
const SMALL: [Small; 6] = [
    (
        &[0x7f, 0x5f, 0xe2],
        &[
            0, 15, 0, 0, 0, 1, 0, 0, 0, 3, 0, 1, 0, 3, 0, 1, 3, 2944, 11392, 3, 1, 1, 0, 2, 1, 1,
            0, 1, 1, 1, 0, 2, 1, 1, 0, 0, 1, 1, 0, 2, 1, 1, 0, 0, 1, 1, 0, 1,
        ],
        24,
        0x0111b6e0,
    ),
    (
        &[0xed, 0x48, 0x5d],
        &[
            0, 15, 0, 0, 0, 1, 0, 1, 2, 6, 0, 5, 6, 9, 0, 93, 6, 3, 0, 4, 1, 0, 0, 0, 0, 3, 0, 0,
            0, 3, 0, 0, 1, 1, 0, 0, 1, 1, 0, 1, 1, 1, 0, 1, 0, 1, 0, 0,
        ],
        24,
        0x10553480,
    ),
    (
        &[0xda, 0x9b, 0x73, 0xad],
        &[
            0, 15, 0, 0, 0, 1, 0, 1, 2, 6, 0, 4, 6, 8, 0, 173, 6, 3, 0, 3, 1, 0, 0, 0, 0, 3, 0, 0,
            0, 3, 0, 0, 3, 10624, 4992, 1, 1, 1, 0, 0, 1, 1, 0, 1, 1, 1, 0, 2, 1, 1, 0, 2, 1, 1, 0,
            2, 1, 1, 0, 0, 1, 1, 0, 1,
        ],
        32,
        0x0f52d500,
    ),
    (
        &[0xeb, 0xcd, 0x88, 0xc8, 0x5d],
        &[
            0, 15, 0, 0, 0, 1, 0, 1, 2, 6, 0, 5, 6, 9, 0, 93, 6, 3, 0, 4, 1, 0, 0, 0, 0, 3, 0, 0,
            0, 3, 0, 0, 3, 10624, 4992, 0, 3, 10624, 4992, -1, 3, 10752, 5184, -1, 3, 10752, 5184,
            1, 1, 1, 0, 0, 1, 1, 0, 0, 1, 1, 0, 0, 1, 1, 0, 0, 1, 1, 0, 0, 1, 1, 0, 0, 1, 1, 0, 2,
            1, 1, 0, 2, 1, 1, 0, 1, 1, 1, 0, 0, 0, 1, 0, 0,
        ],
        40,
        0x10bb9b40,
    ),
    (
        &[0x7f, 0x52, 0x45, 0x42, 0x41, 0xb6, 0x44],
        &[
            0, 15, 0, 0, 0, 1, 0, 0, 0, 3, 0, 1, 0, 3, 0, 1, 3, 2944, 11392, 3, 3, 2944, 11392, 2,
            3, 6912, 7360, -2, 3, 6912, 7360, 1, 3, 8064, 6528, 1, 3, 8064, 6528, 0, 3, 8448, 6272,
            0, 3, 8448, 6272, -3, 3, 8832, 6336, 0, 3, 8832, 6336, 2, 3, 9472, 5696, 0, 3, 9472,
            5696, 1, 1, 1, 0, 0, 1, 1, 0, 0, 1, 1, 0, 1, 1, 1, 0, 1, 1, 1, 0, 2, 1, 1, 0, 2, 1, 1,
            0, 0, 1, 1, 0, 0, 1, 1, 0, 0, 0, 1, 0, 0,
        ],
        56,
        0x01c32718,
    ),
    (
        &[0xeb, 0xcd, 0x87, 0x14, 0x90, 0xf0, 0xd1, 0xb8, 0x5d],
        &[
            0, 15, 0, 0, 0, 1, 0, 1, 2, 6, 0, 5, 6, 9, 0, 93, 6, 3, 0, 4, 1, 0, 0, 0, 0, 3, 0, 0,
            0, 3, 0, 0, 3, 10624, 4992, 0, 3, 10624, 4992, -1, 3, 10752, 5184, -1, 3, 10752, 5184,
            1, 3, 11264, 4800, 0, 3, 11264, 4800, 0, 3, 11008, 4736, 0, 3, 11008, 4736, -1, 3,
            11136, 4544, 0, 3, 11136, 4544, 0, 3, 11520, 4672, 2, 3, 11520, 4672, 1, 3, 11904,
            4736, -1, 3, 11904, 4736, 0, 3, 11904, 4736, 1, 3, 11904, 4736, 1, 3, 13952, 2560, 0,
            3, 13952, 2560, 0, 3, 14592, 2304, 0, 3, 14592, 2304, 0, 3, 14976, 2176, -1, 3, 14976,
            2176, -1, 1, 1, 0, 2, 1, 1, 0, 0, 1, 1, 0, 0, 1, 1, 0, 0, 1, 1, 0, 0, 1, 1, 0, 0, 1, 1,
            0, 2, 1, 1, 0, 0, 1, 1, 0, 2, 0, 1, 0, 0,
        ],
        72,
        0x13d63900,
    ),
];

// Lists without a frame, of all kinds: what is wanted is answered.
const LISTS: [&[i64]; 6] = [
    &[4, 8, 0, 5, 5, 8, 0, 4, 6, 3, 0, 5],
    &[
        5, 256, 0, 200, 4, 256, 0, 130, 2, 65536, 0, 65535, 6, 24, 0, 11184810,
    ],
    &[
        3, 9216, 8128, -7, 3, 9216, 8128, 7, 3, 128, 16384, 100, 0, 15, 0, 1,
    ],
    &[
        2, 3, 0, 1, 2, 3, 0, 1, 2, 3, 0, 1, 2, 3, 0, 1, 2, 3, 0, 1, 2, 3, 0, 1, 2, 3, 0, 1,
    ],
    &[0, 1, 0, 1, 6, 9, 0, 421],
    &[
        1, 3, 0, 10, 1, 2, 0, 2, 1, 1, 0, 1, 1, 0, 0, 2, 2, 4294967295, 0, 4294967294,
    ],
];

// Asks what the rows say, wants what they answer, and ends the code of the room.
fn written(rows: &[i64], room: &mut [u8]) -> Option<(u32, Finish)> {
    if room.len() < 2 || room.len() > 1275 || rows.len() > 4000 {
        return None;
    }
    let mut writer = Writer::new(room);
    for k in 0..rows.len() / 4 {
        let first = u32::try_from(rows[4 * k + 1]).ok()?;
        let second = u32::try_from(rows[4 * k + 2]).ok()?;
        let question = question_of(rows[4 * k], first, second)?;
        if writer.ask(question, rows[4 * k + 3]) != rows[4 * k + 3] {
            return None;
        }
    }
    let tell = writer.tell();
    Some((tell, writer.finish()))
}

// Whether the rows leave these bytes, told so many bits, and end so.
fn leaves(rows: &[i64], frame: &[u8], tell: u32, end: Finish) -> bool {
    let mut bytes = [0x55; 1275];
    if frame.len() > 1275 {
        return false;
    }
    let (room, _) = bytes.split_at_mut(frame.len());
    let finish = written(rows, room);
    finish == Some((tell, end)) && &bytes[..frame.len()] == frame
}

// Whether a room of so many bytes is left as the slow program says.
fn leaves_slow_code(rows: &[i64], len: usize) -> bool {
    let mut bytes = [0x55; 1275];
    if len > 1275 {
        return false;
    }
    let (room, _) = bytes.split_at_mut(len);
    let finish = written(rows, room);
    let number = number_of(&bytes[..len]);
    match finish {
        Some((tell, Finish::Whole { .. })) => {
            tell as usize <= 8 * len && slow_code(rows, len) == Some(number)
        }
        Some((tell, Finish::Overrun { tell: told })) => {
            tell == told && tell as usize > 8 * len && number == 0
        }
        None => false,
    }
}

#[test]
fn whole_frames_are_written(rt: HostRuntime) {
    for (k, (frame, rows, tell, _, range)) in FRAMES.into_iter().enumerate() {
        assert!(rt;
            leaves(rows, frame, tell, Finish::Whole { range }),
            "frame {k}"
        );
    }
}

#[test]
fn small_frames_are_written(rt: HostRuntime) {
    for (k, (frame, rows, tell, range)) in SMALL.into_iter().enumerate() {
        assert!(rt;
            leaves(rows, frame, tell, Finish::Whole { range }),
            "frame {k}"
        );
        assert!(rt; leaves_slow_code(rows, frame.len()), "code of frame {k}");
    }
}

// The writer and the slow program agree in rooms of all lengths, with every list.
#[test]
fn lists_are_written(rt: HostRuntime) {
    for (k, rows) in LISTS.into_iter().enumerate() {
        for len in 2..=12 {
            assert!(rt; leaves_slow_code(rows, len), "list {k} in {len}");
        }
    }
}

// A list, the bytes of its room, what is told, and the end.
type End = (&'static [i64], &'static [u8], u32, Finish);

// Rooms that are filled to the last bit, and those that are one bit short; a code with a carry, of no question, and of one
// bit more than the width leaves; raw bits that share a byte with the code.
#[test]
fn ends(rt: HostRuntime) {
    let table: [End; 12] = [
        (&[], &[0, 0], 1, Finish::Whole { range: 0x8000_0000 }),
        (
            &[
                2, 3, 0, 1, 2, 3, 0, 1, 2, 3, 0, 1, 2, 3, 0, 1, 2, 3, 0, 1, 2, 3, 0, 1, 2, 3, 0, 1,
                2, 3, 0, 1, 2, 3, 0, 1, 2, 3, 0, 1, 2, 3, 0, 1, 2, 3, 0, 1, 0, 1, 0, 1,
            ],
            &[0x80, 0x00, 0x04],
            22,
            Finish::Whole { range: 132_411_136 },
        ),
        (
            &[0, 15, 0, 1],
            &[0xff, 0xfe, 0, 0, 0],
            16,
            Finish::Whole { range: 0x0100_0000 },
        ),
        (
            &[0, 1, 0, 1, 6, 9, 0, 421],
            &[0x81, 0xa5],
            11,
            Finish::Whole { range: 0x4000_0000 },
        ),
        (&[6, 24, 0, 0], &[0, 0], 25, Finish::Overrun { tell: 25 }),
        (
            &[2, 3, 0, 1],
            &[0x60, 0],
            3,
            Finish::Whole { range: 715_827_882 },
        ),
        (
            &[6, 15, 0, 32767],
            &[0x7f, 0xff],
            16,
            Finish::Whole { range: 0x8000_0000 },
        ),
        (
            &[6, 16, 0, 65535],
            &[0, 0],
            17,
            Finish::Overrun { tell: 17 },
        ),
        (
            &[0, 15, 0, 1],
            &[0xff, 0xfe],
            16,
            Finish::Whole { range: 0x0100_0000 },
        ),
        (
            &[0, 15, 0, 1, 0, 1, 0, 1],
            &[0, 0],
            17,
            Finish::Overrun { tell: 17 },
        ),
        (
            &[0, 1, 0, 1, 6, 14, 0, 16383],
            &[0xbf, 0xff],
            16,
            Finish::Whole { range: 0x4000_0000 },
        ),
        (
            &[0, 1, 0, 1, 6, 15, 0, 32767],
            &[0, 0],
            17,
            Finish::Overrun { tell: 17 },
        ),
    ];
    for (k, (rows, room, tell, end)) in table.into_iter().enumerate() {
        assert!(rt; leaves(rows, room, tell, end), "row {k}");
    }
}

// Twelve numbers and a bit: the two bytes that were sent before the end, and what is told then.
fn carried(room: &mut [u8; 3]) -> (u8, u8, u32, Finish) {
    let mut sender = Sender::new();
    for k in 0..12u32 {
        sender = send_answer(sender, room, Question::Uniform(3), 1).sender;
    }
    sender = send_answer(sender, room, Question::Bit(1), 1).sender;
    let (first, second) = (room[0], room[1]);
    let tell = sender.tell();
    (first, second, tell, sender.finish(room))
}

// The width that a writer tells before and after a question.
#[test]
fn the_width_is_told(rt: HostRuntime) {
    let mut room = [0; 5];
    let mut writer = Writer::new(&mut room);
    assert_eq!(rt; (writer.range(), writer.tell()), (2_147_483_648, 1));
    assert_eq!(rt; writer.ask(Question::Bit(15), 1), 1);
    assert_eq!(rt; (writer.range(), writer.tell()), (16_777_216, 16));
}

// Two bytes 7F FF were sent when the last byte carries into both.
#[test]
fn a_carry_goes_through_two_bytes(rt: HostRuntime) {
    let mut room = [0; 3];
    let end = Finish::Whole { range: 132_411_136 };
    assert_eq!(rt; carried(&mut room), (0x7f, 0xff, 22, end));
    assert!(rt; room == [0x80, 0x00, 0x04], "bytes at the end");
}

// What is wanted beyond the answers of a question is answered by the nearest one.
#[test]
fn nearest_answers(rt: HostRuntime) {
    let laplace = Question::Laplace {
        fs: 32736,
        decay: 16384,
    };
    let rows: [(Question, i64, i64); 12] = [
        (Question::Bit(3), -5, 0),
        (Question::Bit(3), 7, 1),
        (Question::Table(TableId::Trim), 100, 10),
        (Question::Table(TableId::Small), -1, 0),
        (Question::Uniform(300), 300, 299),
        (Question::Uniform(4294967295), i64::MAX, 4294967294),
        (Question::Step(8), 9, 8),
        (Question::Triangle(8), i64::MIN, 0),
        (Question::Raw(3), 8, 7),
        (laplace, 5, 5),
        (laplace, i64::MAX, 16),
        (laplace, i64::MIN, -16),
    ];
    for (question, want, answer) in rows {
        let mut room = [0; 8];
        let mut writer = Writer::new(&mut room);
        assert_eq!(rt;
            writer.ask(question, want),
            answer,
            "{question:?} of {want}"
        );
    }
}

// The interval, kept whole: from low up to and without low + width, of 31 + shift bits, and the raw bits.
#[derive(Clone, Copy)]
struct Span {
    low: u128,
    width: u128,
    shift: u32,
    raw: u32,
    bits: u128,
}

fn power(n: u32) -> u128 {
    1u128.wrapping_shl(n)
}

// The length of a place in the row of a question.
fn length_of(kind: i64, first: u32, second: u32, place: u32) -> u128 {
    match kind {
        0 if place == 0 => power(first).wrapping_sub(1),
        1 => u128::from(table_length(first, place)),
        3 if place == 0 => u128::from(first),
        3 => spread_of(first, second, (place.wrapping_sub(1)) / 2).wrapping_add(1),
        4 if place <= first / 2 => 3,
        5 if place <= first / 2 => u128::from(place).wrapping_add(1),
        5 => u128::from(first.wrapping_sub(place)).wrapping_add(1),
        _ => 1,
    }
}

fn table_length(table: u32, place: u32) -> u32 {
    let lengths: &[u32] = match table {
        0 | 1 => &[2, 1, 1],
        2 => &[7, 2, 21, 2],
        _ => &[2, 2, 5, 10, 22, 46, 22, 10, 5, 2, 2],
    };
    lengths.get(place as usize).copied().unwrap_or(0)
}

// The length of a size of Laplace without its one.
fn spread_of(fs: u32, decay: u32, smaller: u32) -> u128 {
    let left = 32736u128.wrapping_sub(u128::from(fs));
    let mut spread = left.wrapping_mul(16384u128.wrapping_sub(u128::from(decay))) / 32768;
    for _ in 0..smaller {
        spread = spread.wrapping_mul(2).wrapping_mul(u128::from(decay)) / 32768;
    }
    spread
}

// How many low bits of a number are raw.
fn low_bits(limit: u32) -> u32 {
    let mut low = 0;
    for _ in 0..24 {
        if limit.wrapping_sub(1).wrapping_shr(low) >= 256 {
            low += 1;
        }
    }
    low
}

fn total_of(kind: i64, first: u32) -> u128 {
    let half = u128::from(first / 2);
    match kind {
        0 => power(first),
        1 if first <= 1 => 4,
        1 if first == 2 => 32,
        1 => 128,
        2 => u128::from(first.wrapping_sub(1).wrapping_shr(low_bits(first))).wrapping_add(1),
        3 => 32768,
        4 => half.wrapping_mul(4).wrapping_add(3),
        _ => half.wrapping_add(1).wrapping_mul(half.wrapping_add(1)),
    }
}

// How far a place lies below the upper end.
fn depth(width: u128, total: u128, place: u128) -> u128 {
    let unit = width.checked_div(total).unwrap_or(0);
    if place == 0 {
        width
    } else {
        unit.wrapping_mul(total.wrapping_sub(place))
    }
}

// The span of a part, grown above 2^23.
fn in_part(span: Span, kind: i64, first: u32, second: u32, place: u32) -> Span {
    let total = total_of(kind, first);
    let mut from = 0u128;
    for before in 0..place {
        from = from
            .wrapping_add(length_of(kind, first, second, before))
            .min(total);
    }
    let to = from
        .wrapping_add(length_of(kind, first, second, place))
        .min(total);
    let lower = depth(span.width, total, from);
    let mut next = Span {
        low: span.low.wrapping_add(span.width.wrapping_sub(lower)),
        width: lower.wrapping_sub(depth(span.width, total, to)),
        ..span
    };
    for _ in 0..3 {
        if next.width <= power(23) {
            next.low = next.low.wrapping_mul(256);
            next.width = next.width.wrapping_mul(256);
            next.shift = next.shift.wrapping_add(8);
        }
    }
    next
}

fn with_bits(span: Span, count: u32, number: u128) -> Span {
    Span {
        raw: span.raw.wrapping_add(count),
        bits: span.bits.wrapping_add(number.wrapping_mul(power(span.raw))),
        ..span
    }
}

// The span of an answer.
fn answered(span: Span, kind: i64, first: u32, second: u32, answer: i64) -> Span {
    let number = u32::try_from(answer).unwrap_or(0);
    let size = u32::try_from(answer.unsigned_abs()).unwrap_or(0);
    match kind {
        2 => {
            let low = low_bits(first);
            let top = number.wrapping_shr(low);
            let rest = number.wrapping_sub(top.wrapping_shl(low));
            with_bits(
                in_part(span, kind, first, second, top),
                low,
                u128::from(rest),
            )
        }
        3 if answer < 0 => in_part(
            span,
            kind,
            first,
            second,
            size.wrapping_mul(2).wrapping_sub(1),
        ),
        3 => in_part(span, kind, first, second, size.wrapping_mul(2)),
        6 => with_bits(span, first, u128::from(number)),
        _ => in_part(span, kind, first, second, number),
    }
}

// The code of the rows in so many bytes as a number, by trying all numbers of bits in turn.
fn slow_code(rows: &[i64], len: usize) -> Option<u128> {
    let mut span = Span {
        low: 0,
        width: power(31),
        shift: 0,
        raw: 0,
        bits: 0,
    };
    for k in 0..rows.len() / 4 {
        let first = u32::try_from(rows[4 * k + 1]).ok()?;
        let second = u32::try_from(rows[4 * k + 2]).ok()?;
        span = answered(span, rows[4 * k], first, second, rows[4 * k + 3]);
    }
    for bits in 0..=31u32 {
        let unit = power(31 - bits);
        let first = span
            .low
            .wrapping_add(unit.wrapping_sub(1))
            .checked_div(unit)?;
        let end = first.wrapping_add(1).wrapping_mul(unit);
        if end <= span.low.wrapping_add(span.width) {
            let free = u32::try_from(len)
                .ok()?
                .wrapping_mul(8)
                .wrapping_sub(span.shift.wrapping_add(bits));
            return Some(first.wrapping_mul(power(free)).wrapping_add(span.bits));
        }
    }
    None
}

// The number that bytes form, most significant first.
fn number_of(bytes: &[u8]) -> u128 {
    let mut number = 0u128;
    for byte in bytes {
        number = number.wrapping_mul(256).wrapping_add(u128::from(*byte));
    }
    number
}
