// Compares both forms of the checksum with the published CRC-32 vectors, and with zlib's values at lengths around each boundary of the
// forms: a line a vector, then the count.
#![tactic(auto)]

use crc32::Tables;
use score::Score;
use std::io;

// Lengths, and zlib's CRC-32 of as many of the bytes 0, 1, 2, .., 255, 0, ..; that of 32 is published too.
const UPWARD: [(usize, u32); 26] = [
    (1, 0xD202EF8D),
    (2, 0x36DE2269),
    (3, 0x0854897F),
    (4, 0x8BB98613),
    (5, 0x515AD3CC),
    (15, 0xA06C675E),
    (16, 0xCECEE288),
    (17, 0x2C183A19),
    (31, 0x4D786D77),
    (32, 0x91267E8A),
    (33, 0xE4908305),
    (47, 0x2F1C12CE),
    (48, 0x05202171),
    (49, 0xD3DCBEAA),
    (111, 0xDCB526AA),
    (112, 0x39D06C94),
    (113, 0x755C1980),
    (127, 0xDEC481AA),
    (128, 0x24650D57),
    (129, 0xCA91CDF7),
    (255, 0xD32F9BA0),
    (256, 0x29058C73),
    (257, 0x1B27CA87),
    (4095, 0xF93B80FA),
    (4096, 0xA2912082),
    (4097, 0xD1169CA1),
];

#[derive(Clone, Copy)]
struct Vector<'a> {
    name: &'a str,
    bytes: &'a [u8],
    crc: u32,
}

fn text(words: &str, crc: u32) -> Vector<'_> {
    Vector {
        name: words,
        bytes: words.as_bytes(),
        crc,
    }
}

// Both forms against the value, and the start of the line that says so.
fn compare(rt: &impl Print, t: &Tables, bytes: &[u8], want: u32) -> io::Result<bool> {
    let right = (crc32::crc32(bytes) == want) & (t.crc32(bytes) == want);
    let word = if right { "right" } else { "WRONG" };
    print!(rt; "{want:08x} {word} ")?;
    Ok(right)
}

fn published(rt: &impl Print, t: &Tables) -> io::Result<Score> {
    let vectors = [
        Vector {
            name: "the empty string",
            bytes: b"",
            crc: 0,
        },
        text("123456789", 0xCBF43926),
        text("a", 0xE8B7BE43),
        text("abc", 0x352441C2),
        text("message digest", 0x20159D7F),
        text("abcdefghijklmnopqrstuvwxyz", 0x4C2750BD),
        text(
            "ABCDEFGHIJKLMNOPQRSTUVWXYZabcdefghijklmnopqrstuvwxyz0123456789",
            0x1FC2E6D2,
        ),
        text(
            "12345678901234567890123456789012345678901234567890123456789012345678901234567890",
            0x7CA94A72,
        ),
        text("The quick brown fox jumps over the lazy dog", 0x414FA339),
        Vector {
            name: "PNG's chunk type IEND",
            bytes: b"IEND",
            crc: 0xAE426082,
        },
        Vector {
            name: "32 zeros",
            bytes: &[0; 32],
            crc: 0x190A55AD,
        },
        Vector {
            name: "32 bytes of 0xFF",
            bytes: &[0xFF; 32],
            crc: 0xFF6CAB0B,
        },
    ];
    let mut score = Score::default();
    for vector in &vectors {
        let right = compare(rt, t, vector.bytes, vector.crc)?;
        let name = vector.name;
        println!(rt; "{name}")?;
        score = score.add(right);
    }
    Ok(score)
}

fn upward() -> [u8; 4097] {
    let mut bytes = [0u8; 4097];
    for (i, byte) in bytes.iter_mut().enumerate() {
        *byte = (i % 256) as u8;
    }
    bytes
}

fn lengths(rt: &impl Print, start: Score, t: &Tables) -> io::Result<Score> {
    let bytes = upward();
    let mut score = start;
    for (n, want) in &UPWARD {
        let Some(part) = bytes.get(..*n) else {
            score = score.add(false);
            continue;
        };
        let right = compare(rt, t, part, *want)?;
        println!(rt; "upward bytes, {n}")?;
        score = score.add(right);
    }
    Ok(score)
}

fn main(rt: HostRuntime) -> io::Result<()> {
    let entries = crc32::tables();
    let t = Tables::of(&entries);
    let score = lengths(&rt, published(&rt, &t)?, &t)?;
    score.print(&mut io::writer(&rt))
}
