use records::layout::{kind, read};
use std::test::Fail;

// Tapes on which no record begins: nothing, less than a word, a head word alone, low bits set, a number short, a text that is not
// filled up with zeros, one too long, unknown flags, an unknown kind.
#[test]
fn unreadable(rt: HostRuntime) {
    let tapes: [(&[u8], u8); 10] = [
        (b"", 0),
        (b"\x10", 0),
        (b"\x00\x00\x10", 0),
        (b"\x00\x00\x00\x10", 1),
        (
            b"\x01\x00\x00\x10\x00\x00\x00\x00\x00\x00\x00\x00\x00\x00\x00\x00",
            1,
        ),
        (b"\x00\x00\x00\x30\x00\x00\x00\x00\x00\x00\x00", 3),
        (b"\x01\x00\x00\x501\x00\x00\x01", 5),
        (b"\x01\x10\x00\x50", 5),
        (b"\x20\x00\x00\x60", 6),
        (b"\x00\x00\x00\xf0", 15),
    ];
    for (tape, number) in tapes {
        assert_eq!(rt; kind(tape), number);
        assert!(rt; read(tape).is_none());
    }
}

// The shortest records, and how many bytes each takes up.
#[test]
fn readable(rt: HostRuntime) -> Result<(), Fail> {
    let tapes: [(&[u8], usize); 5] = [
        (
            b"\x00\x00\x00\x10\x00\x00\x00\x00\x00\x00\x00\x80\x00\x00\x80\x7f",
            16,
        ),
        (b"\x00\x00\x00\x30\x00\x00\xc0\x7f\x00\x00\x00\x00", 12),
        (b"\x00\x00\x00\x50", 4),
        (b"\x05\x00\x00\x501 2 3\x00\x00\x00", 12),
        (b"\x1f\x00\x00\x60", 4),
    ];
    for (tape, size) in tapes {
        let record = read(tape).ok_or("a record")?;
        assert_eq!(rt; record.size(), size);
    }
    Ok(())
}
