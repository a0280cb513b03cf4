use crate::counts::Counts;
use crate::face::{count_corners, is_ascii, parse_face};
use crate::vertex::Parse;
use elements::corner::{MISSING_INDEX, VertexIndices};

const THREE: Counts = Counts {
    positions: 3,
    textures: 3,
    normals: 3,
};

// The position that a token refers to, if the token reads.
fn position(token: &[u8]) -> Option<usize> {
    VertexIndices::parse(token, THREE).map(|corner| corner.v)
}

#[test]
fn tokens(rt: HostRuntime) {
    let cases: [(&[u8], Option<usize>); 13] = [
        (b"9223372036854775807", Some(9223372036854775806)),
        (b"9223372036854775808", None),
        (b"-9223372036854775808", Some(9223372036854775811)),
        (b"-9223372036854775809", None),
        (b"0000000000000000000000000000001", Some(0)),
        (b"-0", Some(MISSING_INDEX)),
        (b"+", None),
        (b"-", None),
        (b"+-1", None),
        (b"3/2/1//", Some(2)),
        (b"1/2/3/4", None),
        (b"//-3", Some(MISSING_INDEX)),
        (b"", Some(MISSING_INDEX)),
    ];
    for (token, answer) in cases {
        assert_eq!(rt; position(token), answer);
    }
}

#[test]
fn texts(rt: HostRuntime) {
    let cases: [(&[u8], bool, Option<usize>); 7] = [
        (b"", true, Some(0)),
        (b"\t\n\x0b\x0c\r ", true, Some(0)),
        (b"1\t2\x0b3\x0c4\r5\n6 7", true, Some(7)),
        (b"1 2 x", true, None),
        (b"1\x7f", true, None),
        (b"1\x80", false, None),
        (b"1 2 \xff", false, None),
    ];
    for (text, ascii, corners) in cases {
        assert_eq!(rt; is_ascii(text), ascii);
        assert_eq!(rt; count_corners(text), corners);
    }
}

#[test]
fn cells(rt: HostRuntime) {
    let cases: [(&[u8], usize, Option<usize>, [usize; 3]); 6] = [
        (b" 1 -1 ", 1, Some(2), [7, 0, 2]),
        (b"1 2 3", 0, Some(3), [0, 1, 2]),
        (b"3 3", 2, None, [7, 7, 7]),
        (b"3 +", 0, None, [7, 7, 7]),
        (b"", 3, Some(0), [7, 7, 7]),
        (b"", 4, None, [7, 7, 7]),
    ];
    for (text, start, granted, after) in cases {
        let mut cells = [VertexIndices { v: 7, vt: 7, vn: 7 }; 3];
        assert_eq!(rt; parse_face(text, THREE, &mut cells, start), granted);
        assert_eq!(rt; cells.map(|corner| corner.v), after);
    }
}
