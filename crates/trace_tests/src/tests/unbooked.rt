// Traces that are wrong in themselves, read with bookings that refuse nothing.
// A trace cut at any byte lacks the line that it is cut in.
use super::{Case, each, told};
use faults::Notice;
use std::alloc::{AllocError, Global};
use std::test::Fail;
use trace::Unbooked;

#[test]
fn header_line(rt: HostRuntime) {
    let cases = cases![
        b"" line 1 number 20,
        b"H,S,4,64" line 1 number 20,
        b"\n" line 1 number 14,
        b"F,01..\n" line 1 number 14,
        b"HH,S,4,64\n" line 1 number 14,
        b"h,S,4,64\n" line 1 number 14,
        b"H\n" line 1 number 15,
        b"H,S,4\n" line 1 number 15,
        b"H,S,4,64,\n" line 1 number 15,
        b"H,Q,4,64\n" line 1 field 2 number 16,
        b"H,SS,4,64\n" line 1 field 2 number 16,
        b"H,,,\n" line 1 field 2 number 16,
        b"H,S,,64\n" line 1 field 3 number 16,
        b"H,S,04,64\n" line 1 field 3 number 16,
        b"H,S,4,65537\n" line 1 field 4 number 16,
    ];
    each(&rt, Unbooked::default, &cases);
}

#[test]
fn header_bytes(rt: HostRuntime) {
    let cases = cases![
        b"H,S,65536,0\n" line 2 number 20,
        b"H,P,0,65536\n" line 2 number 20,
        b"H,S,4,64\r\n" line 1 field 4 number 16,
        b"H,S,4,\x00\n" line 1 field 4 number 16,
        b"H,S,4,\xff\n" line 1 field 4 number 16,
        b"\x00,S,4,64\n" line 1 number 14,
        b"H,S,4,12345678901\n" line 1 field 4 number 16,
        b"H,S,4,00\n" line 1 field 4 number 16,
    ];
    each(&rt, Unbooked::default, &cases);
}

#[test]
fn frame_line(rt: HostRuntime) {
    let cases = cases![
        b"H,S,4,64\nB,1,4,1,4,16\n" line 2 number 14,
        b"H,S,4,64\nF\n" line 2 number 15,
        b"H,S,4,64\nF,\n" line 2 field 2 number 16,
        b"H,S,4,64\nF,018.\n" line 2 field 2 number 16,
        b"H,S,4,64\nF,0,1\n" line 2 number 15,
        b"H,S,4,64\nF,7\n" line 3 number 20,
    ];
    each(&rt, Unbooked::default, &cases);
}

#[test]
fn client_line(rt: HostRuntime) {
    let cases = cases![
        b"H,S,4,64\nF,0\nE,1\n" line 3 number 14,
        b"H,S,4,64\nF,0\nB,1,4,1,4\n" line 3 number 15,
        b"H,S,4,64\nF,0\nB,,4,1,4,16\n" line 3 field 2 number 16,
        b"H,S,4,64\nF,0\nB,1,4,01,4,16\n" line 3 field 4 number 16,
        b"H,S,4,64\nF,0\nB,1,4,1,x,16\n" line 3 field 5 number 16,
        b"H,S,4,64\nF,0\nB,1,4,1,4,\n" line 3 field 6 number 16,
    ];
    each(&rt, Unbooked::default, &cases);
}

#[test]
fn request_line(rt: HostRuntime) {
    let cases = cases![
        b"H,S,4,64\nF,0\nB,1,4,1,4,16\nR,0,0,7\n" line 4 number 15,
        b"H,S,4,64\nF,0\nB,1,4,1,4,16\nR,0,0,7,1,2\n" line 4 number 15,
        b"H,S,4,64\nF,0\nB,1,4,1,4,16\nR,,0,7,1\n" line 4 field 2 number 16,
        b"H,S,4,64\nF,0\nB,1,4,1,4,16\nR,1000001,0,7,1\n" line 4 field 2 number 16,
        b"H,S,4,64\nF,0\nB,1,4,1,4,16\nR,0,256,7,1\n" line 4 field 3 number 16,
        b"H,S,4,64\nF,0\nB,1,4,1,4,16\nR,0,0,7,256\n" line 4 field 5 number 16,
        b"H,S,4,64\nF,0\nB,1,4,1,4,16\nR,0,300,x,1\n" line 4 field 3 number 16,
        b"H,S,4,64\nF,0\nB,1,4,1,4,16\nR,1000000,255,7,255\n" line 5 number 20,
        b"H,S,4,64\nF,0\nB,1,4,1,4,16\nR,5,0,7,1\nR,4,0,7,1\n" line 5 number 18,
        b"H,S,4,64\nF,0\nB,1,4,1,4,16\nR,5,0,7,1\nB,1,4,1,4,16\n" line 5 number 14,
    ];
    each(&rt, Unbooked::default, &cases);
}

#[test]
fn labels(rt: HostRuntime) {
    let cases = cases![
        b"H,S,4,64\nF,0\nB,1,4,1,4,16\nR,0,0,,1\n" line 4 field 4 number 17,
        b"H,S,4,64\nF,0\nB,1,4,1,4,16\nR,0,0,x,1\n" line 4 field 4 number 17,
        b"H,S,4,64\nF,0\nB,1,4,1,4,16\nR,0,0,07,1\n" line 4 field 4 number 17,
        b"H,S,4,64\nF,0\nB,1,4,1,4,16\nR,0,0,4294967296,1\n" line 4 field 4 number 17,
        b"H,S,4,64\nF,0\nB,1,4,1,4,16\nR,0,0,4294967295,1\n" line 5 number 20,
        b"H,P,4,64\nF,0\nB,1,4,1,4,16\nR,0,0,7,1\n" line 4 field 4 number 17,
        b"H,P,4,64\nF,0\nB,1,4,1,4,16\nR,0,0,2048.0,1\n" line 4 field 4 number 17,
        b"H,P,4,64\nF,0\nB,1,4,1,4,16\nR,0,0,0.16384,1\n" line 4 field 4 number 17,
        b"H,P,4,64\nF,0\nB,1,4,1,4,16\nR,0,0,01.2,1\n" line 4 field 4 number 17,
        b"H,P,4,64\nF,0\nB,1,4,1,4,16\nR,0,0,2047.16383,1\n" line 5 number 20,
    ];
    each(&rt, Unbooked::default, &cases);
}

#[test]
fn end_line(rt: HostRuntime) {
    let cases = cases![
        b"H,S,4,64\nF,0\nB,1,4,1,4,16\nE\n" line 4 number 15,
        b"H,S,4,64\nF,0\nB,1,4,1,4,16\nE,1,2\n" line 4 number 15,
        b"H,S,4,64\nF,0\nB,1,4,1,4,16\nE,\n" line 4 field 2 number 16,
        b"H,S,4,64\nF,0\nB,1,4,1,4,16\nE,01\n" line 4 field 2 number 16,
        b"H,S,4,64\nF,0\nB,1,4,1,4,16\nE,1000001\n" line 4 field 2 number 16,
        b"H,S,4,64\nF,0\nB,1,4,1,4,16\nR,5,0,7,1\nE,4\n" line 5 number 18,
        b"H,S,4,64\nF,0\nB,1,4,1,4,16\nE,1\nE,1\n" line 5 number 14,
        b"H,S,4,64\nF,0\nB,1,4,1,4,16\nE,1\nE,1" line 5 number 20,
    ];
    each(&rt, Unbooked::default, &cases);
    assert_eq!(rt;
        told(b"H,S,4,64\nF,0\nB,1,4,1,4,16\nE,1000000\n", Unbooked),
        None
    );
}

#[test]
fn cut_anywhere(rt: HostRuntime) {
    let sample =
        b"H,S,4,64\nF,01..\nB,1,4,1,4,16\nB,1,4,1,4,16\nR,0,0,7,2\nR,0,1,8,1\nR,11,0,9,17\nE,12\n";
    for cut in 0..sample.len() {
        let front = &sample[..cut];
        // No more lines than the sample has bytes, so the cast loses nothing.
        let line = marks::count(front, b'\n') as u32 + 1;
        assert_eq!(rt;
            told(front, Unbooked),
            Some(notice!(line: line, number: 20)),
            "cut at {cut}"
        );
    }
    assert_eq!(rt; told(sample, Unbooked), None);
}

/// A text, some times over, between two others.
fn repeated(
    heap: Global,
    front: &[u8],
    part: &[u8],
    times: usize,
    back: &[u8],
) -> Result<Vec<u8>, AllocError> {
    let mut bytes = Vec::new(heap);
    bytes.extend_from_slice(front)?;
    for _ in 0..times {
        bytes.extend_from_slice(part)?;
    }
    bytes.extend_from_slice(back)?;
    Ok(bytes)
}

#[test]
fn many(rt: HostRuntime) -> Result<(), Fail> {
    let front = b"H,S,4,64\nF,0\nB,1,4,1,4,16\n";
    let owners = repeated(rt.alloc(), b"H,S,4,64\nF,", b".", 256, b"\n")?;
    assert_eq!(rt;
        told(owners.as_slice(), Unbooked),
        Some(notice!(line: 3, number: 20))
    );
    let over = repeated(rt.alloc(), b"H,S,4,64\nF,", b".", 257, b"\n")?;
    assert_eq!(rt;
        told(over.as_slice(), Unbooked),
        Some(notice!(line: 2, field: 2, number: 16))
    );
    let most = repeated(rt.alloc(), front, b"R,1,0,7,1\n", 600, b"E,1\n")?;
    assert_eq!(rt; told(most.as_slice(), Unbooked), None);
    let crowd = repeated(rt.alloc(), front, b"R,1,0,7,1\n", 600, b"R,1,0,7,1\n")?;
    assert_eq!(rt;
        told(crowd.as_slice(), Unbooked),
        Some(notice!(line: 604, number: 19))
    );
    let before = repeated(rt.alloc(), front, b"R,1,0,7,1\n", 600, b"R,0,0,7,1\n")?;
    assert_eq!(rt;
        told(before.as_slice(), Unbooked),
        Some(notice!(line: 604, number: 18))
    );
    let longest = repeated(rt.alloc(), b"", b"x", 65536, b"")?;
    assert_eq!(rt;
        told(longest.as_slice(), Unbooked),
        Some(notice!(line: 1, number: 20))
    );
    let too_long = repeated(rt.alloc(), b"H,S,4,64\n", b"\n", 65528, b"")?;
    assert_eq!(rt;
        told(too_long.as_slice(), Unbooked),
        Some(notice!(number: 13))
    );
    Ok(())
}
