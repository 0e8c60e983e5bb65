// Traces whose bookings a station's hops refuse.
use super::{Case, each, told};
use faults::Notice;
use hops::hops::Hops;

#[test]
fn sample(rt: HostRuntime) {
    assert_eq!(rt;
        told(
            b"H,S,4,64\nF,01..\nB,1,4,1,4,16\nB,1,4,1,4,16\nR,0,0,7,2\nE,12\n",
            Hops::new()
        ),
        None
    );
}

#[test]
fn capacities(rt: HostRuntime) {
    let cases = cases![
        b"H,S,0,64\n" line 1 hop 2 number 7,
        b"H,S,1025,15\n" line 1 hop 2 number 7,
        b"H,S,1024,15\n" line 1 hop 3 number 7,
        b"H,S,4,8193\n" line 1 hop 3 number 7,
    ];
    each(&rt, Hops::new, &cases);
}

#[test]
fn rates(rt: HostRuntime) {
    let cases = cases![
        b"H,S,4,64\nF,01..\nB,5,4,9,9,9\n" line 3 hop 1 number 6,
        b"H,S,4,64\nF,01..\nB,1,1025,1,4,16\n" line 3 hop 1 number 6,
        b"H,S,4,64\nF,01..\nB,65536,65536,1,4,16\n" line 3 hop 1 number 6,
        b"H,S,4,64\nF,01..\nB,0,4,1,4,16\n" line 3 hop 1 number 6,
    ];
    each(&rt, Hops::new, &cases);
}

#[test]
fn shares(rt: HostRuntime) {
    let cases = cases![
        b"H,S,4,64\nF,01..\nB,2,7,1,4,16\n" line 3 hop 1 number 8,
        b"H,S,4,64\nF,00..\nB,1,2,1,4,32\n" line 3 hop 2 number 8,
        b"H,S,4,64\nF,00..\nB,1,2,2,4,16\n" line 3 hop 3 number 8,
        b"H,S,4,64\nF,0...\nB,1,4,5,4,16\n" line 3 hop 2 number 7,
        b"H,S,4,64\nF,0...\nB,1,4,1,4,15\n" line 3 hop 3 number 7,
    ];
    each(&rt, Hops::new, &cases);
}

#[test]
fn overruns(rt: HostRuntime) {
    let cases = cases![
        b"H,S,4,64\nF,01\nB,1,4,3,4,16\nB,1,4,2,4,16\n" line 4 hop 2 number 9,
        b"H,S,4,64\nF,01\nB,1,4,1,4,40\nB,1,4,1,4,40\n" line 4 hop 3 number 9,
        b"H,S,8,128\nF,01234567\nB,1,8,1,8,16\nB,1,8,1,8,16\nB,1,8,1,8,16\nB,1,8,1,8,16\nB,1,8,1,8,16\nB,1,8,1,8,16\nB,1,8,1,8,16\nB,1,8,1,8,16\nB,1,8,1,8,16\n" line 11 hop 1 number 8,
    ];
    each(&rt, Hops::new, &cases);
}
