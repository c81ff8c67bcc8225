// Prints a symbol from publications of several lengths: what stands in stdout was written by hand.
#![tactic(auto)]

use output::Output;

// The entries of a publication, and one more: name 4, price 8, size 4.
const ENTRIES: [[u8; 16]; 7] = [
    *b"ARP \0\0\0\0\0\x98\x96\x80\0\0\0\x03",
    *b"    \0\0\0\0\0\0\0\0\0\0\0\0",
    *b"MKRA\0\0\0\0\0\x98\x6f\x70\0\0\0\x05",
    *b"MK  \0\0\0\0\0\x99\x32\xc0\0\0\0\x01",
    *b"Z   \0\0\0\0\0\x98\xbd\x90\0\0\0\x28",
    *b"Q   \xff\xff\xff\xff\xff\xff\xff\xff\xff\xff\xff\xff",
    *b"XRP \0\0\0\0\0\0\0\x01\0\0\0\x01",
];

fn main(rt: HostRuntime) {
    let mut out = Output::new(rt.stdout(), rt.stderr());
    let bytes: &[u8] = ENTRIES.as_flattened();
    print::put_whole_symbol(&mut out, b"WHOLE      ", &bytes[..96]);
    print::put_symbol(&mut out, b"NONE       ", &bytes[..0]);
    print::put_symbol(&mut out, b"BYTES15    ", &bytes[..15]);
    print::put_symbol(&mut out, b"BYTES16    ", &bytes[..16]);
    print::put_symbol(&mut out, b"BYTES80    ", &bytes[..80]);
    print::put_symbol(&mut out, b"BYTES95    ", &bytes[..95]);
    print::put_symbol(&mut out, b"BYTES96    ", &bytes[..96]);
    print::put_symbol(&mut out, b"BYTES112   ", &bytes[..112]);
    out.flush();
}
