// What the tape program prints: a refused setup, a cut tape, a block and its messages, a symbol and its entries.
#![tactic(auto)]

ghost use Rattle.std.specs.Prelude.{◌≤◌, ◌≡◌, length};
ghost use Rattle.text.specs.Form.{name_length};
ghost use Rattle.entries.specs.Publication.{publication_length};
ghost use Rattle.print.specs.Print.{label_length, entry_count};

use output::Output;
use publication::Entry;
use text::Maker;

// "the answer buffer's four bytes at 4i hold i, the code, the change flags and 0"
const QUAD: usize = 4;

// A kind, a side and a space.
const LABEL_LEN: usize = 3;

/// What a block got.
#[derive(Clone, Copy)]
pub struct Got {
    pub line: u8,
    pub number: u8,
    pub gap: u32,
    pub expected: u32,
    /// How many messages were worked.
    pub messages: usize,
}

// The kind of an entry.
#[derive(Clone, Copy)]
enum Kind {
    National,
    Finra,
    Odd,
}

pub fn put_cut(out: &mut Output) {
    out.put_text(b"cut\n");
}

pub fn put_setup(out: &mut Output, number: u8) {
    out.put_line(b"setup", &[u64::from(number)]);
}

/// A block's line, number, gap and expected, and of a taken block each message's index, code and flags.
pub fn put_block(out: &mut Output, got: Got, answer: &[u8]) {
    out.put_line(
        b"block",
        &[
            u64::from(got.line),
            u64::from(got.number),
            u64::from(got.gap),
            u64::from(got.expected),
        ],
    );
    let (answers, _) = answer.as_chunks::<QUAD>();
    let count = least(got.messages, answers.len());
    for &[index, code, flags, _] in &answers[..count] {
        out.put_line(
            b"msg",
            &[u64::from(index), u64::from(code), u64::from(flags)],
        );
    }
}

fn least(a: usize, b: usize) -> usize
    ensures { result ≤ b }
{
    a.min(b)
}

/// A symbol and its six entries.
pub fn put_whole_symbol(out: &mut Output, name: &[u8], publication: &[u8])
    requires { length publication.now ≡ publication_length }
{
    out.put_text(b"sym ");
    out.put_name(name);
    out.put(b'\n');
    let labels = [
        (Kind::National, b"NB "),
        (Kind::National, b"NO "),
        (Kind::Finra, b"FB "),
        (Kind::Finra, b"FO "),
        (Kind::Odd, b"OB "),
        (Kind::Odd, b"OO "),
    ];
    put_entries(out, &labels, publication);
}

/// A symbol and each whole entry of a publication of any length, six at most.
pub fn put_symbol(out: &mut Output, name: &[u8], publication: &[u8]) {
    out.put_text(b"sym ");
    out.put_name(name);
    out.put(b'\n');
    let labels = [b"NB ", b"NO ", b"FB ", b"FO ", b"OB ", b"OO "];
    let (entries, _) = publication.as_chunks::<{ Entry::LEN }>();
    for (label, entry) in labels.iter().zip(entries) {
        put_entry(out, kind_of(*label), *label, entry);
    }
}

// The kind of the entry behind a label.
fn kind_of(label: &[u8; LABEL_LEN]) -> Kind {
    match label[0] {
        b'N' => Kind::National,
        b'F' => Kind::Finra,
        _ => Kind::Odd,
    }
}

// Each entry behind its label.
fn put_entries(out: &mut Output, labels: &[(Kind, &[u8; LABEL_LEN])], publication: &[u8])
    requires labels_len { length labels.now ≡ entry_count }
    requires publication_len { length publication.now ≡ publication_length }
{
    let (entries, _) = publication.as_chunks::<{ Entry::LEN }>();
    for (&(kind, label), entry) in labels.iter().zip(entries) {
        put_entry(out, kind, label, entry);
    }
}

// One entry behind its label: name, condition, price and size; none is four spaces and zeros.
fn put_entry(out: &mut Output, kind: Kind, label: &[u8], entry: &[u8; Entry::LEN])
    requires { length label.now ≡ label_length }
{
    out.put_text(label);
    if entry[0] == b' ' {
        out.put_text(b"- - 0 0\n");
        return;
    }
    out.put_name(&entry[..name_width(kind)]);
    let price = field::get64(entry, Entry::PRICE);
    let size = field::get32(entry, Entry::SIZE);
    out.put_line(&[b' ', condition(kind, entry)], &[price, u64::from(size)]);
}

// A maker's name has four bytes; of the others the first is the letter.
fn name_width(kind: Kind) -> usize
    ensures { result ≤ name_length }
{
    match kind {
        Kind::National => 1,
        Kind::Finra => Maker::LEN,
        Kind::Odd => 1,
    }
}

// A national entry's condition is its second byte.
fn condition(kind: Kind, entry: &[u8; Entry::LEN]) -> u8 {
    match kind {
        Kind::National => entry[1],
        Kind::Finra => b'R',
        Kind::Odd => b'-',
    }
}
