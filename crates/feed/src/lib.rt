// A symbol's snapshot, written from its page (document 02, T-12).
#![tactic(auto)]

ghost use Rattle.std.specs.Prelude.{◌≡◌, [], ◌+◌, ◌*◌, ◌-◌, ◌≤◌, ◌<◌, length};
ghost use Rattle.field.specs.Field.{splice};
ghost use Rattle.field.specs.Ascii as ascii;
ghost use Rattle.block.specs.Written.{joined};
ghost use Rattle.lists.specs.Lists.{cons_option};
ghost use Rattle.page.specs.Layout.{page_length, kept_entries};
ghost use Rattle.page.specs.Page.{quotes_in};
ghost use Rattle.snapshot.specs.Snapshot.{is_shown, shown_at, snapshot_of};
ghost use Rattle.snapshot.specs.Feed.{participant_length, feed_block, feed_bytes};
ghost use Rattle.snapshot.specs.Sizes.{letters_most, letters_alone, letters_first, first_length, feed_count, feed_length};
ghost use Rattle.feed.specs.code.Blocks.{Lent, only_length, second_length, shown_in, of_p, only_messages, first_messages, second_messages};

use feedform::Feed;
use page::{Letter, Page};

/// How many blocks and bytes a snapshot has.
#[derive(Clone, Copy)]
pub struct Size {
    pub blocks: usize,
    pub bytes: usize,
}

impl Size {
    // Letters that fit one block beside the two other messages, and beside R C alone.
    const ALONE: usize = 13;

    const FIRST: usize = 14;
    // The first of two blocks.
    const FIRST_LEN: usize = Feed::HEADER + Feed::CONSOLIDATED + Size::FIRST * Feed::PARTICIPANT;

    /// Of a snapshot with k letters.
    pub fn of(k: usize) -> Size
        requires { k ≤ letters_most }
        ensures { (result.blocks ≡ feed_count k) × (result.bytes ≡ feed_length k) }
    {
        let messages = Feed::CONSOLIDATED + Feed::PARTICIPANT * k + Feed::FINRA;
        if k <= Size::ALONE {
            return Size {
                blocks: 1,
                bytes: messages + Feed::HEADER,
            };
        }
        Size {
            blocks: 2,
            bytes: messages + 2 * Feed::HEADER,
        }
    }
}

// Where the entries of a page stand that a snapshot takes, two and two.
#[derive(Clone, Copy)]
struct Kept {}

impl Kept {
    const LEN: usize = 2 * Page::ENTRY_LEN;

    const NATIONAL: usize = Page::ENTRIES;

    const FINRA: usize = Kept::NATIONAL + Kept::LEN;

    const END: usize = Kept::FINRA + Kept::LEN;
}

// Whether a letter has a message: D's quotes are its makers', and S has none.
fn is_shown(page: &[u8], letter: usize) -> bool
    requires { (length page.now ≡ page_length) × ((ascii.A ≤ letter) × (letter ≤ ascii.Z)) }
    ensures { result ≡ is_shown (quotes_in page.now) letter }
{
    letter != Letter::D
        && letter != Letter::S
        && quote::is_quoted(field::get8(page, page::slot_at(letter)))
}

/// How many letters have a message.
pub fn count(page: &[u8]) -> usize
    requires { length page.now ≡ page_length }
    ensures { (result ≡ length (shown_in page.now ascii.A (ascii.Z + 1))) × (result ≤ letters_most) }
{
    let mut n = 0;
    for letter in Letter::A..Letter::Z + 1 {
        n += usize::from(is_shown(page, letter));
    }
    n
}

// The letter behind the first n that have a message.
fn behind(page: &[u8], n: usize) -> usize
    requires { (length page.now ≡ page_length) × (n ≤ length (shown_in page.now ascii.A (ascii.Z + 1))) }
    ensures { (ascii.A ≤ result) × ((result ≤ ascii.Z + 1) × (n + length (shown_in page.now result (ascii.Z + 1)) ≡ length (shown_in page.now ascii.A (ascii.Z + 1)))) }
{
    let mut seen = 0;
    for letter in Letter::A..Letter::Z + 1 {
        if seen == n {
            return letter;
        }
        seen += usize::from(is_shown(page, letter));
    }
    Letter::Z + 1
}

// A letter's message, if it has one; where the next begins.
fn put_letter(output: &mut [u8], at: usize, symbol: &[u8], page: &[u8], letter: usize) -> usize
    requires { Lent symbol.now page.now × ((ascii.A ≤ letter) × ((letter ≤ ascii.Z) × (at + participant_length * length (cons_option (shown_at (quotes_in page.now) letter) []) ≤ length output.old))) }
    ensures { (output.new ≡ splice output.old at (joined (of_p symbol.now (cons_option (shown_at (quotes_in page.now) letter) [])))) × (result ≡ at + participant_length * length (cons_option (shown_at (quotes_in page.now) letter) [])) }
{
    if is_shown(page, letter) {
        let quote = slots::quote(page, letter);
        feedform::put_participant(output, at, symbol, letter as u8, quote);
        return at + Feed::PARTICIPANT;
    }
    at
}

// The messages of the letters from `from` on, before `to`.
fn put_letters(output: &mut [u8], at: usize, symbol: &[u8], page: &[u8], from: usize, to: usize)
    requires { Lent symbol.now page.now × ((ascii.A ≤ from) × ((from ≤ to) × ((to ≤ ascii.Z + 1) × (at + participant_length * length (shown_in page.now from to) ≤ length output.old)))) }
    ensures { output.new ≡ splice output.old at (joined (of_p symbol.now (shown_in page.now from to))) }
{
    let mut end = at;
    for letter in from..to {
        end = put_letter(output, end, symbol, page, letter);
    }
}

// All messages in one block.
fn put_only(block: &mut [u8], symbol: &[u8], page: &[u8], k: usize)
    requires { Lent symbol.now page.now × ((k ≡ length (shown_in page.now ascii.A (ascii.Z + 1))) × ((k ≤ letters_alone) × (length block.old ≡ only_length k))) }
    ensures { block.new ≡ feed_block 1 4 (only_messages symbol.now page.now) }
{
    let len = block.len();
    feedform::put_front(block, 0, len as u16, 1, (k + 2) as u8, 4);
    feedform::put_consolidated(
        block,
        Feed::HEADER,
        symbol,
        &page[Kept::NATIONAL..Kept::FINRA],
    );
    put_letters(
        block,
        Feed::HEADER + Feed::CONSOLIDATED,
        symbol,
        page,
        Letter::A,
        Letter::Z + 1,
    );
    feedform::put_finra(
        block,
        len - Feed::FINRA,
        symbol,
        &page[Kept::FINRA..Kept::END],
    );
    feedform::seal(block);
}

// The first of two blocks: fourteen letters, those before `to`.
fn put_first(block: &mut [u8], symbol: &[u8], page: &[u8], to: usize)
    requires { Lent symbol.now page.now × ((ascii.A ≤ to) × ((to ≤ ascii.Z + 1) × ((length (shown_in page.now ascii.A to) ≡ letters_first) × (length block.old ≡ first_length)))) }
    ensures { block.new ≡ feed_block 1 1 (first_messages symbol.now page.now to) }
{
    feedform::put_front(
        block,
        0,
        Size::FIRST_LEN as u16,
        1,
        Size::FIRST as u8 + 1,
        1,
    );
    feedform::put_consolidated(
        block,
        Feed::HEADER,
        symbol,
        &page[Kept::NATIONAL..Kept::FINRA],
    );
    put_letters(
        block,
        Feed::HEADER + Feed::CONSOLIDATED,
        symbol,
        page,
        Letter::A,
        to,
    );
    feedform::seal(block);
}

// The second: the k letters from `from` on.
fn put_second(block: &mut [u8], symbol: &[u8], page: &[u8], from: usize, k: usize)
    requires { Lent symbol.now page.now × ((ascii.A ≤ from) × ((from ≤ ascii.Z + 1) × ((k ≡ length (shown_in page.now from (ascii.Z + 1))) × ((letters_first + k ≤ letters_most) × (length block.old ≡ second_length k))))) }
    ensures { block.new ≡ feed_block 16 3 (second_messages symbol.now page.now from) }
{
    let len = block.len();
    feedform::put_front(
        block,
        0,
        len as u16,
        Size::FIRST as u32 + 2,
        (k + 1) as u8,
        3,
    );
    put_letters(block, Feed::HEADER, symbol, page, from, Letter::Z + 1);
    feedform::put_finra(
        block,
        len - Feed::FINRA,
        symbol,
        &page[Kept::FINRA..Kept::END],
    );
    feedform::seal(block);
}

// The snapshot of a symbol with up to thirteen letters.
fn write_one(output: &mut [u8], symbol: &[u8], page: &[u8], k: usize)
    requires { Lent symbol.now page.now × ((k ≡ length (shown_in page.now ascii.A (ascii.Z + 1))) × ((k ≤ letters_alone) × (only_length k ≤ length output.old))) }
    ensures { output.new ≡ splice output.old 0 (feed_bytes (snapshot_of symbol.now (kept_entries page.now) (quotes_in page.now))) }
{
    let len = Feed::HEADER + Feed::CONSOLIDATED + Feed::PARTICIPANT * k + Feed::FINRA;
    put_only(&mut output[0..len], symbol, page, k);
}

// With more.
fn write_two(output: &mut [u8], symbol: &[u8], page: &[u8], k: usize)
    requires { Lent symbol.now page.now × ((k ≡ length (shown_in page.now ascii.A (ascii.Z + 1))) × ((letters_alone < k) × ((k ≤ letters_most) × (first_length + second_length (k - letters_first) ≤ length output.old)))) }
    ensures { output.new ≡ splice output.old 0 (feed_bytes (snapshot_of symbol.now (kept_entries page.now) (quotes_in page.now))) }
{
    let letter = behind(page, Size::FIRST);
    let rest = k - Size::FIRST;
    let len = Size::FIRST_LEN + Feed::HEADER + Feed::PARTICIPANT * rest + Feed::FINRA;
    put_first(&mut output[0..Size::FIRST_LEN], symbol, page, letter);
    put_second(
        &mut output[Size::FIRST_LEN..len],
        symbol,
        page,
        letter,
        rest,
    );
}

/// Writes the snapshot of a symbol with k letters at the output's front.
pub fn write(output: &mut [u8], symbol: &[u8], page: &[u8], k: usize)
    requires { Lent symbol.now page.now × ((k ≡ length (shown_in page.now ascii.A (ascii.Z + 1))) × ((k ≤ letters_most) × (feed_length k ≤ length output.old))) }
    ensures { output.new ≡ splice output.old 0 (feed_bytes (snapshot_of symbol.now (kept_entries page.now) (quotes_in page.now))) }
{
    if k <= Size::ALONE {
        write_one(output, symbol, page, k);
        return;
    }
    write_two(output, symbol, page, k);
}
