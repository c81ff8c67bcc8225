// A quote of source document 000 written in our form (document 02, T-11).
#![tactic(auto)]

ghost use Rattle.std.specs.Prelude.{◌≡◌, true, cond, [], ◌∷◌, ◌+◌, ◌*◌, ◌≤◌, ◌<◌, length};
ghost use Rattle.field.specs.Field.{splice};
ghost use Rattle.field.specs.Ascii.{K, M};
ghost use Rattle.text.specs.Form.{symbol_length};
ghost use Rattle.levels.specs.Levels.{item_length};
ghost use Rattle.message.specs.Message.{header_length, round_length};
ghost use Rattle.venueform.specs.Form.{venue_header, price_bytes, side_bytes, item_bytes, time_in, symbol_in, condition_in, item_count};
ghost use Rattle.venuerules.specs.Rules.{length_good, our_length};
ghost use Rattle.venuequote.specs.Quote.{divided, our_kind, our_header, our_side_at, our_round, our_marks, our_item_at, our_items, converted_as, converted, converted_length};
ghost use Rattle.venuequote.specs.code.Ready.{ready};

use levels::Item;
use message::Layout;
use venueform::{Form, Venue};

/// Writes a quote of this form as our message, which fills the output. `lot`: the round lot of its symbol, 0 if that is not listed.
pub fn put_quote(output: &mut [u8], msg: &[u8], form: Form, lot: u8)
    requires { (length_good form msg.now ≡ true) × (length output.old ≡ our_length form msg.now) }
    ensures { output.new ≡ converted_as lot form msg.now }
{
    put_header(output, msg, form);
    put_symbol(output, Layout::SYMBOL, msg, form);
    if form.round {
        put_round(output, msg, form, lot);
        put_marks(output, Layout::ROUND_LOT_CLEAR, msg, form);
        put_items(output, Layout::ROUND_LOT_ITEMS, msg, form);
    } else {
        put_marks(output, Layout::ODD_LOT_CLEAR, msg, form);
        put_items(output, Layout::ODD_LOT_ITEMS, msg, form);
    }
}

/// Writes a message in our form, which fills the output.
pub fn put_message(output: &mut [u8], msg: &[u8], lot: u8)
    requires { (ready msg.now ≡ true) × (length output.old ≡ converted_length msg.now) }
    ensures { output.new ≡ converted lot msg.now }
{
    if let Some(form) = venueform::layout_of(msg) {
        put_quote(output, msg, form, lot);
    }
}

/// The length of a message in our form. Any bytes.
pub fn converted_len(msg: &[u8]) -> usize
    ensures { (result ≡ converted_length msg.now) × (result ≤ 6180) }
{
    let Some(form) = venueform::layout_of(msg) else {
        return 0;
    };
    venuerules::our_len(msg, form)
}

// msg and form stay two parameters: what is asked of them differs, from nothing over a header's or a side's bytes to a whole quote's length.

// ---- header

fn put_header(output: &mut [u8], msg: &[u8], form: Form)
    requires { (header_length ≤ length output.old) × (venue_header ≤ length msg.now) }
    ensures { output.new ≡ splice output.old 0 (our_header form msg.now) }
{
    put_kind(output, msg, form);
    field::put64(output, 4, time(msg));
    field::put64(output, 12, field::get64(msg, Venue::REFERENCE));
}

fn put_kind(output: &mut [u8], msg: &[u8], form: Form)
    requires { header_length ≤ length output.old }
    ensures { output.new ≡ splice output.old 0 (our_kind form msg.now) }
{
    let letter = field::byte(msg, Venue::PARTICIPANT);
    output[0..4].copy_from_slice(&[b'Q', kind(form), letter, 0]);
}

fn kind(form: Form) -> u8
    ensures { result ≡ cond form.round K M }
{
    if form.round { b'K' } else { b'M' }
}

// Nanoseconds since the epoch.
fn time(msg: &[u8]) -> u64
    requires { venue_header ≤ length msg.now }
    ensures { result ≡ time_in msg.now }
{
    let seconds = u64::from(field::get32(msg, Venue::SECONDS));
    seconds * 1000000000 + u64::from(field::get32(msg, Venue::NANOS))
}

/// Writes a quote's symbol at `to`, filled up to eleven bytes.
pub fn put_symbol(output: &mut [u8], to: usize, msg: &[u8], form: Form)
    requires { (to + symbol_length ≤ length output.old) × (length_good form msg.now ≡ true) }
    ensures { output.new ≡ splice output.old to (symbol_in form msg.now) }
{
    if form.long {
        output[to..to + 11].copy_from_slice(&msg[Venue::HEADER..Venue::HEADER + 11]);
    } else {
        output[to..to + 5].copy_from_slice(&msg[Venue::HEADER..Venue::HEADER + 5]);
        output[to + 5..to + 11].fill(b' ');
    }
}

// ---- round part

fn put_round(output: &mut [u8], msg: &[u8], form: Form, lot: u8)
    requires { (round_length ≤ length output.old) × ((length_good form msg.now ≡ true) × (form.round ≡ true)) }
    ensures { output.new ≡ splice output.old 31 (our_round lot form msg.now) }
{
    let at = venueform::bid_at(form);
    output[Layout::CONDITION] = condition(msg, form);
    put_side(output, Layout::BID, msg, at, form, lot);
    put_side(
        output,
        Layout::OFFER,
        msg,
        at + venueform::side_len(form),
        form,
        lot,
    );
}

fn condition(msg: &[u8], form: Form) -> u8
    ensures { result ≡ condition_in form msg.now }
{
    if form.long {
        field::byte(msg, Venue::CONDITION)
    } else {
        b'R'
    }
}

// The side at `at`.
fn put_side(output: &mut [u8], to: usize, msg: &[u8], at: usize, form: Form, lot: u8)
    requires { (to + 12 ≤ length output.old) × ((at ≤ 50) × (at + side_bytes form ≤ length msg.now)) }
    ensures { output.new ≡ splice output.old to (our_side_at lot form msg.now at) }
{
    let shares = venueform::shares(msg, at + venueform::price_len(form), form);
    field::put64(output, to, venueform::price(msg, at, form));
    field::put32(output, to + 8, divide(lot, shares));
}

// Shares in round lots, the rest dropped; undivided without a lot.
fn divide(lot: u8, shares: u32) -> u32
    ensures { result ≡ divided lot shares }
{
    if lot == 0 {
        return shares;
    }
    shares / u32::from(lot)
}

// ---- odd part

fn put_marks(output: &mut [u8], to: usize, msg: &[u8], form: Form)
    requires { to + cond form.round 4 5 ≤ length output.old }
    ensures { output.new ≡ splice output.old to (our_marks form msg.now) }
{
    let clear = venueform::clear_at(form);
    let mark = field::byte(msg, clear);
    let bids = field::byte(msg, clear + 1);
    let offers = field::byte(msg, clear + 2);
    output[to..to + 4].copy_from_slice(&[mark, bids, offers, 0]);
    if !form.round {
        output[to + 4] = 0;
    }
}

fn put_items(output: &mut [u8], to: usize, msg: &[u8], form: Form)
    requires { (to + item_length * item_count form msg.now ≤ length output.old) × (length_good form msg.now ≡ true) }
    ensures { output.new ≡ splice output.old to (our_items form msg.now 0 (item_count form msg.now)) }
{
    // i is a place in both forms: where an item is read, and where it is written.
    let n = venueform::item_count(msg, form);
    for i in 0..n {
        put_item(
            output,
            to + Item::LEN * i,
            msg,
            venueform::item_at(form, i),
            form,
        );
    }
}

// The appendage at `at`.
fn put_item(output: &mut [u8], to: usize, msg: &[u8], at: usize, form: Form)
    requires { (to + item_length ≤ length output.old) × ((at ≤ 4671) × (at + item_bytes form ≤ length msg.now)) }
    ensures { output.new ≡ splice output.old to (our_item_at form msg.now at) }
{
    let shares = u32::from(field::byte(msg, at + venueform::price_len(form)));
    field::put64(output, to, venueform::price(msg, at, form));
    field::put32(output, to + 8, shares);
}
