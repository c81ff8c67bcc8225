// The calls that convert a venue's block (document 02, T-11). The book is read for round lots and not changed.
#![tactic(auto)]

ghost use Rattle.std.specs.Prelude.{◌≡◌, true, [], ◌≤◌, length};
ghost use Rattle.std.specs.Result.{result_unwrap_or};
ghost use Rattle.numbers.specs.Numbers.{answered};
ghost use Rattle.field.specs.Field.{be, splice};
ghost use Rattle.text.specs.Form.{symbol_length};
ghost use Rattle.block.specs.Written.{joined};
ghost use Rattle.venue.specs.Venue.{venue_messages, venue_number};
ghost use Rattle.venuerun.specs.Run.{needed_of, venue_run};
ghost use Rattle.venuequote.specs.code.Ready.{ready};
ghost use Rattle.opening.specs.Opening.{sound};
ghost use Rattle.calls.specs.Call.{call, convert_len, run_told, lot_on};
ghost use Rattle.calls.specs.Buffers.{run_out};
ghost use Rattle.convert.specs.code.Lots.{lot_for, lots_for};

use numbers::Refusal;
use opening::Book;
use page::Page;
use venue::Venues;

/// Tells how many bytes `convert` writes for a venue's block, or why the call is refused.
pub fn convert_len(book: &[u8], block: &[u8]) -> Result<usize, Refusal>
    ensures { record { bytes = book.now; answer = run_told (answered result) (result_unwrap_or result 0) [] } ≡ call book.now (convert_len block.now) }
{
    if !opening::is_sound(book) {
        return Err(Refusal::NoBook);
    }
    venuerun::convert_len(block)
}

/// Writes a venue's block as a run of our blocks, end to end, and tells its bytes; the bytes behind stay.
pub fn convert(book: &[u8], block: &[u8], output: &mut [u8]) -> Result<usize, Refusal>
    ensures { record { number = answered result; length = result_unwrap_or result 0; output = output.new } ≡ run_out book.now block.now output.old }
{
    if !opening::is_sound(book) {
        return Err(Refusal::NoBook);
    }
    let len = venuerun::judge(block, output.len())?;
    write(book, block, &mut output[0..len]);
    Ok(len)
}

// The run, which fills the output.
fn write(book: &[u8], block: &[u8], output: &mut [u8])
    requires { (sound book.now ≡ true) × ((venue_number block.now ≡ 0) × (length output.old ≡ needed_of block.now)) }
    ensures { output.new ≡ joined (venue_run (lot_on book.now) block.now) }
{
    let mut lots = [0u8; 38];
    put_lots(&mut lots, book, block);
    venuerun::write_run(output, block, &lots);
}

// The lot of each message.
fn put_lots(lots: &mut [u8], book: &[u8], block: &[u8])
    requires { (38 ≤ length lots.old) × ((sound book.now ≡ true) × (venue_number block.now ≡ 0)) }
    ensures { lots.new ≡ splice lots.old 0 (lots_for book.now (venue_messages block.now)) }
{
    let c = venue::count(block);
    // p walks beside i: a message's own length says where the next one starts; i is its place in `lots`.
    let mut p = Venues::FIRST;
    for i in 0..c {
        let e = venue::next(block, p);
        lots[i] = lot_for(book, &block[p..e]);
        p = e;
    }
}

// The round lot of the message's symbol; of an odd-lot quote none is asked for.
fn lot_for(book: &[u8], msg: &[u8]) -> u8
    requires { (sound book.now ≡ true) × (ready msg.now ≡ true) }
    ensures { result ≡ lot_for book.now msg.now }
{
    let Some(form) = venueform::layout_of(msg) else {
        return 0;
    };
    if form.round {
        let mut symbol = [0u8; 11];
        venuequote::put_symbol(&mut symbol, 0, msg, form);
        return lot_in(book, &symbol);
    }
    0
}

// The round lot of a symbol, 0 if it is not listed.
fn lot_in(book: &[u8], symbol: &[u8]) -> u8
    requires { (sound book.now ≡ true) × (length symbol.now ≡ symbol_length) }
    ensures { result ≡ lot_on book.now (be symbol.now) }
{
    let Some(k) = opening::find(book, symbol) else {
        return 0;
    };
    field::get8(book, Book::OPENING_LEN + k * Book::PAGE_LEN + Page::LOT)
}
