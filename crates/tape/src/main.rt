// The tape program. From standard input: symbols with their round lots, lines with their letters, then records of a line and a block. To standard
// output: what each block got, and last each symbol's six entries. Both go through buffers, and a tape of any length takes the same memory.
#![tactic(auto)]

ghost use Rattle.setup.specs.Setup.{Memory};

use input::{Input, Stop};
use opening::Book;
use output::Output;
use text::Symbol;

fn main(rt: HostRuntime) {
    let mut input = Input::new(rt.stdin());
    let mut out = Output::new(rt.stdout(), rt.stderr());
    match play_tape(&mut input, &mut out) {
        Ok(()) | Err(Stop::End) => {}
        Err(Stop::Cut) => print::put_cut(&mut out),
        Err(Stop::Refused(refusal)) => print::put_setup(&mut out, refusal.number()),
    }
    out.flush();
}

// A whole tape: its count of symbols, and the rest on the memory of their book.
fn play_tape(input: &mut Input, out: &mut Output) -> Result<(), Stop> {
    let n = setup::symbols(input.count(out)?);
    let mut memory = [0; setup::MEMORY];
    let book = &mut memory[..Book::OPENING_LEN + usize::from(n) * Book::PAGE_LEN];
    play(book, n, input, out)
}

// A tape behind its count of symbols: its book is set up, its blocks are taken, and where it ends between two of them, each symbol is printed.
fn play(book: &mut [u8], n: u8, input: &mut Input, out: &mut Output) -> Result<(), Stop>
    requires { Memory n book.old }
{
    setup::set_up(book, n, input, out)?;
    let played = tapeblocks::take_blocks(book, input, out);
    if let Err(Stop::End) = played {
        put_symbols(out, book, n);
    }
    played
}

// Each symbol in the order added, with its six entries. A page begins with its symbol.
fn put_symbols(out: &mut Output, book: &[u8], n: u8)
    requires { Memory n book.now }
{
    let (pages, _) = book[Book::OPENING_LEN..].as_chunks::<{ Book::PAGE_LEN }>();
    for page in &pages[..usize::from(n)] {
        let symbol = &page[..Symbol::LEN];
        let mut publication = [0u8; Book::PUBLICATION_LEN];
        // a symbol that is listed is not refused
        let _ = query::read(book, symbol, &mut publication);
        print::put_whole_symbol(out, symbol, &publication);
    }
}
