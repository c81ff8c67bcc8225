// Trying an order (document 02, T-13): step by step down a page's national candidates.
#![tactic(auto)]

ghost use Rattle.std.specs.Prelude.{◌≡◌, ◌+◌, ◌≤◌, ◌<◌, length};
ghost use Rattle.field.specs.Field.{splice};
ghost use Rattle.field.specs.Ascii as ascii;
ghost use Rattle.lists.specs.Lists.{bind_option, collect};
ghost use Rattle.ranking.specs.Ranking.{better, best};
ghost use Rattle.ranking.specs.Held.{or_none};
ghost use Rattle.ranking.specs.code.Choice.{live, choose};
ghost use Rattle.entries.specs.Entries.{finra_best, letters};
ghost use Rattle.page.specs.Page.{makers_in, occupied};
ghost use Rattle.page.specs.Layout.{page_length, maker_count};
ghost use Rattle.walk.specs.code.Walk.{maker_at};
ghost use Rattle.protection.specs.Protection.{page_candidates, page_trading};
ghost use Rattle.sweep.specs.Sweep.{step_bytes, step_length, steps_length};
ghost use Rattle.sweep.specs.code.Next.{follows, if_next, next_at, swept_out};

use page::{Cell, Letter, Page};
use ranking::{Candidate, Side};

/// The bytes of the steps: letter 1, price 8, lots 4 each.
#[derive(Clone, Copy)]
pub struct Steps {}

impl Steps {
    pub const PRICE: usize = 1;

    pub const LOTS: usize = 9;
    /// Bytes of a step.
    pub const STEP_LEN: usize = 13;
    /// Every letter but S.
    pub const MOST: usize = 25;

    pub const LEN: usize = Steps::MOST * Steps::STEP_LEN;
}

/// What an order gives: how many steps, and the lots not found.
#[derive(Clone, Copy, Debug, PartialEq, Eq)]
pub struct Swept {
    pub steps: u8,
    pub unfilled: u32,
}

// A maker's side. Of the conditions of makers only R counts.
fn maker_candidate(page: &[u8], k: usize, side: Side) -> Candidate
    requires page_len { length page.now ≡ page_length }
    requires k_lt_maker_count { k < maker_count }
    ensures { result ≡ or_none (maker_at page.now side k) }
{
    let at = page::cell_at(k);
    let quote = at + Cell::QUOTE;
    if field::get8(page, quote) == b'R' {
        return walk::quoted(page, quote, side, field::get32(page, at));
    }
    Candidate::NONE
}

// The FINRA best of a side.
fn finra_best(page: &[u8], side: Side) -> Candidate
    requires { length page.now ≡ page_length }
    ensures { result ≡ or_none (finra_best (occupied (makers_in page.now)) side) }
{
    let mut best = Candidate::NONE;
    for k in 0..Page::MAKERS {
        best = ranking::choose(side, best, maker_candidate(page, k, side));
    }
    best
}

// A letter's national candidate: D's is its FINRA best, S, the processor, has none, any other letter's is its quote.
fn letter_candidate(page: &[u8], letter: usize, side: Side, finra: Candidate) -> Candidate
    requires page_len { length page.now ≡ page_length }
    requires a_le_letter { (ascii.A ≤ letter) × (letter ≤ ascii.Z) }
    requires finra_value { finra ≡ or_none (finra_best (occupied (makers_in page.now)) side) }
    ensures { live result ≡ page_candidates page.now side letter }
{
    if letter == Letter::D {
        return walk::as_d(finra);
    }
    if letter == Letter::S {
        return Candidate::NONE;
    }
    slots::quoted(page, letter, side)
}

// Whether x stands behind the last candidate used. Behind none stands every one.
fn is_next(side: Side, last: Candidate, x: Candidate) -> bool
    ensures { result ≡ follows side last x }
{
    last.price == 0 || ranking::compare(side, last, x).ahead
}

// The better of the best so far and x, if x stands behind the last candidate used.
fn with_next(side: Side, last: Candidate, best: Candidate, x: Candidate) -> Candidate
    ensures { result ≡ choose side best (or_none (bind_option (live x) (if_next side last))) }
{
    if is_next(side, last, x) {
        return ranking::choose(side, best, x);
    }
    best
}

// The best candidate behind the last one used, none if there is none.
fn next(page: &[u8], side: Side, finra: Candidate, last: Candidate) -> Candidate
    requires page_len { length page.now ≡ page_length }
    requires finra_value { finra ≡ or_none (finra_best (occupied (makers_in page.now)) side) }
    ensures { result ≡ or_none (best (better side) (collect (next_at page.now side last) letters)) }
{
    let mut best = Candidate::NONE;
    for letter in Letter::A..Letter::Z + 1 {
        let x = letter_candidate(page, letter, side, finra);
        best = with_next(side, last, best, x);
    }
    best
}

fn put_step(out: &mut [u8], at: usize, c: Candidate, lots: u32)
    requires { at + step_length ≤ length out.old }
    ensures { out.new ≡ splice out.old at (step_bytes (record { letter = c.name; price = c.price; lots = lots })) }
{
    field::put8(out, at, (c.name % 256) as u8);
    field::put64(out, at + Steps::PRICE, c.price);
    field::put32(out, at + Steps::LOTS, lots);
}

// Plays an order of so many lots at a side of a page: each step takes from the best candidate not yet used as many lots as are wanted and shown, until none
// are wanted. No list of those used is kept: those not yet used stand behind the last one.
fn play_trading(page: &[u8], side: Side, lots: u32, out: &mut [u8]) -> Swept
    requires page_len { length page.now ≡ page_length }
    requires steps_length_in_bounds { steps_length ≤ length out.old }
    ensures { record { steps = result.steps; unfilled = result.unfilled; out = out.new } ≡ swept_out side lots (page_candidates page.now side) out.old }
{
    let finra = finra_best(page, side);
    let mut wanted = lots;
    let mut last = Candidate::NONE;
    for i in 0..Steps::MOST {
        if wanted == 0 {
            return Swept {
                steps: i as u8,
                unfilled: 0,
            };
        }
        let best = next(page, side, finra, last);
        if best.price == 0 {
            return Swept {
                steps: i as u8,
                unfilled: wanted,
            };
        }
        let taken = wanted.min(best.size);
        put_step(out, i * Steps::STEP_LEN, best, taken);
        wanted = wanted - taken;
        last = best;
    }
    Swept {
        steps: Steps::MOST as u8,
        unfilled: wanted,
    }
}

/// Plays an order of so many lots at a side of a page: while its symbol is halted nothing is filled (T-10), else step by step.
pub fn play(page: &[u8], side: Side, lots: u32, out: &mut [u8]) -> Swept
    requires page_len { length page.now ≡ page_length }
    requires steps_length_in_bounds { steps_length ≤ length out.old }
    ensures { record { steps = result.steps; unfilled = result.unfilled; out = out.new } ≡ swept_out side lots (page_trading page.now side) out.old }
{
    if page::is_halted(page) {
        return Swept {
            steps: 0,
            unfilled: lots,
        };
    }
    play_trading(page, side, lots, out)
}
