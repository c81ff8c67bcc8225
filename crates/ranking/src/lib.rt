// Which candidate is better, and what decided it.
#![tactic(auto)]

ghost use Rattle.std.specs.Prelude.{◌≡◌, true, false, nat_lt};
ghost use Rattle.ranking.specs.code.Choice.{rank_of, by_rest, by_rank, choose, beyond_of, lead_by, lead_with};

/// Bids or offers. Every definition, law and loop that serves both takes it as a parameter.
#[derive(Clone, Copy, Debug, PartialEq, Eq)]
pub enum Side {
    Bid,
    Offer,
}

/// What is ranked: a counting side of a quote, or an odd-lot level, under a name (a letter, or the four bytes of a maker).
/// Price 0 is none. The condition is carried along for the publication and is not ranked. It is wider than a byte, and the fields stand in this order,
/// so that no seven bytes are left over: such a rest is copied through memory with every candidate.
#[derive(Clone, Copy, Debug, PartialEq, Eq)]
pub struct Candidate {
    pub name: u32,
    pub condition: u32,
    pub price: u64,
    pub time: u64,
    pub size: u32,
}

impl Candidate {
    pub const NONE: Candidate = Candidate {
        name: 0,
        price: 0,
        size: 0,
        time: 0,
        condition: 0,
    };
}

/// The same of both sides: candidates, the best so far of each, or leaders.
#[derive(Clone, Copy, Debug, PartialEq, Eq)]
pub struct Sides<T> {
    pub bid: T,
    pub offer: T,
}

impl Sides<Candidate> {
    pub const NONE: Sides<Candidate> = Sides {
        bid: Candidate::NONE,
        offer: Candidate::NONE,
    };
}

/// Which of the four decided between two candidates: its number tells how late.
#[derive(Clone, Copy, Debug, PartialEq, Eq)]
pub enum Reason {
    Price = 1,
    Size,
    Time,
    Name,
}

/// The comparison of two candidates: whether the first is ahead, and by what.
// Not an enum of Ahead and Behind: both fields hold either way, and who asks for one would take both variants apart.
#[derive(Clone, Copy, Debug, PartialEq, Eq)]
pub struct Compared {
    pub ahead: bool,
    pub by: Reason,
}

/// The best so far and what put it ahead: how late its comparison with the second best was decided, 1 by price, 2 by size, 3 by time, 4 by name.
/// 0 if there is no second.
// A number and no Option<Reason>: the latest counts, so that it is compared with every loser's, and none is before all.
#[derive(Clone, Copy, Debug, PartialEq, Eq)]
pub struct Lead {
    pub best: Candidate,
    pub decided: u32,
}

impl Lead {
    pub const NONE: Lead = Lead {
        best: Candidate::NONE,
        decided: 0,
    };
}

impl Sides<Lead> {
    pub const NONE: Sides<Lead> = Sides {
        bid: Lead::NONE,
        offer: Lead::NONE,
    };
}

/// A price as a number of which the higher is better, on either side: of bids the price itself, of offers 2^64 less the price. None is 0.
pub fn rank(side: Side, price: u64) -> u64
    ensures { result ≡ rank_of side price }
{
    match side {
        Side::Bid => price,
        Side::Offer => std::num::wrapping_sub_u64(0, price),
    }
}

/// Whether a price ranks behind that of a candidate.
pub fn is_behind(side: Side, price: u64, best: Candidate) -> bool
    ensures { result ≡ nat_lt (rank_of side price) (rank_of side best.price) }
{
    rank(side, price) < rank(side, best.price)
}

// Ahead by a step, and behind. Each step asks for less and for more, and answers one of these two: with one answer worked out from both
// (`ahead: other < own`) an order took a third more time.
fn ahead_by(by: Reason) -> Compared
    ensures { result ≡ record { ahead = true; by = by } }
{
    Compared { ahead: true, by }
}

fn behind_by(by: Reason) -> Compared
    ensures { result ≡ record { ahead = false; by = by } }
{
    Compared { ahead: false, by }
}

// The comparison of x with a candidate of the same price: by larger size, earlier time, lower name.
fn by_rest(x: Candidate, best: Candidate) -> Compared
    ensures { result ≡ by_rest x best }
{
    if best.size < x.size {
        return ahead_by(Reason::Size);
    }
    if x.size < best.size {
        return behind_by(Reason::Size);
    }
    if x.time < best.time {
        return ahead_by(Reason::Time);
    }
    if best.time < x.time {
        return behind_by(Reason::Time);
    }
    Compared {
        ahead: x.name < best.name,
        by: Reason::Name,
    }
}

/// The comparison of two candidates. All who compare take its answer.
pub fn compare(side: Side, x: Candidate, best: Candidate) -> Compared
    ensures { result ≡ by_rank side x best }
{
    let own = rank(side, x.price);
    let other = rank(side, best.price);
    if own < other {
        return behind_by(Reason::Price);
    }
    if other < own {
        return ahead_by(Reason::Price);
    }
    by_rest(x, best)
}

/// The better of the best so far and x, which counts only if its price and size are above zero.
pub fn choose(side: Side, best: Candidate, x: Candidate) -> Candidate
    ensures { result ≡ choose side best x }
{
    if x.price == 0 || x.size == 0 {
        return best;
    }
    if compare(side, x, best).ahead {
        return x;
    }
    best
}

// x beside the leader. A new leader is ahead by its comparison with the old one; of the losers' comparisons the latest counts, so that no second best
// has to be kept.
fn lead_by(compared: Compared, lead: Lead, x: Candidate) -> Lead
    ensures { result ≡ lead_by compared lead x }
{
    let decided = compared.by as u32;
    if compared.ahead {
        return Lead { best: x, decided };
    }
    Lead {
        best: lead.best,
        decided: lead.decided.max(decided),
    }
}

/// The leader so far and one candidate more, which counts only if its price and size are above zero.
pub fn lead_with(side: Side, lead: Lead, next: Candidate) -> Lead
    ensures { result ≡ lead_with side lead next }
{
    if next.price == 0 || next.size == 0 {
        return lead;
    }
    if lead.best.price == 0 {
        return Lead {
            best: next,
            decided: 0,
        };
    }
    lead_by(compare(side, next, lead.best), lead, next)
}

/// x, if it is priced above the national bid or below the national offer, or there is none; else none.
pub fn beyond(side: Side, national: Candidate, x: Candidate) -> Candidate
    ensures { result ≡ beyond_of side national x }
{
    if is_behind(side, national.price, x) {
        return x;
    }
    Candidate::NONE
}
