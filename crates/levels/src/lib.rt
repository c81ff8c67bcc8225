// The odd-lot levels of one side, and what an item does to them.
#![tactic(auto)]

ghost use Rattle.std.specs.Prelude.{◌≡◌, true, false, cond, ◌+◌, ◌*◌, ◌≤◌, eqb, length};
ghost use Rattle.field.specs.Field.{part, splice};
ghost use Rattle.levels.specs.Levels.{side_in, item_at, item_length, side_length};
ghost use Rattle.levels.specs.code.Cells.{leads, standing, standing_behind, cells_of, joined_levels, ordered_of, kept_of, over_of, without_of, holds_of, replaced_of, with_item};

use numbers::Rejection;
use quote::Level;
use ranking::Side;

/// The levels of one side, best first, then empty cells.
#[derive(Clone, Copy)]
pub struct Levels {
    pub cells: [Level; 4],
}

/// One item of an odd part: the shares of a price, or zero shares to remove its level.
#[derive(Clone, Copy)]
pub struct Item {
    pub price: u64,
    pub shares: u32,
}

/// A rejected item: why, and the levels, which it left as they were.
#[derive(Clone, Copy)]
pub struct Rejected {
    pub by: Rejection,
    pub levels: Levels,
}

impl From<Rejected> for Rejection {
    ghost from_gives = { λ rejected rejection. rejection ≡ rejected.by };

    fn from(rejected: Rejected) -> Rejection {
        rejected.by
    }
}

// Two levels, the one that ranks first, then the other.
#[derive(Clone, Copy)]
struct Pair {
    first: Level,
    second: Level,
}

// The cells with a level put in, and what falls out behind the last.
#[derive(Clone, Copy)]
struct Inserted {
    levels: Levels,
    over: Level,
}

impl Item {
    /// Bytes of an item: price 8, shares 4.
    pub const LEN: usize = 12;

    const SHARES: usize = 8;

    /// Item i of the items' bytes.
    pub fn get(items: &[u8], i: usize) -> Item
        requires { item_length * i + item_length ≤ length items.now }
        ensures { result ≡ item_at items.now i }
    {
        let at = Item::LEN * i;
        let price = field::get64(items, at);
        let shares = field::get32(items, at + Item::SHARES);
        Item { price, shares }
    }
}

impl Levels {
    /// Bytes of one side: four cells.
    pub const LEN: usize = 4 * Level::LEN;
    /// No level stands.
    pub const EMPTY: Levels = Levels {
        cells: [Level::NONE; 4],
    };

    /// The levels that stand in the cells at `at`: the cells before the first one that is empty or does not rank strictly behind the one before it.
    pub fn read(page: &[u8], at: usize, side: Side) -> Levels
        requires { at + side_length ≤ length page.now }
        ensures { result.cells ≡ cells_of (side_in side (part page.now at side_length)) }
    {
        // four places of the format, each read against the one before it: a loop would count the same offsets
        let a = standing(Level::get(page, at));
        let b = standing_behind(side, a, Level::get(page, at + Level::LEN));
        let c = standing_behind(side, b, Level::get(page, at + 2 * Level::LEN));
        let d = standing_behind(side, c, Level::get(page, at + 3 * Level::LEN));
        let cells = [a, b, c, d];
        Levels { cells }
    }

    /// Writes all four cells into a page at `at`.
    pub fn put(self, page: &mut [u8], at: usize)
        requires { at + side_length ≤ length page.old }
        ensures { page.new ≡ splice page.old at (joined_levels self.cells) }
    {
        // four places of the format
        let [a, b, c, d] = self.cells;
        a.put(page, at);
        b.put(page, at + Level::LEN);
        c.put(page, at + 2 * Level::LEN);
        d.put(page, at + 3 * Level::LEN);
    }

    // The cells without that of a price: those behind it move up.
    fn without(self, price: u64) -> Levels
        ensures { result.cells ≡ without_of false price self.cells }
    {
        // written out: a cell takes the one behind it, and the last has none
        let c = self.cells;
        let g0 = is_gone(false, c[0].price, price);
        let g1 = is_gone(g0, c[1].price, price);
        let g2 = is_gone(g1, c[2].price, price);
        let g3 = is_gone(g2, c[3].price, price);
        let cells = [
            moved_up(g0, c[0], c[1]),
            moved_up(g1, c[1], c[2]),
            moved_up(g2, c[2], c[3]),
            moved_up(g3, c[3], Level::NONE),
        ];
        Levels { cells }
    }

    // Whether a level of a price stands.
    fn holds(self, price: u64) -> bool
        ensures { result ≡ holds_of price self.cells }
    {
        self.cells.iter().any(|level| level.price == price)
    }

    // The cells with x in place of the level of its price.
    fn replace(self, x: Level) -> Levels
        ensures { result.cells ≡ replaced_of x self.cells }
    {
        let mut cells = self.cells;
        for cell in cells.iter_mut() {
            if cell.price == x.price {
                *cell = x;
            }
        }
        Levels { cells }
    }

    // The cells with x put in at its rank: each is compared with what is carried, and what falls out is carried on.
    fn insert(self, side: Side, x: Level) -> Inserted
        ensures { (result.levels.cells ≡ kept_of side x self.cells) × (result.over ≡ over_of side x self.cells) }
    {
        let mut cells = self.cells;
        let mut over = x;
        for cell in cells.iter_mut() {
            let pair = ordered(side, over, *cell);
            *cell = pair.first;
            over = pair.second;
        }
        let levels = Levels { cells };
        Inserted { levels, over }
    }

    /// The levels with one item taken: zero shares remove the level of its price, a known price is replaced, another is added, or rejected with 64 where four stand.
    pub fn with_item(self, side: Side, item: Item, time: u64) -> Result<Levels, Rejected>
        ensures { result ≡ with_item side time item self }
    {
        if item.shares == 0 {
            return Ok(self.without(item.price));
        }
        let x = Level {
            price: item.price,
            size: item.shares,
            time,
        };
        if self.holds(item.price) {
            return Ok(self.replace(x));
        }
        let put = self.insert(side, x);
        if put.over.price == 0 {
            return Ok(put.levels);
        }
        let by = Rejection::FifthLevel;
        let levels = self;
        Err(Rejected { by, levels })
    }
}

// Whether the first price goes before the second. Price 0 is none, and goes last.
fn is_ahead(side: Side, first: u64, second: u64) -> bool
    ensures { result ≡ leads side first second }
{
    ranking::rank(side, second) < ranking::rank(side, first)
}

// A cell as a level: one with no price or no shares is none.
fn standing(cell: Level) -> Level
    ensures { result ≡ standing cell }
{
    if cell.price == 0 || cell.size == 0 {
        return Level::NONE;
    }
    cell
}

// The same for a cell behind another: it must rank strictly behind it.
fn standing_behind(side: Side, front: Level, cell: Level) -> Level
    ensures { result ≡ standing_behind side front cell }
{
    if is_ahead(side, front.price, cell.price) {
        return standing(cell);
    }
    Level::NONE
}

fn ordered(side: Side, x: Level, y: Level) -> Pair
    ensures { result ≡ ordered_of side x y }
{
    if is_ahead(side, x.price, y.price) {
        return Pair {
            first: x,
            second: y,
        };
    }
    Pair {
        first: y,
        second: x,
    }
}

// The level behind, if this one or one before it is gone.
fn moved_up(gone: bool, here: Level, behind: Level) -> Level
    ensures { result ≡ cond gone behind here }
{
    if gone {
        return behind;
    }
    here
}

fn is_gone(gone: bool, here: u64, price: u64) -> bool
    ensures { result ≡ cond gone true (eqb here price) }
{
    gone || here == price
}
