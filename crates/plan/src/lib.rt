// The plan: the list of orders that clears every book of given counts; the list stands in specs/, what its run leaves in proofs/.
#![tactic(auto)]

// The families of cells, in their order on the sheet: inputs, results, then scratch.
#[derive(Clone, Copy, Debug, PartialEq, Eq)]
pub enum Family {
    // Each bid's pool, price, quantity and hundredths.
    Bids,
    // The capacity of each line, by its two ends.
    Capacities,
    // Each bid's accepted amount.
    Amounts,
    // The flow of each line, by the line's number.
    Flows,
    // Each pool's price, hundredths and presence.
    Prices,
    // What one block keeps for itself.
    Temporaries,
    // The number 0, in one cell that no order of the work writes.
    ZeroCells,
    // The number 1.
    Units,
    // The number 100.
    Hundreds,
    // The limit of the whole parts of prices.
    Shifts,
    // What a raised price and the margin of a bid that is not used up add up to.
    Tops,
    // Each pool's number in a book, from 1.
    PoolNumbers,
    // Each bid's side: 1 for a purchase, 0 for a sale.
    Sides,
    // Each bid's quantity without its sign.
    Sizes,
    // The whole part of each bid's price, raised so that it is not negative.
    RaisedWholes,
    // Each bid's price in hundredths, raised so.
    RaisedPrices,
    // Each raised price doubled.
    Doubles,
    // Each doubled price and the side.
    Keys,
    // Each doubled price and 1.
    Nexts,
    // Whether a bid is in a pool, as 1 or 0.
    Memberships,
    // A bid's size in a pool, 0 if it is in another.
    PoolSizes,
    // The sizes of each pool's purchases.
    Demands,
    // A sum over each set of pools, one sum after another.
    Subsets,
    // The most that can be used in each set of pools.
    Cuts,
    // The sizes in a pool of the bids before a bid.
    SizesBefore,
    // The most that can be used of the bids before a bid.
    RanksBefore,
    // The sizes in a pool of the bids before a bid, and its own.
    SizesWith,
    // The most that can be used of the bids before a bid and of itself.
    RanksWith,
    // Each bid's used amount.
    Uses,
    // What is used in each pool.
    Placements,
    // What each set of pools could still take.
    Slacks,
    // Whether a set of pools has slack, as 1 or 0.
    SlackTests,
    // Whether the pool where a line begins reaches the pool where it ends, as 1 or 0.
    ReachTests,
    // The limit of prices in hundredths and 1, less each bid's price; 0 for a bid that is used up, which no margin is otherwise.
    Margins,
    // The greatest margin in each pool.
    PoolMargins,
    // The greatest margin in the pools that reach each pool.
    BestMargins,
    // Whether a bid has a pool's best margin, and so its price if the pool has one, as 1 or 0.
    PriceTests,
    // The whole part, raised, of each pool's price, if it has one.
    PoolWholes,
}

impl Family {
    // How many families there are.
    pub const COUNT: usize = 38;

    // The families, each at its number.
    pub const ALL: [Family; Family::COUNT] = [
        Family::Bids,
        Family::Capacities,
        Family::Amounts,
        Family::Flows,
        Family::Prices,
        Family::Temporaries,
        Family::ZeroCells,
        Family::Units,
        Family::Hundreds,
        Family::Shifts,
        Family::Tops,
        Family::PoolNumbers,
        Family::Sides,
        Family::Sizes,
        Family::RaisedWholes,
        Family::RaisedPrices,
        Family::Doubles,
        Family::Keys,
        Family::Nexts,
        Family::Memberships,
        Family::PoolSizes,
        Family::Demands,
        Family::Subsets,
        Family::Cuts,
        Family::SizesBefore,
        Family::RanksBefore,
        Family::SizesWith,
        Family::RanksWith,
        Family::Uses,
        Family::Placements,
        Family::Slacks,
        Family::SlackTests,
        Family::ReachTests,
        Family::Margins,
        Family::PoolMargins,
        Family::BestMargins,
        Family::PriceTests,
        Family::PoolWholes,
    ];
}

// A family's place on the sheet: its number there, and how many rows and columns it has. No names, so that a family is one line of `family_place`.
#[derive(Clone, Copy)]
pub struct Place(pub usize, pub usize, pub usize);
