// A side of the exchange.
ghost use Rattle.std.specs.Prelude.{◌≡◌};
ghost use Rattle.sums.specs.Sides.{on_side};

#[derive(Clone, Copy)]
pub enum Side {
    Sales,
    Purchases,
}

impl Side {
    // A bid of this quantity is on this side: a withdrawn bid is a sale.
    pub fn has(self, quantity: i32) -> bool
        ensures { result ≡ on_side self quantity }
    {
        match self {
            Side::Sales => quantity <= 0,
            Side::Purchases => 0 < quantity,
        }
    }
}
