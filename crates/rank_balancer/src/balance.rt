//! Whether the ranks of an order are on the way to another bucket.
ghost use Rattle.std.specs.Prelude.{◌≡◌, ◌<◌, List, MatchResult};
ghost use Rattle.board.specs.Order.{Pair};
ghost use Rattle.rank_balancer.specs.Balance.{next_bucket, after_start, Agrees, IsInCircle, to_of};

/// The balance of an order. Buckets are 0, 1 and 2.
#[derive(Clone, Copy, PartialEq, Eq)]
pub enum Balance {
    /// All ranks are in this bucket.
    Idle(u8),
    /// All ranks are in one of these two, and `to` is the next one to `from` in the circle 0, 1, 2, 0.
    Moving { from: u8, to: u8 },
}

/// The balance is moving already.
#[derive(Clone, Copy, PartialEq, Eq)]
pub struct BalanceIs(pub Balance);

/// The next bucket in the circle 0, 1, 2, 0.
fn next_bucket(bucket: u8) -> u8
    requires { bucket < 3 }
    ensures { result ≡ next_bucket bucket }
{
    if bucket == 2 { 0 } else { bucket + 1 }
}

impl Balance {
    /// Goes from idle to moving. `BalanceIs` comes exactly where it is moving, with the balance as it is and stays.
    pub fn start(&mut self) -> Result<(), BalanceIs>
        requires { IsInCircle self.old }
        ensures { MatchResult result (λ _. after_start self.old ≡ Some self.new)
            (λ kept. (after_start self.old ≡ None) × (kept.0 ≡ self.old) × (self.new ≡ self.old)) }
    {
        match *self {
            Balance::Idle(from) => {
                let to = next_bucket(from);
                *self = Balance::Moving { from, to };
                Ok(())
            }
            Balance::Moving { .. } => Err(BalanceIs(*self)),
        }
    }

    /// The bucket of the first rank of an empty order: the idle one, or the one that the balance goes to.
    pub fn empty_bucket(&self) -> u8
        ensures bucket { result ≡ to_of self.now }
        ensures in_circle { (ps : List Pair) → Agrees ps self.now → result < 3 }
    {
        match *self {
            Balance::Idle(bucket) => bucket,
            Balance::Moving { to, .. } => to,
        }
    }
}
