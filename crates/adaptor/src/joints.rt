mod joint;

ghost use Rattle.std.specs.Prelude.{◌≡◌, ◌+◌, ◌*◌, ◌^◌, ◌<◌, ◌≤◌, ◌+ℤ◌, ◌-ℤ◌, cond, MatchResult, unsigned_abs};
ghost use Rattle.wave.specs.Numbers.{largest_wave};
ghost use Rattle.wave.specs.Shortenings.{Shortens};
ghost use Rattle.wave.specs.Terms.{Reduced, largest_number};
ghost use Rattle.wave.specs.Refusals.{Past};
ghost use Rattle.adaptor.specs.Ways.{whole_num, whole_den};
ghost use Rattle.adaptor.specs.Joints.{Made, Refuses, join_row, fits, rising_exact, rising_over, exact_left, exact_right};
ghost use Rattle.adaptor.specs.declared.joints.JoinRefusal.TheVariants.{Number};

use crate::LAYER;
use crate::ways::Way;
pub use joint::Joint;
use port::{LARGEST_SIZE, Part, Port, Taken};
use told::{Tells, Told};
use wave::{Divisor, LARGEST_NUMBER, Ratio, RatioRefusal, Shortened, Wave, shorten};

/// Why two parts are not joined.
#[derive(Clone, Copy, Debug, PartialEq, Eq)]
pub enum JoinRefusal {
    /// A number of the ratio, or the total of the shares, is over `LARGEST_NUMBER`.
    Number,
    /// The sizes come to more than `LARGEST_SIZE`.
    Size,
    /// Both have ears.
    Ears,
}

impl Tells for JoinRefusal {
    ghost says = { join_row };

    fn told(&self) -> Told {
        let number = match self {
            JoinRefusal::Number => 14,
            JoinRefusal::Size | JoinRefusal::Ears => 16,
        };
        Told {
            layer: LAYER,
            number,
            place: 0,
        }
    }
}

impl From<RatioRefusal> for JoinRefusal {
    ghost from_gives = { λ _ r. r ≡ Number };

    fn from(_: RatioRefusal) -> JoinRefusal {
        JoinRefusal::Number
    }
}

// a b
// Kept: bounded products differ in their widths and bounds, which are what each states; one function over both would be longer.
fn product(a: u32, b: u32) -> u64
    requires { (0 < a) × (0 < b) × (a ≤ largest_number) × (b ≤ largest_number) }
    ensures value { result ≡ a * b }
    ensures above { 0 < result }
    ensures bound { result ≤ 2 ^ 62 }
{
    a as u64 * b as u64
}

// The shares of two parts.
fn shares_of(left: Ratio, right: Ratio) -> Result<Ratio, RatioRefusal>
    ensures { MatchResult result (λ q. Reduced (left.num * right.den) (right.num * left.den) q.num q.den) (λ _. Past (left.num * right.den) (right.num * left.den)) }
{
    Ratio::new(
        product(left.num(), right.den()),
        product(right.num(), left.den()),
    )
}

// The ratio of the whole.
fn whole_of(way: Way, left: Ratio, right: Ratio) -> Result<Ratio, RatioRefusal>
    ensures { MatchResult result (λ q. Reduced (whole_num way left.num left.den right.num right.den) (whole_den way left.num left.den right.num right.den) q.num q.den) (λ _. Past (whole_num way left.num left.den right.num right.den) (whole_den way left.num left.den right.num right.den)) }
{
    let all = product(left.num(), right.den()) + product(right.num(), left.den());
    match way {
        Way::Series => Ratio::new(product(left.num(), right.num()), all),
        Way::Parallel => Ratio::new(all, product(left.den(), right.den())),
    }
}

// f - r
fn less(f: Wave, r: Wave) -> i32
    ensures { result ≡ f.value -ℤ r.value }
{
    f.get() - r.get()
}

// f - (r - t)
fn moved(f: Wave, r: Wave, t: Wave) -> i32
    ensures { result ≡ f.value -ℤ (r.value -ℤ t.value) }
{
    f.get() - (r.get() - t.get())
}

// r + t
fn both(r: Wave, t: Wave) -> i64
    ensures { result ≡ r.value +ℤ t.value }
{
    r.get() as i64 + t.get() as i64
}

/// The three waves of a round, shortened: what rises from the whole, and what falls to the left and to the right.
#[derive(Clone, Copy, Debug, PartialEq, Eq)]
pub struct Round {
    pub up: Shortened,
    pub left: Shortened,
    pub right: Shortened,
}

impl Round {
    /// How many of the three were cut.
    fn cuts(&self) -> u32
        ensures { result ≡ cond self.now.up.cut 1 0 + cond self.now.left.cut 1 0 + cond self.now.right.cut 1 0 }
    {
        u32::from(self.up.cut) + u32::from(self.left.cut) + u32::from(self.right.cut)
    }

    /// What the two and the round come to. Of two ports no sum is past its type, so none stops at the end.
    pub fn gathered(&self, x: Taken, y: Taken) -> Taken
        ensures absorbed { x.absorbed + y.absorbed < 2 ^ 64 → result.absorbed ≡ x.absorbed + y.absorbed }
        ensures shortened { x.shortened + y.shortened < 2 ^ 31 → result.shortened ≡ x.shortened + y.shortened + (cond self.now.up.cut 1 0 + cond self.now.left.cut 1 0 + cond self.now.right.cut 1 0) }
        ensures heard { unsigned_abs x.heard ≤ largest_wave → unsigned_abs y.heard ≤ largest_wave → result.heard ≡ x.heard +ℤ y.heard }
    {
        Taken {
            absorbed: x.absorbed.saturating_add(y.absorbed),
            shortened: x
                .shortened
                .saturating_add(y.shortened)
                .saturating_add(self.cuts()),
            heard: x.heard.saturating_add(y.heard),
        }
    }
}

// Kept: what is done in each way is one equation a function, so a match shows both; a trait for two ways would tear them apart.
// Kept: f, r1 and r2 are the letters of the equations, and each port gives its own; a struct of them would only rename them.
impl Joint {
    pub fn new(way: Way, left: Part, right: Part) -> Result<Joint, JoinRefusal>
        ensures { MatchResult result (λ j. Made way left right j) (λ w. Refuses way left right w) }
    {
        let shares = shares_of(left.ratio, right.ratio)?;
        let total = shares.sum(1);
        if total.get() > LARGEST_NUMBER {
            return Err(JoinRefusal::Number);
        }
        let ratio = whole_of(way, left.ratio, right.ratio)?;
        if left.size + right.size > LARGEST_SIZE {
            return Err(JoinRefusal::Size);
        }
        if left.ears + right.ears > 1 {
            return Err(JoinRefusal::Ears);
        }
        Ok(Joint {
            way,
            left,
            right,
            ratio,
            shares,
            total,
        })
    }

    /// The two ports are such as the joint was made for.
    pub fn fits<P: Port, Q: Port>(&self, left: &P, right: &Q) -> bool
        ensures { result ≡ fits self.now (P.Port.reads left.now) (Q.Port.reads right.now) }
    {
        self.left.shows(left) & self.right.shows(right)
    }

    pub fn way(&self) -> Way
        ensures { result ≡ self.now.way }
    {
        self.way
    }

    pub fn ratio(&self) -> Ratio
        ensures { result ≡ self.now.ratio }
    {
        self.ratio
    }

    pub fn size(&self) -> u32
        ensures { result ≡ self.now.left.size + self.now.right.size }
    {
        self.left.size + self.right.size
    }

    pub fn ears(&self) -> u32
        ensures { result ≡ self.now.left.ears + self.now.right.ears }
    {
        self.left.ears + self.right.ears
    }

    /// What rises from the whole where r1 and r2 rise from the two.
    pub fn rising(&self, r1: Wave, r2: Wave) -> Shortened
        ensures { Shortens (rising_exact self.now r1.value r2.value) (rising_over self.now) result }
    {
        match self.way {
            Way::Series => shorten(both(r1, r2), Divisor::ONE),
            Way::Parallel => shorten(self.shares.mixed(r1.get(), r2.get()), self.total),
        }
    }

    // The exact wave that falls to the left, times the total.
    fn left_exact(&self, f: Wave, r1: Wave, r2: Wave) -> i64
        ensures { result ≡ exact_left self.now r1.value r2.value f.value }
    {
        match self.way {
            Way::Series => self.shares.mixed(r1.get(), less(f, r2)),
            Way::Parallel => self.shares.mixed(f.get(), moved(f, r1, r2)),
        }
    }

    // The exact wave that falls to the right, times the total.
    fn right_exact(&self, f: Wave, r1: Wave, r2: Wave) -> i64
        ensures { result ≡ exact_right self.now r1.value r2.value f.value }
    {
        match self.way {
            Way::Series => self.shares.mixed(less(f, r1), r2.get()),
            Way::Parallel => self.shares.mixed(moved(f, r2, r1), f.get()),
        }
    }

    /// The waves of a round: f falls on the whole, r1 and r2 rise from the two.
    pub fn round(&self, f: Wave, r1: Wave, r2: Wave) -> Round
        ensures rising { Shortens (rising_exact self.now r1.value r2.value) (rising_over self.now) result.up }
        ensures left { Shortens (exact_left self.now r1.value r2.value f.value) self.now.total.value result.left }
        ensures right { Shortens (exact_right self.now r1.value r2.value f.value) self.now.total.value result.right }
    {
        Round {
            up: self.rising(r1, r2),
            left: shorten(self.left_exact(f, r1, r2), self.total),
            right: shorten(self.right_exact(f, r1, r2), self.total),
        }
    }
}
